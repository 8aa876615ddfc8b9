//! The tests of vectors: of pushes, changes and cuts, of joins, of edits in place, of the sums that rows keep, and of equality.
#![tactic(auto)]

#[cfg(test)]
mod editing;
#[cfg(test)]
mod edits;
#[cfg(test)]
mod equality;
#[cfg(test)]
mod joins;
#[cfg(test)]
mod same_root;
#[cfg(test)]
mod samples;
#[cfg(test)]
mod sums;
#[cfg(test)]
mod vectors;
#[cfg(test)]
mod versions;
