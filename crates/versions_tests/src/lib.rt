//! The tests of stores of lists, of sets and of maps by their versions.
#![tactic(auto)]

#[cfg(test)]
mod lists;
#[cfg(test)]
mod maps;
#[cfg(test)]
mod number;
#[cfg(test)]
mod pools;
#[cfg(test)]
mod samples;
#[cfg(test)]
mod sets;
#[cfg(test)]
mod total;
