//! The tests of chains, tries, maps and sets, of the equality of maps and of sets, and of their merges.
#![tactic(auto)]

#[cfg(test)]
mod chains;
#[cfg(test)]
mod equality;
#[cfg(test)]
mod map_editing;
#[cfg(test)]
mod map_edits;
#[cfg(test)]
mod map_placed;
#[cfg(test)]
mod map_versions;
#[cfg(test)]
mod maps;
#[cfg(test)]
mod merges;
#[cfg(test)]
mod samples;
#[cfg(test)]
mod set_versions;
#[cfg(test)]
mod sets;
#[cfg(test)]
mod shapes;
#[cfg(test)]
mod trie_versions;
#[cfg(test)]
mod tries;
