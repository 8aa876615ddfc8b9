//! The tests of pools: of their order, their documents, what is wrong with one, the rows that one is loaded as, and their lines
//! changed.
#![tactic(auto)]

#[cfg(test)]
mod carried;
#[cfg(test)]
mod chains;
#[cfg(test)]
mod documents;
#[cfg(test)]
mod loads;
#[cfg(test)]
mod maps;
#[cfg(test)]
mod orders;
#[cfg(test)]
mod pools;
#[cfg(test)]
mod roots;
