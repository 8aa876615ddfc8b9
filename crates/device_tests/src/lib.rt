//! The tests of devices: of the readers that cut streams and files into lines, of streams and of stores, and of what fails amid
//! them.
#![tactic(auto)]

#[cfg(test)]
mod failing;
#[cfg(test)]
mod readers;
#[cfg(test)]
mod stores;
#[cfg(test)]
mod streams;
