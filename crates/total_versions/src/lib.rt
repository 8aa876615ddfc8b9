//! The calls of `versions` without a condition to meet: a version that isn't held is an answer, as want of memory is.
//!
//! A call answers the number of the version that it made or edited, or what was asked for, and else why it did nothing.
#![tactic(auto)]

mod answers;
pub mod lists;
pub mod maps;
pub mod sets;

pub use answers::Refusal;
