//! Lists, sets and maps of numbers and of texts, by their versions, for a program that is not Rattle.
//!
//! Each function is an export of a static library, for every version and every value. What a caller has to see to is of handles and
//! pointers alone: `README.md` lists it. A call answers 0, or why it did nothing, by the code of a `Refusal`.
#![tactic(auto)]

mod answers;
mod fill;
mod form;
mod handle;
mod lists;
mod loose;
mod maps;
mod sets;
mod store;
mod stores;
mod value;
