//! Rows of a heap made from a checked pool: the way back from a document.
//!
//! Each row of the pool becomes one new row, so that what was shared is shared again and what was apart stays apart, and no row
//! that was there is looked at. All memory is taken before the first row is made.
#![tactic(auto)]

mod laws;
mod lengths;
mod loading;
mod rows;
mod values;

pub use laws::{
    loaded_roots_are_of_kinds, loaded_roots_fit, loaded_roots_have_rows, loaded_rows_are_listed,
    loaded_tries_are_good, loaded_vectors_are_good,
};
pub use loading::{load, load_roots, load_roots_by};
pub use values::{CellValues, OwnValues};
