//! Vectors edited in place: of the rows from the root down to the edit each one is written that has one owner, as long as all
//! rows above it have one owner too, and each other one is copied.
//!
//! A vector is edited by an owner of its root: by a hold, which a `FlexEdit` has, or by its place in another row, which
//! itself has one owner (`set_at`, `push_at`).
#![tactic(auto)]

mod edit;
mod laws;
mod pop;
mod push;
mod set;
mod sums;

pub use edit::{FlexEdit, OpenFault};
pub use laws::{edits_keep_elements, paths_of_small_vectors};
pub use pop::{POP_NODES, pop_held};
pub use push::{push_at, push_held, push_there};
pub use set::{set_at, set_there};
