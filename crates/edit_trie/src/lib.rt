//! Maps and sets edited in place: of the rows on the way to a key each one is written that has one owner, as long as all rows above
//! it have one owner too, and each other one is copied.
//!
//! A map is edited by an owner of its root: by a hold, which a `TrieEdit` has, or by its place in another row, which itself
//! has one owner (`insert_at`, `own_value_at`, and `own_value_there` for a key that is there). A set is edited by a hold,
//! which a `SetEdit` has.
#![tactic(auto)]

mod chain;
mod cut;
mod edit;
mod in_row;
mod laws;
mod lone;
mod own_pair;
mod owned_map;
mod owner;
mod put;
mod row;
mod set;
mod way;

pub use edit::{MapOpenFault, TrieEdit};
pub use in_row::{insert_at, own_value_at, own_value_there};
pub use laws::{edits_keep_values, paths_of_small_tries};
pub use own_pair::OWN_NODES;
pub use set::SetEdit;
