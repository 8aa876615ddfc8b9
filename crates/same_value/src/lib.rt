//! Whether two vectors, maps, sets or states of one heap have the same in them.
//!
//! Equal links end a walk at once. Two tries are compared row by row: a set of entries has one trie, so tries of equal
//! sets have equal rows. Two vectors may be cut otherwise: they are compared from the first element to the last, and a row
//! that begins at the same place in both is passed over whole. Nothing here takes memory.
#![tactic(auto)]

mod cells;
mod chains;
mod compare;
mod entries;
mod maps;
mod places;
mod states;
mod tries;
mod values;
mod vectors;

pub use maps::{equal_cells, equal_map, equal_set};
pub use states::equal_state;
pub use values::Values;
pub use vectors::equal_vec;
