//! A counted heap of rows.
//!
//! A row is a cell with a value, or a node with a head and up to 32 links to other rows. A link stays valid as long as
//! its row has an owner: a hold of a caller, or a place in another row. Rows are made of spares, which `reserve` takes,
//! so that no other call needs memory, and a row that loses its last owner is a spare again.
#![tactic(auto)]

mod entry;
mod glass;
mod heap;
mod laws;
mod lists;
mod nodes;
mod owner;
mod pairs;
mod rooms;
mod row;
mod rows;
mod sets;
mod slot_kinds;
mod table;
mod tags;
mod tries;

pub use entry::RowLinks;
pub use glass::{Glass, Steps};
pub use heap::Heap;
pub use laws::{
    alone_rows_stay, changes_add_up, changes_keep_the_rest, edits_by_an_owner, gains_add_up,
    owned_rows_keep_off, rows_are_owned, rows_come_and_go, unfolds_to_one_tree,
};
pub use owner::{Owner, own_root, root_of};
pub use row::{Head, Kind, Link, MOST_HEIGHT, Sums, TrieRef};
