//! Stores of versions that own their heap. A version is a small handle, and contracts see the value of each version that is
//! held: the lists of a `Lists`, the keys of the sets of a `Sets`, and the entries of the maps of a `Maps`.
//!
//! A call that changes makes a new version, or, of a call `_here`, edits a version itself; every other version is as it was.
#![tactic(auto)]

mod bound;
mod bound_here;
mod entries;
mod equal;
mod faults;
mod history;
mod in_place;
mod items;
mod keyed;
mod keyed_here;
mod keys;
mod limits;
mod lists;
mod making;
mod maps;
mod merging;
mod parts;
mod piece;
mod roots;
mod sets;

pub use entries::Entries;
pub use faults::{Fault, Refused};
pub use history::History;
pub use items::Items;
pub use keys::Keys;
pub use lists::Lists;
pub use maps::Maps;
pub use piece::Piece;
pub use roots::{Handles, MOST_VERSIONS, Version};
pub use sets::Sets;
