//! Maps and sets over tries.
//!
//! A map's entries are pairs of a key cell and a value, a set's are the key cells. A map or a set owns one hold of its root
//! and is never changed: an edit gives a new one, which shares what it can. Each goes by some number of the low bits of the
//! keys' codes.
#![tactic(auto)]

mod fault;
mod laws;
mod map;
mod root;
mod set;

pub use champ_trie::Entries;
pub use fault::MapFault;
pub use laws::{containers_stay, maps_follow_contents, sets_follow_contents};
pub use map::{INSERT_NODES, Map, MapRef, Maps, map_insert, map_insert_there, map_remove};
pub use root::{RootRef, Rooted};
pub use set::{Set, SetRef, Sets, set_insert, set_remove};
