//! Stores of lists, of sets and of maps, written to documents of their own and read back: the versions by their numbers, and each row once,
//! however many versions share it.
#![tactic(auto)]

mod apart;
mod document;
mod laws;
mod lists;
mod loading;
mod maps;
mod saving;
mod sets;
mod slots;

pub use document::STORE_VERSION;
pub use laws::{documents_read_back, worked_lists, worked_maps, worked_sets};
pub use lists::{lists_after_save, load_lists, save_lists};
pub use maps::{load_maps, maps_after_save, save_maps};
pub use sets::{load_sets, save_sets, sets_after_save};
