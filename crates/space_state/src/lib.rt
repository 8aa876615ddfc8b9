//! The space: buffers of lines, stars, versions, undo, redo and batches, over one heap of shared rows.
#![tactic(auto)]

mod batches;
mod buffers;
mod edits;
mod filled_buffers;
mod line_edits;
mod lines;
mod merges;
mod new_space;
mod placed_lines;
mod pool;
mod questions;
mod room;
mod roots;
mod same;
mod space;
mod stars;
mod undo_end;
mod undo_redo;
mod versions;

pub use lines::SpaceLines;
pub use plain_space::{Edit, Refusal};
pub use space::Space;
