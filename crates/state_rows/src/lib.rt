//! The rows of a space: lines by their names, states, versions and histories, in a heap of texts.
//!
//! A state row has two links: a map from the names of buffers to vectors of cells, and the set of the names that are
//! starred. Versions are a map from names to state rows, and a history is a vector of state rows. Histories are edited in
//! place, and so are the lines of a state's buffers; each other call that makes something makes new rows and shares the
//! others. All ask for the spares that they take, so that they want no memory.
#![tactic(auto)]

mod edited_states;
mod fill;
mod histories;
mod laws;
mod list;
mod look_up;
mod make;
mod merge;
mod row;
mod start;

pub use edited_states::{
    BUFFER_MADE_NODES, LINE_ADDED_NODES, LINE_SET_NODES, LINES_PUT_NODES, buffer_made, line_added,
    line_set, lines_put,
};
pub use fill::filled;
pub use histories::{
    CUT_NODES, EMPTIED_NODES, POPPED_NODES, PUSHED_NODES, SHORTENED_NODES, emptied, popped, pushed,
    shortened,
};
pub use laws::{
    one_workspace, pools_stand, roots_stand, states_stay, valid_pools_stand, worked_spaces,
};
pub use list::{marks, names, stars, totals};
pub use look_up::{FoundBuffer, buffer, find_buffer, is_starred, stars_alike};
pub use make::{with_star, with_version, without_lines, without_star, without_version};
pub use merge::{Merging, Stars, merge_need, merged};
pub use start::{empty_history, empty_state, empty_versions};
