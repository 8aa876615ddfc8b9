//! Pools with their lines changed: a handed-in function is applied to a pool once for each cell that is a line, so that what is
//! shared stays shared.
#![tactic(auto)]

mod change;
mod fault;
mod laws;
mod mapping;
mod spaces;

pub use change::Change;
pub use fault::ChangeFault;
pub use laws::{
    dedent_keeps_lines, indent_needs_room, lines_are_of_states, mapped_is_valid,
    mapped_keeps_lines, mapped_stands, worked_maps,
};
pub use mapping::{few_line_cells, map_cells};
pub use spaces::{Dedent, Indent, dedented, indented};
