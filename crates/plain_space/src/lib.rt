//! What the commands of the shell mean on a plain workspace: finite maps and lists, with no memory to run out of. The
//! space over a heap is proved to answer as these definitions say.
#![tactic(auto)]

mod edit;
pub mod laws;
mod refusal;
pub mod worked;

pub use edit::Edit;
pub use refusal::Refusal;

/// The most partial documents in a chain.
pub const MOST_PARTS: u32 = 64;

/// The most spaces by which lines are moved.
pub const MOST_SPACES: u32 = 80;
