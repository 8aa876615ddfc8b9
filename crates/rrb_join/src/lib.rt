//! Vectors joined and cut: `concat`, `drop_front`, `slice`, `insert` and `erase`, which make rows along the seam or the cut
//! alone.
//!
//! Two rows of one height are joined along the seam, the right edge of the left one and the left edge of the right one.
//! Where the two rows at the seam, and those at each height below them, can stand side by side, they stay as they are. Else
//! their links are put into one row, or evenly into two, of which the first is thick. So every row but a last one stays
//! thick. The cost is that of the height, whatever the lengths.
#![tactic(auto)]

mod cutting;
mod inserting;
mod joining;
mod over;
mod rests;

pub use cutting::{SliceFault, drop_front, erase, slice};
pub use inserting::{InsertFault, insert};
pub use joining::{JoinFault, SEAM_NODES, concat};
