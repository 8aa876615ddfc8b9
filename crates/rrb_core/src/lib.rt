//! Vectors as relaxed radix trees in a counted heap, with push, set, take and look-ups that share rows.
//!
//! A vector is named by the link of its root. A leaf, at height 0, has 0 to 32 links to elements, and an inner row 1 to 32
//! links to rows one height below. Every child of an inner row but the last is thick: it has 16 links or more, and so have
//! all rows below it. An inner root has two links or more. A child of an inner row of height h is full where it has 32^h
//! elements. An inner row whose children but the last are full keeps no sums, and every other one keeps the running sums of
//! its children's lengths.
#![tactic(auto)]

mod build;
mod cut;
mod flex;
mod grow;
mod laws;
mod lines;
mod replace;
mod rows;
mod search;

pub use build::{vector_nodes, vector_of, vector_of_spares};
pub use cut::{TAKE_NODES, take};
pub use flex::{Flex, FlexRef};
pub use grow::{PUSH_NODES, PushFault, push, spine};
pub use laws::{same_row_is_as_good, same_vectors_follow, vectors_of_vectors_stay, vectors_stay};
pub use lines::Lines;
pub use replace::{SET_NODES, SetFault, set};
pub use rows::{
    Gathered, ROW_LINKS, full_size, gathered, height_of, inner_over, leaf_over, size, sums_of,
    sums_over,
};
pub use search::{IndexSpot, only_element, spot_of};
