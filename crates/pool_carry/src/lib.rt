//! Pools of older documents, carried over to the rules by which pools are made.
//!
//! Each row that is none of a trie has an image of its own, so that what was one stays one and what was apart stays apart. The
//! tries are made anew of the same entries, by the codes and to the depths of the new rules, and rows of tries that are equal
//! are one row.
#![tactic(auto)]

mod carrying;
mod entries;
mod laws;
mod made;
mod sets_and_links;
mod shared_parts;
mod tries;

pub use carrying::carry;
pub use laws::{
    carried_is_kept, carried_is_one, carried_is_valid, carried_keeps_identities, carried_pools,
    carried_stands, pools_are_carried,
};
