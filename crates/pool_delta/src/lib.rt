//! Partial documents: what a pool has more than a chain of documents, and the pool that a chain stands for.
#![tactic(auto)]

mod chain;
mod delta;
mod free;
mod laws;
mod part;

pub use chain::{Chain, chain_checked, chain_more, chain_pool, chain_start};
pub use delta::delta_bytes;
pub use laws::{
    chains_stand, delta_goes_on, delta_stands, deltas_are_undamaged, parts_read_back,
    saved_chains_stand, worked_chains, worked_parts,
};
