//! The roots of a space, and the heap that they stand in.

ghost use Rattle.std.specs.Prelude.{◌≡◌, MatchOption};
ghost use Rattle.space_state.specs.declared.roots.Batch.TheVariants.{Closed, Open};

use elem_core::Text;
use node_heap::{Heap, Link};
use std::alloc::Global;

/// Whether a batch is open, and then the state that it began with.
#[derive(Clone, Copy)]
pub(crate) enum Batch {
    Closed,
    Open(Link),
}

impl Batch {
    /// The state that the batch began with, if one is open.
    pub(crate) fn base(&self) -> Option<Link>
        ensures { MatchOption result (self.now ≡ Closed) (λ l. self.now ≡ Open l) }
    {
        match self {
            Batch::Closed => None,
            Batch::Open(base) => Some(*base),
        }
    }
}

/// The links by which a space holds its rows: state rows for the current state and for a batch's base, a map of
/// versions, and two vectors of state rows. Each is held once.
#[derive(Clone, Copy)]
pub(crate) struct Roots {
    pub(crate) current: Link,
    pub(crate) versions: Link,
    pub(crate) undo: Link,
    pub(crate) redo: Link,
    pub(crate) batch: Batch,
}

/// A heap with the roots that are all that is held in it, by so many bits of the names' codes. Undo keeps so many states.
#[derive(Drop)]
pub(crate) struct RootedHeap {
    pub(crate) alloc: Global,
    pub(crate) heap: Heap<Text>,
    pub(crate) bits: u32,
    pub(crate) history: u32,
    pub(crate) roots: Roots,
}
