//! A new space.
ghost use Rattle.std.specs.Prelude.{◌≡◌, ◌≤◌, [], IfOk};
ghost use Rattle.elem_core.specs.declared.codes.TheConstants.{CODE_BITS};
ghost use Rattle.node_heap.specs.Heap.{live_count};
ghost use Rattle.plain_space.specs.Workspace.{start, most};
ghost use Rattle.space_state.specs.Roots.{Keeps};
ghost use Rattle.space_state.specs.View.{room_of};

use crate::roots::{Batch, RootedHeap, Roots};
use elem_core::NoMemory;
use node_heap::Heap;
use pool_text::MOST_HISTORY;
use state_rows::{empty_history, empty_state, empty_versions};
use std::alloc::Global;

// The rows that a space begins with.
const START_NODES: usize = 6;

impl RootedHeap {
    /// The heap of a space without buffers, stars and versions.
    pub(crate) fn start(alloc: Global, bits: u32) -> Result<RootedHeap, NoMemory>
        requires { bits ≤ CODE_BITS }
        ensures keeps { IfOk result (λ s. Keeps s [] start) }
        ensures bits { IfOk result (λ s. s.bits ≡ bits) }
        ensures history { IfOk result (λ s. s.history ≡ most) }
        ensures rows { IfOk result (λ s. live_count s.heap ≡ START_NODES) }
        ensures made { IfOk result (λ s. s.heap.made ≡ START_NODES) }
        ensures room { IfOk result (λ s. room_of s.heap ≡ record { cells = 0; nodes = START_NODES }) }
    {
        let mut heap = Heap::new(alloc);
        heap.reserve(0, START_NODES)?;
        let current = empty_state(&mut heap, bits);
        let versions = empty_versions(&mut heap, bits).into_root();
        let undo = empty_history(&mut heap).into_root();
        let redo = empty_history(&mut heap).into_root();
        let roots = Roots {
            current,
            versions,
            undo,
            redo,
            batch: Batch::Closed,
        };
        Ok(RootedHeap {
            alloc,
            heap,
            bits,
            history: MOST_HISTORY,
            roots,
        })
    }
}
