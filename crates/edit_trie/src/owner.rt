//! The root of a map made its owner's own.
ghost use Rattle.std.specs.Prelude.{◌≡◌, ◌+◌, ◌≤◌, IfOk, OnErr, IsOk};
ghost use Rattle.node_heap.specs.Forms.{is_node};
ghost use Rattle.node_heap.specs.Heap.{row_at, HasSpares};
ghost use Rattle.node_heap.specs.Owner.{owned};
ghost use Rattle.node_heap.specs.Root.{CanOwn, OwnsRoot};
ghost use Rattle.edit_trie.specs.Room.{MakesOfRoom};

use elem_core::NoMemory;
use node_heap::{Heap, Link, Owner, own_root};

// Makes the root its owner's own, with room for so many cells and nodes beside, of which one may be the root's copy. It refuses
// before anything has changed.
#[inline]
pub(crate) fn reserved_root<T>(
    heap: &mut Heap<T>,
    owner: &Owner,
    cells: usize,
    nodes: usize,
) -> Result<Link, NoMemory>
    requires owner { CanOwn heap.old owner.now }
    requires node { is_node (row_at heap.old (owned heap.old owner.now)) ≡ 1 }
    requires some { 1 ≤ nodes }
    ensures owns { IfOk result (λ root. OwnsRoot owner.now heap.old heap.new root) }
    ensures spares { IfOk result (λ _. (cells ≤ heap.new.spare_cells) × (nodes ≤ heap.new.spare_nodes + 1)) }
    ensures makes { IfOk result (λ _. MakesOfRoom cells nodes heap.old heap.new) }
    ensures refused { OnErr result (heap.new ≡ heap.old) }
    ensures ample { HasSpares heap.old cells nodes → IsOk result }
{
    heap.reserve(cells, nodes)?;
    Ok(own_root(heap, owner))
}
