//! The owner of a root that is edited in place.
ghost use Rattle.std.specs.Prelude.{◌≡◌, ◌+◌, ◌<◌, ◌≤◌};
ghost use Rattle.node_heap.specs.Forms.{is_node};
ghost use Rattle.node_heap.specs.Heap.{row_at};
ghost use Rattle.node_heap.specs.Calls.{Gains};
ghost use Rattle.node_heap.specs.Owner.{owned};
ghost use Rattle.node_heap.specs.Root.{CanOwn, OwnsRoot};

use crate::heap::Heap;
use crate::row::Link;

/// An owner of a root: a hold, or a place in a row with one owner.
#[derive(Clone, Copy)]
pub enum Owner {
    /// A hold of this root.
    Hold(Link),
    /// The place at an index of this row.
    Child(Link, usize),
}

/// The root that is owned so.
#[inline]
pub fn root_of<T>(heap: &Heap<T>, owner: &Owner) -> Link
    requires owner { CanOwn heap.now owner.now }
    ensures { result ≡ owned heap.now owner.now }
{
    match *owner {
        Owner::Hold(root) => root,
        Owner::Child(parent, index) => heap.links(parent)[index],
    }
}

/// Makes the root its owner's own: it is the root itself where that has one owner, and else a copy, made of a spare.
#[inline]
pub fn own_root<T>(heap: &mut Heap<T>, owner: &Owner) -> Link
    requires owner { CanOwn heap.old owner.now }
    requires node { is_node (row_at heap.old (owned heap.old owner.now)) ≡ 1 }
    requires spare { 0 < heap.old.spare_nodes }
    ensures owns { OwnsRoot owner.now heap.old heap.new result }
    ensures gains { Gains heap.old heap.new }
    ensures spares { (heap.old.spare_cells ≤ heap.new.spare_cells) × (heap.old.spare_nodes ≤ heap.new.spare_nodes + 1) }
{
    heap.rows_form_a_graph();
    match *owner {
        Owner::Hold(root) => heap.own(root),
        Owner::Child(parent, index) => heap.own_child(parent, index),
    }
}
