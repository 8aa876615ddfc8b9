//! The shapes of rows, and of the trees below them.
ghost use Rattle.std.specs.Prelude.{IsSome};
ghost use Rattle.node_heap.specs.Heap.{row_at};

use elem_core::Element;
use node_heap::{Head, Heap, Link};

/// What a row is, beside its links and its value.
#[derive(Clone, Copy, PartialEq)]
pub enum RowShape {
    Cell,
    Trie { depth: u8, entries: u32, nodes: u32 },
    Chain,
    Pair,
    Other,
}

/// What this row is.
pub fn shape_of<T>(heap: &Heap<T>, link: Link) -> RowShape
    requires { IsSome (row_at heap.now link) }
{
    match heap.head(link) {
        None => RowShape::Cell,
        Some(
            Head::Trie {
                depth,
                entries,
                nodes,
            },
        ) => RowShape::Trie {
            depth: *depth,
            entries: *entries,
            nodes: *nodes,
        },
        Some(Head::Chain) => RowShape::Chain,
        Some(Head::Pair) => RowShape::Pair,
        Some(_) => RowShape::Other,
    }
}

/// What stands so many links down, by the last link of each row.
pub fn shape_below<T>(heap: &Heap<T>, link: Link, levels: u32) -> Option<RowShape>
    requires { IsSome (row_at heap.now link) }
{
    if levels == 0 {
        return Some(shape_of(heap, link));
    }
    let last = heap.links(link).last()?;
    shape_below(heap, *last, levels - 1)
}

/// Whether two links have equal trees, of so many levels at most.
pub fn same_tree<T: Element>(heap: &Heap<T>, left: Link, right: Link, levels: u32) -> bool
    requires left { IsSome (row_at heap.now left) }
    requires right { IsSome (row_at heap.now right) }
{
    if levels == 0
        || shape_of(heap, left) != shape_of(heap, right)
        || heap.value(left) != heap.value(right)
    {
        return false;
    }
    let ours = heap.links(left);
    let theirs = heap.links(right);
    if ours.len() != theirs.len() {
        return false;
    }
    for place in 0..ours.len() {
        if !same_tree(heap, ours[place], theirs[place], levels - 1) {
            return false;
        }
    }
    true
}
