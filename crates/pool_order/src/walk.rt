//! The walk that lists an order.
ghost use Rattle.std.specs.Prelude.{◌≡◌, ℕ, ◌<◌, length, IsSome, IfOk};
ghost use Rattle.node_heap.specs.Links.{count};
ghost use Rattle.node_heap.specs.Heap.{row_at, links_at, IsGraph};
ghost use Rattle.pool_order.specs.Order.{places, with_all_new, order_of};
ghost use Rattle.pool_order.specs.Laws.{IsReady, IsOrder};

use crate::listed::Order;
use elem_core::NoMemory;
use indexmap::IndexSet;
use node_heap::{Heap, Link};
use std::alloc::Global;

/// The order of these roots: what they reach, each row once, at its first place, and after the rows that it leads to. It
/// takes time and memory for the rows that are reached and their links, and none for what was walked before.
pub fn order<T>(alloc: Global, heap: &Heap<T>, roots: &[Link]) -> Result<Order, NoMemory>
    requires live { (l : ℕ) → 0 < count l roots.now → IsSome (row_at heap.now l) }
    ensures value { IfOk result (λ ks. ks ≡ order_of heap.now roots.now) }
    ensures is_order { IfOk result (λ ks. IsOrder (links_at heap.now) roots.now ks) }
{
    heap.rows_form_a_graph();
    let mut seen = IndexSet::new(alloc);
    for root in roots {
        walk(alloc, heap, *root, &mut seen)?;
    }
    Ok(Order { links: seen })
}

/// A row that is being walked, by its link or by its place in a list, and which of its links comes next.
#[derive(Clone, Copy, Drop)]
pub struct Visit<L> {
    /// What names the row.
    pub link: L,
    /// The index of the row's next link.
    pub next: usize,
}

// Lists what the root reaches and is not listed yet.
fn walk<T>(
    alloc: Global,
    heap: &Heap<T>,
    root: Link,
    seen: &mut IndexSet<Link>,
) -> Result<(), NoMemory>
    requires graph { IsGraph heap.now }
    requires live { IsSome (row_at heap.now root) }
    requires ready { IsReady (links_at heap.now) seen.old.keys }
    ensures { IfOk result (λ _. seen.new.keys ≡ with_all_new seen.old.keys (places (length heap.now.rows) (links_at heap.now) root)) }
{
    let mut stack = Vec::new(alloc);
    stack.push(Visit {
        link: root,
        next: 0,
    })?;
    while let Some(visit) = stack.pop() {
        let links = heap.links(visit.link);
        if visit.next < links.len() {
            let child = links[visit.next];
            stack.push(Visit {
                link: visit.link,
                next: visit.next + 1,
            })?;
            if !seen.contains(&child) {
                stack.push(Visit {
                    link: child,
                    next: 0,
                })?;
            }
        } else {
            seen.insert(visit.link)?;
        }
    }
    Ok(())
}
