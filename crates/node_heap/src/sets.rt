//! What lies of the head of a trie's row with its links.
ghost use Rattle.std.specs.Prelude.{◌≡◌, ◌≤◌, length, Some};
ghost use Rattle.node_heap.specs.Sets.{sets_said};

use crate::rooms::SmallHead;
use crate::row::{Head, Link};
use crate::slot_kinds::{LargeSlot, SmallSlot};
use std::mem::size_of;

// The depth and the two sets of a row of a trie, and nothing of any other head.
#[derive(Clone, Copy)]
pub(crate) enum Sets {
    Trie { depth: u8, entries: u32, nodes: u32 },
    Odd,
}

impl SmallHead<Sets> for Sets {
    ghost use Rattle.node_heap.specs.declared.sets.Sets.TheVariants.{Odd};

    ghost stands_for = { λ s. s };

    ghost unread = { Odd };

    fn widen(&self) -> Sets {
        *self
    }
}

pub(crate) fn sets_of(head: &Head) -> Sets
    ensures { result ≡ sets_said head.now }
{
    match head {
        Head::Trie {
            depth,
            entries,
            nodes,
        } => Sets::Trie {
            depth: *depth,
            entries: *entries,
            nodes: *nodes,
        },
        _ => Sets::Odd,
    }
}

// So many links fit in a small slot of a trie's row.
pub(crate) const TWIG_LINKS: usize = 5;

const _: () = prove!(size_of::<SmallSlot<Sets, TWIG_LINKS>>() <= 64);

const _: () = prove!(size_of::<LargeSlot<Sets>>() <= 280);

// Rows down to this depth lie in large slots from the start, since most of them grow.
const FORK_DEPTH: u8 = 3;

// These sets, where the row is made in a small slot.
pub(crate) fn twig_sets(sets: &Sets, links: &[Link]) -> Option<Sets>
    ensures same { (s : Sets) → result ≡ Some s → s ≡ sets.now }
    ensures few { (s : Sets) → result ≡ Some s → length links.now ≤ 5 }
{
    match sets {
        Sets::Trie { depth, .. } => {
            if *depth > FORK_DEPTH && links.len() <= TWIG_LINKS {
                Some(*sets)
            } else {
                None
            }
        }
        Sets::Odd => None,
    }
}
