//! The lines of a part of a buffer, one by one.
ghost use Rattle.std.specs.Prelude.{◌≡◌, ◌≤◌, ◌↔◌, ℕ, List, length, slice_range, IsTrue};
ghost use Rattle.std.specs.Iterator.{YieldsFirstRef, item_count};
ghost use Rattle.rrb_core.specs.Vector.{IsGoodVector};
ghost use Rattle.shell_terms.specs.Edit.{Bytes};
ghost use Rattle.state_rows.specs.InHeap.{AreLinesIn};

use elem_core::Text;
use node_heap::Heap;
use rrb_core::{FlexRef, Lines};
use std::marker::Model;

/// Goes over the lines of a part of a buffer, in order. It takes no memory.
#[derive(Drop)]
pub struct SpaceLines<'h> {
    heap: &'h Heap<Text>,
    links: Lines<'h, Text>,
}

impl<'h> Model for SpaceLines<'h> {
    ghost use Rattle.std.specs.Prelude.{List, map as each};
    ghost use Rattle.std.specs.List.{All};
    ghost use Rattle.node_heap.specs.Heap.{form_at};
    ghost use Rattle.shell_terms.specs.Edit.{Bytes};

    ghost Value = { List Bytes };

    ghost use Rattle.space_state.specs.Texts.{text_at, NamesCell};

    ghost view = { λ l. each (text_at (form_at l.heap.now)) l.links };

    ghost invariant = { λ l. All (NamesCell (form_at l.heap.now)) l.links };
}

impl<'h> SpaceLines<'h> {
    /// The lines of the vector from the one index to before the other.
    pub(crate) fn new(heap: &'h Heap<Text>, lines: FlexRef, from: u32, to: u32) -> SpaceLines<'h>
        requires lines { (bits : ℕ) × (texts : List Bytes) × AreLinesIn heap.now bits lines texts × (from ≤ to) × (to ≤ length texts) }
        ensures { (bits : ℕ) (texts : List Bytes) → AreLinesIn heap.now bits lines texts → result ≡ slice_range texts from to }
    {
        SpaceLines {
            heap,
            links: lines.lines(heap, from, to),
        }
    }
}

/// Whether the lines of the vector have a part from the one index to before the other.
pub(crate) fn has_part(heap: &Heap<Text>, lines: FlexRef, from: u32, to: u32) -> bool
    requires { IsGoodVector heap.now lines }
    ensures { (bits : ℕ) (texts : List Bytes) → AreLinesIn heap.now bits lines texts → (IsTrue result ↔ ((from ≤ to) × (to ≤ length texts))) }
{
    from <= to && to <= lines.len(heap)
}

impl<'h> Iterator for SpaceLines<'h> {
    type Item = &'h Text;

    ghost next_gives = { YieldsFirstRef (λ l. l) };

    ghost remaining = { item_count (λ l. l) };

    fn next(&mut self) -> Option<&'h Text> {
        let link = self.links.next()?;
        self.heap.value(link)
    }
}
