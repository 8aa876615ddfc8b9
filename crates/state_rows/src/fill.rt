//! Lines that come from outside, all at once. Each call takes the rows that it makes from spares, which its caller has
//! reserved, and keeps every row that is there.
ghost use Rattle.std.specs.Prelude.{◌≡◌, ℕ, ◌+◌, ◌/◌, ◌^◌, ◌<◌, ◌≤◌, [], length, vec_capacity};
ghost use Rattle.elem_core.specs.Cell.{IsCell};
ghost use Rattle.node_heap.specs.Heap.{hold_count, HasSpares, IsGraph, most_holds, quarter_holds};
ghost use Rattle.node_heap.specs.Calls.{Answered, KeepsToNeed, MakesJust, Builds};
ghost use Rattle.state_rows.specs.InHeap.{AreTextsIn, AreLinesIn};

use elem_core::Text;
use node_heap::{Heap, Link};
use rrb_core::{Flex, vector_of_spares};

/// The lines with these texts, in time linear in them: a new cell for each, and the rows of their vector. `links` is empty and
/// has room for the link of each.
pub fn filled(heap: &mut Heap<Text>, texts: Vec<Text>, links: &mut Vec<Link>) -> Flex
    requires graph { IsGraph heap.old }
    requires few { hold_count heap.old < quarter_holds }
    requires short { length texts.items < 2 ^ 32 }
    requires empty { links.old.items ≡ [] }
    requires room { length texts.items ≤ vec_capacity links.old }
    requires spares { HasSpares heap.old (length texts.items) (length texts.items / 16 + 8) }
    ensures answered { Answered heap.old heap.new [] result (length texts.items) (length texts.items / 16 + 8) }
    ensures made { MakesJust heap.old heap.new }
    ensures spares { KeepsToNeed heap.old heap.new 0 0 }
    ensures lines { (bits : ℕ) → AreLinesIn heap.new bits result texts.items }
{
    make_cells(heap, texts, links);
    vector_of_spares(heap, links.as_slice())
}

// Makes a cell of each text, which is held once, and appends its link. There is room for all links.
fn make_cells(heap: &mut Heap<Text>, texts: Vec<Text>, links: &mut Vec<Link>)
    requires graph { IsGraph heap.old }
    requires few { hold_count heap.old + length texts.items < most_holds }
    requires empty { links.old.items ≡ [] }
    requires room { length texts.items ≤ vec_capacity links.old }
    requires spares { length texts.items ≤ heap.old.spare_cells }
    ensures builds { Builds heap.old heap.new [] links.new.items (length texts.items) 0 }
    ensures many { length links.new.items ≡ length texts.items }
    ensures texts { (bits : ℕ) → AreTextsIn heap.new bits links.new.items texts.items }
{
    for text in texts {
        is_cells(&text);
        let link = heap.cell(text);
        links.push_reserved(link);
    }
}

// That a text is a cell's: a law, which does nothing.
fn is_cells(text: &Text)
    ensures { IsCell text.now }
{
    text.text();
}
