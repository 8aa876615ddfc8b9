//! Rows of a heap made one after the other, in the order of their places.
ghost use Rattle.std.specs.Prelude.{◌≡◌, ◌+◌, ◌<◌, ◌≤◌, [], length, map, slice_index};
ghost use Rattle.std.specs.Prelude.{vec_capacity};
ghost use Rattle.node_heap.specs.Forms.{node};
ghost use Rattle.node_heap.specs.Heap.{hold_count, HasSpares, IsGraph, most_holds};
ghost use Rattle.node_heap.specs.Calls.{SameRows, Builds};
ghost use Rattle.pool_text.specs.Rows.{row_form};
ghost use Rattle.pool_text.specs.Renaming.{AreLive};
ghost use Rattle.pool_load.specs.Loads.{cells_of, nodes_of};
ghost use Rattle.pool_load.specs.Rows.{AreSound, HaveLengths};
ghost use Rattle.pool_load.specs.Making.{ArePlacesBelow, ComesBeside, CanMake, MakesPoolRow, AreMade, IsValued, AreValued};

use crate::lengths::inner_sums;
use crate::values::CellValues;
use arrayvec::ArrayVec;
use node_heap::{Head, Heap, Link};
use pool_text::Row;

// Makes a row for each of these, each held once, and appends its link. There is room for all links.
pub(crate) fn make_rows<T, C: CellValues<T>>(
    heap: &mut Heap<T>,
    values: &C,
    rows: Vec<Row>,
    lengths: &[u32],
    links: &mut Vec<Link>,
)
    requires sound { AreSound (map row_form rows.items) }
    requires lengths { HaveLengths (map row_form rows.items) lengths.now }
    requires known { length lengths.now ≡ length rows.items }
    requires empty { links.old.items ≡ [] }
    requires room { length rows.items ≤ vec_capacity links.old }
    requires spares { HasSpares heap.old (cells_of (map row_form rows.items)) (nodes_of (map row_form rows.items)) }
    requires few { hold_count heap.old + (length rows.items + 32) < most_holds }
    requires graph { IsGraph heap.old }
    ensures made { AreMade C.bytes_of heap.old heap.new (map row_form rows.items) links.new.items }
    ensures valued { AreValued C.bytes_of (C.value_at values.now) heap.new links.new.items }
    ensures many { length links.new.items ≡ length rows.items }
{
    for row in rows {
        let link = make_row(heap, values, links.as_slice(), lengths, row);
        links.push_reserved(link);
    }
}

// Makes the row, over rows with these links and lengths by place. It is held once.
fn make_row<T, C: CellValues<T>>(
    heap: &mut Heap<T>,
    values: &C,
    links: &[Link],
    lengths: &[u32],
    row: Row,
) -> Link
    requires { CanMake heap.old links.now lengths.now (row_form row) }
    ensures made { MakesPoolRow C.bytes_of heap.old heap.new links.now lengths.now (row_form row) result }
    ensures valued { IsValued C.bytes_of (C.value_at values.now (length links.now)) heap.new result }
{
    match row {
        Row::Cell(text) => heap.cell(values.value(links.len(), text.into_text())),
        Row::Leaf(places) => make_node(heap, links, Head::Leaf, places.as_slice()),
        Row::Inner(height, places) => {
            let sums = inner_sums(lengths, places.as_slice(), height - 1);
            make_node(heap, links, Head::Inner { height, sums }, places.as_slice())
        }
        Row::Trie {
            depth,
            entries,
            nodes,
            links: places,
        } => {
            let head = Head::Trie {
                depth,
                entries,
                nodes,
            };
            make_node(heap, links, head, places.as_slice())
        }
        Row::Chain(places) => make_node(heap, links, Head::Chain, places.as_slice()),
        Row::Pair(key, value) => make_node(heap, links, Head::Pair, &[key, value]),
        Row::State(buffers, stars) => make_node(heap, links, Head::State, &[buffers, stars]),
    }
}

// Makes the node with this head over the rows at these places, each of which keeps its holds. It is held once.
fn make_node<T>(heap: &mut Heap<T>, links: &[Link], head: Head, places: &[u64]) -> Link
    requires live { AreLive T heap.old links.now }
    requires places { ArePlacesBelow (length links.now) places.now }
    requires short { length places.now ≤ 32 }
    requires spare { 0 < heap.old.spare_nodes }
    requires few { hold_count heap.old + 32 < most_holds }
    requires graph { IsGraph heap.old }
    ensures { ComesBeside heap.old heap.new result (node head (map (slice_index links.now) places.now)) }
{
    hold_places(heap, links, places);
    heap.node(head, links_at_places(links, places).as_slice())
}

// One hold more of the link at each of these places.
pub(crate) fn hold_places<T>(heap: &mut Heap<T>, links: &[Link], places: &[u64])
    requires live { AreLive T heap.old links.now }
    requires places { ArePlacesBelow (length links.now) places.now }
    requires few { hold_count heap.old + length places.now ≤ most_holds }
    requires graph { IsGraph heap.old }
    ensures rows { SameRows heap.old heap.new }
    ensures builds { Builds heap.old heap.new [] (map (slice_index links.now) places.now) 0 0 }
{
    for place in places {
        heap.hold(links[*place as usize]);
    }
}

// The links at these places, at most 32.
fn links_at_places(links: &[Link], places: &[u64]) -> ArrayVec<Link, 32>
    requires places { ArePlacesBelow (length links.now) places.now }
    requires short { length places.now ≤ 32 }
    ensures { result.items ≡ map (slice_index links.now) places.now }
{
    let mut chosen = ArrayVec::new();
    for place in places {
        chosen.push(links[*place as usize]);
    }
    chosen
}
