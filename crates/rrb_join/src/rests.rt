//! What is left of a vector without its first elements.
//!
//! The rest of a row is carried as links of which no row is made yet. They are put before the next row to the right, down
//! the left edge of that one, so that no row is made in vain.
ghost use Rattle.std.specs.Prelude.{◌≡◌, ℕ, ◌-◌, ◌+◌, ◌*◌, ◌<◌, ◌≤◌, ◌^◌, [], ◌∷◌, ◌++◌, length, drop, IsSome};
ghost use Rattle.std.specs.List.{All, flat_map};
ghost use Rattle.node_heap.specs.Links.{count};
ghost use Rattle.node_heap.specs.Heap.{row_at, form_at, links_at, holds_at, hold_count, IsGraph, most_holds};
ghost use Rattle.node_heap.specs.Calls.{Builds};
ghost use Rattle.rrb_core.specs.Seq.{seq_at, IsThick, IsWell};
ghost use Rattle.rrb_core.specs.Vector.{HasSums, elements, height_at, IsGoodVector};
ghost use Rattle.rrb_core.specs.Build.{AreRows};
ghost use Rattle.rrb_join.specs.Rest.{LeavesRows, LeavesBelow, LeavesNoMore, LeavesNoMoreBelow, PutsBefore, PutsBeside};
ghost use Rattle.rrb_join.specs.Unmade.{items_below, AreLinks, AreThick, AreUnmade, IsSomeRow};
ghost use Rattle.rrb_join.specs.declared.joining.TheConstants.{SEAM_NODES};

use crate::over::{held_again, row_over, rows_over};
use node_heap::{Heap, Link, MOST_HEIGHT};
use rrb_core::{FlexRef, Gathered, ROW_LINKS, gathered, height_of, leaf_over, spot_of};

// Links of one row of this height, or of two, that aren't made yet.
#[derive(Drop)]
struct Rest {
    links: Gathered,
    height: u8,
}

// The root of the vector without its first `count` elements: with none dropped its own, and with all that of the empty one.
pub(crate) fn rest_root<T>(heap: &mut Heap<T>, root: Link, count: u32) -> Link
    requires graph { IsGraph heap.old }
    requires good { IsGoodVector heap.old root }
    requires spare { SEAM_NODES ≤ heap.old.spare_nodes }
    requires holds { hold_count heap.old + 192 ≤ most_holds }
    ensures items { elements heap.new result ≡ drop count (elements heap.old root) }
    ensures good { IsGoodVector heap.new result }
    ensures low { height_at heap.new result ≤ height_at heap.old root }
    ensures rows { LeavesRows heap.old heap.new root result }
    ensures within { LeavesNoMore heap.old heap.new root count result }
    ensures builds { Builds heap.old heap.new [] (result ∷ []) 0 (2 * height_at heap.new result + 1) }
{
    if count == 0 {
        return held_again(heap, root);
    }
    if count >= FlexRef::at(root).len(heap) {
        return leaf_over(heap, &[]);
    }
    let height = height_of(heap, root);
    let rest = rest_of(heap, root, height, count);
    row_over(heap, rest.links.as_slice(), rest.height)
}

// What is left of a row without its first `count` elements, of which there are fewer than it has. Above leaves that is what
// is left of one child, put before the next one, and the children after that.
fn rest_of<T>(heap: &mut Heap<T>, link: Link, height: u8, count: u32) -> Rest
    requires graph { IsGraph heap.old }
    requires well { IsWell (form_at heap.old) height link }
    requires sums { HasSums heap.old height link }
    requires low { height ≤ MOST_HEIGHT }
    requires inside { count < length (seq_at (form_at heap.old) height link) }
    requires short { length (seq_at (form_at heap.old) height link) < 2 ^ 32 }
    requires spare { 2 * height ≤ heap.old.spare_nodes }
    requires holds { hold_count heap.old + 192 ≤ most_holds }
    ensures low { result.height ≤ height }
    ensures links { AreUnmade heap.new result.height result.links.items (drop count (seq_at (form_at heap.old) height link)) }
    ensures few { length result.links.items ≤ 32 }
    ensures two { 1 ≤ result.height → 2 ≤ length result.links.items }
    ensures thick { IsThick (form_at heap.old) height link → AreThick heap.new result.height result.links.items }
    ensures rows { LeavesBelow heap.old heap.new height link result.height result.links.items }
    ensures within { LeavesNoMoreBelow heap.old heap.new height link count result.height result.links.items }
    ensures builds { Builds heap.old heap.new [] result.links.items 0 (2 * result.height) }
{
    if height == 0 {
        return Rest {
            links: gathered(heap, link, 0, &[], link, count as usize),
            height: 0,
        };
    }
    let below = height - 1;
    let spot = spot_of(heap, link, below, count);
    let child = heap.links(link)[spot.place];
    let rest = rest_of(heap, child, below, spot.within);
    let next = spot.place + 1;
    if next == heap.links(link).len() {
        return rest;
    }
    let right = heap.links(link)[next];
    let merged = prepend(heap, rest.links.as_slice(), rest.height, right, below);
    raised(heap, merged, link, next + 1)
}

// The elements below the links and then those of `right`. The links are elements, or thick rows, below a row of the
// height `links_height`.
fn prepend<T>(heap: &mut Heap<T>, links: &[Link], links_height: u8, right: Link, height: u8) -> Rest
    requires graph { IsGraph heap.old }
    requires links { AreLinks heap.old links_height links.now }
    requires thick { AreThick heap.old links_height links.now }
    requires some { 1 ≤ length links.now }
    requires few { length links.now ≤ 32 }
    requires two { 1 ≤ links_height → 2 ≤ length links.now }
    requires right { IsSomeRow heap.old height right }
    requires order { links_height ≤ height }
    requires low { height ≤ MOST_HEIGHT }
    requires short { length (items_below heap.old links_height links.now) + length (seq_at (form_at heap.old) height right) < 2 ^ 32 }
    requires held { (k : ℕ) → count k links.now ≤ holds_at heap.old k }
    requires spare { 2 * (height - links_height) ≤ heap.old.spare_nodes }
    requires holds { hold_count heap.old + 128 ≤ most_holds }
    ensures above { links_height ≤ result.height }
    ensures low { result.height ≤ height }
    ensures links { AreUnmade heap.new result.height result.links.items (items_below heap.old links_height links.now ++ seq_at (form_at heap.old) height right) }
    ensures two { 1 ≤ result.height → 2 ≤ length result.links.items }
    ensures thick { IsThick (form_at heap.old) height right → (result.height ≡ height) × (16 ≤ length result.links.items) × AreThick heap.new result.height result.links.items }
    ensures rows { PutsBefore heap.old heap.new links_height links.now height right result.height result.links.items }
    ensures builds { Builds heap.old heap.new links.now result.links.items 0 (2 * (result.height - links_height)) }
{
    if links_height == height {
        return Rest {
            links: gathered(heap, right, 0, links, right, 0),
            height: links_height,
        };
    }
    let first = heap.links(right)[0];
    let merged = prepend(heap, links, links_height, first, height - 1);
    raised(heap, merged, right, 1)
}

// One row or two of the rest, and beside them the links of a row from the place `from` on. A rest that is all and that one
// row holds stays as it is.
fn raised<T>(heap: &mut Heap<T>, rest: Rest, link: Link, from: usize) -> Rest
    requires graph { IsGraph heap.old }
    requires links { AreLinks heap.old rest.height rest.links.items }
    requires some { 1 ≤ length rest.links.items }
    requires most { length rest.links.items ≤ 64 }
    requires two { 1 ≤ rest.height → 2 ≤ length rest.links.items }
    requires low { rest.height < MOST_HEIGHT }
    requires live { IsSome (row_at heap.old link) }
    requires from { from ≤ length (links_at heap.old link) }
    requires beside { AreRows heap.old rest.height (drop from (links_at heap.old link)) }
    requires close { from < length (links_at heap.old link) → (16 ≤ length rest.links.items) × AreThick heap.old rest.height rest.links.items }
    requires fits { length (links_at heap.old link) ≤ from + 31 }
    requires short { length (items_below heap.old rest.height rest.links.items) < 2 ^ 32 }
    requires held { (k : ℕ) → count k rest.links.items ≤ holds_at heap.old k }
    requires spare { 2 ≤ heap.old.spare_nodes }
    requires holds { hold_count heap.old + 64 ≤ most_holds }
    ensures above { rest.height ≤ result.height }
    ensures low { result.height ≤ rest.height + 1 }
    ensures links { AreUnmade heap.new result.height result.links.items (items_below heap.old rest.height rest.links.items ++ flat_map (seq_at (form_at heap.old) rest.height) (drop from (links_at heap.old link))) }
    ensures few { length (links_at heap.old link) ≤ from + 30 → length result.links.items ≤ 32 }
    ensures two { 1 ≤ result.height → 2 ≤ length result.links.items }
    ensures more { from < length (links_at heap.old link) → result.height ≡ rest.height + 1 }
    ensures count { from < length (links_at heap.old link) → length (links_at heap.old link) < length result.links.items + from }
    ensures thick { AreThick heap.old rest.height rest.links.items → 16 ≤ length rest.links.items → All (IsThick (form_at heap.old) rest.height) (drop from (links_at heap.old link)) → AreThick heap.new result.height result.links.items }
    ensures rows { PutsBeside heap.old heap.new rest.height rest.links.items (drop from (links_at heap.old link)) result.height result.links.items }
    ensures builds { Builds heap.old heap.new rest.links.items result.links.items 0 (2 * (result.height - rest.height)) }
{
    if rest.links.len() <= ROW_LINKS && from == heap.links(link).len() {
        return rest;
    }
    let rows = rows_over(heap, rest.links.as_slice(), rest.height);
    Rest {
        links: gathered(heap, link, 0, rows.as_slice(), link, from),
        height: rest.height + 1,
    }
}
