//! Rows over links that are gathered.
ghost use Rattle.std.specs.Prelude.{◌≡◌, ℕ, ◌+◌, ◌<◌, ◌≤◌, ◌^◌, [], ◌∷◌, length, IsSome};
ghost use Rattle.std.specs.List.{All, flat_map};
ghost use Rattle.node_heap.specs.Links.{count};
ghost use Rattle.node_heap.specs.Heap.{row_at, form_at, links_at, holds_at, hold_count, IsGraph, most_holds};
ghost use Rattle.node_heap.specs.Calls.{Builds};
ghost use Rattle.rrb_core.specs.Seq.{seq_at, IsThick};
ghost use Rattle.rrb_core.specs.Vector.{elements, height_at, IsGoodVector, IsSameVector};
ghost use Rattle.rrb_core.specs.Build.{IsRowOf, AreRows, Shares};
ghost use Rattle.rrb_join.specs.Unmade.{items_below, AreThick, CanBeRows};
ghost use Rattle.rrb_join.specs.Answers.{RisesAtNeed};
ghost use Rattle.rrb_core.specs.Levels.{rows_at, rows_of};
ghost use Rattle.rrb_join.specs.Seam.{rows_under, AreAtNeed};
ghost use Rattle.rrb_join.specs.Rest.{AreHalves};

use arrayvec::ArrayVec;
use node_heap::{Heap, Link, MOST_HEIGHT};
use rrb_core::{ROW_LINKS, inner_over, leaf_over};

// One row, or two side by side.
pub(crate) type OneOrTwo = ArrayVec<Link, 2>;

// The same root, held once more.
pub(crate) fn held_again<T>(heap: &mut Heap<T>, root: Link) -> Link
    requires graph { IsGraph heap.old }
    requires good { IsGoodVector heap.old root }
    requires holds { hold_count heap.old < most_holds }
    ensures same { result ≡ root }
    ensures shares { Shares heap.old heap.new result }
    ensures vectors { (l : ℕ) → IsSameVector heap.old heap.new l }
{
    heap.hold(root);
    root
}

// Two rows as they are, each held once more.
pub(crate) fn both_held<T>(heap: &mut Heap<T>, left: Link, right: Link) -> OneOrTwo
    requires graph { IsGraph heap.old }
    requires left { IsSome (row_at heap.old left) }
    requires right { IsSome (row_at heap.old right) }
    requires holds { hold_count heap.old + 2 ≤ most_holds }
    ensures rows { result.items ≡ left ∷ right ∷ [] }
    ensures builds { Builds heap.old heap.new [] result.items 0 0 }
{
    heap.hold(left);
    heap.hold(right);
    let mut both = ArrayVec::new();
    both.push(left);
    both.push(right);
    both
}

// The row of this height over these links; it spends a hold for each place.
pub(crate) fn row_over<T>(heap: &mut Heap<T>, links: &[Link], height: u8) -> Link
    requires rows { CanBeRows heap.old height links.now }
    requires few { length links.now ≤ 32 }
    requires spare { 1 ≤ heap.old.spare_nodes }
    ensures row { IsRowOf heap.new height result (items_below heap.old height links.now) }
    ensures links { links_at heap.new result ≡ links.now }
    ensures builds { Builds heap.old heap.new links.now (result ∷ []) 0 1 }
{
    if height == 0 {
        return leaf_over(heap, links);
    }
    inner_over(heap, links, height - 1)
}

// One row of this height over the links, or two over half of them each, of which the first is thick. It spends a hold
// for each place.
pub(crate) fn rows_over<T>(heap: &mut Heap<T>, links: &[Link], height: u8) -> OneOrTwo
    requires rows { CanBeRows heap.old height links.now }
    requires few { length links.now ≤ 64 }
    requires spare { 2 ≤ heap.old.spare_nodes }
    ensures rows { AreRows heap.new height result.items }
    ensures items { flat_map (seq_at (form_at heap.new) height) result.items ≡ items_below heap.old height links.now }
    ensures links { flat_map (links_at heap.new) result.items ≡ links.now }
    ensures some { 1 ≤ length result.items }
    ensures few { length result.items ≤ 2 }
    ensures two { 33 ≤ length links.now → length result.items ≡ 2 }
    ensures halves { AreHalves heap.new result.items }
    ensures thick { 16 ≤ length links.now → AreThick heap.old height links.now → All (IsThick (form_at heap.new) height) result.items }
    ensures builds { Builds heap.old heap.new links.now result.items 0 2 }
{
    let mut rows = ArrayVec::new();
    if links.len() <= ROW_LINKS {
        rows.push(row_over(heap, links, height));
        return rows;
    }
    let half = links.len() / 2;
    rows.push(row_over(heap, &links[..half], height));
    rows.push(row_over(heap, &links[half..], height));
    rows
}

// The root of one row of this height or of two: a row alone is the root itself, and two have a row over them. It spends
// a hold for each of the rows.
pub(crate) fn root_of<T>(heap: &mut Heap<T>, rows: &[Link], height: u8) -> Link
    requires graph { IsGraph heap.old }
    requires rows { AreRows heap.old height rows.now }
    requires some { 1 ≤ length rows.now }
    requires need { AreAtNeed heap.old 2 rows.now }
    requires wide { 1 ≤ height → 2 ≤ length (flat_map (links_at heap.old) rows.now) }
    requires low { height ≤ MOST_HEIGHT }
    requires short { length (flat_map (seq_at (form_at heap.old) height) rows.now) < 2 ^ 32 }
    requires held { (k : ℕ) → count k rows.now ≤ holds_at heap.old k }
    requires spare { 1 ≤ heap.old.spare_nodes }
    requires holds { hold_count heap.old < most_holds }
    ensures good { IsGoodVector heap.new result }
    ensures items { elements heap.new result ≡ flat_map (seq_at (form_at heap.old) height) rows.now }
    ensures flat { length rows.now ≤ 1 → height_at heap.new result ≡ height }
    ensures low { RisesAtNeed heap.new height result }
    ensures below { (m : ℕ) → m ≤ height → rows_of heap.new m result ≡ flat_map (rows_at (links_at heap.old) height m) rows.now }
    ensures builds { Builds heap.old heap.new rows.now (result ∷ []) 0 1 }
{
    if rows.len() == 1 {
        return rows[0];
    }
    inner_over(heap, rows, height)
}

// The root over the links, which one row of this height may hold or two; an inner one needs two links or more.
pub(crate) fn root_over<T>(heap: &mut Heap<T>, links: &[Link], height: u8) -> Link
    requires rows { CanBeRows heap.old height links.now }
    requires two { 1 ≤ height → 2 ≤ length links.now }
    requires few { length links.now ≤ 64 }
    requires spare { 3 ≤ heap.old.spare_nodes }
    ensures good { IsGoodVector heap.new result }
    ensures items { elements heap.new result ≡ items_below heap.old height links.now }
    ensures flat { length links.now ≤ 32 → height_at heap.new result ≡ height }
    ensures low { RisesAtNeed heap.new height result }
    ensures below { (m : ℕ) → m < height → rows_of heap.new m result ≡ rows_under (links_at heap.old) height m links.now }
    ensures top { (m : ℕ) → height ≤ m → AreAtNeed heap.new 2 (rows_of heap.new m result) }
    ensures builds { Builds heap.old heap.new links.now (result ∷ []) 0 3 }
{
    let rows = rows_over(heap, links, height);
    root_of(heap, rows.as_slice(), height)
}
