//! Rows of a vector: what they state, and how they are made.
ghost use Rattle.std.specs.Prelude.{◌≡◌, ℕ, suc, ◌+◌, ◌-◌, ◌*◌, ◌^◌, ◌<◌, ◌≤◌, ◌≢◌, ◌↔◌, [], ◌∷◌, ◌++◌, length, take, drop, slice_index, None, Some, IsSome, IsTrue};
ghost use Rattle.std.specs.List.{flat_map};
ghost use Rattle.node_heap.specs.Links.{count};
ghost use Rattle.node_heap.specs.Forms.{node};
ghost use Rattle.node_heap.specs.Heap.{row_at, form_at, links_at, holds_at, hold_count, IsGraph, most_holds};
ghost use Rattle.node_heap.specs.Calls.{Makes, Builds, KeepsOldOwners};
ghost use Rattle.rrb_core.specs.Seq.{seq_at, IsWell};
ghost use Rattle.rrb_core.specs.Vector.{IsRegular, KeepsSums, HasSums, height_at, sums_at};
ghost use Rattle.rrb_core.specs.Build.{IsRowOf, AreRows};
ghost use Rattle.rrb_core.specs.Edit.{CanEdit, CanPlace, MakesRow, PlacesChild, links_with};

use crate::search::sum_before;
use arrayvec::ArrayVec;
use node_heap::{Head, Heap, Kind, Link, MOST_HEIGHT, Sums};

/// The most links that a row holds.
pub const ROW_LINKS: usize = 32;

/// The links of a row to be made, or of two.
pub type Gathered = ArrayVec<Link, 64>;

/// The height that an inner row states, and 0 for every other row.
#[inline(always)]
pub fn height_of<T>(heap: &Heap<T>, link: Link) -> u8
    requires { IsSome (row_at heap.now link) }
    ensures { result ≡ height_at heap.now link }
{
    match heap.kind(link) {
        Some(Kind::Inner { height }) => height,
        _ => 0,
    }
}

/// The running sums of its children's lengths that an inner row keeps; none where it keeps none, and for every other row.
#[inline(always)]
pub fn sums_of<T>(heap: &Heap<T>, link: Link) -> &[u32]
    requires { IsSome (row_at heap.now link) }
    ensures { result.now ≡ sums_at heap.now link }
{
    heap.sums(link)
}

/// How many elements so many full children of an inner row of this height have.
#[inline]
pub fn full_size(count: usize, height: u8) -> u64
    requires few { count ≤ 32 }
    requires low { height ≤ MOST_HEIGHT }
    ensures { result ≡ count * 32 ^ height }
{
    (count as u64) << (5 * u32::from(height))
}

/// The number of elements below a row of this height: the last of its sums or, where it keeps none, what its full children
/// have and the last one.
pub fn size<T>(heap: &Heap<T>, link: Link, height: u8) -> u32
    requires well { IsWell (form_at heap.now) height link }
    requires sums { HasSums heap.now height link }
    requires low { height ≤ MOST_HEIGHT }
    requires short { length (seq_at (form_at heap.now) height link) < 2 ^ 32 }
    ensures value { result ≡ length (seq_at (form_at heap.now) height link) }
    ensures graph { IsGraph heap.now }
{
    let links = heap.links(link);
    if height == 0 {
        return links.len() as u32;
    }
    let sums = sums_of(heap, link);
    if !sums.is_empty() {
        return sums[sums.len() - 1];
    }
    let last = links.len() - 1;
    let before = full_size(last, height) as u32;
    before + size(heap, links[last], height - 1)
}

// A number of elements that a row of this height has at least: those below its children before the last, where these are full,
// and else 0. No row below it is read.
pub(crate) fn size_before_last<T>(heap: &Heap<T>, link: Link, height: u8) -> u64
    requires well { IsWell (form_at heap.now) height link }
    requires sums { HasSums heap.now height link }
    requires low { height ≤ MOST_HEIGHT }
    ensures { result ≤ length (seq_at (form_at heap.now) height link) }
{
    let links = heap.links(link);
    if height == 0 {
        return 0;
    }
    let sums = sums_of(heap, link);
    if !sums.is_empty() {
        return 0;
    }
    let last = links.len() - 1;
    full_size(last, height)
}

// Appends the links of a row from the place `from` to the place `to`, with a hold of each.
fn hold_links<T>(heap: &mut Heap<T>, all: &mut Gathered, link: Link, from: usize, to: usize)
    requires graph { IsGraph heap.old }
    requires live { IsSome (row_at heap.old link) }
    requires order { from ≤ to }
    requires within { to ≤ length (links_at heap.old link) }
    requires room { length all.old.items + (to - from) ≤ 64 }
    requires holds { hold_count heap.old + (to - from) ≤ most_holds }
    ensures items { all.new.items ≡ all.old.items ++ take (to - from) (drop from (links_at heap.old link)) }
    ensures builds { Builds heap.old heap.new all.old.items all.new.items 0 0 }
{
    let before = all.len();
    // There is room for 64, so that this refuses nothing.
    let _ = all.try_extend_from_slice(&heap.links(link)[from..to]);
    heap.hold_all(&all.as_slice()[before..]);
}

/// The first `keep` links of `left`, then `middle`, then the links of `right` from the place `skip` on. Each link of
/// `left` and `right` comes with a hold; those of `middle` keep the holds that they have.
pub fn gathered<T>(
    heap: &mut Heap<T>,
    left: Link,
    keep: usize,
    middle: &[Link],
    right: Link,
    skip: usize,
) -> Gathered
    requires graph { IsGraph heap.old }
    requires left { IsSome (row_at heap.old left) }
    requires right { IsSome (row_at heap.old right) }
    requires keep { keep ≤ length (links_at heap.old left) }
    requires skip { skip ≤ length (links_at heap.old right) }
    requires few { keep + length middle.now + (length (links_at heap.old right) - skip) ≤ 64 }
    requires holds { hold_count heap.old + 64 ≤ most_holds }
    ensures items { result.items ≡ (take keep (links_at heap.old left) ++ middle.now) ++ drop skip (links_at heap.old right) }
    ensures builds { Builds heap.old heap.new middle.now result.items 0 0 }
{
    let end = heap.links(right).len();
    let mut all = ArrayVec::new();
    hold_links(heap, &mut all, left, 0, keep);
    // There is room for 64, so that this refuses nothing.
    let _ = all.try_extend_from_slice(middle);
    hold_links(heap, &mut all, right, skip, end);
    all
}

// Writes these links behind the first `count`. Answers how many there are then.
fn write_links(room: &mut [Link], count: usize, links: &[Link]) -> usize
    requires { count + length links.now ≤ length room.old }
    ensures many { result ≡ count + length links.now }
    ensures links { take result room.new ≡ take count room.old ++ links.now }
{
    let end = count + links.len();
    room[count..end].copy_from_slice(links);
    end
}

// Writes the links of a row from the place `from` to the place `to` behind the first `count`, with a hold of each. Answers
// how many there are then.
fn write_part<T>(
    heap: &mut Heap<T>,
    room: &mut [Link],
    count: usize,
    link: Link,
    from: usize,
    to: usize,
) -> usize
    requires graph { IsGraph heap.old }
    requires live { IsSome (row_at heap.old link) }
    requires order { from ≤ to }
    requires within { to ≤ length (links_at heap.old link) }
    requires room { count + (to - from) ≤ length room.old }
    requires holds { hold_count heap.old + (to - from) ≤ most_holds }
    ensures many { result ≡ count + (to - from) }
    ensures links { take result room.new ≡ take count room.old ++ take (to - from) (drop from (links_at heap.old link)) }
    ensures builds { Builds heap.old heap.new (take count room.old) (take result room.new) 0 0 }
{
    let end = write_links(room, count, &heap.links(link)[from..to]);
    heap.hold_all(&room[count..end]);
    end
}

// Writes the first `keep` links of a row, then `middle`, then its links from the place `skip` on. Each link of the row comes
// with a hold; `middle` keeps the hold that it has. Answers how many there are.
fn write_links_with<T>(
    heap: &mut Heap<T>,
    room: &mut [Link],
    link: Link,
    keep: usize,
    middle: Link,
    skip: usize,
) -> usize
    requires graph { IsGraph heap.old }
    requires live { IsSome (row_at heap.old link) }
    requires keep { keep ≤ length (links_at heap.old link) }
    requires skip { skip ≤ length (links_at heap.old link) }
    requires few { keep + 1 + (length (links_at heap.old link) - skip) ≤ 32 }
    requires room { length room.old ≡ 32 }
    requires holds { hold_count heap.old + 64 ≤ most_holds }
    ensures few { result ≤ 32 }
    ensures links { take result room.new ≡ links_with (links_at heap.old link) keep middle skip }
    ensures builds { Builds heap.old heap.new (middle ∷ []) (take result room.new) 0 0 }
{
    let stop = heap.links(link).len();
    let front = write_part(heap, room, 0, link, 0, keep);
    let middle_end = write_links(room, front, &[middle]);
    write_part(heap, room, middle_end, link, skip, stop)
}

/// The leaf over these elements, a new row; it spends a hold for each place.
pub fn leaf_over<T>(heap: &mut Heap<T>, elements: &[Link]) -> Link
    requires graph { IsGraph heap.old }
    requires few { length elements.now ≤ 32 }
    requires held { (k : ℕ) → count k elements.now ≤ holds_at heap.old k }
    requires spare { 1 ≤ heap.old.spare_nodes }
    requires holds { hold_count heap.old < most_holds }
    ensures row { IsRowOf heap.new 0 result elements.now }
    ensures links { links_at heap.new result ≡ elements.now }
    ensures fresh { row_at heap.old result ≡ None }
    ensures owners { KeepsOldOwners heap.old heap.new }
    ensures builds { Builds heap.old heap.new elements.now (result ∷ []) 0 1 }
    ensures makes { Makes heap.old heap.new 0 1 }
{
    heap.node(Head::Leaf, elements)
}

/// The inner row over these children of the height `below`, a new row; it works out the sums that it keeps and spends a hold
/// for each place.
pub fn inner_over<T>(heap: &mut Heap<T>, children: &[Link], below: u8) -> Link
    requires graph { IsGraph heap.old }
    requires rows { AreRows heap.old below children.now }
    requires some { 1 ≤ length children.now }
    requires few { length children.now ≤ 32 }
    requires low { below < MOST_HEIGHT }
    requires short { length (flat_map (seq_at (form_at heap.old) below) children.now) < 2 ^ 32 }
    requires held { (k : ℕ) → count k children.now ≤ holds_at heap.old k }
    requires spare { 1 ≤ heap.old.spare_nodes }
    requires holds { hold_count heap.old < most_holds }
    ensures row { IsRowOf heap.new (suc below) result (flat_map (seq_at (form_at heap.old) below) children.now) }
    ensures links { links_at heap.new result ≡ children.now }
    ensures fresh { row_at heap.old result ≡ None }
    ensures owners { KeepsOldOwners heap.old heap.new }
    ensures builds { Builds heap.old heap.new children.now (result ∷ []) 0 1 }
{
    let sums = sums_over(heap, children, below);
    inner_of(heap, children, below, sums)
}

// The same with the sums that it keeps.
fn inner_of<T>(heap: &mut Heap<T>, children: &[Link], below: u8, sums: Sums) -> Link
    requires graph { IsGraph heap.old }
    requires rows { AreRows heap.old below children.now }
    requires some { 1 ≤ length children.now }
    requires few { length children.now ≤ 32 }
    requires low { below < MOST_HEIGHT }
    requires sums { KeepsSums (form_at heap.old) below children.now sums }
    requires held { (k : ℕ) → count k children.now ≤ holds_at heap.old k }
    requires spare { 1 ≤ heap.old.spare_nodes }
    requires holds { hold_count heap.old < most_holds }
    ensures row { IsRowOf heap.new (suc below) result (flat_map (seq_at (form_at heap.old) below) children.now) }
    ensures links { links_at heap.new result ≡ children.now }
    ensures fresh { row_at heap.old result ≡ None }
    ensures owners { KeepsOldOwners heap.old heap.new }
    ensures builds { Builds heap.old heap.new children.now (result ∷ []) 0 1 }
{
    let height = below + 1;
    heap.node(Head::Inner { height, sums }, children)
}

/// The sums that the row over these 1 to 32 rows of the height `below` keeps: their running lengths, and none where all but
/// the last are full.
pub fn sums_over<T>(heap: &Heap<T>, children: &[Link], below: u8) -> Sums
    requires rows { AreRows heap.now below children.now }
    requires some { 1 ≤ length children.now }
    requires few { length children.now ≤ 32 }
    requires low { below < MOST_HEIGHT }
    requires short { length (flat_map (seq_at (form_at heap.now) below) children.now) < 2 ^ 32 }
    ensures { KeepsSums (form_at heap.now) below children.now result }
{
    let mut sums: ArrayVec<u32, ROW_LINKS> = ArrayVec::new();
    let mut total = 0u32;
    for child in children {
        total += size(heap, *child, below);
        sums.push(total);
    }
    kept_sums(sums.as_slice(), below)
}

// What a row keeps of the running sums of its children, which have the height `below`: none where all but the last have as
// many elements as they can.
fn kept_sums(sums: &[u32], below: u8) -> Sums
    requires some { 1 ≤ length sums.now }
    requires few { length sums.now ≤ 32 }
    requires low { below < MOST_HEIGHT }
    ensures none { slice_index (0 ∷ sums.now) (length sums.now - 1) ≡ (length sums.now - 1) * 32 ^ suc below → result ≡ [] }
    ensures kept { slice_index (0 ∷ sums.now) (length sums.now - 1) ≢ (length sums.now - 1) * 32 ^ suc below → result ≡ sums.now }
{
    let last = sums.len() - 1;
    let before = sum_before(sums, last);
    if u64::from(before) == full_size(last, below + 1) {
        return Sums::from_slice(&[]);
    }
    Sums::from_slice(sums)
}

// Whether a row of this height has as many elements as it can.
#[inline]
fn has_full_size<T>(heap: &Heap<T>, link: Link, height: u8) -> bool
    requires well { IsWell (form_at heap.now) height link }
    requires sums { HasSums heap.now height link }
    requires low { height < MOST_HEIGHT }
    requires short { length (seq_at (form_at heap.now) height link) < 2 ^ 32 }
    ensures test { IsTrue result ↔ (length (seq_at (form_at heap.now) height link) ≡ 32 ^ suc height) }
{
    u64::from(size(heap, link, height)) == full_size(1, height + 1)
}

// Whether it is seen, by the row `link` and one child alone, that the first `keep` children of `link`, then `child`, then
// its children from the place `skip` on are all full but the last. That one child is the last of `link` where `child` comes
// behind it, and else `child`.
#[inline(always)]
fn stays_regular<T>(
    heap: &Heap<T>,
    link: Link,
    below: u8,
    keep: usize,
    child: Link,
    skip: usize,
) -> bool
    requires { CanPlace heap.now below link keep child skip }
    ensures { IsTrue result → IsRegular (form_at heap.now) below (links_with (links_at heap.now link) keep child skip) }
{
    let links = heap.links(link);
    let count = links.len();
    if !sums_of(heap, link).is_empty() {
        return false;
    }
    if keep < count {
        return skip == count || has_full_size(heap, child, below);
    }
    if count == 0 || skip < count {
        return false;
    }
    has_full_size(heap, links[count - 1], below)
}

// The sums of the row over the first `keep` children of `link`, then `child`, then its children from the place `skip` on:
// the first sums of `link` stay, and the later ones move by a difference.
fn sums_beside<T>(
    heap: &Heap<T>,
    link: Link,
    below: u8,
    keep: usize,
    child: Link,
    skip: usize,
) -> Sums
    requires place { CanPlace heap.now below link keep child skip }
    requires some { 1 ≤ length (sums_at heap.now link) }
    ensures { KeepsSums (form_at heap.now) below (links_with (links_at heap.now link) keep child skip) result }
{
    let old = sums_of(heap, link);
    let gone = sum_before(old, skip);
    let until = sum_before(old, keep) + size(heap, child, below);
    let mut sums: ArrayVec<u32, ROW_LINKS> = ArrayVec::new();
    // There is room for 32, so that this refuses nothing.
    let _ = sums.try_extend_from_slice(&old[..keep]);
    sums.push(until);
    for place in skip..old.len() {
        sums.push(until + (old[place] - gone));
    }
    kept_sums(sums.as_slice(), below)
}

// The inner row over the first `keep` children of `link`, then `child`, then its children from the place `skip` on.
#[inline(always)]
pub(crate) fn inner_with<T>(
    heap: &mut Heap<T>,
    link: Link,
    below: u8,
    keep: usize,
    child: Link,
    skip: usize,
) -> Link
    requires { CanPlace heap.old below link keep child skip }
    ensures { PlacesChild heap.old heap.new below link keep child skip result }
{
    if stays_regular(heap, link, below, keep, child, skip) {
        return regular_with(heap, link, below, keep, child, skip);
    }
    if sums_of(heap, link).is_empty() {
        return read_with(heap, link, below, keep, child, skip);
    }
    summed_with(heap, link, below, keep, child, skip)
}

// The same where all its children but the last are full, so that it keeps no sums.
#[inline(always)]
fn regular_with<T>(
    heap: &mut Heap<T>,
    link: Link,
    below: u8,
    keep: usize,
    child: Link,
    skip: usize,
) -> Link
    requires place { CanPlace heap.old below link keep child skip }
    requires regular { IsRegular (form_at heap.old) below (links_with (links_at heap.old link) keep child skip) }
    ensures { PlacesChild heap.old heap.new below link keep child skip result }
{
    placed_with(heap, link, below, Sums::from_slice(&[]), keep, child, skip)
}

// The same where `link` keeps sums, which tell those of the new row.
#[inline(never)]
fn summed_with<T>(
    heap: &mut Heap<T>,
    link: Link,
    below: u8,
    keep: usize,
    child: Link,
    skip: usize,
) -> Link
    requires place { CanPlace heap.old below link keep child skip }
    requires some { 1 ≤ length (sums_at heap.old link) }
    ensures { PlacesChild heap.old heap.new below link keep child skip result }
{
    let sums = sums_beside(heap, link, below, keep, child, skip);
    placed_with(heap, link, below, sums, keep, child, skip)
}

// The same with the sums that it keeps.
#[inline(always)]
fn placed_with<T>(
    heap: &mut Heap<T>,
    link: Link,
    below: u8,
    sums: Sums,
    keep: usize,
    child: Link,
    skip: usize,
) -> Link
    requires place { CanPlace heap.old below link keep child skip }
    requires sums { KeepsSums (form_at heap.old) below (links_with (links_at heap.old link) keep child skip) sums }
    ensures { PlacesChild heap.old heap.new below link keep child skip result }
{
    let height = below + 1;
    node_with(heap, link, Head::Inner { height, sums }, keep, child, skip)
}

// The same where all its children are read for its sums.
#[inline(never)]
fn read_with<T>(
    heap: &mut Heap<T>,
    link: Link,
    below: u8,
    keep: usize,
    child: Link,
    skip: usize,
) -> Link
    requires { CanPlace heap.old below link keep child skip }
    ensures { PlacesChild heap.old heap.new below link keep child skip result }
{
    let mut room = [Link::default(); ROW_LINKS];
    let count = write_links_with(heap, &mut room[..], link, keep, child, skip);
    inner_over(heap, &room[..count], below)
}

// The leaf over the first `keep` elements of `link`, then `element`, then its elements from the place `skip` on.
#[inline(always)]
pub(crate) fn leaf_with<T>(
    heap: &mut Heap<T>,
    link: Link,
    keep: usize,
    element: Link,
    skip: usize,
) -> Link
    requires row { CanEdit heap.old 0 link }
    requires keep { keep ≤ length (links_at heap.old link) }
    requires skip { skip ≤ length (links_at heap.old link) }
    requires few { keep + 1 + (length (links_at heap.old link) - skip) ≤ 32 }
    requires held { 1 ≤ holds_at heap.old element }
    ensures edits { MakesRow heap.old heap.new (element ∷ []) 0 result (links_with (links_at heap.old link) keep element skip) }
    ensures links { links_at heap.new result ≡ links_with (links_at heap.old link) keep element skip }
{
    node_with(heap, link, Head::Leaf, keep, element, skip)
}

// The node with this head over the first `keep` links of `link`, then `middle`, then its links from the place `skip` on. Where it is
// `link` but for one link, the heap makes it by that change, and counts no owner of the other links.
#[inline(always)]
fn node_with<T>(
    heap: &mut Heap<T>,
    link: Link,
    head: Head,
    keep: usize,
    middle: Link,
    skip: usize,
) -> Link
    requires graph { IsGraph heap.old }
    requires live { IsSome (row_at heap.old link) }
    requires keep { keep ≤ length (links_at heap.old link) }
    requires skip { skip ≤ length (links_at heap.old link) }
    requires few { keep + 1 + (length (links_at heap.old link) - skip) ≤ 32 }
    requires held { 1 ≤ holds_at heap.old middle }
    requires spare { 1 ≤ heap.old.spare_nodes }
    requires holds { hold_count heap.old + 64 ≤ most_holds }
    ensures row { row_at heap.new result ≡ Some (node head (links_with (links_at heap.old link) keep middle skip)) }
    ensures builds { Builds heap.old heap.new (middle ∷ []) (result ∷ []) 0 1 }
{
    let old = heap.links(link).len();
    // A row without links has nothing to share.
    if keep == skip && old > 0 {
        return heap.with_inserted(link, head, keep, middle);
    }
    if keep + 1 == skip {
        return heap.with_replaced(link, head, keep, middle);
    }
    mixed_with(heap, link, head, keep, middle, skip)
}

// The same by a list of its links.
#[inline(never)]
fn mixed_with<T>(
    heap: &mut Heap<T>,
    link: Link,
    head: Head,
    keep: usize,
    middle: Link,
    skip: usize,
) -> Link
    requires graph { IsGraph heap.old }
    requires live { IsSome (row_at heap.old link) }
    requires keep { keep ≤ length (links_at heap.old link) }
    requires skip { skip ≤ length (links_at heap.old link) }
    requires few { keep + 1 + (length (links_at heap.old link) - skip) ≤ 32 }
    requires held { 1 ≤ holds_at heap.old middle }
    requires spare { 1 ≤ heap.old.spare_nodes }
    requires holds { hold_count heap.old + 64 ≤ most_holds }
    ensures row { row_at heap.new result ≡ Some (node head (links_with (links_at heap.old link) keep middle skip)) }
    ensures builds { Builds heap.old heap.new (middle ∷ []) (result ∷ []) 0 1 }
{
    let mut room = [Link::default(); ROW_LINKS];
    let count = write_links_with(heap, &mut room[..], link, keep, middle, skip);
    heap.node(head, &room[..count])
}
