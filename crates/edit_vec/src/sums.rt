//! The sums that a row keeps once its last child has an element more or less, or a last child came or went: worked out from those
//! that it kept.
ghost use Rattle.std.specs.Prelude.{◌≡◌, ℕ, suc, ◌+◌, ◌-◌, ◌^◌, ◌<◌, ◌≤◌, Some, [], length, take, slice_index};
ghost use Rattle.std.specs.List.{flat_map};
ghost use Rattle.node_heap.specs.Forms.{node, inner};
ghost use Rattle.node_heap.specs.Heap.{form_at, links_at, owners_at, IsGraph};
ghost use Rattle.node_heap.specs.Calls.{KeepsOwners, Makes};
ghost use Rattle.node_heap.specs.InPlace.{Writes, Changes};
ghost use Rattle.rrb_core.specs.Seq.{seq_at, IsWell};
ghost use Rattle.rrb_core.specs.Vector.{IsRegular, KeepsSums, HasSums, sums_at};
ghost use Rattle.rrb_core.specs.Build.{AreRows};
ghost use Rattle.rrb_core.specs.Push.{last_in};
ghost use Rattle.edit_vec.specs.Steps.{with_last, grown, shrunk};

use arrayvec::ArrayVec;
use node_heap::{Head, Heap, Link, MOST_HEIGHT, Sums};
use rrb_core::{full_size, size, sums_of, sums_over};

// Puts these sums at an inner row with one owner. Where it keeps none and is to keep none, nothing is written.
pub(crate) fn put_sums<T>(heap: &mut Heap<T>, row: Link, height: u8, sums: Sums)
    requires graph { IsGraph heap.old }
    requires sole { owners_at heap.old row ≡ 1 }
    requires inner { form_at heap.old row ≡ Some (node (inner height) (links_at heap.old row)) }
    ensures writes { Writes heap.old heap.new row (Some (Head.Inner height sums)) (links_at heap.old row) }
    ensures owners { KeepsOwners heap.old heap.new }
    ensures changes { Changes row heap.old heap.new [] [] 0 0 }
    ensures makes { Makes heap.old heap.new 0 0 }
{
    if sums.as_slice().is_empty() && sums_of(heap, row).is_empty() {
        return;
    }
    heap.set_head(row, Head::Inner { height, sums });
}

// Adds one to the last of the sums that an inner row with one owner keeps. One that keeps none isn't written.
#[inline]
pub(crate) fn grow_sums<T>(heap: &mut Heap<T>, row: Link, height: u8)
    requires graph { IsGraph heap.old }
    requires sole { owners_at heap.old row ≡ 1 }
    requires inner { form_at heap.old row ≡ Some (node (inner height) (links_at heap.old row)) }
    requires few { length (sums_at heap.old row) ≤ 32 }
    requires short { slice_index (sums_at heap.old row) (length (sums_at heap.old row) - 1) + 1 < 2 ^ 32 }
    ensures writes { Writes heap.old heap.new row (Some (Head.Inner height (grown (sums_at heap.old row)))) (links_at heap.old row) }
    ensures owners { KeepsOwners heap.old heap.new }
    ensures changes { Changes row heap.old heap.new [] [] 0 0 }
    ensures makes { Makes heap.old heap.new 0 0 }
{
    if sums_of(heap, row).is_empty() {
        return;
    }
    grow_kept_sums(heap, row, height);
}

// The same where it keeps some. It is apart, since most rows keep none, and what a function holds is cleared when it begins.
#[inline(never)]
fn grow_kept_sums<T>(heap: &mut Heap<T>, row: Link, height: u8)
    requires graph { IsGraph heap.old }
    requires sole { owners_at heap.old row ≡ 1 }
    requires inner { form_at heap.old row ≡ Some (node (inner height) (links_at heap.old row)) }
    requires few { length (sums_at heap.old row) ≤ 32 }
    requires short { slice_index (sums_at heap.old row) (length (sums_at heap.old row) - 1) + 1 < 2 ^ 32 }
    requires some { 1 ≤ length (sums_at heap.old row) }
    ensures writes { Writes heap.old heap.new row (Some (Head.Inner height (grown (sums_at heap.old row)))) (links_at heap.old row) }
    ensures owners { KeepsOwners heap.old heap.new }
    ensures changes { Changes row heap.old heap.new [] [] 0 0 }
    ensures makes { Makes heap.old heap.new 0 0 }
{
    let known = sums_of(heap, row);
    let sums = sums_with_last(known, known[known.len() - 1] + 1);
    heap.set_head(row, Head::Inner { height, sums });
}

// These sums with another last.
pub(crate) fn sums_with_last(known: &[u32], sum: u32) -> Sums
    requires some { 1 ≤ length known.now }
    requires few { length known.now ≤ 32 }
    ensures { result ≡ with_last known.now sum }
{
    let mut sums: ArrayVec<u32, 32> = ArrayVec::new();
    // There is room for 32, so that this refuses nothing.
    let _ = sums.try_extend_from_slice(&known[..known.len() - 1]);
    sums.push(sum);
    Sums::from_slice(sums.as_slice())
}

// What an inner row is to keep of sums to which a last child over one element has come, behind the others, of which it still has
// the sums.
pub(crate) fn sums_beside<T>(heap: &Heap<T>, row: Link, below: u8) -> Sums
    requires rows { AreRows heap.now below (links_at heap.now row) }
    requires kept { KeepsSums (form_at heap.now) below (take (length (links_at heap.now row) - 1) (links_at heap.now row)) (sums_at heap.now row) }
    requires one { length (seq_at (form_at heap.now) below (last_in (form_at heap.now) row)) ≡ 1 }
    requires two { 2 ≤ length (links_at heap.now row) }
    requires few { length (links_at heap.now row) ≤ 32 }
    requires low { below < MOST_HEIGHT }
    requires short { length (flat_map (seq_at (form_at heap.now) below) (links_at heap.now row)) < 2 ^ 32 }
    ensures { KeepsSums (form_at heap.now) below (links_at heap.now row) result }
{
    let known = sums_of(heap, row);
    if known.is_empty() {
        return sums_after(heap, row, below);
    }
    let mut sums: ArrayVec<u32, 32> = ArrayVec::new();
    // There is room for 32, so that this refuses nothing.
    let _ = sums.try_extend_from_slice(known);
    sums.push(known[known.len() - 1] + 1);
    Sums::from_slice(sums.as_slice())
}

// The same where the others are regular: none if the last of them is full, and else the children's are all read.
fn sums_after<T>(heap: &Heap<T>, row: Link, below: u8) -> Sums
    requires rows { AreRows heap.now below (links_at heap.now row) }
    requires regular { IsRegular (form_at heap.now) below (take (length (links_at heap.now row) - 1) (links_at heap.now row)) }
    requires two { 2 ≤ length (links_at heap.now row) }
    requires few { length (links_at heap.now row) ≤ 32 }
    requires low { below < MOST_HEIGHT }
    requires short { length (flat_map (seq_at (form_at heap.now) below) (links_at heap.now row)) < 2 ^ 32 }
    ensures { KeepsSums (form_at heap.now) below (links_at heap.now row) result }
{
    let links = heap.links(row);
    let before = size(heap, links[links.len() - 2], below);
    if u64::from(before) == full_size(1, below + 1) {
        return Sums::from_slice(&[]);
    }
    sums_over(heap, links, below)
}

// Takes one from the last of the sums that an inner row with one owner keeps. One that keeps none isn't written.
pub(crate) fn shrink_sums<T>(heap: &mut Heap<T>, row: Link, height: u8)
    requires graph { IsGraph heap.old }
    requires sole { owners_at heap.old row ≡ 1 }
    requires inner { form_at heap.old row ≡ Some (node (inner height) (links_at heap.old row)) }
    requires few { length (sums_at heap.old row) ≤ 32 }
    requires some { 1 ≤ length (sums_at heap.old row) → 1 ≤ slice_index (sums_at heap.old row) (length (sums_at heap.old row) - 1) }
    ensures writes { Writes heap.old heap.new row (Some (Head.Inner height (shrunk (sums_at heap.old row)))) (links_at heap.old row) }
    ensures owners { KeepsOwners heap.old heap.new }
    ensures changes { Changes row heap.old heap.new [] [] 0 0 }
    ensures makes { Makes heap.old heap.new 0 0 }
{
    let known = sums_of(heap, row);
    if known.is_empty() {
        return;
    }
    let sums = sums_with_last(known, known[known.len() - 1] - 1);
    heap.set_head(row, Head::Inner { height, sums });
}

// What a row is to keep of sums once its last child is gone: those before, and none where all children but the last are full
// then.
pub(crate) fn sums_without_last<T>(heap: &Heap<T>, row: Link, below: u8) -> Sums
    requires well { IsWell (form_at heap.now) (suc below) row }
    requires sums { HasSums heap.now (suc below) row }
    requires two { 2 ≤ length (links_at heap.now row) }
    requires low { below < MOST_HEIGHT }
    ensures { KeepsSums (form_at heap.now) below (take (length (links_at heap.now row) - 1) (links_at heap.now row)) result }
{
    let known = sums_of(heap, row);
    if known.is_empty() {
        return Sums::from_slice(&[]);
    }
    let last = known.len() - 2;
    let before = if last == 0 { 0 } else { known[last - 1] };
    if u64::from(before) == full_size(last, below + 1) {
        return Sums::from_slice(&[]);
    }
    Sums::from_slice(&known[..last + 1])
}
