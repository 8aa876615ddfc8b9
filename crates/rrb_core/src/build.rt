//! A vector of given elements, made at once: each row is full but the last of its height.
ghost use Rattle.std.specs.Prelude.{◌≡◌, ℕ, suc, ◌+◌, ◌*◌, ◌/◌, ◌^◌, ◌<◌, ◌≤◌, [], ◌∷◌, length, IfOk, IsOk, OnErr};
ghost use Rattle.node_heap.specs.Links.{count};
ghost use Rattle.node_heap.specs.Heap.{holds_at, hold_count, IsGraph, HasSpares, half_holds, most_holds};
ghost use Rattle.node_heap.specs.Calls.{Answered, Builds, KeepsToNeed, MakesJust};
ghost use Rattle.rrb_core.specs.Vector.{elements, IsGoodVector, IsSameVector};
ghost use Rattle.rrb_core.specs.Filled.{MakesFilled};

use crate::flex::Flex;
use crate::rows::{ROW_LINKS, full_size, inner_over, leaf_over};
use arrayvec::ArrayVec;
use elem_core::NoMemory;
use node_heap::{Heap, Link, MOST_HEIGHT};

/// The most nodes that a vector of so many elements made at once has.
pub fn vector_nodes(count: usize) -> usize
    requires { count < 2 ^ 32 }
    ensures { result ≡ count / 16 + 8 }
{
    count / 16 + 8
}

/// The vector of these elements, in time linear in them. Each of its rows is full but the last of a height. It spends a hold
/// for each place, and makes at most `vector_nodes` nodes. Refused only where memory runs out, and a refusal leaves the heap
/// as it was.
pub fn vector_of<T>(heap: &mut Heap<T>, links: &[Link]) -> Result<Flex, NoMemory>
    requires held { (l : ℕ) → count l links.now ≤ holds_at heap.old l }
    requires short { length links.now < 2 ^ 32 }
    requires few { hold_count heap.old < half_holds }
    ensures items { IfOk result (λ v. elements heap.new v ≡ links.now) }
    ensures good { IfOk result (λ v. IsGoodVector heap.new v) }
    ensures answered { IfOk result (λ v. Answered heap.old heap.new links.now v 0 (length links.now / 16 + 8)) }
    ensures made { IfOk result (λ _. MakesJust heap.old heap.new) }
    ensures spares { IfOk result (λ _. KeepsToNeed heap.old heap.new 0 (length links.now / 16 + 8)) }
    ensures vectors { (l : ℕ) → IsSameVector heap.old heap.new l }
    ensures refused { OnErr result (heap.new ≡ heap.old) }
    ensures ample { HasSpares heap.old 0 (length links.now / 16 + 8) → IsOk result }
{
    heap.reserve(0, vector_nodes(links.len()))?;
    Ok(vector_of_spares(heap, links))
}

/// The same vector, made of spares, of which there are enough: it refuses nothing.
pub fn vector_of_spares<T>(heap: &mut Heap<T>, links: &[Link]) -> Flex
    requires graph { IsGraph heap.old }
    requires held { (l : ℕ) → count l links.now ≤ holds_at heap.old l }
    requires short { length links.now < 2 ^ 32 }
    requires few { hold_count heap.old < half_holds }
    requires spare { HasSpares heap.old 0 (length links.now / 16 + 8) }
    ensures items { elements heap.new result ≡ links.now }
    ensures good { IsGoodVector heap.new result }
    ensures builds { Builds heap.old heap.new links.now (result ∷ []) 0 (length links.now / 16 + 8) }
    ensures vectors { (l : ℕ) → IsSameVector heap.old heap.new l }
{
    let height = lowest_height(links.len());
    let root = row_of(heap, links, height);
    Flex::from_root(root)
}

// The lowest height at which one row has room for so many elements.
fn lowest_height(count: usize) -> u8
    requires { count < 2 ^ 32 }
    ensures room { count ≤ 32 ^ suc result }
    ensures lowest { 1 ≤ result → 32 ^ result < count }
    ensures low { result < MOST_HEIGHT }
{
    let mut height = 0;
    while full_size(1, height + 1) < count as u64 {
        height += 1;
    }
    height
}

// The row of this height over these elements. Each row below it is full but the last of its height.
fn row_of<T>(heap: &mut Heap<T>, links: &[Link], height: u8) -> Link
    requires graph { IsGraph heap.old }
    requires held { (l : ℕ) → count l links.now ≤ holds_at heap.old l }
    requires some { 1 ≤ height → 1 ≤ length links.now }
    requires room { length links.now ≤ 32 ^ suc height }
    requires short { length links.now < 2 ^ 32 }
    requires low { height < MOST_HEIGHT }
    requires spare { length links.now / 16 + (height + 1) ≤ heap.old.spare_nodes }
    requires few { hold_count heap.old < most_holds }
    ensures { MakesFilled heap.old heap.new links.now height result }
{
    if height == 0 {
        return leaf_over(heap, links);
    }
    let below = height - 1;
    let full = full_size(1, height) as usize;
    let mut rows: ArrayVec<Link, ROW_LINKS> = ArrayVec::new();
    let mut done = 0;
    while done < links.len() {
        let end = links.len().min(done + full);
        rows.push(row_of(heap, &links[done..end], below));
        done = end;
    }
    inner_over(heap, rows.as_slice(), below)
}
