//! Parts of a vector.
ghost use Rattle.std.specs.Prelude.{◌≡◌, ◌≢◌, ◌↔◌, ℕ, ◌+◌, ◌*◌, ◌<◌, ◌≤◌, [], ◌++◌, length, take, drop, IfOk, OnErr, IsOk, IsTrue, Err};
ghost use Rattle.node_heap.specs.Heap.{hold_count, HasSpares, IsGraph, half_holds};
ghost use Rattle.node_heap.specs.Calls.{Answered, MakesJust, KeepsToNeed};
ghost use Rattle.rrb_core.specs.Vector.{elements, height_at, IsGoodVector, IsSameVector};
ghost use Rattle.rrb_join.specs.Answers.{GivesItself, IsPart, RisesAtNeed};
ghost use Rattle.rrb_join.specs.Seam.{DropsRows, SlicesRows, HasNoMoreRows, ErasesRows};

use crate::joining::{SEAM_NODES, joined_root};
use crate::rests::rest_root;
use elem_core::NoMemory;
use node_heap::{Heap, Link};
use rrb_core::{Flex, FlexRef, TAKE_NODES, take};
use thiserror::Error;

/// Why a part of a vector was not given, or not erased.
#[derive(Clone, Copy, Debug, PartialEq, Eq, Error)]
pub enum SliceFault {
    /// The part ends before it begins, or past the length.
    #[error("the part is out of range")]
    Range,
    /// Memory ran out.
    #[error("out of memory")]
    Memory,
}

impl From<NoMemory> for SliceFault {
    ghost use Rattle.rrb_join.specs.declared.cutting.SliceFault.TheVariants.{Memory};

    ghost from_gives = { λ _ fault. fault ≡ Memory };

    fn from(_none: NoMemory) -> SliceFault {
        SliceFault::Memory
    }
}

/// The vector without its first `count` elements, which is the empty one past the end. It makes rows along the cut alone,
/// at most twice the height of the rest and one more, so at most 15 nodes, and shares all others. The rest is no higher
/// than the vector, and no row is split in vain: at each height it has at most two rows, and two only where they have more
/// than 32 links together, then the last rows of the vector; and no more rows than those in which it lies. With a count
/// of 0 it gives the vector itself, which takes no memory. Refused only where memory runs out. A refusal leaves the heap
/// as it was.
pub fn drop_front<T>(heap: &mut Heap<T>, vector: FlexRef, count: u32) -> Result<Flex, NoMemory>
    requires good { IsGoodVector heap.old vector }
    requires few { hold_count heap.old < half_holds }
    ensures items { IfOk result (λ v. elements heap.new v ≡ drop count (elements heap.old vector)) }
    ensures good { IfOk result (λ v. IsGoodVector heap.new v) }
    ensures low { IfOk result (λ v. height_at heap.new v ≤ height_at heap.old vector) }
    ensures seam { IfOk result (λ v. DropsRows heap.old heap.new vector v) }
    ensures within { IfOk result (λ v. HasNoMoreRows heap.old heap.new vector count (length (elements heap.old vector)) v) }
    ensures answered { IfOk result (λ v. Answered heap.old heap.new [] v 0 (2 * height_at heap.new v + 1)) }
    ensures made { IfOk result (λ v. MakesJust heap.old heap.new) }
    ensures spares { IfOk result (λ _. KeepsToNeed heap.old heap.new 0 17) }
    ensures none { count ≡ 0 → GivesItself heap.old heap.new result vector }
    ensures vectors { (l : ℕ) → IsSameVector heap.old heap.new l }
    ensures refused { OnErr result (heap.new ≡ heap.old) }
    ensures ample { HasSpares heap.old 0 17 → IsOk result }
{
    if count == 0 {
        return Ok(vector.share(heap));
    }
    heap.reserve(0, SEAM_NODES)?;
    Ok(Flex::from_root(rest_root(heap, vector.root(), count)))
}

// Whether the indices begin and end a part of the vector.
fn is_part<T>(heap: &Heap<T>, vector: FlexRef, from: u32, to: u32) -> bool
    requires { IsGoodVector heap.now vector }
    ensures test { IsTrue result ↔ IsPart from to (elements heap.now vector) }
    ensures graph { IsGraph heap.now }
{
    let len = vector.len(heap);
    from <= to && to <= len
}

/// The elements from the index `from` to the one before `to`. It makes at most three times the height of the vector and two
/// more nodes, so at most 23, and gives up again what it made on the way. The slice is no higher than the vector. At each
/// height it has at most two rows, and two only where they have more than 32 links together, then a part of the vector's
/// rows, then at most one more; and no more rows than those in which it lies, so one at most of a height where all of it
/// lies in one. Where it is the whole vector it gives the vector itself, which takes no memory. Refused with `Range` unless
/// `from` is at most `to` and `to` at most the length, and with `Memory` where memory runs out. A refusal leaves the
/// heap as it was.
pub fn slice<T: Drop>(
    heap: &mut Heap<T>,
    vector: FlexRef,
    from: u32,
    to: u32,
) -> Result<Flex, SliceFault>
    requires good { IsGoodVector heap.old vector }
    requires few { hold_count heap.old < half_holds }
    ensures items { IfOk result (λ v. elements heap.new v ≡ drop from (take to (elements heap.old vector))) }
    ensures good { IfOk result (λ v. IsGoodVector heap.new v) }
    ensures low { IfOk result (λ v. height_at heap.new v ≤ height_at heap.old vector) }
    ensures seam { IfOk result (λ v. SlicesRows heap.old heap.new vector v) }
    ensures within { IfOk result (λ v. HasNoMoreRows heap.old heap.new vector from to v) }
    ensures answered { IfOk result (λ v. Answered heap.old heap.new [] v 0 (3 * height_at heap.old vector + 2)) }
    ensures made { IfOk result (λ v. heap.new.made ≤ heap.old.made + (3 * height_at heap.old vector + 2)) }
    ensures spares { IfOk result (λ _. KeepsToNeed heap.old heap.new 0 25) }
    ensures all { from ≡ 0 → to ≡ length (elements heap.old vector) → GivesItself heap.old heap.new result vector }
    ensures vectors { (l : ℕ) → IsSameVector heap.old heap.new l }
    ensures refused { OnErr result (heap.new ≡ heap.old) }
    ensures range { (result ≡ Err SliceFault.Range) ↔ (¬ IsPart from to (elements heap.old vector)) }
    ensures ample { HasSpares heap.old 0 25 → result ≢ Err SliceFault.Memory }
{
    if !is_part(heap, vector, from, to) {
        return Err(SliceFault::Range);
    }
    if from == 0 && to == vector.len(heap) {
        return Ok(vector.share(heap));
    }
    heap.reserve(0, TAKE_NODES + SEAM_NODES)?;
    let front = take(heap, vector, to)?;
    let root = rest_root(heap, front.view().root(), from);
    front.release(heap);
    Ok(Flex::from_root(root))
}

/// The vector without the elements from the index `from` to the one before `to`. It makes at most five times the
/// height of the vector and five more nodes, so at most 40, and gives up again what it made on the way. The vector grows one
/// row higher at most, and only where its root needs two rows, which have more than 32 links together: a cut inside a
/// row of 32 links can leave one row more. At each height it has the first rows of the vector, then at most three, of
/// which each two neighbours have more than 32 links together, then the last rows of the vector; three may have links
/// that two could hold. Where it erases nothing it gives the vector itself, which takes no memory. Refused with `Range`
/// unless `from` is at most `to` and `to` at most the length, and with `Memory` where memory runs out. A refusal leaves
/// the heap as it was.
pub fn erase<T: Drop>(
    heap: &mut Heap<T>,
    vector: FlexRef,
    from: u32,
    to: u32,
) -> Result<Flex, SliceFault>
    requires good { IsGoodVector heap.old vector }
    requires few { hold_count heap.old < half_holds }
    ensures items { IfOk result (λ v. elements heap.new v ≡ take from (elements heap.old vector) ++ drop to (elements heap.old vector)) }
    ensures good { IfOk result (λ v. IsGoodVector heap.new v) }
    ensures low { IfOk result (λ v. RisesAtNeed heap.new (height_at heap.old vector) v) }
    ensures seam { IfOk result (λ v. ErasesRows heap.old heap.new vector v) }
    ensures answered { IfOk result (λ v. Answered heap.old heap.new [] v 0 (5 * height_at heap.old vector + 5)) }
    ensures made { IfOk result (λ v. heap.new.made ≤ heap.old.made + (5 * height_at heap.old vector + 5)) }
    ensures spares { IfOk result (λ _. KeepsToNeed heap.old heap.new 0 42) }
    ensures none { from ≡ to → to ≤ length (elements heap.old vector) → GivesItself heap.old heap.new result vector }
    ensures vectors { (l : ℕ) → IsSameVector heap.old heap.new l }
    ensures refused { OnErr result (heap.new ≡ heap.old) }
    ensures range { (result ≡ Err SliceFault.Range) ↔ (¬ IsPart from to (elements heap.old vector)) }
    ensures ample { HasSpares heap.old 0 42 → result ≢ Err SliceFault.Memory }
{
    if !is_part(heap, vector, from, to) {
        return Err(SliceFault::Range);
    }
    if from == to {
        return Ok(vector.share(heap));
    }
    heap.reserve(0, TAKE_NODES + 2 * SEAM_NODES)?;
    let front = take(heap, vector, from)?;
    let back = rest_root(heap, vector.root(), to);
    let root = joined_root(heap, front.view().root(), back);
    front.release(heap);
    heap.release(back);
    Ok(Flex::from_root(root))
}
