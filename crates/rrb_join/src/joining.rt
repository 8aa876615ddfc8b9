//! Two vectors as one.
ghost use Rattle.std.specs.Prelude.{◌≡◌, ◌≢◌, ◌↔◌, ℕ, max, ◌+◌, ◌*◌, ◌<◌, ◌≤◌, ◌^◌, [], ◌∷◌, ◌++◌, length, IfOk, OnErr, IsTrue, Err};
ghost use Rattle.node_heap.specs.Heap.{form_at, links_at, hold_count, IsGraph, HasSpares, half_holds, most_holds};
ghost use Rattle.node_heap.specs.Calls.{Answered, Builds, MakesJust, KeepsToNeed};
ghost use Rattle.rrb_core.specs.Seq.{IsThick};
ghost use Rattle.rrb_core.specs.Vector.{elements, height_at, IsGoodVector, IsSameVector};
ghost use Rattle.rrb_join.specs.Unmade.{IsSomeRow, CanJoin, EndsIn, BeginsWith};
ghost use Rattle.rrb_join.specs.Answers.{GivesItself, RisesAtNeed};
ghost use Rattle.rrb_join.specs.Seam.{AllStandBeside, AreAtNeed, JoinsRows, KeepsRows};
ghost use Rattle.rrb_join.specs.Joining.{JoinsToLinks, JoinsToRows};

use crate::over::{OneOrTwo, both_held, held_again, root_of, rows_over};
use elem_core::NoMemory;
use node_heap::{Heap, Link, MOST_HEIGHT};
use rrb_core::{Flex, FlexRef, Gathered, ROW_LINKS, gathered, height_of};
use thiserror::Error;

/// Why vectors were not joined.
#[derive(Clone, Copy, Debug, PartialEq, Eq, Error)]
pub enum JoinFault {
    /// The lengths sum past 2^32 - 1.
    #[error("the vectors are too long to be joined")]
    Long,
    /// Memory ran out.
    #[error("out of memory")]
    Memory,
}

impl From<NoMemory> for JoinFault {
    ghost use Rattle.rrb_join.specs.declared.joining.JoinFault.TheVariants.{Memory};

    ghost from_gives = { λ _ fault. fault ≡ Memory };

    fn from(_none: NoMemory) -> JoinFault {
        JoinFault::Memory
    }
}

/// The most nodes that a join, a cut or an insert makes along its seam: two for each height, and a root over
/// two.
pub const SEAM_NODES: usize = 2 * (MOST_HEIGHT as usize + 1) + 1;

/// The elements of `left` and then those of `right`. It makes rows along the seam alone, at most twice the height of
/// the higher vector and three more, so at most 17 nodes, and shares all others. Where one is empty it gives the other
/// itself, which takes no memory. The result is no higher than the higher vector, or one row higher where its root
/// needs two rows, which have more than 32 links together; and two vectors of one height, whose roots have at most 32
/// links together, give a vector of that height. Nor is a row further down split in vain: the rows of each height are
/// those of `left` but its last, then at most two, and two only where they have more than 32 links together, then those
/// of `right` but its first. Where, from the leaves up to a height, the last row of `left` has 16 links or more, and more
/// than 32 together with the first of `right`, the result has all rows of both at each of these heights. Refused with
/// `Long` where the lengths sum past 2^32 - 1, and with `Memory` where memory runs out. A refusal leaves the heap
/// as it was.
pub fn concat<T>(heap: &mut Heap<T>, left: FlexRef, right: FlexRef) -> Result<Flex, JoinFault>
    requires left_good { IsGoodVector heap.old left }
    requires right_good { IsGoodVector heap.old right }
    requires few { hold_count heap.old < half_holds }
    ensures items { IfOk result (λ v. elements heap.new v ≡ elements heap.old left ++ elements heap.old right) }
    ensures good { IfOk result (λ v. IsGoodVector heap.new v) }
    ensures flat { height_at heap.old left ≡ height_at heap.old right → length (links_at heap.old left) + length (links_at heap.old right) ≤ 32 → IfOk result (λ v. height_at heap.new v ≡ height_at heap.old left) }
    ensures low { IfOk result (λ v. RisesAtNeed heap.new (max (height_at heap.old left) (height_at heap.old right)) v) }
    ensures seam { IfOk result (λ v. JoinsRows heap.old heap.new left right v) }
    ensures keeps { IfOk result (λ v. KeepsRows heap.old heap.new left right v) }
    ensures answered { IfOk result (λ v. Answered heap.old heap.new [] v 0 (2 * max (height_at heap.old left) (height_at heap.old right) + 3)) }
    ensures made { IfOk result (λ v. MakesJust heap.old heap.new) }
    ensures spares { IfOk result (λ _. KeepsToNeed heap.old heap.new 0 17) }
    ensures left_empty { elements heap.old left ≡ [] → GivesItself heap.old heap.new result right }
    ensures right_empty { elements heap.old left ≢ [] → elements heap.old right ≡ [] → GivesItself heap.old heap.new result left }
    ensures vectors { (l : ℕ) → IsSameVector heap.old heap.new l }
    ensures refused { OnErr result (heap.new ≡ heap.old) }
    ensures long { (result ≡ Err JoinFault.Long) ↔ (2 ^ 32 ≤ length (elements heap.old left) + length (elements heap.old right)) }
    ensures ample { HasSpares heap.old 0 17 → result ≢ Err JoinFault.Memory }
{
    let left_len = left.len(heap);
    let right_len = right.len(heap);
    if left_len == 0 {
        return Ok(right.share(heap));
    }
    if right_len == 0 {
        return Ok(left.share(heap));
    }
    if right_len > u32::MAX - left_len {
        return Err(JoinFault::Long);
    }
    heap.reserve(0, SEAM_NODES)?;
    Ok(Flex::from_root(joined_root(heap, left.root(), right.root())))
}

// The root of the elements of two vectors, one after the other.
pub(crate) fn joined_root<T>(heap: &mut Heap<T>, left: Link, right: Link) -> Link
    requires graph { IsGraph heap.old }
    requires left_good { IsGoodVector heap.old left }
    requires right_good { IsGoodVector heap.old right }
    requires short { length (elements heap.old left) + length (elements heap.old right) < 2 ^ 32 }
    requires spare { SEAM_NODES ≤ heap.old.spare_nodes }
    requires holds { hold_count heap.old + 128 ≤ most_holds }
    ensures items { elements heap.new result ≡ elements heap.old left ++ elements heap.old right }
    ensures good { IsGoodVector heap.new result }
    ensures flat { height_at heap.old left ≡ height_at heap.old right → length (links_at heap.old left) + length (links_at heap.old right) ≤ 32 → height_at heap.new result ≡ height_at heap.old left }
    ensures low { RisesAtNeed heap.new (max (height_at heap.old left) (height_at heap.old right)) result }
    ensures seam { JoinsRows heap.old heap.new left right result }
    ensures keeps { KeepsRows heap.old heap.new left right result }
    ensures builds { Builds heap.old heap.new [] (result ∷ []) 0 (2 * max (height_at heap.old left) (height_at heap.old right) + 3) }
{
    if heap.links(left).is_empty() {
        return held_again(heap, right);
    }
    if heap.links(right).is_empty() {
        return held_again(heap, left);
    }
    let left_height = height_of(heap, left);
    let right_height = height_of(heap, right);
    let height = left_height.max(right_height);
    let rows = joined_rows(heap, left, left_height, right, right_height, height);
    root_of(heap, rows.as_slice(), height)
}

// A row at the edge of another, and the place up to which the other's links stand beside it, or from which on.
#[derive(Drop)]
struct Edge {
    link: Link,
    height: u8,
    place: usize,
}

// What stands last in a row, as a row no higher than `below`: its last child, or a low row itself.
fn last_edge<T>(heap: &Heap<T>, link: Link, height: u8, below: u8) -> Edge
    requires graph { IsGraph heap.now }
    requires row { IsSomeRow heap.now height link }
    requires low { height ≤ below + 1 }
    ensures { EndsIn heap.now below height link result.place result.height result.link }
{
    if height <= below {
        return Edge {
            link,
            height,
            place: 0,
        };
    }
    let links = heap.links(link);
    let place = links.len() - 1;
    Edge {
        link: links[place],
        height: below,
        place,
    }
}

// What stands first in a row, as a row no higher than `below`: its first child, or a low row itself.
fn first_edge<T>(heap: &Heap<T>, link: Link, height: u8, below: u8) -> Edge
    requires graph { IsGraph heap.now }
    requires row { IsSomeRow heap.now height link }
    requires low { height ≤ below + 1 }
    ensures { BeginsWith heap.now below height link result.place result.height result.link }
{
    let links = heap.links(link);
    if height <= below {
        return Edge {
            link,
            height,
            place: links.len(),
        };
    }
    Edge {
        link: links[0],
        height: below,
        place: 1,
    }
}

// Whether the rows along the seam of two rows of this height can stand side by side, at this height and at each below.
fn stand_beside<T>(heap: &Heap<T>, left: Link, right: Link, height: u8) -> bool
    requires left { IsSomeRow heap.now height left }
    requires right { IsSomeRow heap.now height right }
    ensures { IsTrue result ↔ AllStandBeside heap.now height left height right height }
{
    let front = heap.links(left);
    let back = heap.links(right);
    if front.len() < ROW_LINKS / 2 || front.len() + back.len() <= ROW_LINKS {
        return false;
    }
    if height == 0 {
        return true;
    }
    stand_beside(heap, front[front.len() - 1], back[0], height - 1)
}

// Whether two rows that are no higher than this height both have it, and can stand side by side there and at each below.
fn can_keep<T>(
    heap: &Heap<T>,
    left: Link,
    left_height: u8,
    right: Link,
    right_height: u8,
    height: u8,
) -> bool
    requires left { IsSomeRow heap.now left_height left }
    requires right { IsSomeRow heap.now right_height right }
    requires left_low { left_height ≤ height }
    requires right_low { right_height ≤ height }
    ensures { IsTrue result ↔ AllStandBeside heap.now left_height left right_height right height }
{
    if left_height < height || right_height < height {
        return false;
    }
    stand_beside(heap, left, right, height)
}

// The rows of this height, one or two, with the elements of `left` and then those of `right`. Neither is higher. Two that
// have it, and can stand side by side there and at each height below, stay as they are.
#[cycle(join)]
fn joined_rows<T>(
    heap: &mut Heap<T>,
    left: Link,
    left_height: u8,
    right: Link,
    right_height: u8,
    height: u8,
) -> OneOrTwo
    requires rows { CanJoin heap.old left_height left right_height right height }
    requires spare { 2 * height + 2 ≤ heap.old.spare_nodes }
    ensures joins { JoinsToRows heap.old heap.new left_height left right_height right height result.items }
    ensures need { AreAtNeed heap.new 2 result.items }
{
    if can_keep(heap, left, left_height, right, right_height, height) {
        return both_held(heap, left, right);
    }
    let links = join(heap, left, left_height, right, right_height, height);
    rows_over(heap, links.as_slice(), height)
}

// The links of one row of this height or of two, with the elements of `left` and then those of `right`. Neither is higher.
// Above leaves the children at the seam are joined, and the other children stand beside them.
#[cycle(join)]
fn join<T>(
    heap: &mut Heap<T>,
    left: Link,
    left_height: u8,
    right: Link,
    right_height: u8,
    height: u8,
) -> Gathered
    requires rows { CanJoin heap.old left_height left right_height right height }
    requires spare { 2 * height ≤ heap.old.spare_nodes }
    ensures joins { JoinsToLinks heap.old heap.new left_height left right_height right height result.items }
    ensures half { right_height ≡ height → IsThick (form_at heap.old) height right → 16 ≤ length result.items }
{
    if height == 0 {
        let end = heap.links(left).len();
        return gathered(heap, left, end, &[], right, 0);
    }
    let below = height - 1;
    let last = last_edge(heap, left, left_height, below);
    let first = first_edge(heap, right, right_height, below);
    let rows = joined_rows(
        heap,
        last.link,
        last.height,
        first.link,
        first.height,
        below,
    );
    gathered(heap, left, last.place, rows.as_slice(), right, first.place)
}
