//! Lists of slots, with their free ones on a stack.
ghost use Rattle.std.specs.Prelude.{vec_len, vec_capacity, ◌≡◌, ◌+◌, ◌<◌, ◌≤◌, [], ◌∷◌, ◌++◌, length, Some, None, IsSome, OnOk, IsOk, slice_index_or, slice_set};
ghost use Rattle.node_heap.specs.Heap.{row_limit};
ghost use Rattle.node_heap.specs.Inside.{IsFree, FillsSlot, Covers};
ghost use Rattle.node_heap.specs.Nodes.{node_links};
ghost use Rattle.node_heap.specs.Small.{here};

use crate::row::Link;
use crate::slot_kinds::{CellSlot, LargeSlot, SmallSlot};
use std::alloc::AllocError;
use std::mem;

// What the slot holds.
pub(crate) fn slot<X>(slots: &Vec<Option<X>>, place: usize) -> &X
    requires { IsSome (slice_index_or slots.now.items place None) }
    ensures { slice_index_or slots.now.items place None ≡ Some result.now }
{
    match &slots[place] {
        Some(value) => value,
        None => unreachable!(),
    }
}

// Room for so many in all, and for twice as many as there was room for, so that it seldom grows.
pub(crate) fn roomier(total: usize, room: usize) -> usize
    requires few { total < row_limit }
    requires old { room < row_limit }
    ensures suffices { total ≤ result }
    ensures few { result < row_limit }
{
    total.max((2 * room).min(ROWS - 1))
}

// One more than the greatest number of rows, spares among them.
pub(crate) const ROWS: usize = 0x0100_0000_0000_0000;

// Makes room, so that the list has so many slots in all, of which no more are in use.
pub(crate) fn cover<X>(
    slots: &mut Vec<X>,
    free: &mut Vec<usize>,
    total: usize,
) -> Result<(), AllocError>
    requires few { total < row_limit }
    requires short { vec_len slots.old ≤ total }
    requires inside { vec_len free.old ≤ vec_len slots.old }
    ensures slots { slots.new.items ≡ slots.old.items }
    ensures free { free.new.items ≡ free.old.items }
    ensures room { OnOk result (total ≤ vec_capacity slots.new) }
    ensures free_room { OnOk result (total ≤ vec_capacity free.new) }
    ensures grows { vec_capacity slots.old ≤ vec_capacity slots.new }
    ensures free_grows { vec_capacity free.old ≤ vec_capacity free.new }
{
    slots.reserve(total - slots.len())?;
    free.reserve(total - free.len())?;
    Ok(())
}

// Makes room for so many cells in all, where there is less, and mostly for more.
pub(crate) fn reserve_cells<T>(
    cells: &mut Vec<CellSlot<T>>,
    free: &mut Vec<usize>,
    room: &mut usize,
    total: usize,
) -> Result<(), AllocError>
    requires few { total < row_limit }
    requires old { room.old < row_limit }
    requires covers { Covers cells.old.items free.old.items (vec_capacity cells.old) (vec_capacity free.old) room.old }
    ensures cells { cells.new.items ≡ cells.old.items }
    ensures free { free.new.items ≡ free.old.items }
    ensures few { room.new < row_limit }
    ensures grows { room.old ≤ room.new }
    ensures covers { Covers cells.new.items free.new.items (vec_capacity cells.new) (vec_capacity free.new) room.new }
    ensures suffices { OnOk result (total ≤ room.new) }
    ensures ample { total ≤ room.old → IsOk result }
{
    if total <= *room {
        return Ok(());
    }
    let more = roomier(total, *room);
    cover(cells, free, more)?;
    *room = more;
    Ok(())
}

// Puts the value in a free slot, or in a new one where none is free. Answers which.
pub(crate) fn put<X>(slots: &mut Vec<Option<X>>, free: &mut Vec<usize>, value: X) -> usize
    requires free { IsFree slots.old.items free.old.items }
    requires room { vec_len slots.old < vec_capacity slots.old + vec_len free.old }
    ensures fills { FillsSlot slots.old.items free.old.items slots.new.items free.new.items result value }
    ensures capacity { vec_capacity slots.new ≡ vec_capacity slots.old }
    ensures free_capacity { vec_capacity free.new ≡ vec_capacity free.old }
{
    match free.pop() {
        Some(place) => match mem::replace(&mut slots[place], Some(value)) {
            None => place,
            Some(_) => unreachable!(),
        },
        None => {
            let place = slots.len();
            slots.push_reserved(Some(value));
            place
        }
    }
}

// Puts a cell with this value and one owner in a free slot, or in a new one where none is free. Answers which.
pub(crate) fn put_cell<T>(cells: &mut Vec<CellSlot<T>>, free: &mut Vec<usize>, value: T) -> usize
    requires free { IsFree cells.old.items free.old.items }
    requires room { vec_len cells.old < vec_capacity cells.old + vec_len free.old }
    ensures fills { FillsSlot cells.old.items free.old.items cells.new.items free.new.items result (record { owners = 1; value = value }) }
    ensures capacity { vec_capacity cells.new ≡ vec_capacity cells.old }
    ensures free_capacity { vec_capacity free.new ≡ vec_capacity free.old }
{
    match free.pop() {
        Some(place) => {
            cells[place].fill(value);
            place
        }
        None => {
            let place = cells.len();
            cells.push_reserved(CellSlot::of(value));
            place
        }
    }
}

// Gives up the cell in the slot, which is free then.
pub(crate) fn empty_cell<T: Drop>(cells: &mut Vec<CellSlot<T>>, free: &mut Vec<usize>, place: usize)
    requires some { IsSome (slice_index_or cells.old.items place None) }
    requires free { IsFree cells.old.items free.old.items }
    requires room { vec_len free.old < vec_capacity free.old }
    ensures slots { cells.new.items ≡ slice_set cells.old.items place None }
    ensures free { IsFree cells.new.items free.new.items }
    ensures capacity { vec_capacity cells.new ≡ vec_capacity cells.old }
    ensures free_capacity { vec_capacity free.new ≡ vec_capacity free.old }
{
    cells[place].empty();
    free.push_reserved(place);
}

// Puts a node with one owner and these links in a free slot, or in a new one where none is free. Answers which.
pub(crate) fn put_small<S: Copy, const N: usize>(
    small: &mut Vec<SmallSlot<S, N>>,
    free: &mut Vec<usize>,
    head: S,
    links: &[Link],
) -> usize
    requires free { IsFree small.old.items free.old.items }
    requires room { vec_len small.old < vec_capacity small.old + vec_len free.old }
    requires few { length links.now ≤ N }
    requires fits { N < 256 }
    ensures fills { FillsSlot small.old.items free.old.items small.new.items free.new.items result (record { owners = 1; head = here head; links = links.now }) }
    ensures capacity { vec_capacity small.new ≡ vec_capacity small.old }
    ensures free_capacity { vec_capacity free.new ≡ vec_capacity free.old }
{
    match free.pop() {
        Some(place) => {
            small[place].fill(1, head, links);
            place
        }
        None => {
            let place = small.len();
            small.push_reserved(SmallSlot::of(1, head, links));
            place
        }
    }
}

// Gives up the node in the slot, which is free then.
pub(crate) fn empty_small<S: Copy, const N: usize>(
    small: &mut Vec<SmallSlot<S, N>>,
    free: &mut Vec<usize>,
    place: usize,
)
    requires some { IsSome (slice_index_or small.old.items place None) }
    requires free { IsFree small.old.items free.old.items }
    requires room { vec_len free.old < vec_capacity free.old }
    ensures slots { small.new.items ≡ slice_set small.old.items place None }
    ensures free { IsFree small.new.items free.new.items }
    ensures capacity { vec_capacity small.new ≡ vec_capacity small.old }
    ensures free_capacity { vec_capacity free.new ≡ vec_capacity free.old }
{
    small[place].empty();
    free.push_reserved(place);
}

// Puts a slot with this node, which has one owner, behind the others.
#[inline(never)]
fn push_large<L: Copy>(large: &mut Vec<LargeSlot<L>>, head: L, links: &[Link])
    requires room { vec_len large.old < vec_capacity large.old }
    requires short { length links.now ≤ 32 }
    ensures items { large.new.items ≡ large.old.items ++ Some (record { owners = 1; head = head; links = links.now }) ∷ [] }
    ensures len { vec_len large.new ≡ vec_len large.old + 1 }
    ensures capacity { vec_capacity large.new ≡ vec_capacity large.old }
{
    let place = large.len();
    // The node is written where it is to lie, which spares a copy of its links.
    large.push_reserved(LargeSlot::blank(head));
    large[place].fill(head, links);
}

// Puts a node with one owner and these links in a free slot, or in a new one where none is free. Answers which.
#[inline(always)]
pub(crate) fn put_large<L: Copy>(
    large: &mut Vec<LargeSlot<L>>,
    free: &mut Vec<usize>,
    head: L,
    links: &[Link],
) -> usize
    requires free { IsFree large.old.items free.old.items }
    requires room { vec_len large.old < vec_capacity large.old + vec_len free.old }
    requires short { length links.now ≤ 32 }
    ensures fills { FillsSlot large.old.items free.old.items large.new.items free.new.items result (record { owners = 1; head = head; links = links.now }) }
    ensures capacity { vec_capacity large.new ≡ vec_capacity large.old }
    ensures free_capacity { vec_capacity free.new ≡ vec_capacity free.old }
{
    match free.pop() {
        Some(place) => {
            large[place].fill(head, links);
            place
        }
        None => {
            let place = large.len();
            push_large(large, head, links);
            place
        }
    }
}

// Puts a slot with a node behind the others, with one owner and the links of the one in the slot `from`, but for the link at the index.
// It is apart from what is done mostly, as are its like: what a function holds is cleared when it begins.
#[inline(never)]
fn push_beside<L: Copy>(
    large: &mut Vec<LargeSlot<L>>,
    head: L,
    from: usize,
    index: usize,
    link: Link,
)
    requires room { vec_len large.old < vec_capacity large.old }
    requires index { index < length (node_links (slice_index_or large.old.items from None)) }
    ensures items { large.new.items ≡ large.old.items ++ Some (record { owners = 1; head = head; links = slice_set (node_links (slice_index_or large.old.items from None)) index link }) ∷ [] }
    ensures len { vec_len large.new ≡ vec_len large.old + 1 }
    ensures capacity { vec_capacity large.new ≡ vec_capacity large.old }
{
    let mut links = large[from].row_links();
    links.replace(index, link);
    push_large(large, head, links.as_slice());
}

// Puts a node with one owner and the links of the one in the slot `from`, but for the link at the index, in a free slot, or in a new
// one where none is free. Answers which.
#[inline(always)]
pub(crate) fn put_beside<L: Copy>(
    large: &mut Vec<LargeSlot<L>>,
    free: &mut Vec<usize>,
    head: L,
    from: usize,
    index: usize,
    link: Link,
) -> usize
    requires free { IsFree large.old.items free.old.items }
    requires room { vec_len large.old < vec_capacity large.old + vec_len free.old }
    requires index { index < length (node_links (slice_index_or large.old.items from None)) }
    ensures fills { FillsSlot large.old.items free.old.items large.new.items free.new.items result (record { owners = 1; head = head; links = slice_set (node_links (slice_index_or large.old.items from None)) index link }) }
    ensures capacity { vec_capacity large.new ≡ vec_capacity large.old }
    ensures free_capacity { vec_capacity free.new ≡ vec_capacity free.old }
{
    match free.pop() {
        Some(place) => {
            let links = large[from].row_links();
            large[place].fill_but(head, &links, index, link);
            place
        }
        None => {
            let place = large.len();
            push_beside(large, head, from, index, link);
            place
        }
    }
}

// Gives up the node in the slot, which is free then.
#[inline(always)]
pub(crate) fn empty_large<L: Copy>(
    large: &mut Vec<LargeSlot<L>>,
    free: &mut Vec<usize>,
    place: usize,
)
    requires some { IsSome (slice_index_or large.old.items place None) }
    requires free { IsFree large.old.items free.old.items }
    requires room { vec_len free.old < vec_capacity free.old }
    ensures slots { large.new.items ≡ slice_set large.old.items place None }
    ensures free { IsFree large.new.items free.new.items }
    ensures capacity { vec_capacity large.new ≡ vec_capacity large.old }
    ensures free_capacity { vec_capacity free.new ≡ vec_capacity free.old }
{
    large[place].empty();
    free.push_reserved(place);
}

// Puts the value in place of what the slot holds.
pub(crate) fn set_slot<X: Drop>(slots: &mut Vec<Option<X>>, place: usize, value: X)
    requires { place < vec_len slots.old }
    ensures slots { slots.new.items ≡ slice_set slots.old.items place (Some value) }
    ensures capacity { vec_capacity slots.new ≡ vec_capacity slots.old }
{
    slots[place] = Some(value);
}

// Gives up what the slot holds, which is free then.
pub(crate) fn vacate<X: Drop>(slots: &mut Vec<Option<X>>, free: &mut Vec<usize>, place: usize)
    requires some { IsSome (slice_index_or slots.old.items place None) }
    requires free { IsFree slots.old.items free.old.items }
    requires room { vec_len free.old < vec_capacity free.old }
    ensures slots { slots.new.items ≡ slice_set slots.old.items place None }
    ensures free { IsFree slots.new.items free.new.items }
    ensures one { vec_len free.new ≡ vec_len free.old + 1 }
    ensures capacity { vec_capacity slots.new ≡ vec_capacity slots.old }
    ensures free_capacity { vec_capacity free.new ≡ vec_capacity free.old }
{
    slots[place] = None;
    free.push_reserved(place);
}
