//! Names in byte order, and the number of buffers and lines.
ghost use Rattle.std.specs.Prelude.{◌≡◌, ℕ, ◌≤◌, length, map as each, IfOk};
ghost use Rattle.std.specs.List.{sum_by};
ghost use Rattle.std.specs.FinMap as map;
ghost use Rattle.elem_core.specs.declared.codes.TheConstants.{CODE_BITS};
ghost use Rattle.shell_terms.specs.Edit.{Bytes};
ghost use Rattle.plain_space.specs.Workspace.{Named, State, sizes as sizes_of};
ghost use Rattle.state_rows.specs.Listing.{shown_size, shown_text, IsTextAt, IsEntryAt, IsSizeAt};
ghost use Rattle.state_rows.specs.InHeap.{IsStateIn, AreVersionsIn};

use crate::look_up::{buffers_of, stars_of};
use champ_kinds::MapRef;
use champ_trie::entries;
use elem_core::{NoMemory, Text};
use node_heap::{Heap, Link};
use rrb_core::FlexRef;
use std::alloc::Global;

/// The names of the state's buffers with the numbers of their lines, in byte order. Err where memory runs out.
pub fn names<'h>(
    alloc: Global,
    heap: &'h Heap<Text>,
    bits: u32,
    state: Link,
) -> Result<Vec<(&'h Text, u32)>, NoMemory>
    requires bits { bits ≤ CODE_BITS }
    requires state { (s : State) × IsStateIn heap.now bits state s }
    ensures { (s : State) → IsStateIn heap.now bits state s → IfOk result (λ listed. each shown_size listed.items ≡ sizes_of s) }
{
    let mut listed = Vec::new(alloc);
    for entry in entries(heap, buffers_of(heap, bits, state).root()) {
        listed.push(entry_size(heap, entry))?;
    }
    listed.sort()?;
    Ok(listed)
}

/// The number of the state's buffers, and of the lines of all of them. It takes no memory.
pub fn totals(heap: &Heap<Text>, bits: u32, state: Link) -> (usize, u128)
    requires bits { bits ≤ CODE_BITS }
    requires state { (s : State) × IsStateIn heap.now bits state s }
    ensures buffers { (s : State) → IsStateIn heap.now bits state s → result.0 ≡ length (sizes_of s) }
    ensures lines { (s : State) → IsStateIn heap.now bits state s → result.1 ≡ sum_by (λ size. size.1) (sizes_of s) }
{
    let mut buffers = 0;
    let mut lines = 0;
    for entry in entries(heap, buffers_of(heap, bits, state).root()) {
        let (_, count) = entry_size(heap, entry);
        buffers += 1;
        lines += u128::from(count);
    }
    (buffers, lines)
}

/// The names that the state has starred, in byte order. Err where memory runs out.
pub fn stars<'h>(
    alloc: Global,
    heap: &'h Heap<Text>,
    bits: u32,
    state: Link,
) -> Result<Vec<&'h Text>, NoMemory>
    requires bits { bits ≤ CODE_BITS }
    requires state { (s : State) × IsStateIn heap.now bits state s }
    ensures { (s : State) → IsStateIn heap.now bits state s → IfOk result (λ listed. each shown_text listed.items ≡ map.keys s.stars) }
{
    let mut listed = Vec::new(alloc);
    for cell in stars_of(heap, bits, state).members(heap) {
        listed.push(cell_text(heap, cell))?;
    }
    listed.sort()?;
    Ok(listed)
}

/// The names of the versions, in byte order. Err where memory runs out.
pub fn marks<'h>(
    alloc: Global,
    heap: &'h Heap<Text>,
    versions: MapRef,
) -> Result<Vec<&'h Text>, NoMemory>
    requires bits { versions.bits ≤ CODE_BITS }
    requires versions { (m : Named State) × AreVersionsIn heap.now versions.bits versions.root m }
    ensures { (m : Named State) → AreVersionsIn heap.now versions.bits versions.root m → IfOk result (λ listed. each shown_text listed.items ≡ map.keys m) }
{
    let mut listed = Vec::new(alloc);
    for entry in entries(heap, versions.root()) {
        listed.push(entry_name(heap, entry))?;
    }
    listed.sort()?;
    Ok(listed)
}

// The text of a cell.
fn cell_text<'h>(heap: &'h Heap<Text>, link: Link) -> &'h Text
    requires { (text : Bytes) × IsTextAt heap.now link text }
    ensures { (text : Bytes) → IsTextAt heap.now link text → result.now ≡ text }
{
    let Some(text) = heap.value(link) else {
        unreachable!()
    };
    text
}

// The name in a pair of a name's cell and a value.
fn entry_name<'h>(heap: &'h Heap<Text>, entry: Link) -> &'h Text
    requires { (name : Bytes) × IsEntryAt heap.now entry name }
    ensures { (name : Bytes) → IsEntryAt heap.now entry name → result.now ≡ name }
{
    cell_text(heap, heap.links(entry)[0])
}

// The name in a pair of a name's cell and a vector, with the number of the vector's elements.
fn entry_size<'h>(heap: &'h Heap<Text>, entry: Link) -> (&'h Text, u32)
    requires { (size : Bytes × ℕ) × IsSizeAt heap.now entry size }
    ensures { (size : Bytes × ℕ) → IsSizeAt heap.now entry size → shown_size result ≡ size }
{
    let lines = FlexRef::at(heap.links(entry)[1]).len(heap);
    (entry_name(heap, entry), lines)
}
