//! What is asked of states. None of it takes memory.
ghost use Rattle.std.specs.Prelude.{◌≡◌, ◌-◌, ◌<◌, ◌≤◌};
ghost use Rattle.node_heap.specs.Heap.{row_limit};
ghost use Rattle.std.specs.Ordering.{nat_cmp};
ghost use Rattle.std.specs.Cmp.Lexicographic.{slice_cmp};
ghost use Rattle.elem_core.specs.declared.codes.TheConstants.{CODE_BITS};
ghost use Rattle.elem_core.specs.Shown.{name_bytes};
ghost use Rattle.champ_chain.specs.Entry.{link_with};
ghost use Rattle.plain_space.specs.Workspace.{State, lines_of, is_starred as has_star};
ghost use Rattle.plain_space.specs.Cost.{alike_buffers, alike_stars};
ghost use Rattle.state_rows.specs.Reading.{StandsIfThere};
ghost use Rattle.state_rows.specs.InHeap.{AreLinesIn, IsStateIn};

use champ_kinds::{MapRef, SetRef};
use champ_trie::{alike, look_up};
use elem_core::{Name, Text};
use node_heap::{Heap, Link};
use rrb_core::FlexRef;

/// The lines of the buffer of this name, None exactly where there is no such buffer.
pub fn buffer(heap: &Heap<Text>, bits: u32, state: Link, name: Name<'_>) -> Option<FlexRef>
    requires bits { bits ≤ CODE_BITS }
    requires state { (s : State) × IsStateIn heap.now bits state s }
    ensures { (s : State) → IsStateIn heap.now bits state s → StandsIfThere (AreLinesIn heap.now bits) result (lines_of s (name_bytes name.entry)) }
{
    let lines = buffers_of(heap, bits, state).get(heap, &name)?;
    Some(FlexRef::at(lines))
}

/// What a look for a buffer finds.
#[derive(Clone, Copy)]
pub struct FoundBuffer {
    /// The buffer's lines, None exactly where there is no such buffer.
    pub lines: Option<FlexRef>,
    /// How many of the buffers' names have the masked code of this one, itself included where it is among them.
    pub alike: usize,
}

/// The lines of the buffer of this name, None exactly where there is no such buffer, and how many names are alike, in one walk.
pub fn find_buffer(heap: &Heap<Text>, bits: u32, state: Link, name: Name<'_>) -> FoundBuffer
    requires bits { bits ≤ CODE_BITS }
    requires state { (s : State) × IsStateIn heap.now bits state s }
    ensures lines { (s : State) → IsStateIn heap.now bits state s → StandsIfThere (AreLinesIn heap.now bits) result.lines (lines_of s (name_bytes name.entry)) }
    ensures alike { (s : State) → IsStateIn heap.now bits state s → result.alike ≡ alike_buffers bits s (name_bytes name.entry) }
    ensures few { result.alike < row_limit }
{
    let found = look_up(heap, buffers_of(heap, bits, state).root(), &name, bits);
    let lines = lines_in(heap, bits, state, name, found.entry);
    FoundBuffer {
        lines,
        alike: found.alike,
    }
}

// The lines in the entry that was found of the buffer's name.
fn lines_in(
    heap: &Heap<Text>,
    bits: u32,
    state: Link,
    name: Name<'_>,
    found: Option<Link>,
) -> Option<FlexRef>
    requires { (s : State) × (is : IsStateIn heap.now bits state s) × (found ≡ link_with (slice_cmp nat_cmp) (name_bytes name) is.buffers_are.entries) }
    ensures { (s : State) (is : IsStateIn heap.now bits state s) → found ≡ link_with (slice_cmp nat_cmp) (name_bytes name.entry) is.buffers_are.entries →
        StandsIfThere (AreLinesIn heap.now bits) result (lines_of s (name_bytes name.entry)) }
{
    let Some(entry) = found else {
        return None;
    };
    Some(FlexRef::at(heap.links(entry)[1]))
}

/// Whether the name is starred.
pub fn is_starred(heap: &Heap<Text>, bits: u32, state: Link, name: Name<'_>) -> bool
    requires bits { bits ≤ CODE_BITS }
    requires state { (s : State) × IsStateIn heap.now bits state s }
    ensures { (s : State) → IsStateIn heap.now bits state s → result ≡ has_star s (name_bytes name.entry) }
{
    stars_of(heap, bits, state).has(heap, &name)
}

/// How many of the starred names have the masked code of this one, itself included where it is among them.
pub fn stars_alike(heap: &Heap<Text>, bits: u32, state: Link, name: Name<'_>) -> usize
    requires bits { bits ≤ CODE_BITS }
    requires state { (s : State) × IsStateIn heap.now bits state s }
    ensures number { (s : State) → IsStateIn heap.now bits state s → result ≡ alike_stars bits s (name_bytes name.entry) }
    ensures few { result < row_limit }
{
    alike(heap, stars_of(heap, bits, state).root(), &name, bits)
}

// The map of the state's buffers.
pub(crate) fn buffers_of(heap: &Heap<Text>, bits: u32, state: Link) -> MapRef
    requires state { (s : State) × IsStateIn heap.now bits state s }
    ensures bits { result.bits ≡ bits }
    ensures root { (s : State) → (is : IsStateIn heap.now bits state s) → result.root ≡ is.buffers }
{
    MapRef::at(heap.links(state)[0], bits)
}

// The set of the names that the state has starred.
pub(crate) fn stars_of(heap: &Heap<Text>, bits: u32, state: Link) -> SetRef
    requires state { (s : State) × IsStateIn heap.now bits state s }
    ensures bits { result.bits ≡ bits }
    ensures root { (s : State) → (is : IsStateIn heap.now bits state s) → result.root ≡ is.stars }
{
    SetRef::at(heap.links(state)[1], bits)
}
