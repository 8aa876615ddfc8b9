//! Merges of two states: the stars of both, of one, or of what they share, or the buffers of both.
ghost use Rattle.std.specs.Prelude.{◌≡◌, ◌+◌, ◌*◌, ◌^◌, ◌<◌, ◌≤◌, List, [], length};
ghost use Rattle.std.specs.Ordering.{nat_cmp};
ghost use Rattle.std.specs.Cmp.Lexicographic.{slice_cmp};
ghost use Rattle.elem_core.specs.declared.codes.TheConstants.{CODE_BITS};
ghost use Rattle.elem_core.specs.Codes.{text_code};
ghost use Rattle.node_heap.specs.Heap.{form_at, hold_count, HasSpares, half_holds};
ghost use Rattle.node_heap.specs.Calls.{Answered, KeepsToNeed, MakesJust};
ghost use Rattle.champ_chain.specs.Entry.{Entry};
ghost use Rattle.champ_kinds.specs.Kinds.{IsSetOf};
ghost use Rattle.shell_terms.specs.Edit.{Bytes};
ghost use Rattle.shell_terms.specs.Command.{join_buffers};
ghost use Rattle.plain_space.specs.Workspace.{State, merged_with};
ghost use Rattle.plain_space.specs.Cost.{merge_size};
ghost use Rattle.state_rows.specs.InHeap.{IsStateIn};
ghost use Rattle.state_rows.specs.declared.merge.Merging.TheVariants.{Stars as OfStars, Buffers};
ghost use Rattle.state_rows.specs.Merging.{plain_kind, star_kind, entries_merged, stars_need, merge_rows};

use crate::look_up::{buffers_of, stars_of};
use crate::row::{over_buffers, over_stars};
use champ_kinds::{Set, SetRef};
use elem_core::Text;
use node_heap::{Heap, Link};
use set_merge::{
    map_union_need, map_union_there, set_both_need, set_both_there, set_less_need, set_less_there,
    set_union_need, set_union_there,
};

/// Which stars a merge leaves.
#[derive(Clone, Copy)]
pub enum Stars {
    /// Those of both states.
    Joined,
    /// Those that both states have.
    Common,
    /// Those of the first that the second hasn't.
    Other,
}

/// What of a state a merge changes, the other part being the first one's.
#[derive(Clone, Copy)]
pub enum Merging {
    /// The stars, of which it leaves these.
    Stars(Stars),
    /// The buffers, to which it adds those of the second with other names.
    Buffers,
}

/// The state that the first becomes by a merge with the second. It takes the rows that it makes from spares, which its caller has
/// reserved, and keeps every row that is there.
pub fn merged(heap: &mut Heap<Text>, bits: u32, kind: Merging, state: Link, other: Link) -> Link
    requires few { hold_count heap.old < half_holds }
    requires bits { bits ≤ CODE_BITS }
    requires states { (s : State) × (t : State) × IsStateIn heap.old bits state s × IsStateIn heap.old bits other t }
    requires spares { HasSpares heap.old 0 (1 + merge_rows kind heap.old bits state other) }
    ensures answered { Answered heap.old heap.new [] result 0 (1 + merge_rows kind heap.old bits state other) }
    ensures made { MakesJust heap.old heap.new }
    ensures spares { KeepsToNeed heap.old heap.new 0 0 }
    ensures state { (s t : State) → IsStateIn heap.old bits state s → IsStateIn heap.old bits other t →
        IsStateIn heap.new bits result (merged_with (plain_kind kind) s t) }
{
    match kind {
        Merging::Stars(stars) => stars_merged(heap, bits, stars, state, other),
        Merging::Buffers => buffers_joined(heap, bits, state, other),
    }
}

/// The rows that such a merge may make besides the state's: at most 13 for each star of the two, or each buffer, and one. It takes
/// no memory.
pub fn merge_need(heap: &Heap<Text>, bits: u32, kind: Merging, state: Link, other: Link) -> usize
    requires bits { bits ≤ CODE_BITS }
    requires states { (s : State) × (t : State) × IsStateIn heap.now bits state s × IsStateIn heap.now bits other t }
    ensures rows { result ≡ merge_rows kind heap.now bits state other }
    ensures few { (s t : State) → IsStateIn heap.now bits state s → IsStateIn heap.now bits other t →
        result ≤ 13 * merge_size (plain_kind kind) s t + 1 }
    ensures bounded { result ≤ 2 ^ 62 }
{
    match kind {
        Merging::Stars(stars) => {
            let first = stars_of(heap, bits, state);
            let second = stars_of(heap, bits, other);
            set_need(heap, stars, first, second)
        }
        Merging::Buffers => {
            let first = buffers_of(heap, bits, state);
            let second = buffers_of(heap, bits, other);
            map_union_need(heap, first, second)
        }
    }
}

// The first state with these stars of both.
fn stars_merged(heap: &mut Heap<Text>, bits: u32, kind: Stars, state: Link, other: Link) -> Link
    requires few { hold_count heap.old < half_holds }
    requires bits { bits ≤ CODE_BITS }
    requires states { (s : State) × (t : State) × IsStateIn heap.old bits state s × IsStateIn heap.old bits other t }
    requires spares { HasSpares heap.old 0 (1 + merge_rows (OfStars kind) heap.old bits state other) }
    ensures answered { Answered heap.old heap.new [] result 0 (1 + merge_rows (OfStars kind) heap.old bits state other) }
    ensures made { MakesJust heap.old heap.new }
    ensures spares { KeepsToNeed heap.old heap.new 0 0 }
    ensures state { (s t : State) → IsStateIn heap.old bits state s → IsStateIn heap.old bits other t →
        IsStateIn heap.new bits result (merged_with (star_kind kind) s t) }
{
    let buffers = buffers_of(heap, bits, state).root();
    let first = stars_of(heap, bits, state);
    let second = stars_of(heap, bits, other);
    let stars = set_merged(heap, kind, first, second);
    over_buffers(heap, buffers, stars.into_root())
}

// The first state with the buffers of both.
fn buffers_joined(heap: &mut Heap<Text>, bits: u32, state: Link, other: Link) -> Link
    requires few { hold_count heap.old < half_holds }
    requires bits { bits ≤ CODE_BITS }
    requires states { (s : State) × (t : State) × IsStateIn heap.old bits state s × IsStateIn heap.old bits other t }
    requires spares { HasSpares heap.old 0 (1 + merge_rows Buffers heap.old bits state other) }
    ensures answered { Answered heap.old heap.new [] result 0 (1 + merge_rows Buffers heap.old bits state other) }
    ensures made { MakesJust heap.old heap.new }
    ensures spares { KeepsToNeed heap.old heap.new 0 0 }
    ensures state { (s t : State) → IsStateIn heap.old bits state s → IsStateIn heap.old bits other t →
        IsStateIn heap.new bits result (merged_with join_buffers s t) }
{
    let stars = stars_of(heap, bits, state).root();
    let first = buffers_of(heap, bits, state);
    let second = buffers_of(heap, bits, other);
    let buffers = map_union_there(heap, first, second);
    over_stars(heap, buffers.into_root(), stars)
}

// The merge of two sets that leaves these, made of spares.
fn set_merged(heap: &mut Heap<Text>, kind: Stars, a: SetRef, b: SetRef) -> Set
    requires few { hold_count heap.old < half_holds }
    requires bits { a.bits ≡ b.bits }
    requires first { (E : List (Entry Bytes)) × IsSetOf (slice_cmp nat_cmp) text_code heap.old a E }
    requires second { (D : List (Entry Bytes)) × IsSetOf (slice_cmp nat_cmp) text_code heap.old b D }
    requires ample { HasSpares heap.old 0 (stars_need kind (form_at heap.old) a.bits a.root b.root) }
    ensures contents { (E D : List (Entry Bytes)) → IsSetOf (slice_cmp nat_cmp) text_code heap.old a E → IsSetOf (slice_cmp nat_cmp) text_code heap.old b D →
        IsSetOf (slice_cmp nat_cmp) text_code heap.new result (entries_merged kind E D) }
    ensures bits { result.bits ≡ a.bits }
    ensures answered { Answered heap.old heap.new [] result.root 0 (stars_need kind (form_at heap.old) a.bits a.root b.root) }
    ensures made { MakesJust heap.old heap.new }
    ensures spares { KeepsToNeed heap.old heap.new 0 0 }
{
    match kind {
        Stars::Joined => set_union_there(heap, a, b),
        Stars::Common => set_both_there(heap, a, b),
        Stars::Other => set_less_there(heap, a, b),
    }
}

// The nodes that it may make.
fn set_need(heap: &Heap<Text>, kind: Stars, a: SetRef, b: SetRef) -> usize
    requires bits { a.bits ≡ b.bits }
    requires first { (E : List (Entry Bytes)) × IsSetOf (slice_cmp nat_cmp) text_code heap.now a E }
    requires second { (D : List (Entry Bytes)) × IsSetOf (slice_cmp nat_cmp) text_code heap.now b D }
    ensures need { result ≡ stars_need kind (form_at heap.now) a.bits a.root b.root }
    ensures entries { (E D : List (Entry Bytes)) → IsSetOf (slice_cmp nat_cmp) text_code heap.now a E → IsSetOf (slice_cmp nat_cmp) text_code heap.now b D →
        result ≤ 13 * (length E + length D) + 1 }
    ensures few { result ≤ 2 ^ 62 }
{
    match kind {
        Stars::Joined => set_union_need(heap, a, b),
        Stars::Common => set_both_need(heap, a, b),
        Stars::Other => set_less_need(heap, a, b),
    }
}
