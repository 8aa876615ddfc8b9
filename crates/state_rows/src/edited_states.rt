//! States edited in place, as a batch does: the state row, the rows on the way to the buffer's name and those on the way to its
//! line are written where each has one owner, and copied where it has more. Each call takes the rows that it makes from
//! spares, which its caller has reserved, and keeps what is held besides.
ghost use Rattle.std.specs.Prelude.{◌≡◌, ◌+◌, ◌<◌, ◌≤◌, List, [], ◌∷◌, ◌++◌, length, slice_set, Some, None};
ghost use Rattle.elem_core.specs.declared.codes.TheConstants.{CODE_BITS};
ghost use Rattle.elem_core.specs.Naming.{IsName};
ghost use Rattle.elem_core.specs.Shown.{name_bytes};
ghost use Rattle.node_heap.specs.Links.{count};
ghost use Rattle.node_heap.specs.Heap.{holds_at, owners_at, hold_count, HasSpares, quarter_holds};
ghost use Rattle.node_heap.specs.Calls.{HasHolds, KeepsHeld, KeepsToNeed, Trades};
ghost use Rattle.shell_terms.specs.Edit.{Bytes};
ghost use Rattle.plain_space.specs.Workspace.{State, most, lines_of, with_lines as has_lines};
ghost use Rattle.plain_space.specs.Cost.{alike_buffers};
ghost use Rattle.state_rows.specs.InHeap.{IsTextIn, AreLinesIn, IsStateIn};
ghost use Rattle.state_rows.specs.EditedStates.{CopiesOfPath, MakesAtMost, OwnsLines, lines_path};

use champ_kinds::INSERT_NODES;
use champ_trie::ADD_NODES;
use edit_trie::{insert_at, own_value_there};
use edit_vec::{push_there, set_there};
use elem_core::{Name, Text};
use node_heap::{Heap, Link};
use rrb_core::{Flex, PUSH_NODES, SET_NODES};

/// The nodes of `lines_put`, besides one for each name that is alike: the state row, and as many for the way to the buffer as a key
/// that comes takes.
pub const LINES_PUT_NODES: usize = 1 + ADD_NODES;

/// The nodes of `line_added`: those, and the ones of a push.
pub const LINE_ADDED_NODES: usize = LINES_PUT_NODES + PUSH_NODES;

/// The nodes of `line_set`: those, and the ones of the way to the line.
pub const LINE_SET_NODES: usize = LINES_PUT_NODES + SET_NODES;

/// The nodes of `buffer_made`, besides one for each name that is alike: the state row, and those of an insert.
pub const BUFFER_MADE_NODES: usize = 1 + INSERT_NODES;

/// The state with the line after the last of the buffer, which is there and has room for one more. It spends the holds of the
/// state and of the line. The number made rises by no more than the rows gain.
pub fn line_added(heap: &mut Heap<Text>, bits: u32, state: Link, name: Name<'_>, line: Link) -> Link
    requires few { hold_count heap.old < quarter_holds }
    requires bits { bits ≤ CODE_BITS }
    requires held { HasHolds heap.old (state ∷ line ∷ []) }
    requires line { (text : Bytes) × IsTextIn heap.old bits line text }
    requires state { (s : State) × (xs : List Bytes) × IsStateIn heap.old bits state s × (lines_of s (name_bytes name) ≡ Some xs) × (length xs < most)
        × HasSpares heap.old 0 (LINE_ADDED_NODES + alike_buffers bits s (name_bytes name)) }
    ensures keeps { KeepsHeld (λ l. count l (state ∷ line ∷ [])) heap.old heap.new }
    ensures trades { (s : State) (xs : List Bytes) → IsStateIn heap.old bits state s → lines_of s (name_bytes name.entry) ≡ Some xs →
        Trades heap.old heap.new (state ∷ line ∷ []) (result ∷ []) 0 (LINE_ADDED_NODES + alike_buffers bits s (name_bytes name.entry)) }
    ensures made { MakesAtMost heap.old heap.new 0 }
    ensures spares { KeepsToNeed heap.old heap.new 0 0 }
    ensures state { (s : State) (xs : List Bytes) (text : Bytes) → IsStateIn heap.old bits state s → lines_of s (name_bytes name.entry) ≡ Some xs → IsTextIn heap.old bits line text →
        IsStateIn heap.new bits result (has_lines s (name_bytes name.entry) (xs ++ text ∷ [])) }
{
    let (row, pair) = own_lines(heap, bits, state, name);
    push_there(heap, pair, 1, line);
    row
}

/// The state with the line at the index of the buffer, which is there and reaches so far. It spends the holds of the state and
/// of the line. The number made rises by at most one more than the rows gain, since the old line may go.
pub fn line_set(
    heap: &mut Heap<Text>,
    bits: u32,
    state: Link,
    name: Name<'_>,
    index: u32,
    line: Link,
) -> Link
    requires few { hold_count heap.old < quarter_holds }
    requires bits { bits ≤ CODE_BITS }
    requires held { HasHolds heap.old (state ∷ line ∷ []) }
    requires line { (text : Bytes) × IsTextIn heap.old bits line text }
    requires state { (s : State) × (xs : List Bytes) × IsStateIn heap.old bits state s × (lines_of s (name_bytes name) ≡ Some xs) × (index < length xs)
        × HasSpares heap.old 0 (LINE_SET_NODES + alike_buffers bits s (name_bytes name)) }
    ensures keeps { KeepsHeld (λ l. count l (state ∷ line ∷ [])) heap.old heap.new }
    ensures trades { (s : State) (xs : List Bytes) → IsStateIn heap.old bits state s → lines_of s (name_bytes name.entry) ≡ Some xs →
        Trades heap.old heap.new (state ∷ line ∷ []) (result ∷ []) 0 (LINE_SET_NODES + alike_buffers bits s (name_bytes name.entry)) }
    ensures made { MakesAtMost heap.old heap.new 1 }
    ensures spares { KeepsToNeed heap.old heap.new 0 0 }
    ensures state { (s : State) (xs : List Bytes) (text : Bytes) → IsStateIn heap.old bits state s → lines_of s (name_bytes name.entry) ≡ Some xs → IsTextIn heap.old bits line text →
        IsStateIn heap.new bits result (has_lines s (name_bytes name.entry) (slice_set xs index text)) }
{
    let (row, pair) = own_lines(heap, bits, state, name);
    let before = set_there(heap, pair, 1, index, line);
    heap.release(before);
    row
}

/// The state with these lines in place of those of the buffer, which is there. It spends the holds of the state and of the new
/// lines. Where the state's row has one owner, only those of the rows from there to the lines are made anew that have another
/// owner, or stand below such a one.
pub fn lines_put(heap: &mut Heap<Text>, bits: u32, state: Link, name: Name<'_>, lines: Flex) -> Link
    requires few { hold_count heap.old < quarter_holds }
    requires bits { bits ≤ CODE_BITS }
    requires held { HasHolds heap.old (state ∷ lines ∷ []) }
    requires lines { (ys : List Bytes) × AreLinesIn heap.old bits lines ys }
    requires state { (s : State) × (xs : List Bytes) × IsStateIn heap.old bits state s × (lines_of s (name_bytes name) ≡ Some xs)
        × HasSpares heap.old 0 (LINES_PUT_NODES + alike_buffers bits s (name_bytes name)) }
    ensures keeps { KeepsHeld (λ l. count l (state ∷ lines ∷ [])) heap.old heap.new }
    ensures trades { (s : State) (xs : List Bytes) → IsStateIn heap.old bits state s → lines_of s (name_bytes name.entry) ≡ Some xs →
        Trades heap.old heap.new (state ∷ lines ∷ []) (result ∷ []) 0 (LINES_PUT_NODES + alike_buffers bits s (name_bytes name.entry)) }
    ensures made { owners_at heap.old state ≡ 1 → CopiesOfPath heap.old heap.new (lines_path heap.old bits state (name_bytes name.entry)) }
    ensures spares { KeepsToNeed heap.old heap.new 0 0 }
    ensures state { (s : State) (xs ys : List Bytes) → IsStateIn heap.old bits state s → lines_of s (name_bytes name.entry) ≡ Some xs → AreLinesIn heap.old bits lines ys →
        IsStateIn heap.new bits result (has_lines s (name_bytes name.entry) ys) }
{
    let (row, pair) = own_lines(heap, bits, state, name);
    let replaced = heap.replace(pair, 1, lines.into_root());
    heap.release(replaced);
    row
}

/// The state with a buffer of these lines, of which there is none of the name yet. It spends the holds of the state and of
/// the lines. The number made rises by no more than the rows gain.
pub fn buffer_made(heap: &mut Heap<Text>, bits: u32, state: Link, key: Text, lines: Flex) -> Link
    requires few { hold_count heap.old < quarter_holds }
    requires bits { bits ≤ CODE_BITS }
    requires held { HasHolds heap.old (state ∷ lines ∷ []) }
    requires name { IsName key }
    requires lines { (xs : List Bytes) × AreLinesIn heap.old bits lines xs }
    requires state { (s : State) × IsStateIn heap.old bits state s × (lines_of s key ≡ None) × HasSpares heap.old 1 (BUFFER_MADE_NODES + alike_buffers bits s key) }
    ensures keeps { KeepsHeld (λ l. count l (state ∷ lines ∷ [])) heap.old heap.new }
    ensures trades { (s : State) → IsStateIn heap.old bits state s → Trades heap.old heap.new (state ∷ lines ∷ []) (result ∷ []) 1 (BUFFER_MADE_NODES + alike_buffers bits s key) }
    ensures made { MakesAtMost heap.old heap.new 0 }
    ensures spares { KeepsToNeed heap.old heap.new 0 0 }
    ensures state { (s : State) (xs : List Bytes) → IsStateIn heap.old bits state s → AreLinesIn heap.old bits lines xs → IsStateIn heap.new bits result (has_lines s key xs) }
{
    heap.rows_form_a_graph();
    let state = heap.own(state);
    let Ok(_) = insert_at(heap, state, 0, bits, key, lines.into_root()) else {
        unreachable!()
    };
    state
}

// The row of the state, of which the hold is spent, and the pair of the buffer's name and its lines below it: rows with one owner, as is
// each on the way from the one to the other.
fn own_lines(heap: &mut Heap<Text>, bits: u32, state: Link, name: Name<'_>) -> (Link, Link)
    requires few { hold_count heap.old < quarter_holds }
    requires bits { bits ≤ CODE_BITS }
    requires held { 0 < holds_at heap.old state }
    requires state { (s : State) × (xs : List Bytes) × IsStateIn heap.old bits state s × (lines_of s (name_bytes name) ≡ Some xs)
        × HasSpares heap.old 0 (LINES_PUT_NODES + alike_buffers bits s (name_bytes name)) }
    ensures { (s : State) (xs : List Bytes) → IsStateIn heap.old bits state s → lines_of s (name_bytes name.entry) ≡ Some xs → OwnsLines heap.old heap.new bits state result.0 s (name_bytes name.entry) xs result.1 }
{
    heap.rows_form_a_graph();
    let row = heap.own(state);
    let pair = own_value_there(heap, row, 0, bits, &name);
    (row, pair)
}
