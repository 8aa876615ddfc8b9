//! Histories with a state more or less, edited in place: of the rows on the way to a history's end each one is written that
//! has one owner, as long as all rows above it have one owner too, and each other one is copied. Each call takes the
//! rows that it makes from spares, which its caller has reserved, and keeps what is held besides.
ghost use Rattle.std.specs.Prelude.{◌≡◌, ℕ, ◌+◌, ◌-◌, ◌*◌, ◌^◌, ◌<◌, ◌≤◌, List, [], ◌∷◌, ◌++◌, length, take, drop, slice_get, IsSomeAnd};
ghost use Rattle.node_heap.specs.Links.{count};
ghost use Rattle.node_heap.specs.Heap.{form_at, holds_at, owners_at, hold_count, HasSpares, half_holds};
ghost use Rattle.node_heap.specs.Calls.{HasHolds, KeepsHeld, KeepsOwners, KeepsToNeed, MakesJust, MakesWhatCame, SameRows, Trades};
ghost use Rattle.node_heap.specs.Owner.{alone};
ghost use Rattle.rrb_core.specs.Vector.{height_at};
ghost use Rattle.edit_vec.specs.Path.{pop_path};
ghost use Rattle.plain_space.specs.Workspace.{State};
ghost use Rattle.state_rows.specs.InHeap.{IsStateIn, IsHistoryIn};

use crate::start::empty_history;
use edit_vec::{POP_NODES, pop_held, push_held};
use elem_core::Text;
use node_heap::{Heap, Link, MOST_HEIGHT};
use rrb_core::{Flex, PUSH_NODES};
use rrb_join::{SEAM_NODES, drop_front};

/// The nodes of `pushed`: a row for each height and a new root.
pub const PUSHED_NODES: usize = PUSH_NODES;

/// The nodes of `popped`: a row for each height.
pub const POPPED_NODES: usize = POP_NODES;

/// The nodes of `emptied`: the row of a history without states.
pub const EMPTIED_NODES: usize = 1;

/// The nodes for which `shortened` needs room: those of a cut, which makes fewer.
pub const SHORTENED_NODES: usize = SEAM_NODES;

/// The nodes that `shortened` makes at most: two for each height, and one more.
pub const CUT_NODES: usize = 2 * MOST_HEIGHT as usize + 1;

/// The history with the state after its last. It spends the holds of both. There is room for one more state. It makes
/// at most 9 nodes, and none in vain.
pub fn pushed(heap: &mut Heap<Text>, history: Flex, state: Link) -> Flex
    requires few { hold_count heap.old < half_holds }
    requires held { HasHolds heap.old (history ∷ state ∷ []) }
    requires history { (bits : ℕ) × (ss : List State) × IsHistoryIn heap.old bits history ss × (length ss < 2 ^ 32 - 1) }
    requires spares { HasSpares heap.old 0 PUSHED_NODES }
    ensures keeps { KeepsHeld (λ l. count l (history ∷ state ∷ [])) heap.old heap.new }
    ensures trades { Trades heap.old heap.new (history ∷ state ∷ []) (result ∷ []) 0 PUSHED_NODES }
    ensures spares { KeepsToNeed heap.old heap.new 0 0 }
    ensures made { MakesJust heap.old heap.new }
    ensures history { (bits : ℕ) (ss : List State) (s : State) → IsHistoryIn heap.old bits history ss → IsStateIn heap.old bits state s → IsHistoryIn heap.new bits result (ss ++ s ∷ []) }
{
    heap.rows_form_a_graph();
    push_held(heap, history, state)
}

/// The history without its last state, and that state with a hold. It spends the history's hold. It makes at most 8
/// nodes, and where the history's root has one owner only those that it copies of the rows on the way to the history's end: the
/// ones with another owner, or below such a one.
pub fn popped(heap: &mut Heap<Text>, history: Flex) -> (Flex, Link)
    requires few { hold_count heap.old < half_holds }
    requires held { 0 < holds_at heap.old history }
    requires history { (bits : ℕ) × (ss : List State) × IsHistoryIn heap.old bits history ss × (0 < length ss) }
    requires spares { HasSpares heap.old 0 POPPED_NODES }
    ensures keeps { KeepsHeld (λ l. count l (history ∷ [])) heap.old heap.new }
    ensures trades { Trades heap.old heap.new (history ∷ []) (result.0 ∷ result.1 ∷ []) 0 POPPED_NODES }
    ensures spares { KeepsToNeed heap.old heap.new 0 0 }
    ensures history { (bits : ℕ) (ss : List State) → IsHistoryIn heap.old bits history ss → IsHistoryIn heap.new bits result.0 (take (length ss - 1) ss) }
    ensures alone { owners_at heap.old history ≡ 1 → heap.new.made ≤ heap.old.made + (length (pop_path (form_at heap.old) history) - alone heap.old (pop_path (form_at heap.old) history)) }
    ensures last { (bits : ℕ) (ss : List State) → IsHistoryIn heap.old bits history ss → IsSomeAnd (slice_get ss (length ss - 1)) (IsStateIn heap.new bits result.1) }
{
    heap.rows_form_a_graph();
    pop_held(heap, history)
}

/// The history without its first `states` states. It spends the history's hold. It makes rows along the cut alone, at most twice the
/// history's height and one more, so at most `CUT_NODES`, and shares the others, so that it takes the time of one path beside that of what
/// goes.
pub fn shortened(heap: &mut Heap<Text>, history: Flex, states: u32) -> Flex
    requires few { hold_count heap.old < half_holds }
    requires held { 0 < holds_at heap.old history }
    requires history { (bits : ℕ) × (ss : List State) × IsHistoryIn heap.old bits history ss }
    requires spares { HasSpares heap.old 0 SHORTENED_NODES }
    ensures keeps { KeepsHeld (λ l. count l (history ∷ [])) heap.old heap.new }
    ensures trades { Trades heap.old heap.new (history ∷ []) (result ∷ []) 0 CUT_NODES }
    ensures made { heap.new.made ≤ heap.old.made + (2 * height_at heap.old history + 1) }
    ensures spares { KeepsToNeed heap.old heap.new 0 0 }
    ensures history { (bits : ℕ) (ss : List State) → IsHistoryIn heap.old bits history ss → IsHistoryIn heap.new bits result (drop states ss) }
{
    heap.rows_form_a_graph();
    let Ok(rest) = drop_front(heap, history.view(), states) else {
        unreachable!()
    };
    history.release(heap);
    rest
}

/// A history without states in place of this one, of which it spends the hold: the same where it is empty, and else a new one.
pub fn emptied(heap: &mut Heap<Text>, history: Flex) -> Flex
    requires few { hold_count heap.old < half_holds }
    requires held { 0 < holds_at heap.old history }
    requires history { (bits : ℕ) × (ss : List State) × IsHistoryIn heap.old bits history ss }
    requires spares { HasSpares heap.old 0 EMPTIED_NODES }
    ensures keeps { KeepsHeld (λ l. count l (history ∷ [])) heap.old heap.new }
    ensures trades { Trades heap.old heap.new (history ∷ []) (result ∷ []) 0 EMPTIED_NODES }
    ensures spares { KeepsToNeed heap.old heap.new 0 0 }
    ensures history { (bits : ℕ) → IsHistoryIn heap.new bits result [] }
    ensures same { (bits : ℕ) → IsHistoryIn heap.old bits history [] → (result ≡ history) × (heap.new ≡ heap.old) }
{
    heap.rows_form_a_graph();
    if history.view().is_empty(heap) {
        return history;
    }
    let empty = empty_history(heap);
    history.release(heap);
    empty
}
