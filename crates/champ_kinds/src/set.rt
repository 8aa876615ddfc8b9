//! Sets.
ghost use Rattle.std.specs.Prelude.{◌≡◌, ◌↔◌, ◌≢◌, ℕ, ◌+◌, ◌<◌, ◌≤◌, List, [], ◌∷◌, length, map, Some, None, IsSome, IfOk, IfErr, OnOk, OnErr, IsOk, IfSome, IfNone, is_some};
ghost use Rattle.node_heap.specs.Heap.{form_at, holds_at, hold_count, HasSpares, half_holds, row_limit};
ghost use Rattle.node_heap.specs.Calls.{Answered, Builds, KeepsToNeed, MakesJust, SameRows};
ghost use Rattle.champ_chain.specs.Entry.{SameSet, Entry, entry as entry_of, link_with, others};
ghost use Rattle.champ_trie.specs.Reach.{alike_to};
ghost use Rattle.champ_trie.specs.Trie.{code_by};
ghost use Rattle.champ_trie.specs.Edit.{SharesBeside};
ghost use Rattle.champ_trie.specs.Walk.{walk};
ghost use Rattle.champ_kinds.specs.Kinds.{IsSetOf};
ghost use Rattle.champ_kinds.specs.Laws.{KeepsContainers};

use crate::fault::MapFault;
use crate::root::{RootRef, Rooted};
use champ_trie::{ADD_NODES, Entries, added, alike, count, entries, find, look_up, without};
use elem_core::{Element, LEVELS, NoMemory, Probe};
use node_heap::Heap;

/// Marks the roots of sets.
#[derive(Clone, Copy)]
pub struct Sets;

/// A set that owns one hold of its root. It is given up by `release`, and cannot be dropped or copied.
pub type Set = Rooted<Sets>;

/// Names a set by its root, without a hold.
pub type SetRef = RootRef<Sets>;

impl RootRef<Sets> {
    /// The number of keys. It walks them all.
    pub fn len<T: Element>(&self, heap: &Heap<T>) -> usize
        requires { (E : List (Entry T)) × IsSetOf T.cmp T.code_of heap.now self.now E }
        ensures { (E : List (Entry T)) → IsSetOf T.cmp T.code_of heap.now self.now E → result ≡ length E }
    {
        count(heap, self.root)
    }

    /// Whether the key is in the set.
    pub fn has<T: Element, P: Probe<T>>(&self, heap: &Heap<T>, key: &P) -> bool
        requires { (E : List (Entry T)) × IsSetOf T.cmp T.code_of heap.now self.now E }
        ensures { (E : List (Entry T)) → IsSetOf T.cmp T.code_of heap.now self.now E → result ≡ is_some (link_with T.cmp (P.stands_for key.now) E) }
    {
        find(heap, self.root, key, self.bits).is_some()
    }

    /// The number of keys with the key's masked code.
    pub fn alike<T: Element, P: Probe<T>>(&self, heap: &Heap<T>, key: &P) -> usize
        requires { (E : List (Entry T)) × IsSetOf T.cmp T.code_of heap.now self.now E }
        ensures { (E : List (Entry T)) → IsSetOf T.cmp T.code_of heap.now self.now E →
            result ≡ alike_to T.code_of self.now.bits (P.stands_for key.now) E }
    {
        alike(heap, self.root, key, self.bits)
    }

    /// The links of the keys' cells in the order of the trie's walk. It takes no memory.
    pub fn members<'h, T: Element>(&self, heap: &'h Heap<T>) -> Entries<'h, T>
        requires { (E : List (Entry T)) × IsSetOf T.cmp T.code_of heap.now self.now E }
        ensures walk { result ≡ walk heap.now self.now.root }
        ensures cells { (E : List (Entry T)) → IsSetOf T.cmp T.code_of heap.now self.now E → SameSet result (map (λ e. e.link) E) }
        ensures number { (E : List (Entry T)) → IsSetOf T.cmp T.code_of heap.now self.now E → length result ≡ length E }
        ensures few { length result < row_limit }
    {
        entries(heap, self.root)
    }
}

/// The set with the key. Where the key is there, the set is the same, and this takes no memory. It makes at most one cell
/// and `ADD_NODES` nodes, and one node more for each key with the same masked code. The cells of other keys stay, and
/// beside the way of the key's code the tries share their rows. Err gives the key back where memory runs out: it leaves the
/// heap as it was.
pub fn set_insert<T: Element>(heap: &mut Heap<T>, set: SetRef, key: T) -> Result<Set, MapFault<T>>
    requires few { hold_count heap.old < half_holds }
    requires contents { (E : List (Entry T)) × IsSetOf T.cmp T.code_of heap.old set E }
    ensures answered { (E : List (Entry T)) → IsSetOf T.cmp T.code_of heap.old set E →
        IfOk result (λ made. Answered heap.old heap.new [] made.root 1 (ADD_NODES + alike_to T.code_of set.bits key E)) }
    ensures made { OnOk result (MakesJust heap.old heap.new) }
    ensures present { (E : List (Entry T)) → IsSetOf T.cmp T.code_of heap.old set E → (link_with T.cmp key E ≢ None) →
        (result ≡ Ok set) × SameRows heap.old heap.new × Builds heap.old heap.new [] (set.root ∷ []) 0 0 }
    ensures bits { IfOk result (λ made. made.bits ≡ set.bits) }
    ensures added { (E : List (Entry T)) → IsSetOf T.cmp T.code_of heap.old set E → (link_with T.cmp key E ≡ None) →
        IfOk result (λ made. (x : ℕ) × IsSetOf T.cmp T.code_of heap.new made (entry_of key x ∷ E)) }
    ensures shares { IfOk result (λ made. SharesBeside (form_at heap.old) (form_at heap.new) (code_by T.code_of set.bits key) LEVELS 0 set.root made.root) }
    ensures containers { KeepsContainers heap.old heap.new }
    ensures handed_back { IfErr result (λ fault. (fault.key ≡ key) × (heap.new ≡ heap.old)) }
    ensures spares { (E : List (Entry T)) → IsSetOf T.cmp T.code_of heap.old set E →
        OnOk result (KeepsToNeed heap.old heap.new 1 (ADD_NODES + alike_to T.code_of set.bits key E)) }
    ensures ample { (E : List (Entry T)) → IsSetOf T.cmp T.code_of heap.old set E →
        HasSpares heap.old 1 (ADD_NODES + alike_to T.code_of set.bits key E) → IsOk result }
{
    let found = look_up(heap, set.root, &key, set.bits);
    if found.entry.is_some() {
        heap.hold(set.root);
        return Ok(Rooted::from_root(set.root, set.bits));
    }
    if heap.reserve(1, found.alike + ADD_NODES).is_err() {
        return Err(MapFault { key });
    }
    let cell = heap.cell(key);
    let root = added(heap, set.root, cell, set.bits);
    Ok(Rooted::from_root(root, set.bits))
}

/// The set without the key, None exactly where the key is absent. It makes at most `LEVELS` nodes, and one more for
/// each key with the same masked code. The cells of other keys stay, and beside the way of the key's code the tries share
/// their rows. Err where memory runs out: it leaves the heap as it was.
pub fn set_remove<T: Element, P: Probe<T>>(
    heap: &mut Heap<T>,
    set: SetRef,
    key: &P,
) -> Result<Option<Set>, NoMemory>
    requires few { hold_count heap.old < half_holds }
    requires contents { (E : List (Entry T)) × IsSetOf T.cmp T.code_of heap.old set E }
    ensures absent { (E : List (Entry T)) → IsSetOf T.cmp T.code_of heap.old set E → (result ≡ Ok None) ↔ (link_with T.cmp (P.stands_for key.now) E ≡ None) }
    ensures nothing { IfOk result (λ left. IfNone left (heap.new ≡ heap.old)) }
    ensures answered { (E : List (Entry T)) → IsSetOf T.cmp T.code_of heap.old set E →
        IfOk result (λ left. IfSome left (λ made. Answered heap.old heap.new [] made.root 0 (LEVELS + alike_to T.code_of set.bits (P.stands_for key.now) E))) }
    ensures made { OnOk result (MakesJust heap.old heap.new) }
    ensures bits { IfOk result (λ left. IfSome left (λ made. made.bits ≡ set.bits)) }
    ensures contents { (E : List (Entry T)) → IsSetOf T.cmp T.code_of heap.old set E →
        IfOk result (λ left. IfSome left (λ made. IsSetOf T.cmp T.code_of heap.new made (others T.cmp (P.stands_for key.now) E))) }
    ensures shares { IfOk result (λ left. IfSome left (λ made.
        SharesBeside (form_at heap.old) (form_at heap.new) (code_by T.code_of set.bits (P.stands_for key.now)) LEVELS 0 set.root made.root)) }
    ensures containers { KeepsContainers heap.old heap.new }
    ensures refused { OnErr result (heap.new ≡ heap.old) }
    ensures spares { (E : List (Entry T)) → IsSetOf T.cmp T.code_of heap.old set E →
        OnOk result (KeepsToNeed heap.old heap.new 0 (LEVELS + alike_to T.code_of set.bits (P.stands_for key.now) E)) }
    ensures ample { (E : List (Entry T)) → IsSetOf T.cmp T.code_of heap.old set E →
        HasSpares heap.old 0 (LEVELS + alike_to T.code_of set.bits (P.stands_for key.now) E) → IsOk result }
{
    match without(heap, set.root, key, set.bits)? {
        None => Ok(None),
        Some(root) => Ok(Some(Rooted::from_root(root, set.bits))),
    }
}
