//! Maps.
ghost use Rattle.std.specs.Prelude.{◌≡◌, ◌↔◌, ℕ, ◌+◌, ◌<◌, ◌≤◌, List, [], ◌∷◌, length, Some, None, IsSome, IfOk, IfErr, OnOk, OnErr, IsOk, MatchOption, IfSome, IfNone};
ghost use Rattle.node_heap.specs.Forms.{cell};
ghost use Rattle.node_heap.specs.Heap.{row_at, form_at, holds_at, hold_count, HasSpares, IsGraph, half_holds, most_holds, row_limit};
ghost use Rattle.node_heap.specs.Calls.{Answered, Builds, KeepsToNeed, MakesJust};
ghost use Rattle.champ_chain.specs.Entry.{Entry, entry as entry_of, link_with, others};
ghost use Rattle.champ_trie.specs.Trie.{code_by};
ghost use Rattle.champ_trie.specs.Edit.{SharesBeside};
ghost use Rattle.champ_trie.specs.Walk.{walk};
ghost use Rattle.champ_kinds.specs.Root.{Root};
ghost use Rattle.champ_kinds.specs.Binding.{Binding, binding, alike_keys, bind, unbind, value_with};
ghost use Rattle.champ_kinds.specs.Kinds.{IsPair, ArePairLinks, HasEntries, IsMapOf};
ghost use Rattle.champ_kinds.specs.Edit.{PutsPair};
ghost use Rattle.champ_kinds.specs.Laws.{KeepsContainers};

use crate::fault::MapFault;
use crate::root::{RootRef, Rooted};
use champ_trie::{ADD_NODES, Entries, added, alike, count, entries, find, look_up, without};
use elem_core::{Element, LEVELS, NoMemory, Probe};
use node_heap::{Head, Heap, Link};

/// Marks the roots of maps.
#[derive(Clone, Copy)]
pub struct Maps;

/// The most nodes that putting a value at a key makes, besides one for each key with the same masked code: those of the trie,
/// and the pair.
pub const INSERT_NODES: usize = ADD_NODES + 1;

/// A map that owns one hold of its root. It is given up by `release`, and cannot be dropped or copied.
pub type Map = Rooted<Maps>;

/// Names a map by its root, without a hold.
pub type MapRef = RootRef<Maps>;

impl RootRef<Maps> {
    /// The number of keys. It walks them all.
    pub fn len<T: Element>(&self, heap: &Heap<T>) -> usize
        requires { (M : List (Binding T)) × IsMapOf T.cmp T.code_of heap.now self.now M }
        ensures { (M : List (Binding T)) → IsMapOf T.cmp T.code_of heap.now self.now M → result ≡ length M }
    {
        count(heap, self.root)
    }

    /// The link of the key's value, None exactly where the key is absent.
    pub fn get<T: Element, P: Probe<T>>(&self, heap: &Heap<T>, key: &P) -> Option<Link>
        requires { (M : List (Binding T)) × IsMapOf T.cmp T.code_of heap.now self.now M }
        ensures value { (M : List (Binding T)) → IsMapOf T.cmp T.code_of heap.now self.now M → result ≡ value_with T.cmp (P.stands_for key.now) M }
        ensures live { IfSome result (λ v. IsSome (row_at heap.now v)) }
    {
        let entry = find(heap, self.root, key, self.bits)?;
        Some(heap.links(entry)[1])
    }

    /// The number of keys with the key's masked code.
    pub fn alike<T: Element, P: Probe<T>>(&self, heap: &Heap<T>, key: &P) -> usize
        requires { (M : List (Binding T)) × IsMapOf T.cmp T.code_of heap.now self.now M }
        ensures { (M : List (Binding T)) → IsMapOf T.cmp T.code_of heap.now self.now M →
            result ≡ alike_keys T.code_of self.now.bits (P.stands_for key.now) M }
    {
        alike(heap, self.root, key, self.bits)
    }

    /// The links of the entries in the order of the trie's walk, each a pair of a key cell and a value. It takes no memory.
    pub fn entries<'h, T: Element>(&self, heap: &'h Heap<T>) -> Entries<'h, T>
        requires { (M : List (Binding T)) × IsMapOf T.cmp T.code_of heap.now self.now M }
        ensures walk { result ≡ walk heap.now self.now.root }
        ensures pairs { (M : List (Binding T)) → IsMapOf T.cmp T.code_of heap.now self.now M → ArePairLinks (form_at heap.now) result M }
        ensures number { (M : List (Binding T)) → IsMapOf T.cmp T.code_of heap.now self.now M → length result ≡ length M }
        ensures few { length result < row_limit }
    {
        entries(heap, self.root)
    }
}

/// The map with this value at the key. Where the key is there, its old cell stays and the value is replaced. The value's
/// hold is spent on Ok. It makes at most one cell and `INSERT_NODES` nodes, and one node more for each key with the same
/// masked code. The entries of other keys stay in their places, and beside the way of the key's code the tries share their
/// rows. Err gives the key back where memory runs out: it leaves the heap as it was.
pub fn map_insert<T: Element>(
    heap: &mut Heap<T>,
    map: MapRef,
    key: T,
    value: Link,
) -> Result<Map, MapFault<T>>
    requires few { hold_count heap.old < half_holds }
    requires held { 0 < holds_at heap.old value }
    requires contents { (M : List (Binding T)) × IsMapOf T.cmp T.code_of heap.old map M }
    ensures answered { (M : List (Binding T)) → IsMapOf T.cmp T.code_of heap.old map M →
        IfOk result (λ made. Answered heap.old heap.new (value ∷ []) made.root 1 (INSERT_NODES + alike_keys T.code_of map.bits key M)) }
    ensures made { OnOk result (MakesJust heap.old heap.new) }
    ensures bits { IfOk result (λ made. made.bits ≡ map.bits) }
    ensures contents { (M : List (Binding T)) → IsMapOf T.cmp T.code_of heap.old map M →
        IfOk result (λ made. IsMapOf T.cmp T.code_of heap.new made (bind T.cmp M key value)) }
    ensures entries { (E : List (Entry T)) → HasEntries T.cmp T.code_of heap.old map E →
        IfOk result (λ made. PutsPair T.cmp T.code_of heap.old heap.new made E key value) }
    ensures shares { IfOk result (λ made. SharesBeside (form_at heap.old) (form_at heap.new) (code_by T.code_of map.bits key) LEVELS 0 map.root made.root) }
    ensures containers { KeepsContainers heap.old heap.new }
    ensures handed_back { IfErr result (λ fault. (fault.key ≡ key) × (heap.new ≡ heap.old)) }
    ensures spares { (M : List (Binding T)) → IsMapOf T.cmp T.code_of heap.old map M →
        OnOk result (KeepsToNeed heap.old heap.new 1 (INSERT_NODES + alike_keys T.code_of map.bits key M)) }
    ensures ample { (M : List (Binding T)) → IsMapOf T.cmp T.code_of heap.old map M →
        HasSpares heap.old 1 (INSERT_NODES + alike_keys T.code_of map.bits key M) → IsOk result }
{
    let found = look_up(heap, map.root, &key, map.bits);
    if heap.reserve(1, found.alike + INSERT_NODES).is_err() {
        return Err(MapFault { key });
    }
    Ok(map_insert_there(heap, map, found.entry, key, value))
}

/// `map_insert` where the entry of the key, if any, has been looked up and there are spares for all that it makes: it refuses
/// nothing.
pub fn map_insert_there<T: Element>(
    heap: &mut Heap<T>,
    map: MapRef,
    found: Option<Link>,
    key: T,
    value: Link,
) -> Map
    requires few { hold_count heap.old < half_holds }
    requires held { 0 < holds_at heap.old value }
    requires contents { (M : List (Binding T)) × IsMapOf T.cmp T.code_of heap.old map M
        × HasSpares heap.old 1 (INSERT_NODES + alike_keys T.code_of map.bits key M) }
    requires found { (E : List (Entry T)) × HasEntries T.cmp T.code_of heap.old map E × (found ≡ link_with T.cmp key E) }
    ensures answered { (M : List (Binding T)) → IsMapOf T.cmp T.code_of heap.old map M →
        Answered heap.old heap.new (value ∷ []) result.root 1 (INSERT_NODES + alike_keys T.code_of map.bits key M) }
    ensures made { MakesJust heap.old heap.new }
    ensures bits { result.bits ≡ map.bits }
    ensures contents { (M : List (Binding T)) → IsMapOf T.cmp T.code_of heap.old map M →
        IsMapOf T.cmp T.code_of heap.new result (bind T.cmp M key value) }
    ensures entries { (E : List (Entry T)) → HasEntries T.cmp T.code_of heap.old map E →
        PutsPair T.cmp T.code_of heap.old heap.new result E key value }
    ensures shares { SharesBeside (form_at heap.old) (form_at heap.new) (code_by T.code_of map.bits key) LEVELS 0 map.root result.root }
    ensures containers { KeepsContainers heap.old heap.new }
    ensures spares { KeepsToNeed heap.old heap.new 0 0 }
{
    heap.rows_form_a_graph();
    let cell = key_cell(heap, found, key);
    let entry = heap.node(Head::Pair, &[cell, value]);
    let root = added(heap, map.root, entry, map.bits);
    Rooted::from_root(root, map.bits)
}

// The key's cell, with one hold more: that of the entry that was found, or else a new one.
fn key_cell<T: Element>(heap: &mut Heap<T>, found: Option<Link>, key: T) -> Link
    requires spare { 0 < heap.old.spare_cells }
    requires few { hold_count heap.old < most_holds }
    requires pair { IfSome found (λ x. (b : Binding T) × IsPair (form_at heap.old) (entry_of b.key x) b) }
    requires graph { IsGraph heap.old }
    ensures builds { Builds heap.old heap.new [] (result ∷ []) 1 0 }
    ensures cell { MatchOption found (form_at heap.new result ≡ Some (cell key)) (λ x. (b : Binding T) → (p : IsPair (form_at heap.old) (entry_of b.key x) b) → result ≡ p.key_cell) }
{
    match found {
        Some(entry) => {
            let cell = heap.links(entry)[0];
            heap.hold(cell);
            cell
        }
        None => heap.cell(key),
    }
}

/// The map without the key, None exactly where the key is absent. It makes at most `LEVELS` nodes, and one more for
/// each key with the same masked code. The entries of other keys stay in their places, and beside the way of the key's code
/// the tries share their rows. Err where memory runs out: it leaves the heap as it was.
pub fn map_remove<T: Element, P: Probe<T>>(
    heap: &mut Heap<T>,
    map: MapRef,
    key: &P,
) -> Result<Option<Map>, NoMemory>
    requires few { hold_count heap.old < half_holds }
    requires contents { (M : List (Binding T)) × IsMapOf T.cmp T.code_of heap.old map M }
    ensures absent { (M : List (Binding T)) → IsMapOf T.cmp T.code_of heap.old map M → (result ≡ Ok None) ↔ (value_with T.cmp (P.stands_for key.now) M ≡ None) }
    ensures nothing { IfOk result (λ left. IfNone left (heap.new ≡ heap.old)) }
    ensures answered { (M : List (Binding T)) → IsMapOf T.cmp T.code_of heap.old map M →
        IfOk result (λ left. IfSome left (λ made. Answered heap.old heap.new [] made.root 0 (LEVELS + alike_keys T.code_of map.bits (P.stands_for key.now) M))) }
    ensures made { OnOk result (MakesJust heap.old heap.new) }
    ensures bits { IfOk result (λ left. IfSome left (λ made. made.bits ≡ map.bits)) }
    ensures contents { (M : List (Binding T)) → IsMapOf T.cmp T.code_of heap.old map M →
        IfOk result (λ left. IfSome left (λ made. IsMapOf T.cmp T.code_of heap.new made (unbind T.cmp (P.stands_for key.now) M))) }
    ensures entries { (E : List (Entry T)) → HasEntries T.cmp T.code_of heap.old map E →
        IfOk result (λ left. IfSome left (λ made. HasEntries T.cmp T.code_of heap.new made (others T.cmp (P.stands_for key.now) E))) }
    ensures shares { IfOk result (λ left. IfSome left (λ made.
        SharesBeside (form_at heap.old) (form_at heap.new) (code_by T.code_of map.bits (P.stands_for key.now)) LEVELS 0 map.root made.root)) }
    ensures containers { KeepsContainers heap.old heap.new }
    ensures refused { OnErr result (heap.new ≡ heap.old) }
    ensures spares { (M : List (Binding T)) → IsMapOf T.cmp T.code_of heap.old map M →
        OnOk result (KeepsToNeed heap.old heap.new 0 (LEVELS + alike_keys T.code_of map.bits (P.stands_for key.now) M)) }
    ensures ample { (M : List (Binding T)) → IsMapOf T.cmp T.code_of heap.old map M →
        HasSpares heap.old 0 (LEVELS + alike_keys T.code_of map.bits (P.stands_for key.now) M) → IsOk result }
{
    match without(heap, map.root, key, map.bits)? {
        None => Ok(None),
        Some(root) => Ok(Some(Rooted::from_root(root, map.bits))),
    }
}
