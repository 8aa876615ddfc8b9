//! The roots of new sets, and what one asks of a set by its root.
ghost use Rattle.std.specs.Prelude.{◌≡◌, ◌↔◌, ◌+◌, ◌<◌, ◌≤◌, List, [], IfOk, IfErr, OnOk, OnErr, IsTrue, length};
ghost use Rattle.std.specs.BTreeSet.{insert_key};
ghost use Rattle.elem_core.specs.declared.codes.TheConstants.{LEVELS};
ghost use Rattle.node_heap.specs.Heap.{hold_count, quarter_holds, HasSpares};
ghost use Rattle.champ_trie.specs.declared.TheConstants.{ADD_NODES};
ghost use Rattle.versions.specs.Roots.{Makes};
ghost use Rattle.versions.specs.Sorted.{has, remove_key};
ghost use Rattle.versions.specs.Keyed.{alike, IsKeySet};

use champ_kinds::{MapFault, Set, SetRef, set_insert, set_remove};
use elem_core::{CODE_BITS, Element, NoMemory, Probe};
use node_heap::{Heap, Link};

// The set without keys, of a node that is there.
pub(crate) fn no_keys<K: Element>(heap: &mut Heap<K>) -> Link
    requires spares { HasSpares heap.old 0 1 }
    requires few { hold_count heap.old < quarter_holds }
    ensures { Makes (IsKeySet K.cmp K.code_of) heap.old heap.new result [] }
{
    match Set::empty(heap, CODE_BITS) {
        Ok(set) => set.into_root(),
        Err(_) => unreachable!(),
    }
}

// The same set once more.
pub(crate) fn same_keys<K: Element>(heap: &mut Heap<K>, root: Link) -> Link
    requires set { (ks : List K) × IsKeySet K.cmp K.code_of heap.old root ks }
    requires few { hold_count heap.old < quarter_holds }
    ensures makes { (ks : List K) → IsKeySet K.cmp K.code_of heap.old root ks → Makes (IsKeySet K.cmp K.code_of) heap.old heap.new result ks }
    ensures rows { heap.new.made ≤ heap.old.made }
{
    heap.hold(root);
    root
}

// The set with the key. Err gives the key back where memory runs out.
pub(crate) fn with_key<K: Element>(heap: &mut Heap<K>, root: Link, key: K) -> Result<Link, K>
    requires set { (ks : List K) × IsKeySet K.cmp K.code_of heap.old root ks }
    requires few { hold_count heap.old < quarter_holds }
    ensures made { (ks : List K) → IsKeySet K.cmp K.code_of heap.old root ks →
        IfOk result (λ l. Makes (IsKeySet K.cmp K.code_of) heap.old heap.new l (insert_key K.cmp ks key)) }
    ensures rows { (ks : List K) → IsKeySet K.cmp K.code_of heap.old root ks →
        OnOk result (heap.new.made ≤ heap.old.made + (1 + ADD_NODES + alike K.code_of key ks)) }
    ensures back { IfErr result (λ k. k ≡ key) }
    ensures refused { OnErr result (heap.new ≡ heap.old) }
{
    match set_insert(heap, SetRef::at(root, CODE_BITS), key) {
        Ok(set) => Ok(set.into_root()),
        Err(MapFault { key }) => Err(key),
    }
}

// The set without the key. Err where memory runs out.
pub(crate) fn without_key<K: Element, P: Probe<K>>(
    heap: &mut Heap<K>,
    root: Link,
    key: &P,
) -> Result<Link, NoMemory>
    requires set { (ks : List K) × IsKeySet K.cmp K.code_of heap.old root ks }
    requires few { hold_count heap.old < quarter_holds }
    ensures made { (ks : List K) → IsKeySet K.cmp K.code_of heap.old root ks →
        IfOk result (λ l. Makes (IsKeySet K.cmp K.code_of) heap.old heap.new l (remove_key K.cmp ks (P.stands_for key.now))) }
    ensures rows { (ks : List K) → IsKeySet K.cmp K.code_of heap.old root ks →
        OnOk result (heap.new.made ≤ heap.old.made + (LEVELS + alike K.code_of (P.stands_for key.now) ks)) }
    ensures refused { OnErr result (heap.new ≡ heap.old) }
{
    match set_remove(heap, SetRef::at(root, CODE_BITS), key)? {
        Some(set) => Ok(set.into_root()),
        None => Ok(same_keys(heap, root)),
    }
}

// Whether the set has the key.
pub(crate) fn has_key<K: Element, P: Probe<K>>(heap: &Heap<K>, root: Link, key: &P) -> bool
    requires { (ks : List K) × IsKeySet K.cmp K.code_of heap.now root ks }
    ensures { (ks : List K) → IsKeySet K.cmp K.code_of heap.now root ks → result ≡ has K.cmp (P.stands_for key.now) ks }
{
    SetRef::at(root, CODE_BITS).has(heap, key)
}

// How many keys the set has.
pub(crate) fn key_count<K: Element>(heap: &Heap<K>, root: Link) -> usize
    requires { (ks : List K) × IsKeySet K.cmp K.code_of heap.now root ks }
    ensures { (ks : List K) → IsKeySet K.cmp K.code_of heap.now root ks → result ≡ length ks }
{
    SetRef::at(root, CODE_BITS).len(heap)
}

// Whether the set has no key.
pub(crate) fn has_no_key<K: Element>(heap: &Heap<K>, root: Link) -> bool
    requires { (ks : List K) × IsKeySet K.cmp K.code_of heap.now root ks }
    ensures { (ks : List K) → IsKeySet K.cmp K.code_of heap.now root ks → (IsTrue result ↔ (ks ≡ [])) }
{
    let mut members = SetRef::at(root, CODE_BITS).members(heap);
    members.next().is_none()
}
