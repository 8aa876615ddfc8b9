//! The roots of sets that are edited in place.
ghost use Rattle.std.specs.Prelude.{◌≡◌, ◌+◌, ◌<◌, ◌≤◌, List, IfOk, IfErr, OnOk, OnErr};
ghost use Rattle.std.specs.BTreeSet.{insert_key};
ghost use Rattle.elem_core.specs.declared.codes.TheConstants.{LEVELS};
ghost use Rattle.node_heap.specs.Heap.{holds_at, hold_count, quarter_holds};
ghost use Rattle.champ_trie.specs.declared.TheConstants.{ADD_NODES};
ghost use Rattle.versions.specs.Roots.{Edits};
ghost use Rattle.versions.specs.Sorted.{remove_key};
ghost use Rattle.versions.specs.Keyed.{alike, IsKeySet};

use champ_kinds::{MapFault, Set};
use edit_trie::SetEdit;
use elem_core::{CODE_BITS, Element, NoMemory, Probe};
use node_heap::{Heap, Link};

// The set with the key, in place of the old one, of which a hold is spent. Err gives the key back where memory runs out.
pub(crate) fn with_key_here<K: Element>(heap: &mut Heap<K>, root: Link, key: K) -> Result<Link, K>
    requires set { (ks : List K) × IsKeySet K.cmp K.code_of heap.old root ks }
    requires few { hold_count heap.old < quarter_holds }
    requires held { 0 < holds_at heap.old root }
    ensures edits { (ks : List K) → IsKeySet K.cmp K.code_of heap.old root ks →
        IfOk result (λ l. Edits (IsKeySet K.cmp K.code_of) heap.old heap.new root l (insert_key K.cmp ks key)) }
    ensures made { (ks : List K) → IsKeySet K.cmp K.code_of heap.old root ks →
        OnOk result (heap.new.made ≤ heap.old.made + (1 + ADD_NODES + alike K.code_of key ks)) }
    ensures back { IfErr result (λ k. k ≡ key) }
    ensures refused { OnErr result (heap.new ≡ heap.old) }
{
    let mut edit = SetEdit::open(Set::from_root(root, CODE_BITS));
    match edit.insert(heap, key) {
        Ok(_) => Ok(edit.freeze().into_root()),
        Err(MapFault { key }) => {
            edit.freeze().into_root();
            Err(key)
        }
    }
}

// The set without the key, in place of the old one, of which a hold is spent. Err where memory runs out.
pub(crate) fn without_key_here<K: Element, P: Probe<K>>(
    heap: &mut Heap<K>,
    root: Link,
    key: &P,
) -> Result<Link, NoMemory>
    requires set { (ks : List K) × IsKeySet K.cmp K.code_of heap.old root ks }
    requires few { hold_count heap.old < quarter_holds }
    requires held { 0 < holds_at heap.old root }
    ensures edits { (ks : List K) → IsKeySet K.cmp K.code_of heap.old root ks →
        IfOk result (λ l. Edits (IsKeySet K.cmp K.code_of) heap.old heap.new root l (remove_key K.cmp ks (P.stands_for key.now))) }
    ensures made { (ks : List K) → IsKeySet K.cmp K.code_of heap.old root ks →
        OnOk result (heap.new.made ≤ heap.old.made + (LEVELS + alike K.code_of (P.stands_for key.now) ks)) }
    ensures refused { OnErr result (heap.new ≡ heap.old) }
{
    let mut edit = SetEdit::open(Set::from_root(root, CODE_BITS));
    match edit.remove(heap, key) {
        Ok(_) => Ok(edit.freeze().into_root()),
        Err(fault) => {
            edit.freeze().into_root();
            Err(fault)
        }
    }
}
