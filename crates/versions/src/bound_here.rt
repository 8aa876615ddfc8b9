//! The roots of maps that are edited in place.
ghost use Rattle.std.specs.Prelude.{◌≡◌, ◌+◌, ◌<◌, ◌≤◌, List, [], map, IfOk, IfErr, OnOk, OnErr};
ghost use Rattle.std.specs.FinMap.{put};
ghost use Rattle.elem_core.specs.declared.codes.TheConstants.{CODE_BITS};
ghost use Rattle.node_heap.specs.Heap.{holds_at, hold_count, half_holds, quarter_holds, HasSpares};
ghost use Rattle.node_heap.specs.Calls.{Extends};
ghost use Rattle.node_heap.specs.declared.owner.Owner.TheVariants.{Hold as by_hold};
ghost use Rattle.node_heap.specs.Owner.{EditsBy};
ghost use Rattle.champ_kinds.specs.Binding.{Binding};
ghost use Rattle.champ_kinds.specs.Kinds.{IsMapOf};
ghost use Rattle.versions.specs.Roots.{Edits};
ghost use Rattle.versions.specs.Keyed.{by_root, alike};
ghost use Rattle.versions.specs.Sorted.{remove_entry};
ghost use Rattle.versions.specs.Bound.{IsKeyMap};
ghost use Rattle.versions.specs.declared.bound_here.TheConstants.{BOUND_HERE_NODES, UNBOUND_HERE_NODES};

use crate::piece::{KeyOf, Piece};
use champ_kinds::{INSERT_NODES, Map};
use champ_trie::look_up;
use edit_trie::{MapOpenFault, TrieEdit};
use elem_core::{CODE_BITS, Element, LEVELS, NoMemory, Probe};
use node_heap::{Heap, Link};

// The most nodes that an insertion makes beside one for each key with the same code, with that for a root of one's own.
pub(crate) const BOUND_HERE_NODES: usize = INSERT_NODES + 1;

// The same of a removal.
pub(crate) const UNBOUND_HERE_NODES: usize = LEVELS as usize + 1;

// The map of a root, opened for edits in place.
fn opened<T: Element>(heap: &mut Heap<T>, root: Link) -> TrieEdit
    requires spares { HasSpares heap.old 0 1 }
    requires few { hold_count heap.old < half_holds }
    requires held { 0 < holds_at heap.old root }
    requires map { (M : List (Binding T)) × IsMapOf T.cmp T.code_of heap.old (by_root root) M }
    ensures bits { result.bits ≡ CODE_BITS }
    ensures extends { Extends heap.old heap.new }
    ensures edits { EditsBy (by_hold root) heap.old heap.new result.root [] [] 0 1 }
    ensures map { (M : List (Binding T)) → IsMapOf T.cmp T.code_of heap.old (by_root root) M → IsMapOf T.cmp T.code_of heap.new result M }
{
    match TrieEdit::open(Map::from_root(root, CODE_BITS), heap) {
        Ok(edit) => edit,
        Err(MapOpenFault { map }) => {
            map.into_root();
            unreachable!()
        }
    }
}

// The map with the value at the key, in place of the old one, of which a hold is spent. Err gives both back where memory
// runs out.
pub(crate) fn bound_here<K: Element, V: Ord + Drop>(
    heap: &mut Heap<Piece<K, V>>,
    root: Link,
    key: K,
    value: V,
) -> Result<Link, (K, V)>
    requires map { (es : List (K × V)) × IsKeyMap K.cmp V.cmp K.code_of heap.old root es }
    requires few { hold_count heap.old < quarter_holds }
    requires held { 0 < holds_at heap.old root }
    ensures edits { (es : List (K × V)) → IsKeyMap K.cmp V.cmp K.code_of heap.old root es →
        IfOk result (λ l. Edits (IsKeyMap K.cmp V.cmp K.code_of) heap.old heap.new root l (put K.cmp key value es)) }
    ensures made { (es : List (K × V)) → IsKeyMap K.cmp V.cmp K.code_of heap.old root es →
        OnOk result (heap.new.made ≤ heap.old.made + (2 + BOUND_HERE_NODES + alike K.code_of key (map (λ e. e.0) es))) }
    ensures back { IfErr result (λ entry. entry ≡ (key, value)) }
    ensures refused { OnErr result (heap.new ≡ heap.old) }
{
    let found = look_up(heap, root, &KeyOf(&key), CODE_BITS);
    if heap.reserve(2, found.alike + BOUND_HERE_NODES).is_err() {
        return Err((key, value));
    }
    let cell = heap.cell(Piece::Value(value));
    let mut edit = opened(heap, root);
    match edit.insert(heap, Piece::Key(key), cell) {
        Ok(Some(given)) => {
            heap.release(given);
            Ok(edit.freeze().into_root())
        }
        Ok(None) => Ok(edit.freeze().into_root()),
        Err(_) => unreachable!(),
    }
}

// The map without the key, in place of the old one, of which a hold is spent. Err where memory runs out.
pub(crate) fn unbound_here<K: Element, V: Ord + Drop, P: Probe<K>>(
    heap: &mut Heap<Piece<K, V>>,
    root: Link,
    key: &P,
) -> Result<Link, NoMemory>
    requires map { (es : List (K × V)) × IsKeyMap K.cmp V.cmp K.code_of heap.old root es }
    requires few { hold_count heap.old < quarter_holds }
    requires held { 0 < holds_at heap.old root }
    ensures edits { (es : List (K × V)) → IsKeyMap K.cmp V.cmp K.code_of heap.old root es →
        IfOk result (λ l. Edits (IsKeyMap K.cmp V.cmp K.code_of) heap.old heap.new root l (remove_entry K.cmp es (P.stands_for key.now))) }
    ensures made { (es : List (K × V)) → IsKeyMap K.cmp V.cmp K.code_of heap.old root es →
        OnOk result (heap.new.made ≤ heap.old.made + (UNBOUND_HERE_NODES + alike K.code_of (P.stands_for key.now) (map (λ e. e.0) es))) }
    ensures refused { OnErr result (heap.new ≡ heap.old) }
{
    let probe = KeyOf(key);
    let found = look_up(heap, root, &probe, CODE_BITS);
    heap.reserve(0, found.alike + UNBOUND_HERE_NODES)?;
    let mut edit = opened(heap, root);
    match edit.remove(heap, &probe) {
        Ok(Some(given)) => {
            heap.release(given);
            Ok(edit.freeze().into_root())
        }
        Ok(None) => Ok(edit.freeze().into_root()),
        Err(_) => unreachable!(),
    }
}
