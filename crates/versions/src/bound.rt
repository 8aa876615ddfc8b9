//! The roots of new maps, and what one asks of a map by its root.
ghost use Rattle.std.specs.Prelude.{◌≡◌, ◌↔◌, ◌+◌, ◌<◌, ◌≤◌, List, [], map, IfOk, IfErr, OnOk, OnErr, IsTrue, length, option_copied};
ghost use Rattle.std.specs.FinMap.{find, put};
ghost use Rattle.elem_core.specs.declared.codes.TheConstants.{LEVELS};
ghost use Rattle.node_heap.specs.Heap.{hold_count, quarter_holds, HasSpares};
ghost use Rattle.versions.specs.Roots.{Makes};
ghost use Rattle.versions.specs.Keyed.{alike};
ghost use Rattle.versions.specs.Sorted.{remove_entry};
ghost use Rattle.versions.specs.Bound.{IsKeyMap};

use crate::piece::{KeyOf, Piece};
use champ_kinds::{INSERT_NODES, Map, MapRef, map_insert_there, map_remove};
use champ_trie::look_up;
use elem_core::{CODE_BITS, Element, NoMemory, Probe};
use node_heap::{Heap, Link};

// The map without keys, of a node that is there.
pub(crate) fn no_entries<K: Element, V: Ord + Drop>(heap: &mut Heap<Piece<K, V>>) -> Link
    requires spares { HasSpares heap.old 0 1 }
    requires few { hold_count heap.old < quarter_holds }
    ensures { Makes (IsKeyMap K.cmp V.cmp K.code_of) heap.old heap.new result [] }
{
    match Map::empty(heap, CODE_BITS) {
        Ok(map) => map.into_root(),
        Err(_) => unreachable!(),
    }
}

// The same map once more.
pub(crate) fn same_entries<K: Element, V: Ord + Drop>(
    heap: &mut Heap<Piece<K, V>>,
    root: Link,
) -> Link
    requires map { (es : List (K × V)) × IsKeyMap K.cmp V.cmp K.code_of heap.old root es }
    requires few { hold_count heap.old < quarter_holds }
    ensures makes { (es : List (K × V)) → IsKeyMap K.cmp V.cmp K.code_of heap.old root es →
        Makes (IsKeyMap K.cmp V.cmp K.code_of) heap.old heap.new result es }
    ensures rows { heap.new.made ≤ heap.old.made }
{
    heap.hold(root);
    root
}

// The map with the value at the key. Err gives both back where memory runs out.
pub(crate) fn with_entry<K: Element, V: Ord + Drop>(
    heap: &mut Heap<Piece<K, V>>,
    root: Link,
    key: K,
    value: V,
) -> Result<Link, (K, V)>
    requires map { (es : List (K × V)) × IsKeyMap K.cmp V.cmp K.code_of heap.old root es }
    requires few { hold_count heap.old < quarter_holds }
    ensures made { (es : List (K × V)) → IsKeyMap K.cmp V.cmp K.code_of heap.old root es →
        IfOk result (λ l. Makes (IsKeyMap K.cmp V.cmp K.code_of) heap.old heap.new l (put K.cmp key value es)) }
    ensures back { IfErr result (λ entry. entry ≡ (key, value)) }
    ensures refused { OnErr result (heap.new ≡ heap.old) }
{
    let found = look_up(heap, root, &KeyOf(&key), CODE_BITS);
    // The value is put into a cell only where nothing is refused any more.
    if heap.reserve(2, found.alike + INSERT_NODES).is_err() {
        return Err((key, value));
    }
    let cell = heap.cell(Piece::Value(value));
    let map = MapRef::at(root, CODE_BITS);
    let made = map_insert_there(heap, map, found.entry, Piece::Key(key), cell);
    Ok(made.into_root())
}

// The map without the key. Err where memory runs out.
pub(crate) fn without_entry<K: Element, V: Ord + Drop, P: Probe<K>>(
    heap: &mut Heap<Piece<K, V>>,
    root: Link,
    key: &P,
) -> Result<Link, NoMemory>
    requires map { (es : List (K × V)) × IsKeyMap K.cmp V.cmp K.code_of heap.old root es }
    requires few { hold_count heap.old < quarter_holds }
    ensures made { (es : List (K × V)) → IsKeyMap K.cmp V.cmp K.code_of heap.old root es →
        IfOk result (λ l. Makes (IsKeyMap K.cmp V.cmp K.code_of) heap.old heap.new l (remove_entry K.cmp es (P.stands_for key.now))) }
    ensures rows { (es : List (K × V)) → IsKeyMap K.cmp V.cmp K.code_of heap.old root es →
        OnOk result (heap.new.made ≤ heap.old.made + (LEVELS + alike K.code_of (P.stands_for key.now) (map (λ e. e.0) es))) }
    ensures refused { OnErr result (heap.new ≡ heap.old) }
{
    match map_remove(heap, MapRef::at(root, CODE_BITS), &KeyOf(key))? {
        Some(map) => Ok(map.into_root()),
        None => Ok(same_entries(heap, root)),
    }
}

// The value that the map has at the key.
pub(crate) fn value_with<'h, K: Element, V: Ord + Drop, P: Probe<K>>(
    heap: &'h Heap<Piece<K, V>>,
    root: Link,
    key: &P,
) -> Option<&'h V>
    requires { (es : List (K × V)) × IsKeyMap K.cmp V.cmp K.code_of heap.now root es }
    ensures { (es : List (K × V)) → IsKeyMap K.cmp V.cmp K.code_of heap.now root es →
        option_copied result ≡ find K.cmp (P.stands_for key.now) es }
{
    let cell = MapRef::at(root, CODE_BITS).get(heap, &KeyOf(key))?;
    let piece = heap.value(cell)?;
    piece.as_value()
}

// How many keys the map has.
pub(crate) fn entry_count<K: Element, V: Ord + Drop>(heap: &Heap<Piece<K, V>>, root: Link) -> usize
    requires { (es : List (K × V)) × IsKeyMap K.cmp V.cmp K.code_of heap.now root es }
    ensures { (es : List (K × V)) → IsKeyMap K.cmp V.cmp K.code_of heap.now root es → result ≡ length es }
{
    MapRef::at(root, CODE_BITS).len(heap)
}

// Whether the map has no key.
pub(crate) fn has_no_entry<K: Element, V: Ord + Drop>(heap: &Heap<Piece<K, V>>, root: Link) -> bool
    requires { (es : List (K × V)) × IsKeyMap K.cmp V.cmp K.code_of heap.now root es }
    ensures { (es : List (K × V)) → IsKeyMap K.cmp V.cmp K.code_of heap.now root es → (IsTrue result ↔ (es ≡ [])) }
{
    let mut entries = MapRef::at(root, CODE_BITS).entries(heap);
    entries.next().is_none()
}
