//! The roots of merged sets and maps.
ghost use Rattle.std.specs.Prelude.{◌≡◌, ℕ, ◌+◌, ◌*◌, ◌<◌, ◌≤◌, List, length, IfOk, OnOk, OnErr};
ghost use Rattle.node_heap.specs.Heap.{form_at, node_count, hold_count, quarter_holds};
ghost use Rattle.same_value.specs.Apart.{HasApart};
ghost use Rattle.versions.specs.Roots.{Makes};
ghost use Rattle.versions.specs.Sorted.{both, less, map_both as map_both_of, map_less as map_less_of, map_union as map_union_of, union};
ghost use Rattle.versions.specs.Keyed.{IsKeySet};
ghost use Rattle.versions.specs.Bound.{IsKeyMap};

use crate::piece::Piece;
use champ_kinds::{MapRef, SetRef};
use elem_core::{CODE_BITS, Element, NoMemory};
use node_heap::{Heap, Link};
use set_merge::{map_both, map_less, map_union, set_both, set_less, set_union};

// The set of the keys of either. Err where memory runs out.
pub(crate) fn keys_of_either<K: Element>(
    heap: &mut Heap<K>,
    first: Link,
    second: Link,
) -> Result<Link, NoMemory>
    requires first { (ks : List K) × IsKeySet K.cmp K.code_of heap.old first ks }
    requires second { (js : List K) × IsKeySet K.cmp K.code_of heap.old second js }
    requires few { hold_count heap.old < quarter_holds }
    ensures made { (ks js : List K) → IsKeySet K.cmp K.code_of heap.old first ks → IsKeySet K.cmp K.code_of heap.old second js →
        IfOk result (λ l. Makes (IsKeySet K.cmp K.code_of) heap.old heap.new l (union K.cmp ks js)) }
    ensures apart { (rows others : List ℕ) → HasApart (form_at heap.old) first second rows → HasApart (form_at heap.old) second first others →
        OnOk result (node_count heap.new ≤ node_count heap.old + 512 * (length rows + length others)) }
    ensures refused { OnErr result (heap.new ≡ heap.old) }
{
    let first = SetRef::at(first, CODE_BITS);
    let second = SetRef::at(second, CODE_BITS);
    let set = set_union(heap, first, second)?;
    Ok(set.into_root())
}

// The set of the keys of both. Err where memory runs out.
pub(crate) fn keys_of_both<K: Element>(
    heap: &mut Heap<K>,
    first: Link,
    second: Link,
) -> Result<Link, NoMemory>
    requires first { (ks : List K) × IsKeySet K.cmp K.code_of heap.old first ks }
    requires second { (js : List K) × IsKeySet K.cmp K.code_of heap.old second js }
    requires few { hold_count heap.old < quarter_holds }
    ensures made { (ks js : List K) → IsKeySet K.cmp K.code_of heap.old first ks → IsKeySet K.cmp K.code_of heap.old second js →
        IfOk result (λ l. Makes (IsKeySet K.cmp K.code_of) heap.old heap.new l (both K.cmp ks js)) }
    ensures apart { (rows others : List ℕ) → HasApart (form_at heap.old) first second rows → HasApart (form_at heap.old) second first others →
        OnOk result (node_count heap.new ≤ node_count heap.old + 512 * (length rows + length others)) }
    ensures refused { OnErr result (heap.new ≡ heap.old) }
{
    let first = SetRef::at(first, CODE_BITS);
    let second = SetRef::at(second, CODE_BITS);
    let set = set_both(heap, first, second)?;
    Ok(set.into_root())
}

// The set of the keys of the first alone. Err where memory runs out.
pub(crate) fn keys_of_first<K: Element>(
    heap: &mut Heap<K>,
    first: Link,
    second: Link,
) -> Result<Link, NoMemory>
    requires first { (ks : List K) × IsKeySet K.cmp K.code_of heap.old first ks }
    requires second { (js : List K) × IsKeySet K.cmp K.code_of heap.old second js }
    requires few { hold_count heap.old < quarter_holds }
    ensures made { (ks js : List K) → IsKeySet K.cmp K.code_of heap.old first ks → IsKeySet K.cmp K.code_of heap.old second js →
        IfOk result (λ l. Makes (IsKeySet K.cmp K.code_of) heap.old heap.new l (less K.cmp ks js)) }
    ensures apart { (rows others : List ℕ) → HasApart (form_at heap.old) first second rows → HasApart (form_at heap.old) second first others →
        OnOk result (node_count heap.new ≤ node_count heap.old + (512 * (length rows + length others) + 1)) }
    ensures refused { OnErr result (heap.new ≡ heap.old) }
{
    let first = SetRef::at(first, CODE_BITS);
    let second = SetRef::at(second, CODE_BITS);
    let set = set_less(heap, first, second)?;
    Ok(set.into_root())
}

// The map of the entries of either, those of the first where both have the key. Err where memory runs out.
pub(crate) fn entries_of_either<K: Element, V: Ord + Drop>(
    heap: &mut Heap<Piece<K, V>>,
    first: Link,
    second: Link,
) -> Result<Link, NoMemory>
    requires first { (es : List (K × V)) × IsKeyMap K.cmp V.cmp K.code_of heap.old first es }
    requires second { (ds : List (K × V)) × IsKeyMap K.cmp V.cmp K.code_of heap.old second ds }
    requires few { hold_count heap.old < quarter_holds }
    ensures made { (es ds : List (K × V)) → IsKeyMap K.cmp V.cmp K.code_of heap.old first es → IsKeyMap K.cmp V.cmp K.code_of heap.old second ds →
        IfOk result (λ l. Makes (IsKeyMap K.cmp V.cmp K.code_of) heap.old heap.new l (map_union_of K.cmp es ds)) }
    ensures apart { (rows others : List ℕ) → HasApart (form_at heap.old) first second rows → HasApart (form_at heap.old) second first others →
        OnOk result (node_count heap.new ≤ node_count heap.old + 512 * (length rows + length others)) }
    ensures refused { OnErr result (heap.new ≡ heap.old) }
{
    let first = MapRef::at(first, CODE_BITS);
    let second = MapRef::at(second, CODE_BITS);
    let map = map_union(heap, first, second)?;
    Ok(map.into_root())
}

// The map of the entries of the first whose keys are in both. Err where memory runs out.
pub(crate) fn entries_of_both<K: Element, V: Ord + Drop>(
    heap: &mut Heap<Piece<K, V>>,
    first: Link,
    second: Link,
) -> Result<Link, NoMemory>
    requires first { (es : List (K × V)) × IsKeyMap K.cmp V.cmp K.code_of heap.old first es }
    requires second { (ds : List (K × V)) × IsKeyMap K.cmp V.cmp K.code_of heap.old second ds }
    requires few { hold_count heap.old < quarter_holds }
    ensures made { (es ds : List (K × V)) → IsKeyMap K.cmp V.cmp K.code_of heap.old first es → IsKeyMap K.cmp V.cmp K.code_of heap.old second ds →
        IfOk result (λ l. Makes (IsKeyMap K.cmp V.cmp K.code_of) heap.old heap.new l (map_both_of K.cmp es ds)) }
    ensures apart { (rows others : List ℕ) → HasApart (form_at heap.old) first second rows → HasApart (form_at heap.old) second first others →
        OnOk result (node_count heap.new ≤ node_count heap.old + 512 * (length rows + length others)) }
    ensures refused { OnErr result (heap.new ≡ heap.old) }
{
    let first = MapRef::at(first, CODE_BITS);
    let second = MapRef::at(second, CODE_BITS);
    let map = map_both(heap, first, second)?;
    Ok(map.into_root())
}

// The map of the entries of the first whose keys are in it alone. Err where memory runs out.
pub(crate) fn entries_of_first<K: Element, V: Ord + Drop>(
    heap: &mut Heap<Piece<K, V>>,
    first: Link,
    second: Link,
) -> Result<Link, NoMemory>
    requires first { (es : List (K × V)) × IsKeyMap K.cmp V.cmp K.code_of heap.old first es }
    requires second { (ds : List (K × V)) × IsKeyMap K.cmp V.cmp K.code_of heap.old second ds }
    requires few { hold_count heap.old < quarter_holds }
    ensures made { (es ds : List (K × V)) → IsKeyMap K.cmp V.cmp K.code_of heap.old first es → IsKeyMap K.cmp V.cmp K.code_of heap.old second ds →
        IfOk result (λ l. Makes (IsKeyMap K.cmp V.cmp K.code_of) heap.old heap.new l (map_less_of K.cmp es ds)) }
    ensures apart { (rows others : List ℕ) → HasApart (form_at heap.old) first second rows → HasApart (form_at heap.old) second first others →
        OnOk result (node_count heap.new ≤ node_count heap.old + (512 * (length rows + length others) + 1)) }
    ensures refused { OnErr result (heap.new ≡ heap.old) }
{
    let first = MapRef::at(first, CODE_BITS);
    let second = MapRef::at(second, CODE_BITS);
    let map = map_less(heap, first, second)?;
    Ok(map.into_root())
}
