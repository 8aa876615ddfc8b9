//! Union, intersection and difference of maps.
ghost use Rattle.std.specs.Prelude.{◌≡◌, ℕ, ◌+◌, ◌*◌, ◌^◌, ◌<◌, ◌≤◌, List, [], ◌∷◌, length, IfOk, IsOk, OnOk, OnErr, Ok, true, if◌then◌else◌};
ghost use Rattle.node_heap.specs.Heap.{form_at, hold_count, node_count, HasSpares, half_holds};
ghost use Rattle.node_heap.specs.Calls.{Answered, Builds, KeepsToNeed, MakesJust, SameRows};
ghost use Rattle.champ_chain.specs.Entry.{Entry};
ghost use Rattle.champ_kinds.specs.Binding.{Binding};
ghost use Rattle.champ_kinds.specs.Kinds.{HasEntries, IsMapOf};
ghost use Rattle.champ_kinds.specs.Laws.{KeepsContainers};
ghost use Rattle.same_value.specs.Apart.{HasApart};
ghost use Rattle.set_merge.specs.Merge.{union, both, less, merged, map_union as map_union_of, map_both as map_both_of, map_less as map_less_of, map_merged};
ghost use Rattle.set_merge.specs.Need.{merge_need};
ghost use Rattle.set_merge.specs.declared.keeps.TheConstants.{UNION, BOTH, LESS};

use crate::keeps::{BOTH, Keeps, LESS, UNION};
use crate::roots::{merge, merge_there, need, roots_of};
use champ_kinds::{Map, MapRef};
use elem_core::{Element, NoMemory};
use node_heap::Heap;

/// The map of the keys of both maps, by as many bits: where a key is in both it has the first one's entry, a pair of its cell and
/// its value, and else the second's. At most 512 rows come for each row that one of the maps reaches and the other doesn't, and
/// where both have one root it is that root. It makes at most `map_union_need` nodes. Err where memory runs out: it leaves the
/// heap as it was.
pub fn map_union<T: Element>(heap: &mut Heap<T>, a: MapRef, b: MapRef) -> Result<Map, NoMemory>
    requires few { hold_count heap.old < half_holds }
    requires bits { a.bits ≡ b.bits }
    requires first { (M : List (Binding T)) × IsMapOf T.cmp T.code_of heap.old a M }
    requires second { (N : List (Binding T)) × IsMapOf T.cmp T.code_of heap.old b N }
    ensures contents { (M N : List (Binding T)) → IsMapOf T.cmp T.code_of heap.old a M → IsMapOf T.cmp T.code_of heap.old b N →
        IfOk result (λ made. IsMapOf T.cmp T.code_of heap.new made (map_union_of T.cmp M N)) }
    ensures entries { (E D : List (Entry T)) → HasEntries T.cmp T.code_of heap.old a E → HasEntries T.cmp T.code_of heap.old b D →
        IfOk result (λ made. HasEntries T.cmp T.code_of heap.new made (union T.cmp E D)) }
    ensures bits { IfOk result (λ made. made.bits ≡ a.bits) }
    ensures answered { IfOk result (λ made. Answered heap.old heap.new [] made.root 0 (merge_need T.cmp T.code_of UNION heap.old a.bits a.root b.root)) }
    ensures apart { (rows others : List ℕ) → HasApart (form_at heap.old) a.root b.root rows → HasApart (form_at heap.old) b.root a.root others →
        OnOk result (node_count heap.new ≤ node_count heap.old + 512 * (length rows + length others)) }
    ensures few_nodes { (M N : List (Binding T)) → IsMapOf T.cmp T.code_of heap.old a M → IsMapOf T.cmp T.code_of heap.old b N →
        OnOk result (node_count heap.new ≤ node_count heap.old + (13 * (length M + length N) + 1)) }
    ensures same { a.root ≡ b.root → (result ≡ Ok a) × SameRows heap.old heap.new × Builds heap.old heap.new [] (a.root ∷ []) 0 0 }
    ensures made { OnOk result (MakesJust heap.old heap.new) }
    ensures containers { KeepsContainers heap.old heap.new }
    ensures refused { OnErr result (heap.new ≡ heap.old) }
    ensures spares { OnOk result (KeepsToNeed heap.old heap.new 0 (merge_need T.cmp T.code_of UNION heap.old a.bits a.root b.root)) }
    ensures ample { HasSpares heap.old 0 (merge_need T.cmp T.code_of UNION heap.old a.bits a.root b.root) → IsOk result }
{
    merge_maps(heap, a, b, UNION)
}

/// `map_union` where there are spares. It takes the rows that it makes from spares, which its caller has reserved: as many as
/// `map_union_need` says.
pub fn map_union_there<T: Element>(heap: &mut Heap<T>, a: MapRef, b: MapRef) -> Map
    requires few { hold_count heap.old < half_holds }
    requires bits { a.bits ≡ b.bits }
    requires first { (M : List (Binding T)) × IsMapOf T.cmp T.code_of heap.old a M }
    requires second { (N : List (Binding T)) × IsMapOf T.cmp T.code_of heap.old b N }
    requires ample { HasSpares heap.old 0 (merge_need T.cmp T.code_of UNION heap.old a.bits a.root b.root) }
    ensures contents { (M N : List (Binding T)) → IsMapOf T.cmp T.code_of heap.old a M → IsMapOf T.cmp T.code_of heap.old b N →
        IsMapOf T.cmp T.code_of heap.new result (map_union_of T.cmp M N) }
    ensures entries { (E D : List (Entry T)) → HasEntries T.cmp T.code_of heap.old a E → HasEntries T.cmp T.code_of heap.old b D →
        HasEntries T.cmp T.code_of heap.new result (union T.cmp E D) }
    ensures bits { result.bits ≡ a.bits }
    ensures answered { Answered heap.old heap.new [] result.root 0 (merge_need T.cmp T.code_of UNION heap.old a.bits a.root b.root) }
    ensures same { a.root ≡ b.root → (result ≡ a) × SameRows heap.old heap.new × Builds heap.old heap.new [] (a.root ∷ []) 0 0 }
    ensures made { MakesJust heap.old heap.new }
    ensures containers { KeepsContainers heap.old heap.new }
    ensures spares { KeepsToNeed heap.old heap.new 0 0 }
{
    merge_maps_there(heap, a, b, UNION)
}

/// The nodes that `map_union` may make. It takes no memory.
pub fn map_union_need<T: Element>(heap: &Heap<T>, a: MapRef, b: MapRef) -> usize
    requires bits { a.bits ≡ b.bits }
    requires first { (M : List (Binding T)) × IsMapOf T.cmp T.code_of heap.now a M }
    requires second { (N : List (Binding T)) × IsMapOf T.cmp T.code_of heap.now b N }
    ensures need { result ≡ merge_need T.cmp T.code_of UNION heap.now a.bits a.root b.root }
    ensures apart { (rows others : List ℕ) → HasApart (form_at heap.now) a.root b.root rows → HasApart (form_at heap.now) b.root a.root others →
        result ≤ 512 * (length rows + length others) }
    ensures entries { (M N : List (Binding T)) → IsMapOf T.cmp T.code_of heap.now a M → IsMapOf T.cmp T.code_of heap.now b N →
        result ≤ 13 * (length M + length N) + 1 }
    ensures few { result ≤ 2 ^ 62 }
{
    let roots = roots_of(a, b);
    need(heap, &roots, UNION)
}

/// The map of the keys that are in both maps, by as many bits, each with the first one's entry, a pair of its cell and its
/// value. At most 512 rows come for each row that one of the maps reaches and the other doesn't, and where both have one root
/// it is that root. It makes at most `map_both_need` nodes. Err where memory runs out: it leaves the heap as it was.
pub fn map_both<T: Element>(heap: &mut Heap<T>, a: MapRef, b: MapRef) -> Result<Map, NoMemory>
    requires few { hold_count heap.old < half_holds }
    requires bits { a.bits ≡ b.bits }
    requires first { (M : List (Binding T)) × IsMapOf T.cmp T.code_of heap.old a M }
    requires second { (N : List (Binding T)) × IsMapOf T.cmp T.code_of heap.old b N }
    ensures contents { (M N : List (Binding T)) → IsMapOf T.cmp T.code_of heap.old a M → IsMapOf T.cmp T.code_of heap.old b N →
        IfOk result (λ made. IsMapOf T.cmp T.code_of heap.new made (map_both_of T.cmp M N)) }
    ensures entries { (E D : List (Entry T)) → HasEntries T.cmp T.code_of heap.old a E → HasEntries T.cmp T.code_of heap.old b D →
        IfOk result (λ made. HasEntries T.cmp T.code_of heap.new made (both T.cmp E D)) }
    ensures bits { IfOk result (λ made. made.bits ≡ a.bits) }
    ensures answered { IfOk result (λ made. Answered heap.old heap.new [] made.root 0 (merge_need T.cmp T.code_of BOTH heap.old a.bits a.root b.root)) }
    ensures apart { (rows others : List ℕ) → HasApart (form_at heap.old) a.root b.root rows → HasApart (form_at heap.old) b.root a.root others →
        OnOk result (node_count heap.new ≤ node_count heap.old + 512 * (length rows + length others)) }
    ensures few_nodes { (M N : List (Binding T)) → IsMapOf T.cmp T.code_of heap.old a M → IsMapOf T.cmp T.code_of heap.old b N →
        OnOk result (node_count heap.new ≤ node_count heap.old + (13 * (length M + length N) + 1)) }
    ensures same { a.root ≡ b.root → (result ≡ Ok a) × SameRows heap.old heap.new × Builds heap.old heap.new [] (a.root ∷ []) 0 0 }
    ensures made { OnOk result (MakesJust heap.old heap.new) }
    ensures containers { KeepsContainers heap.old heap.new }
    ensures refused { OnErr result (heap.new ≡ heap.old) }
    ensures spares { OnOk result (KeepsToNeed heap.old heap.new 0 (merge_need T.cmp T.code_of BOTH heap.old a.bits a.root b.root)) }
    ensures ample { HasSpares heap.old 0 (merge_need T.cmp T.code_of BOTH heap.old a.bits a.root b.root) → IsOk result }
{
    merge_maps(heap, a, b, BOTH)
}

/// `map_both` where there are spares. It takes the rows that it makes from spares, which its caller has reserved: as many as
/// `map_both_need` says.
pub fn map_both_there<T: Element>(heap: &mut Heap<T>, a: MapRef, b: MapRef) -> Map
    requires few { hold_count heap.old < half_holds }
    requires bits { a.bits ≡ b.bits }
    requires first { (M : List (Binding T)) × IsMapOf T.cmp T.code_of heap.old a M }
    requires second { (N : List (Binding T)) × IsMapOf T.cmp T.code_of heap.old b N }
    requires ample { HasSpares heap.old 0 (merge_need T.cmp T.code_of BOTH heap.old a.bits a.root b.root) }
    ensures contents { (M N : List (Binding T)) → IsMapOf T.cmp T.code_of heap.old a M → IsMapOf T.cmp T.code_of heap.old b N →
        IsMapOf T.cmp T.code_of heap.new result (map_both_of T.cmp M N) }
    ensures entries { (E D : List (Entry T)) → HasEntries T.cmp T.code_of heap.old a E → HasEntries T.cmp T.code_of heap.old b D →
        HasEntries T.cmp T.code_of heap.new result (both T.cmp E D) }
    ensures bits { result.bits ≡ a.bits }
    ensures answered { Answered heap.old heap.new [] result.root 0 (merge_need T.cmp T.code_of BOTH heap.old a.bits a.root b.root) }
    ensures same { a.root ≡ b.root → (result ≡ a) × SameRows heap.old heap.new × Builds heap.old heap.new [] (a.root ∷ []) 0 0 }
    ensures made { MakesJust heap.old heap.new }
    ensures containers { KeepsContainers heap.old heap.new }
    ensures spares { KeepsToNeed heap.old heap.new 0 0 }
{
    merge_maps_there(heap, a, b, BOTH)
}

/// The nodes that `map_both` may make. It takes no memory.
pub fn map_both_need<T: Element>(heap: &Heap<T>, a: MapRef, b: MapRef) -> usize
    requires bits { a.bits ≡ b.bits }
    requires first { (M : List (Binding T)) × IsMapOf T.cmp T.code_of heap.now a M }
    requires second { (N : List (Binding T)) × IsMapOf T.cmp T.code_of heap.now b N }
    ensures need { result ≡ merge_need T.cmp T.code_of BOTH heap.now a.bits a.root b.root }
    ensures apart { (rows others : List ℕ) → HasApart (form_at heap.now) a.root b.root rows → HasApart (form_at heap.now) b.root a.root others →
        result ≤ 512 * (length rows + length others) }
    ensures entries { (M N : List (Binding T)) → IsMapOf T.cmp T.code_of heap.now a M → IsMapOf T.cmp T.code_of heap.now b N →
        result ≤ 13 * (length M + length N) + 1 }
    ensures few { result ≤ 2 ^ 62 }
{
    let roots = roots_of(a, b);
    need(heap, &roots, BOTH)
}

/// The map of the keys of the first map that aren't in the second, by as many bits, each with its entry. Where both have one
/// root it makes the one row of the empty map. It makes at most `map_less_need` nodes. Err where memory runs out: it leaves
/// the heap as it was.
pub fn map_less<T: Element>(heap: &mut Heap<T>, a: MapRef, b: MapRef) -> Result<Map, NoMemory>
    requires few { hold_count heap.old < half_holds }
    requires bits { a.bits ≡ b.bits }
    requires first { (M : List (Binding T)) × IsMapOf T.cmp T.code_of heap.old a M }
    requires second { (N : List (Binding T)) × IsMapOf T.cmp T.code_of heap.old b N }
    ensures contents { (M N : List (Binding T)) → IsMapOf T.cmp T.code_of heap.old a M → IsMapOf T.cmp T.code_of heap.old b N →
        IfOk result (λ made. IsMapOf T.cmp T.code_of heap.new made (map_less_of T.cmp M N)) }
    ensures entries { (E D : List (Entry T)) → HasEntries T.cmp T.code_of heap.old a E → HasEntries T.cmp T.code_of heap.old b D →
        IfOk result (λ made. HasEntries T.cmp T.code_of heap.new made (less T.cmp E D)) }
    ensures bits { IfOk result (λ made. made.bits ≡ a.bits) }
    ensures answered { IfOk result (λ made. Answered heap.old heap.new [] made.root 0 (merge_need T.cmp T.code_of LESS heap.old a.bits a.root b.root)) }
    ensures apart { (rows others : List ℕ) → HasApart (form_at heap.old) a.root b.root rows → HasApart (form_at heap.old) b.root a.root others →
        OnOk result (node_count heap.new ≤ node_count heap.old + (512 * (length rows + length others) + 1)) }
    ensures few_nodes { (M N : List (Binding T)) → IsMapOf T.cmp T.code_of heap.old a M → IsMapOf T.cmp T.code_of heap.old b N →
        OnOk result (node_count heap.new ≤ node_count heap.old + (13 * (length M + length N) + 1)) }
    ensures made { OnOk result (MakesJust heap.old heap.new) }
    ensures containers { KeepsContainers heap.old heap.new }
    ensures refused { OnErr result (heap.new ≡ heap.old) }
    ensures spares { OnOk result (KeepsToNeed heap.old heap.new 0 (merge_need T.cmp T.code_of LESS heap.old a.bits a.root b.root)) }
    ensures ample { HasSpares heap.old 0 (merge_need T.cmp T.code_of LESS heap.old a.bits a.root b.root) → IsOk result }
{
    merge_maps(heap, a, b, LESS)
}

/// `map_less` where there are spares. It takes the rows that it makes from spares, which its caller has reserved: as many as
/// `map_less_need` says.
pub fn map_less_there<T: Element>(heap: &mut Heap<T>, a: MapRef, b: MapRef) -> Map
    requires few { hold_count heap.old < half_holds }
    requires bits { a.bits ≡ b.bits }
    requires first { (M : List (Binding T)) × IsMapOf T.cmp T.code_of heap.old a M }
    requires second { (N : List (Binding T)) × IsMapOf T.cmp T.code_of heap.old b N }
    requires ample { HasSpares heap.old 0 (merge_need T.cmp T.code_of LESS heap.old a.bits a.root b.root) }
    ensures contents { (M N : List (Binding T)) → IsMapOf T.cmp T.code_of heap.old a M → IsMapOf T.cmp T.code_of heap.old b N →
        IsMapOf T.cmp T.code_of heap.new result (map_less_of T.cmp M N) }
    ensures entries { (E D : List (Entry T)) → HasEntries T.cmp T.code_of heap.old a E → HasEntries T.cmp T.code_of heap.old b D →
        HasEntries T.cmp T.code_of heap.new result (less T.cmp E D) }
    ensures bits { result.bits ≡ a.bits }
    ensures answered { Answered heap.old heap.new [] result.root 0 (merge_need T.cmp T.code_of LESS heap.old a.bits a.root b.root) }
    ensures made { MakesJust heap.old heap.new }
    ensures containers { KeepsContainers heap.old heap.new }
    ensures spares { KeepsToNeed heap.old heap.new 0 0 }
{
    merge_maps_there(heap, a, b, LESS)
}

/// The nodes that `map_less` may make. It takes no memory.
pub fn map_less_need<T: Element>(heap: &Heap<T>, a: MapRef, b: MapRef) -> usize
    requires bits { a.bits ≡ b.bits }
    requires first { (M : List (Binding T)) × IsMapOf T.cmp T.code_of heap.now a M }
    requires second { (N : List (Binding T)) × IsMapOf T.cmp T.code_of heap.now b N }
    ensures need { result ≡ merge_need T.cmp T.code_of LESS heap.now a.bits a.root b.root }
    ensures apart { (rows others : List ℕ) → HasApart (form_at heap.now) a.root b.root rows → HasApart (form_at heap.now) b.root a.root others →
        result ≤ 512 * (length rows + length others) + 1 }
    ensures entries { (M N : List (Binding T)) → IsMapOf T.cmp T.code_of heap.now a M → IsMapOf T.cmp T.code_of heap.now b N →
        result ≤ 13 * (length M + length N) + 1 }
    ensures few { result ≤ 2 ^ 62 }
{
    let roots = roots_of(a, b);
    need(heap, &roots, LESS)
}

// The merge of two maps that keeps these.
fn merge_maps<T: Element>(
    heap: &mut Heap<T>,
    a: MapRef,
    b: MapRef,
    keeps: Keeps,
) -> Result<Map, NoMemory>
    requires few { hold_count heap.old < half_holds }
    requires bits { a.bits ≡ b.bits }
    requires first { (M : List (Binding T)) × IsMapOf T.cmp T.code_of heap.old a M }
    requires second { (N : List (Binding T)) × IsMapOf T.cmp T.code_of heap.old b N }
    ensures contents { (M N : List (Binding T)) → IsMapOf T.cmp T.code_of heap.old a M → IsMapOf T.cmp T.code_of heap.old b N →
        IfOk result (λ made. IsMapOf T.cmp T.code_of heap.new made (map_merged T.cmp keeps M N)) }
    ensures entries { (E D : List (Entry T)) → HasEntries T.cmp T.code_of heap.old a E → HasEntries T.cmp T.code_of heap.old b D →
        IfOk result (λ made. HasEntries T.cmp T.code_of heap.new made (merged T.cmp keeps E D)) }
    ensures bits { IfOk result (λ made. made.bits ≡ a.bits) }
    ensures answered { IfOk result (λ made. Answered heap.old heap.new [] made.root 0 (merge_need T.cmp T.code_of keeps heap.old a.bits a.root b.root)) }
    ensures apart { (rows others : List ℕ) → HasApart (form_at heap.old) a.root b.root rows → HasApart (form_at heap.old) b.root a.root others →
        OnOk result (node_count heap.new ≤ node_count heap.old + (512 * (length rows + length others) + (if keeps.both then 0 else 1))) }
    ensures few_nodes { (M N : List (Binding T)) → IsMapOf T.cmp T.code_of heap.old a M → IsMapOf T.cmp T.code_of heap.old b N →
        OnOk result (node_count heap.new ≤ node_count heap.old + (13 * (length M + length N) + 1)) }
    ensures same { a.root ≡ b.root → keeps.both ≡ true → (result ≡ Ok a) × SameRows heap.old heap.new × Builds heap.old heap.new [] (a.root ∷ []) 0 0 }
    ensures made { OnOk result (MakesJust heap.old heap.new) }
    ensures containers { KeepsContainers heap.old heap.new }
    ensures refused { OnErr result (heap.new ≡ heap.old) }
    ensures spares { OnOk result (KeepsToNeed heap.old heap.new 0 (merge_need T.cmp T.code_of keeps heap.old a.bits a.root b.root)) }
    ensures ample { HasSpares heap.old 0 (merge_need T.cmp T.code_of keeps heap.old a.bits a.root b.root) → IsOk result }
{
    let roots = roots_of(a, b);
    let root = merge(heap, &roots, keeps)?;
    Ok(Map::from_root(root, a.bits()))
}

// The same where there are spares.
fn merge_maps_there<T: Element>(heap: &mut Heap<T>, a: MapRef, b: MapRef, keeps: Keeps) -> Map
    requires few { hold_count heap.old < half_holds }
    requires bits { a.bits ≡ b.bits }
    requires first { (M : List (Binding T)) × IsMapOf T.cmp T.code_of heap.old a M }
    requires second { (N : List (Binding T)) × IsMapOf T.cmp T.code_of heap.old b N }
    requires ample { HasSpares heap.old 0 (merge_need T.cmp T.code_of keeps heap.old a.bits a.root b.root) }
    ensures contents { (M N : List (Binding T)) → IsMapOf T.cmp T.code_of heap.old a M → IsMapOf T.cmp T.code_of heap.old b N →
        IsMapOf T.cmp T.code_of heap.new result (map_merged T.cmp keeps M N) }
    ensures entries { (E D : List (Entry T)) → HasEntries T.cmp T.code_of heap.old a E → HasEntries T.cmp T.code_of heap.old b D →
        HasEntries T.cmp T.code_of heap.new result (merged T.cmp keeps E D) }
    ensures bits { result.bits ≡ a.bits }
    ensures answered { Answered heap.old heap.new [] result.root 0 (merge_need T.cmp T.code_of keeps heap.old a.bits a.root b.root) }
    ensures same { a.root ≡ b.root → keeps.both ≡ true → (result ≡ a) × SameRows heap.old heap.new × Builds heap.old heap.new [] (a.root ∷ []) 0 0 }
    ensures made { MakesJust heap.old heap.new }
    ensures containers { KeepsContainers heap.old heap.new }
    ensures spares { KeepsToNeed heap.old heap.new 0 0 }
{
    let roots = roots_of(a, b);
    let root = merge_there(heap, &roots, keeps);
    Map::from_root(root, a.bits())
}
