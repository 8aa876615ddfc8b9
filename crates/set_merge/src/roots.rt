//! The merge of two roots.
ghost use Rattle.std.specs.Prelude.{◌≡◌, ℕ, ◌+◌, ◌*◌, ◌^◌, ◌<◌, ◌≤◌, true, List, [], ◌∷◌, length, OnOk, OnErr, IfOk, IsOk, Ok, if◌then◌else◌};
ghost use Rattle.node_heap.specs.Heap.{form_at, hold_count, node_count, HasSpares, IsGraph, half_holds};
ghost use Rattle.node_heap.specs.Calls.{Answered, Builds, KeepsToNeed, MakesJust, SameRows};
ghost use Rattle.champ_chain.specs.Entry.{Entry};
ghost use Rattle.champ_trie.specs.Trie.{IsTrieOf};
ghost use Rattle.champ_kinds.specs.Root.{Root};
ghost use Rattle.same_value.specs.Apart.{HasApart};
ghost use Rattle.set_merge.specs.Merge.{merged};
ghost use Rattle.set_merge.specs.Need.{merge_need};

use crate::keeps::Keeps;
use crate::need::rows_needed;
use crate::spread::Spread;
use crate::walk::rows_merged;
use champ_kinds::RootRef;
use champ_trie::Place;
use elem_core::{CODE_BITS, Element, NoMemory};
use node_heap::{Heap, Link};

// Two roots of tries by so many bits.
#[derive(Clone, Copy)]
pub(crate) struct Roots {
    pub(crate) a: Link,
    pub(crate) b: Link,
    pub(crate) bits: u32,
}

// The roots of two maps or sets by as many bits.
pub(crate) fn roots_of<K>(a: RootRef<K>, b: RootRef<K>) -> Roots
    ensures { result ≡ record { a = a.root; b = b.root; bits = a.bits } }
{
    Roots {
        a: a.root(),
        b: b.root(),
        bits: a.bits(),
    }
}

// The rows that a merge of two roots needs.
pub(crate) fn need<T: Element>(heap: &Heap<T>, roots: &Roots, keeps: Keeps) -> usize
    requires bits { roots.now.bits ≤ CODE_BITS }
    requires first { (E : List (Entry T)) × IsTrieOf T.cmp T.code_of roots.now.bits heap.now roots.now.a E }
    requires second { (D : List (Entry T)) × IsTrieOf T.cmp T.code_of roots.now.bits heap.now roots.now.b D }
    ensures rows { result ≡ merge_need T.cmp T.code_of keeps heap.now roots.now.bits roots.now.a roots.now.b }
    ensures apart { (rows others : List ℕ) → HasApart (form_at heap.now) roots.now.a roots.now.b rows → HasApart (form_at heap.now) roots.now.b roots.now.a others →
        result ≤ 512 * (length rows + length others) + (if keeps.both then 0 else 1) }
    ensures entries { (E D : List (Entry T)) → IsTrieOf T.cmp T.code_of roots.now.bits heap.now roots.now.a E → IsTrieOf T.cmp T.code_of roots.now.bits heap.now roots.now.b D →
        result ≤ 13 * (length E + length D) + 1 }
    ensures few { result ≤ 2 ^ 62 }
{
    heap.rows_form_a_graph();
    if roots.a == roots.b {
        return usize::from(!keeps.both);
    }
    let a = Place::Node(roots.a);
    let b = Place::Node(roots.b);
    rows_needed(heap, &a, &b, 0, roots.bits, keeps)
}

// The merge of two roots. Err where memory runs out: it leaves the heap as it was.
pub(crate) fn merge<T: Element>(
    heap: &mut Heap<T>,
    roots: &Roots,
    keeps: Keeps,
) -> Result<Link, NoMemory>
    requires bits { roots.now.bits ≤ CODE_BITS }
    requires few { hold_count heap.old < half_holds }
    requires first { (E : List (Entry T)) × IsTrieOf T.cmp T.code_of roots.now.bits heap.old roots.now.a E }
    requires second { (D : List (Entry T)) × IsTrieOf T.cmp T.code_of roots.now.bits heap.old roots.now.b D }
    ensures answered { IfOk result (λ l. Answered heap.old heap.new [] l 0 (merge_need T.cmp T.code_of keeps heap.old roots.now.bits roots.now.a roots.now.b)) }
    ensures entries { (E D : List (Entry T)) → IsTrieOf T.cmp T.code_of roots.now.bits heap.old roots.now.a E → IsTrieOf T.cmp T.code_of roots.now.bits heap.old roots.now.b D →
        IfOk result (λ l. IsTrieOf T.cmp T.code_of roots.now.bits heap.new l (merged T.cmp keeps E D)) }
    ensures same { roots.now.a ≡ roots.now.b → keeps.both ≡ true → (result ≡ Ok roots.now.a) × SameRows heap.old heap.new × Builds heap.old heap.new [] (roots.now.a ∷ []) 0 0 }
    ensures apart { (rows others : List ℕ) → HasApart (form_at heap.old) roots.now.a roots.now.b rows → HasApart (form_at heap.old) roots.now.b roots.now.a others →
        OnOk result (node_count heap.new ≤ node_count heap.old + (512 * (length rows + length others) + (if keeps.both then 0 else 1))) }
    ensures few_nodes { (E D : List (Entry T)) → IsTrieOf T.cmp T.code_of roots.now.bits heap.old roots.now.a E → IsTrieOf T.cmp T.code_of roots.now.bits heap.old roots.now.b D →
        OnOk result (node_count heap.new ≤ node_count heap.old + (13 * (length E + length D) + 1)) }
    ensures made { OnOk result (MakesJust heap.old heap.new) }
    ensures refused { OnErr result (heap.new ≡ heap.old) }
    ensures spares { OnOk result (KeepsToNeed heap.old heap.new 0 (merge_need T.cmp T.code_of keeps heap.old roots.now.bits roots.now.a roots.now.b)) }
    ensures ample { HasSpares heap.old 0 (merge_need T.cmp T.code_of keeps heap.old roots.now.bits roots.now.a roots.now.b) → IsOk result }
{
    let rows = need(heap, roots, keeps);
    heap.reserve(0, rows)?;
    Ok(merged_root(heap, roots, keeps))
}

// The same where the spares suffice.
pub(crate) fn merge_there<T: Element>(heap: &mut Heap<T>, roots: &Roots, keeps: Keeps) -> Link
    requires bits { roots.now.bits ≤ CODE_BITS }
    requires few { hold_count heap.old < half_holds }
    requires first { (E : List (Entry T)) × IsTrieOf T.cmp T.code_of roots.now.bits heap.old roots.now.a E }
    requires second { (D : List (Entry T)) × IsTrieOf T.cmp T.code_of roots.now.bits heap.old roots.now.b D }
    requires ample { HasSpares heap.old 0 (merge_need T.cmp T.code_of keeps heap.old roots.now.bits roots.now.a roots.now.b) }
    ensures answered { Answered heap.old heap.new [] result 0 (merge_need T.cmp T.code_of keeps heap.old roots.now.bits roots.now.a roots.now.b) }
    ensures entries { (E D : List (Entry T)) → IsTrieOf T.cmp T.code_of roots.now.bits heap.old roots.now.a E → IsTrieOf T.cmp T.code_of roots.now.bits heap.old roots.now.b D →
        IsTrieOf T.cmp T.code_of roots.now.bits heap.new result (merged T.cmp keeps E D) }
    ensures same { roots.now.a ≡ roots.now.b → keeps.both ≡ true → (result ≡ roots.now.a) × SameRows heap.old heap.new × Builds heap.old heap.new [] (roots.now.a ∷ []) 0 0 }
    ensures made { MakesJust heap.old heap.new }
    ensures spares { KeepsToNeed heap.old heap.new 0 0 }
{
    heap.rows_form_a_graph();
    merged_root(heap, roots, keeps)
}

// The root of the merge, over the rows that it makes.
fn merged_root<T: Element>(heap: &mut Heap<T>, roots: &Roots, keeps: Keeps) -> Link
    requires bits { roots.now.bits ≤ CODE_BITS }
    requires few { hold_count heap.old < half_holds }
    requires graph { IsGraph heap.old }
    requires first { (E : List (Entry T)) × IsTrieOf T.cmp T.code_of roots.now.bits heap.old roots.now.a E }
    requires second { (D : List (Entry T)) × IsTrieOf T.cmp T.code_of roots.now.bits heap.old roots.now.b D }
    requires spare { merge_need T.cmp T.code_of keeps heap.old roots.now.bits roots.now.a roots.now.b ≤ heap.old.spare_nodes }
    ensures builds { Builds heap.old heap.new [] (result ∷ []) 0 (merge_need T.cmp T.code_of keeps heap.old roots.now.bits roots.now.a roots.now.b) }
    ensures entries { (E D : List (Entry T)) → IsTrieOf T.cmp T.code_of roots.now.bits heap.old roots.now.a E → IsTrieOf T.cmp T.code_of roots.now.bits heap.old roots.now.b D →
        IsTrieOf T.cmp T.code_of roots.now.bits heap.new result (merged T.cmp keeps E D) }
    ensures same { roots.now.a ≡ roots.now.b → keeps.both ≡ true → (result ≡ roots.now.a) × SameRows heap.old heap.new × Builds heap.old heap.new [] (roots.now.a ∷ []) 0 0 }
{
    if roots.a == roots.b {
        if keeps.both {
            heap.hold(roots.a);
            return roots.a;
        }
        return Spread::empty().make(heap, 0);
    }
    let a = Place::Node(roots.a);
    let b = Place::Node(roots.b);
    let mut spread = Spread::empty();
    rows_merged(heap, &a, &b, 0, roots.bits, keeps, &mut spread);
    match spread.root(roots.a, roots.b) {
        Some(root) => {
            heap.hold(root);
            root
        }
        None => spread.make(heap, 0),
    }
}
