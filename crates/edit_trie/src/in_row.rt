//! Maps edited in place by their place in a row with one owner.
ghost use Rattle.std.specs.Prelude.{◌≡◌, ◌≢◌, ◌↔◌, ℕ, ◌+◌, ◌^◌, ◌<◌, ◌≤◌, List, [], ◌∷◌, length, IfOk, IfSome, IfErr, IsOk, OnOk, OnErr, Ok, None, option_to_list};
ghost use Rattle.node_heap.specs.Links.{Reaches};
ghost use Rattle.node_heap.specs.Heap.{links_at, holds_at, owners_at, hold_count, HasSpares, IsGraph, half_holds};
ghost use Rattle.node_heap.specs.Calls.{KeepsBelow, KeepsToNeed};
ghost use Rattle.node_heap.specs.InPlace.{child_at, OwnsDown, Changes};
ghost use Rattle.node_heap.specs.declared.owner.Owner.TheVariants.{Child as by_place};
ghost use Rattle.champ_chain.specs.Entry.{Entry};
ghost use Rattle.champ_kinds.specs.Binding.{Binding, alike_keys, value_with};
ghost use Rattle.champ_kinds.specs.Kinds.{HasEntries, IsMapOf};
ghost use Rattle.champ_kinds.specs.Edit.{PutsPair};
ghost use Rattle.edit_trie.specs.Edit.{by_bits, PutsValue, OwnsEntry, OwnsPair};

use crate::own_pair::{OWN_NODES, own_entry};
use crate::owned_map::{insert_by, own_by};
use champ_kinds::{INSERT_NODES, MapFault};
use elem_core::{Element, NoMemory, Probe, masked};
use node_heap::{Heap, Link, Owner, own_root};

/// The same as `TrieEdit::insert` for the map by so many bits that is the child at an index of a row with one owner, which stays but
/// for that child. The value isn't that row and doesn't reach it.
pub fn insert_at<T: Element>(
    heap: &mut Heap<T>,
    parent: Link,
    child: usize,
    bits: u32,
    key: T,
    value: Link,
) -> Result<Option<Link>, MapFault<T>>
    requires sole { owners_at heap.old parent ≡ 1 }
    requires child { child < length (links_at heap.old parent) }
    requires held { 1 ≤ holds_at heap.old value }
    requires apart { ¬ Reaches (links_at heap.old) value parent }
    requires few { hold_count heap.old < half_holds }
    requires contents { (M : List (Binding T)) × IsMapOf T.cmp T.code_of heap.old (by_bits bits (child_at heap.old parent child)) M }
    ensures puts { (M : List (Binding T)) → IsMapOf T.cmp T.code_of heap.old (by_bits bits (child_at heap.old parent child)) M →
        IfOk result (λ given. PutsValue T.cmp T.code_of (by_place parent child) bits heap.old heap.new (child_at heap.new parent child) M key value given) }
    ensures entries { (E : List (Entry T)) → HasEntries T.cmp T.code_of heap.old (by_bits bits (child_at heap.old parent child)) E →
        OnOk result (PutsPair T.cmp T.code_of heap.old heap.new (by_bits bits (child_at heap.new parent child)) E key value) }
    ensures value { OnOk result (KeepsBelow heap.old heap.new value) }
    ensures changes { (M : List (Binding T)) → IsMapOf T.cmp T.code_of heap.old (by_bits bits (child_at heap.old parent child)) M →
        IfOk result (λ given. Changes parent heap.old heap.new (value ∷ []) (option_to_list given) 1 (INSERT_NODES + alike_keys T.code_of bits key M)) }
    ensures spares { (M : List (Binding T)) → IsMapOf T.cmp T.code_of heap.old (by_bits bits (child_at heap.old parent child)) M →
        OnOk result (KeepsToNeed heap.old heap.new 1 (INSERT_NODES + alike_keys T.code_of bits key M)) }
    ensures refused { IfErr result (λ fault. (fault.key ≡ key) × (heap.new ≡ heap.old)) }
    ensures ample { (M : List (Binding T)) → IsMapOf T.cmp T.code_of heap.old (by_bits bits (child_at heap.old parent child)) M →
        HasSpares heap.old 1 (INSERT_NODES + alike_keys T.code_of bits key M) → IsOk result }
{
    match insert_by(heap, &Owner::Child(parent, child), bits, key, value) {
        Ok((_, given)) => Ok(given),
        Err(fault) => Err(fault),
    }
}

/// The same as `TrieEdit::own_value` for the map by so many bits that is the child at an index of a row with one owner, which stays but
/// for that child.
pub fn own_value_at<T: Element, P: Probe<T>>(
    heap: &mut Heap<T>,
    parent: Link,
    child: usize,
    bits: u32,
    key: &P,
) -> Result<Option<Link>, NoMemory>
    requires sole { owners_at heap.old parent ≡ 1 }
    requires child { child < length (links_at heap.old parent) }
    requires few { hold_count heap.old < half_holds }
    requires contents { (M : List (Binding T)) × IsMapOf T.cmp T.code_of heap.old (by_bits bits (child_at heap.old parent child)) M }
    ensures owns { (M : List (Binding T)) → IsMapOf T.cmp T.code_of heap.old (by_bits bits (child_at heap.old parent child)) M →
        IfOk result (λ pair. IfSome pair (λ link.
        OwnsPair T.cmp T.code_of (by_place parent child) bits heap.old heap.new (child_at heap.new parent child) M (P.stands_for key.now) link × OwnsDown heap.new parent link)) }
    ensures entries { (E : List (Entry T)) → HasEntries T.cmp T.code_of heap.old (by_bits bits (child_at heap.old parent child)) E → IfOk result (λ pair. IfSome pair (λ link.
        OwnsEntry T.cmp T.code_of heap.old heap.new (by_bits bits (child_at heap.new parent child)) E (P.stands_for key.now) link)) }
    ensures changes { (M : List (Binding T)) → IsMapOf T.cmp T.code_of heap.old (by_bits bits (child_at heap.old parent child)) M →
        OnOk result (Changes parent heap.old heap.new [] [] 0 (OWN_NODES + alike_keys T.code_of bits (P.stands_for key.now) M)) }
    ensures none { (M : List (Binding T)) → IsMapOf T.cmp T.code_of heap.old (by_bits bits (child_at heap.old parent child)) M →
        (result ≡ Ok None) ↔ (value_with T.cmp (P.stands_for key.now) M ≡ None) }
    ensures nothing { result ≡ Ok None → heap.new ≡ heap.old }
    ensures spares { (M : List (Binding T)) → IsMapOf T.cmp T.code_of heap.old (by_bits bits (child_at heap.old parent child)) M →
        OnOk result (KeepsToNeed heap.old heap.new 0 (OWN_NODES + alike_keys T.code_of bits (P.stands_for key.now) M)) }
    ensures refused { OnErr result (heap.new ≡ heap.old) }
    ensures ample { (M : List (Binding T)) → IsMapOf T.cmp T.code_of heap.old (by_bits bits (child_at heap.old parent child)) M →
        HasSpares heap.old 0 (OWN_NODES + alike_keys T.code_of bits (P.stands_for key.now) M) → IsOk result }
{
    let Some(did) = own_by(heap, &Owner::Child(parent, child), bits, key)? else {
        return Ok(None);
    };
    Ok(Some(did.1))
}

/// The same for a key that is there, where there are `OWN_NODES` spare nodes, and one more for each key with the same masked code: it
/// goes down to the pair once, and refuses nothing.
pub fn own_value_there<T: Element, P: Probe<T>>(
    heap: &mut Heap<T>,
    parent: Link,
    child: usize,
    bits: u32,
    key: &P,
) -> Link
    requires sole { owners_at heap.old parent ≡ 1 }
    requires child { child < length (links_at heap.old parent) }
    requires graph { IsGraph heap.old }
    requires there { (M : List (Binding T)) × IsMapOf T.cmp T.code_of heap.old (by_bits bits (child_at heap.old parent child)) M × (value_with T.cmp (P.stands_for key.now) M ≢ None)
        × (OWN_NODES + alike_keys T.code_of bits (P.stands_for key.now) M ≤ heap.old.spare_nodes) }
    ensures owns { (M : List (Binding T)) → IsMapOf T.cmp T.code_of heap.old (by_bits bits (child_at heap.old parent child)) M → value_with T.cmp (P.stands_for key.now) M ≢ None →
        OwnsPair T.cmp T.code_of (by_place parent child) bits heap.old heap.new (child_at heap.new parent child) M (P.stands_for key.now) result × OwnsDown heap.new parent result }
    ensures changes { (M : List (Binding T)) → IsMapOf T.cmp T.code_of heap.old (by_bits bits (child_at heap.old parent child)) M → value_with T.cmp (P.stands_for key.now) M ≢ None →
        Changes parent heap.old heap.new [] [] 0 (OWN_NODES + alike_keys T.code_of bits (P.stands_for key.now) M) }
    ensures spares { KeepsToNeed heap.old heap.new 0 0 }
{
    let root = own_root(heap, &Owner::Child(parent, child));
    let code = masked(key.code(), bits);
    own_entry(heap, root, 0, key, code, bits)
}
