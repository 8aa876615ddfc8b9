//! Maps edited by an owner of their root.
ghost use Rattle.std.specs.Prelude.{◌≡◌, ◌↔◌, ℕ, ◌+◌, ◌<◌, ◌≤◌, List, [], ◌∷◌, ◌++◌, IfOk, IfSome, IfErr, IsOk, OnOk, OnErr, Ok, None, option_to_list};
ghost use Rattle.node_heap.specs.Links.{Reaches};
ghost use Rattle.node_heap.specs.Heap.{links_at, holds_at, hold_count, HasSpares, IsGraph, half_holds};
ghost use Rattle.node_heap.specs.Calls.{HasHolds, KeepsBelow, KeepsToNeed};
ghost use Rattle.node_heap.specs.Owner.{owned, held_by};
ghost use Rattle.node_heap.specs.Root.{CanOwn, IsApart, ChangesUp, OwnsBy};
ghost use Rattle.champ_chain.specs.Entry.{Entry};
ghost use Rattle.champ_trie.specs.Trie.{code_by};
ghost use Rattle.champ_trie.specs.Reach.{alike_in};
ghost use Rattle.champ_kinds.specs.Binding.{Binding, alike_keys, value_with};
ghost use Rattle.champ_kinds.specs.Kinds.{HasEntries, IsMapOf};
ghost use Rattle.champ_kinds.specs.Edit.{PutsPair};
ghost use Rattle.edit_trie.specs.Bound.{CanBind, Binds};
ghost use Rattle.edit_trie.specs.Edit.{by_bits, PutsValue, OwnsEntry, OwnsPair};
ghost use Rattle.edit_trie.specs.Way.{IsSoleWay};

use crate::own_pair::{OWN_NODES, own_entry};
use crate::owner::reserved_root;
use crate::put::put_below;
use crate::way::{Reached, found_below, start, way_of};
use champ_kinds::{INSERT_NODES, MapFault};
use champ_trie::{ADD_NODES, Found, look_up};
use elem_core::{CODE_BITS, Code, DEEPEST, Element, NoMemory, Probe, masked};
use node_heap::{Head, Heap, Link, Owner, root_of};

// Puts the value at the key in the map of an owned root, and gives the root then and the old value.
pub(crate) fn insert_by<T: Element>(
    heap: &mut Heap<T>,
    owner: &Owner,
    bits: u32,
    key: T,
    value: Link,
) -> Result<(Link, Option<Link>), MapFault<T>>
    requires owner { CanOwn heap.old owner.now }
    requires held { HasHolds heap.old (held_by owner.now (owned heap.old owner.now) ++ value ∷ []) }
    requires apart { IsApart heap.old owner.now value }
    requires few { hold_count heap.old < half_holds }
    requires contents { (M : List (Binding T)) × IsMapOf T.cmp T.code_of heap.old (by_bits bits (owned heap.old owner.now)) M }
    ensures puts { (M : List (Binding T)) → IsMapOf T.cmp T.code_of heap.old (by_bits bits (owned heap.old owner.now)) M →
        IfOk result (λ did. PutsValue T.cmp T.code_of owner.now bits heap.old heap.new did.0 M key value did.1) }
    ensures entries { (E : List (Entry T)) → HasEntries T.cmp T.code_of heap.old (by_bits bits (owned heap.old owner.now)) E →
        IfOk result (λ did. PutsPair T.cmp T.code_of heap.old heap.new (by_bits bits did.0) E key value) }
    ensures value { OnOk result (KeepsBelow heap.old heap.new value) }
    ensures up { (M : List (Binding T)) → IsMapOf T.cmp T.code_of heap.old (by_bits bits (owned heap.old owner.now)) M →
        IfOk result (λ did. ChangesUp owner.now heap.old heap.new did.0 (value ∷ []) (option_to_list did.1) 1 (INSERT_NODES + alike_keys T.code_of bits key M)) }
    ensures spares { (M : List (Binding T)) → IsMapOf T.cmp T.code_of heap.old (by_bits bits (owned heap.old owner.now)) M →
        OnOk result (KeepsToNeed heap.old heap.new 1 (INSERT_NODES + alike_keys T.code_of bits key M)) }
    ensures refused { IfErr result (λ fault. (fault.key ≡ key) × (heap.new ≡ heap.old)) }
    ensures ample { (M : List (Binding T)) → IsMapOf T.cmp T.code_of heap.old (by_bits bits (owned heap.old owner.now)) M →
        HasSpares heap.old 1 (INSERT_NODES + alike_keys T.code_of bits key M) → IsOk result }
{
    let first = root_of(heap, owner);
    let code = masked(Element::code(&key), bits);
    let way = way_of(heap, first, code);
    let found = found_below(heap, &way, &key, code, bits);
    let nodes = found.alike + INSERT_NODES;
    match reserved_root(heap, owner, 1, nodes) {
        Ok(root) => {
            let from = start(&way, root);
            Ok((root, bound(heap, &from, found, key, value, code, bits)))
        }
        Err(_) => Err(MapFault { key }),
    }
}

// Makes the way to the pair of a key its owner's own, and gives the root then and the pair; None where the key is absent.
pub(crate) fn own_by<T: Element, P: Probe<T>>(
    heap: &mut Heap<T>,
    owner: &Owner,
    bits: u32,
    key: &P,
) -> Result<Option<(Link, Link)>, NoMemory>
    requires owner { CanOwn heap.old owner.now }
    requires contents { (M : List (Binding T)) × IsMapOf T.cmp T.code_of heap.old (by_bits bits (owned heap.old owner.now)) M }
    ensures graph { IsGraph heap.old }
    ensures owns { (M : List (Binding T)) → IsMapOf T.cmp T.code_of heap.old (by_bits bits (owned heap.old owner.now)) M →
        IfOk result (λ pair. IfSome pair (λ at. OwnsPair T.cmp T.code_of owner.now bits heap.old heap.new at.0 M (P.stands_for key.now) at.1
        × ChangesUp owner.now heap.old heap.new at.0 [] [] 0 (OWN_NODES + alike_keys T.code_of bits (P.stands_for key.now) M) × OwnsBy owner.now heap.new at.1)) }
    ensures entries { (E : List (Entry T)) → HasEntries T.cmp T.code_of heap.old (by_bits bits (owned heap.old owner.now)) E →
        IfOk result (λ pair. IfSome pair (λ at. OwnsEntry T.cmp T.code_of heap.old heap.new (by_bits bits at.0) E (P.stands_for key.now) at.1)) }
    ensures none { (M : List (Binding T)) → IsMapOf T.cmp T.code_of heap.old (by_bits bits (owned heap.old owner.now)) M →
        (result ≡ Ok None) ↔ (value_with T.cmp (P.stands_for key.now) M ≡ None) }
    ensures nothing { result ≡ Ok None → heap.new ≡ heap.old }
    ensures spares { (M : List (Binding T)) → IsMapOf T.cmp T.code_of heap.old (by_bits bits (owned heap.old owner.now)) M →
        OnOk result (KeepsToNeed heap.old heap.new 0 (OWN_NODES + alike_keys T.code_of bits (P.stands_for key.now) M)) }
    ensures refused { OnErr result (heap.new ≡ heap.old) }
    ensures ample { (M : List (Binding T)) → IsMapOf T.cmp T.code_of heap.old (by_bits bits (owned heap.old owner.now)) M →
        HasSpares heap.old 0 (OWN_NODES + alike_keys T.code_of bits (P.stands_for key.now) M) → IsOk result }
{
    let found = look_up(heap, root_of(heap, owner), key, bits);
    if found.entry.is_none() {
        return Ok(None);
    }
    let nodes = found.alike + OWN_NODES;
    let root = reserved_root(heap, owner, 0, nodes)?;
    let code = masked(key.code(), bits);
    Ok(Some((root, own_entry(heap, root, 0, key, code, bits))))
}

// Puts the value at the key in the map of a root with one owner, by what was found of the key, from a row down its way on.
fn bound<T: Element>(
    heap: &mut Heap<T>,
    from: &Reached,
    found: Found,
    key: T,
    value: Link,
    code: Code,
    bits: u32,
) -> Option<Link>
    requires bits { bits ≤ CODE_BITS }
    requires few { hold_count heap.old < half_holds }
    requires held { 0 < holds_at heap.old value }
    requires cells { 1 ≤ heap.old.spare_cells }
    requires deep { from.now.depth ≤ DEEPEST }
    requires code { code ≡ code_by T.code_of bits key }
    requires map { (root : ℕ) × (E : List (Entry T)) × (M : List (Binding T)) × CanBind T.cmp T.code_of heap.old bits root key E M found.entry
        × IsSoleWay heap.old root code from.now.depth from.now.row × (¬ Reaches (links_at heap.old) value root)
        × (ADD_NODES + alike_in (code_by T.code_of bits) code E ≤ heap.old.spare_nodes) }
    ensures { (root : ℕ) (E : List (Entry T)) (M : List (Binding T)) → CanBind T.cmp T.code_of heap.old bits root key E M found.entry →
        IsSoleWay heap.old root code from.now.depth from.now.row → ¬ Reaches (links_at heap.old) value root →
        Binds T.cmp T.code_of heap.old heap.new bits root key E M value result }
{
    match found.entry {
        Some(_) => {
            let pair = own_entry(heap, from.row, from.depth, &key, code, bits);
            Some(heap.replace(pair, 1, value))
        }
        None => {
            let cell = heap.cell(key);
            let entry = heap.node(Head::Pair, &[cell, value]);
            put_below(heap, from.row, from.depth, entry, code, bits);
            None
        }
    }
}
