//! Tries: entries found by the digits of their keys' codes.
//!
//! A trie row has up to 32 positions. Where one entry has a position's digit, the entry itself stands there; where two or
//! more have it, the row of the next depth over them does, and below the deepest row a chain. So a set of entries has one
//! trie, whatever edits led to it. Tries are never changed: an edit makes the rows from the root to its place anew and
//! shares the others. `with` and `without` reserve the rows that they make; `added` and `removed` are the same where the
//! caller has reserved them.
#![tactic(auto)]

ghost use Rattle.std.specs.Prelude.{◌≡◌, ◌↔◌, ℕ, ◌+◌, ◌<◌, ◌≤◌, ◌≢◌, List, [], ◌∷◌, length, map, Some, None, IsSome, IfOk, OnOk, OnErr, IsOk, IfSome, IfNone};
ghost use Rattle.node_heap.specs.Forms.{Tree, IsTree, AreTrees, trees_of};
ghost use Rattle.node_heap.specs.Heap.{form_at, holds_at, hold_count, node_count, HasSpares, IsGraph, half_holds, row_limit};
ghost use Rattle.node_heap.specs.Calls.{Answered, Builds, KeepsToNeed, MakesJust};
ghost use Rattle.champ_chain.specs.Entry.{SameSet, Entry, entry as entry_of, key_at, link_with, others, put};
ghost use Rattle.champ_trie.specs.Trie.{IsTrieOf, KeepsTries, code_by};
ghost use Rattle.champ_trie.specs.Edit.{SharesBeside};
ghost use Rattle.champ_trie.specs.Reach.{alike_in, alike_to};
ghost use Rattle.champ_trie.specs.Walk.{walk, tree_entries};

mod edit;
mod laws;
mod place;
mod reach;
mod row;
mod turn;
mod walk;

pub use champ_chain::Found;
use champ_chain::{find as find_in_chain, key_of, look_up as look_up_in_chain};
pub use edit::node_of_two;
use edit::{place_without, with_at};
use elem_core::{CODE_BITS, Code, Element, LEVELS, NoMemory, Probe, digit, masked};
pub use laws::{depends_on_entries, rows_are_told_by_places, tries_stay};
use node_heap::{Heap, Link};
pub use place::{Place, cleared, contains, node_index, place_among, rank_of, with_position};
use reach::reached;
pub use row::{DraftRow, sets_of};
use std::cmp::Ordering;
use turn::edited;
pub use walk::Entries;

/// The most nodes that adding an entry makes, besides one for each key with the same masked code: a row of each depth, and
/// one of a chain.
pub const ADD_NODES: usize = LEVELS as usize + 1;

/// The empty trie: a row without links. It makes one node. Err where memory runs out: it leaves the heap as it was.
pub fn empty<T: Element>(heap: &mut Heap<T>) -> Result<Link, NoMemory>
    requires few { hold_count heap.old < half_holds }
    ensures answered { IfOk result (λ l. Answered heap.old heap.new [] l 0 1) }
    ensures one { OnOk result (node_count heap.new ≡ node_count heap.old + 1) }
    ensures entries { (bits : ℕ) → IfOk result (λ l. IsTrieOf T.cmp T.code_of bits heap.new l []) }
    ensures made { OnOk result (MakesJust heap.old heap.new) }
    ensures tries { KeepsTries heap.old heap.new }
    ensures refused { OnErr result (heap.new ≡ heap.old) }
    ensures spares { OnOk result (KeepsToNeed heap.old heap.new 0 1) }
    ensures ample { HasSpares heap.old 0 1 → IsOk result }
{
    heap.reserve(0, 1)?;
    Ok(DraftRow::empty().make(heap, 0))
}

/// The entry with this key, None exactly where the key is absent.
pub fn find<T: Element, P: Probe<T>>(heap: &Heap<T>, root: Link, key: &P, bits: u32) -> Option<Link>
    requires bits { bits ≤ CODE_BITS }
    requires trie { (E : List (Entry T)) × IsTrieOf T.cmp T.code_of bits heap.now root E }
    ensures graph { IsGraph heap.now }
    ensures entry { (E : List (Entry T)) → IsTrieOf T.cmp T.code_of bits heap.now root E →
        result ≡ link_with T.cmp (P.stands_for key.now) E }
{
    match reached(heap, root, masked(key.code(), bits), bits) {
        Place::Empty => None,
        Place::Entry(entry) => same_key(heap, entry, key),
        Place::Node(chain) => find_in_chain(heap, chain, key),
    }
}

// The entry itself where it has the key.
#[inline]
fn same_key<T: Element, P: Probe<T>>(heap: &Heap<T>, entry: Link, key: &P) -> Option<Link>
    requires { IsSome (key_at (form_at heap.now) entry) }
    ensures { (k : T) → key_at (form_at heap.now) entry ≡ Some k → result ≡ link_with T.cmp (P.stands_for key.now) (entry_of k entry ∷ []) }
{
    match key.order(key_of(heap, entry)) {
        Ordering::Less => None,
        Ordering::Equal => Some(entry),
        Ordering::Greater => None,
    }
}

/// The entry with this key, and the number of keys with its masked code, itself included where it is there, in one
/// walk.
pub fn look_up<T: Element, P: Probe<T>>(heap: &Heap<T>, root: Link, key: &P, bits: u32) -> Found
    requires bits { bits ≤ CODE_BITS }
    requires trie { (E : List (Entry T)) × IsTrieOf T.cmp T.code_of bits heap.now root E }
    ensures graph { IsGraph heap.now }
    ensures entry { (E : List (Entry T)) → IsTrieOf T.cmp T.code_of bits heap.now root E →
        result.entry ≡ link_with T.cmp (P.stands_for key.now) E }
    ensures alike { (E : List (Entry T)) → IsTrieOf T.cmp T.code_of bits heap.now root E →
        result.alike ≡ alike_to T.code_of bits (P.stands_for key.now) E }
    ensures few { result.alike < row_limit }
{
    let code = masked(key.code(), bits);
    match reached(heap, root, code, bits) {
        Place::Empty => Found {
            entry: None,
            alike: 0,
        },
        Place::Entry(entry) => found_alone(heap, entry, key, code, bits),
        Place::Node(chain) => look_up_in_chain(heap, chain, key),
    }
}

/// What a look-up finds where one entry stands. Equal keys have equal codes, so the entry's is worked out only where they differ.
#[inline]
pub fn found_alone<T: Element, P: Probe<T>>(
    heap: &Heap<T>,
    entry: Link,
    key: &P,
    code: Code,
    bits: u32,
) -> Found
    requires bits { bits ≤ CODE_BITS }
    requires keyed { IsSome (key_at (form_at heap.now) entry) }
    requires code { code ≡ code_by T.code_of bits (P.stands_for key.now) }
    ensures entry { (k : T) → key_at (form_at heap.now) entry ≡ Some k → result.entry ≡ link_with T.cmp (P.stands_for key.now) (entry_of k entry ∷ []) }
    ensures alike { (k : T) → key_at (form_at heap.now) entry ≡ Some k → result.alike ≡ alike_in (code_by T.code_of bits) code (entry_of k entry ∷ []) }
    ensures few { result.alike ≤ 1 }
{
    let stored = key_of(heap, entry);
    match key.order(stored) {
        Ordering::Equal => Found {
            entry: Some(entry),
            alike: 1,
        },
        _ => Found {
            entry: None,
            alike: usize::from(masked(Element::code(stored), bits) == code),
        },
    }
}

/// The links of the entries of the trie, in the order of the walk: those of each row by rising position, and then those
/// below its nodes in turn. It takes no memory.
pub fn entries<'h, T: Element>(heap: &'h Heap<T>, root: Link) -> Entries<'h, T>
    requires trie { (bits : ℕ) × (E : List (Entry T)) × IsTrieOf T.cmp T.code_of bits heap.now root E }
    ensures walk { result ≡ walk heap.now root }
    ensures links { (bits : ℕ) (E : List (Entry T)) → IsTrieOf T.cmp T.code_of bits heap.now root E →
        SameSet result (map (λ e. e.link) E) }
    ensures trees { (t : Tree T) → IsTree (form_at heap.now) root t → AreTrees (form_at heap.now) result (trees_of (tree_entries t)) }
    ensures few { length result < row_limit }
{
    Entries::over(heap, root)
}

/// The number of entries of the trie. It walks them all.
pub fn count<T: Element>(heap: &Heap<T>, root: Link) -> usize
    requires trie { (bits : ℕ) × (E : List (Entry T)) × IsTrieOf T.cmp T.code_of bits heap.now root E }
    ensures number { (bits : ℕ) (E : List (Entry T)) → IsTrieOf T.cmp T.code_of bits heap.now root E → result ≡ length E }
{
    entries(heap, root).count()
}

/// The number of keys of the trie with the key's masked code, the key itself included where it is there.
pub fn alike<T: Element, P: Probe<T>>(heap: &Heap<T>, root: Link, key: &P, bits: u32) -> usize
    requires bits { bits ≤ CODE_BITS }
    requires trie { (E : List (Entry T)) × IsTrieOf T.cmp T.code_of bits heap.now root E }
    ensures graph { IsGraph heap.now }
    ensures number { (E : List (Entry T)) → IsTrieOf T.cmp T.code_of bits heap.now root E →
        result ≡ alike_to T.code_of bits (P.stands_for key.now) E }
    ensures few { result < row_limit }
{
    look_up(heap, root, key, bits).alike
}

/// The trie with the entry added, or in the place of the one with its key. The entry's hold is spent on Ok, and the
/// given root stays. It makes at most `ADD_NODES` nodes, and one more for each key with the same masked code. Err
/// where memory runs out: it leaves the heap as it was.
pub fn with<T: Element>(
    heap: &mut Heap<T>,
    root: Link,
    entry: Link,
    bits: u32,
) -> Result<Link, NoMemory>
    requires bits { bits ≤ CODE_BITS }
    requires few { hold_count heap.old ≤ half_holds }
    requires held { 0 < holds_at heap.old entry }
    requires keyed { IsSome (key_at (form_at heap.old) entry) }
    requires trie { (E : List (Entry T)) × IsTrieOf T.cmp T.code_of bits heap.old root E }
    ensures answered { (E : List (Entry T)) (k : T) → IsTrieOf T.cmp T.code_of bits heap.old root E → key_at (form_at heap.old) entry ≡ Some k →
        IfOk result (λ l. Answered heap.old heap.new (entry ∷ []) l 0
        (ADD_NODES + alike_to T.code_of bits k E)) }
    ensures entries { (E : List (Entry T)) (k : T) → IsTrieOf T.cmp T.code_of bits heap.old root E → key_at (form_at heap.old) entry ≡ Some k →
        IfOk result (λ l. IsTrieOf T.cmp T.code_of bits heap.new l (put T.cmp E (entry_of k entry))) }
    ensures shares { (E : List (Entry T)) (k : T) → IsTrieOf T.cmp T.code_of bits heap.old root E → key_at (form_at heap.old) entry ≡ Some k →
        IfOk result (λ l. SharesBeside (form_at heap.old) (form_at heap.new) (code_by T.code_of bits k) LEVELS 0 root l) }
    ensures made { OnOk result (MakesJust heap.old heap.new) }
    ensures tries { KeepsTries heap.old heap.new }
    ensures refused { OnErr result (heap.new ≡ heap.old) }
    ensures spares { (E : List (Entry T)) (k : T) → IsTrieOf T.cmp T.code_of bits heap.old root E → key_at (form_at heap.old) entry ≡ Some k →
        OnOk result (KeepsToNeed heap.old heap.new 0 (ADD_NODES + alike_to T.code_of bits k E)) }
    ensures ample { (E : List (Entry T)) (k : T) → IsTrieOf T.cmp T.code_of bits heap.old root E → key_at (form_at heap.old) entry ≡ Some k →
        HasSpares heap.old 0 (ADD_NODES + alike_to T.code_of bits k E) → IsOk result }
{
    let found = look_up(heap, root, key_of(heap, entry), bits);
    heap.reserve(0, found.alike + ADD_NODES)?;
    Ok(added(heap, root, entry, bits))
}

/// The trie with the entry added, or in the place of the one with its key, where there are `ADD_NODES` spare nodes,
/// and one more for each key with the same masked code. The entry's hold is spent, and the given root stays.
pub fn added<T: Element>(heap: &mut Heap<T>, root: Link, entry: Link, bits: u32) -> Link
    requires bits { bits ≤ CODE_BITS }
    requires few { hold_count heap.old ≤ half_holds }
    requires graph { IsGraph heap.old }
    requires held { 0 < holds_at heap.old entry }
    requires trie { (E : List (Entry T)) × (k : T) × IsTrieOf T.cmp T.code_of bits heap.old root E × (key_at (form_at heap.old) entry ≡ Some k)
        × (ADD_NODES + alike_to T.code_of bits k E ≤ heap.old.spare_nodes) }
    ensures builds { (E : List (Entry T)) (k : T) → IsTrieOf T.cmp T.code_of bits heap.old root E → key_at (form_at heap.old) entry ≡ Some k →
        Builds heap.old heap.new (entry ∷ []) (result ∷ []) 0 (ADD_NODES + alike_to T.code_of bits k E) }
    ensures entries { (E : List (Entry T)) (k : T) → IsTrieOf T.cmp T.code_of bits heap.old root E → key_at (form_at heap.old) entry ≡ Some k →
        IsTrieOf T.cmp T.code_of bits heap.new result (put T.cmp E (entry_of k entry)) }
    ensures shares { (E : List (Entry T)) (k : T) → IsTrieOf T.cmp T.code_of bits heap.old root E → key_at (form_at heap.old) entry ≡ Some k →
        SharesBeside (form_at heap.old) (form_at heap.new) (code_by T.code_of bits k) LEVELS 0 root result }
    ensures tries { KeepsTries heap.old heap.new }
{
    let code = masked(Element::code(key_of(heap, entry)), bits);
    with_at(heap, root, 0, entry, code, bits)
}

/// The trie without the entry with this key: None exactly where the key is absent, and then nothing has changed. The
/// given root stays. It makes at most `LEVELS` nodes, and one more for each key with the same masked code. Err
/// where memory runs out: it leaves the heap as it was.
pub fn without<T: Element, P: Probe<T>>(
    heap: &mut Heap<T>,
    root: Link,
    key: &P,
    bits: u32,
) -> Result<Option<Link>, NoMemory>
    requires bits { bits ≤ CODE_BITS }
    requires few { hold_count heap.old < half_holds }
    requires trie { (E : List (Entry T)) × IsTrieOf T.cmp T.code_of bits heap.old root E }
    ensures absent { (E : List (Entry T)) → IsTrieOf T.cmp T.code_of bits heap.old root E →
        (result ≡ Ok None) ↔ (link_with T.cmp (P.stands_for key.now) E ≡ None) }
    ensures nothing { IfOk result (λ left. IfNone left (heap.new ≡ heap.old)) }
    ensures answered { (E : List (Entry T)) → IsTrieOf T.cmp T.code_of bits heap.old root E →
        IfOk result (λ left. IfSome left (λ l. Answered heap.old heap.new [] l 0 (LEVELS + alike_to T.code_of bits (P.stands_for key.now) E))) }
    ensures entries { (E : List (Entry T)) → IsTrieOf T.cmp T.code_of bits heap.old root E →
        IfOk result (λ left. IfSome left (λ l. IsTrieOf T.cmp T.code_of bits heap.new l (others T.cmp (P.stands_for key.now) E))) }
    ensures shares { (E : List (Entry T)) → IsTrieOf T.cmp T.code_of bits heap.old root E →
        IfOk result (λ left. IfSome left (λ l. SharesBeside (form_at heap.old) (form_at heap.new) (code_by T.code_of bits (P.stands_for key.now)) LEVELS 0 root l)) }
    ensures made { OnOk result (MakesJust heap.old heap.new) }
    ensures tries { KeepsTries heap.old heap.new }
    ensures refused { OnErr result (heap.new ≡ heap.old) }
    ensures spares { (E : List (Entry T)) → IsTrieOf T.cmp T.code_of bits heap.old root E →
        OnOk result (KeepsToNeed heap.old heap.new 0 (LEVELS + alike_to T.code_of bits (P.stands_for key.now) E)) }
    ensures ample { (E : List (Entry T)) → IsTrieOf T.cmp T.code_of bits heap.old root E →
        HasSpares heap.old 0 (LEVELS + alike_to T.code_of bits (P.stands_for key.now) E) → IsOk result }
{
    let found = look_up(heap, root, key, bits);
    if found.entry.is_none() {
        return Ok(None);
    }
    heap.reserve(0, found.alike + usize::from(LEVELS))?;
    Ok(Some(removed(heap, root, key, bits)))
}

/// The trie without the entry with this key, which is there, where there are `LEVELS` spare nodes, and one more
/// for each key with the same masked code. The given root stays.
pub fn removed<T: Element, P: Probe<T>>(heap: &mut Heap<T>, root: Link, key: &P, bits: u32) -> Link
    requires bits { bits ≤ CODE_BITS }
    requires few { hold_count heap.old < half_holds }
    requires graph { IsGraph heap.old }
    requires trie { (E : List (Entry T)) × IsTrieOf T.cmp T.code_of bits heap.old root E × (link_with T.cmp (P.stands_for key.now) E ≢ None)
        × (LEVELS + alike_to T.code_of bits (P.stands_for key.now) E ≤ heap.old.spare_nodes) }
    ensures builds { (E : List (Entry T)) → IsTrieOf T.cmp T.code_of bits heap.old root E →
        Builds heap.old heap.new [] (result ∷ []) 0 (LEVELS + alike_to T.code_of bits (P.stands_for key.now) E) }
    ensures entries { (E : List (Entry T)) → IsTrieOf T.cmp T.code_of bits heap.old root E →
        IsTrieOf T.cmp T.code_of bits heap.new result (others T.cmp (P.stands_for key.now) E) }
    ensures shares { (E : List (Entry T)) → IsTrieOf T.cmp T.code_of bits heap.old root E →
        SharesBeside (form_at heap.old) (form_at heap.new) (code_by T.code_of bits (P.stands_for key.now)) LEVELS 0 root result }
    ensures tries { KeepsTries heap.old heap.new }
{
    let code = masked(key.code(), bits);
    let left = place_without(heap, root, 0, key, code, bits);
    edited(heap, root, 0, digit(code, 0), left)
}
