//! The merge of chains.
ghost use Rattle.std.specs.Prelude.{◌≡◌, ℕ, ◌+◌, ◌<◌, ◌≤◌, true, false, List, [], ◌∷◌, ◌++◌, length, Some, option_to_list, if◌then◌else◌};
ghost use Rattle.node_heap.specs.Links.{count};
ghost use Rattle.node_heap.specs.Forms.{Forms};
ghost use Rattle.node_heap.specs.Heap.{form_at, row_at, holds_at, hold_count, IsGraph, half_holds, row_limit};
ghost use Rattle.node_heap.specs.Calls.{Builds};
ghost use Rattle.elem_core.specs.declared.codes.TheConstants.{LEVELS};
ghost use Rattle.champ_chain.specs.Entry.{Entry, entry as entry_of, key_at};
ghost use Rattle.champ_chain.specs.Chain.{AreChainRows, IsChain};
ghost use Rattle.champ_trie.specs.Trie.{IsPlace};
ghost use Rattle.set_merge.specs.Merge.{merged};
ghost use Rattle.set_merge.specs.Need.{chains_need};
ghost use Rattle.set_merge.specs.Spread.{place_merged, new_links};
ghost use Rattle.set_merge.specs.Walk.{AreKept, AreSides, IsRun, IsRisingRun};
ghost use Rattle.set_merge.specs.Chains.{AreFronts, AreFrontsOf, AreHalves, IsBefore, IsMergedRun, IsOver, waiting};
ghost use Rattle.set_merge.specs.declared.merged.Merged.TheVariants.{Old};

use crate::keeps::Keeps;
use crate::merged::Merged;
use crate::runs::{front_of, meeting_of, run_after, smaller_in};
use crate::side::kept_if;
use champ_chain::{key_of, row_of, row_over};
use champ_trie::Place;
use elem_core::Element;
use node_heap::{Heap, Link};
use std::cmp::Ordering;

// Some entries of two runs: the first so many of each.
#[derive(Clone, Copy)]
pub(crate) struct Fronts {
    a: Place,
    first: usize,
    b: Place,
    second: usize,
}

// What stands for the merge of two chains, or of a chain and an entry, or of two entries with different keys of one code. It
// takes over the rows that both share, and the spares suffice for the others.
pub(crate) fn chains_merged<T: Element>(
    heap: &mut Heap<T>,
    a: &Place,
    b: &Place,
    keeps: Keeps,
) -> Merged
    requires few { hold_count heap.old ≤ half_holds + 512 }
    requires graph { IsGraph heap.old }
    requires sides { (F : Forms T) × (code : T → ℕ) × (E : List (Entry T)) × (D : List (Entry T)) × AreKept F (form_at heap.old) × AreSides T.cmp code F 0 LEVELS a.now b.now E D
        × (chains_need row_limit F a.now b.now ≤ heap.old.spare_nodes) }
    ensures builds { (F : Forms T) (code : T → ℕ) (E D : List (Entry T)) → AreKept F (form_at heap.old) → AreSides T.cmp code F 0 LEVELS a.now b.now E D →
        Builds heap.old heap.new [] (new_links result) 0 (chains_need row_limit F a.now b.now) }
    ensures place { (F : Forms T) (code : T → ℕ) (E D : List (Entry T)) → AreKept F (form_at heap.old) → AreSides T.cmp code F 0 LEVELS a.now b.now E D →
        IsPlace (form_at heap.new) (λ l P. IsChain T.cmp (form_at heap.new) l P) (place_merged result) (merged T.cmp keeps E D) }
{
    let parts = meeting_of(heap, a, b);
    let fronts = Fronts {
        a: *a,
        first: parts.first,
        b: *b,
        second: parts.second,
    };
    let shared = kept_if(keeps.both, &parts.shared);
    let run = before(heap, &fronts, &Merged::Old(shared), keeps);
    closed(heap, &run)
}

// A run as a place: a row that is alone is its entry.
fn closed<T>(heap: &Heap<T>, run: &Merged) -> Merged
    requires { (es : List (Entry T)) × IsMergedRun (form_at heap.now) run.now es }
    ensures links { new_links result ≡ new_links run.now }
    ensures place { (es : List (Entry T)) → IsMergedRun (form_at heap.now) run.now es →
        IsPlace (form_at heap.now) (λ l us. AreChainRows (form_at heap.now) (Some l) us) (place_merged result) es }
{
    match *run {
        Merged::Old(place) => Merged::Old(closed_place(heap, &place)),
        Merged::New(row) => Merged::New(row),
    }
}

// The same of a run that stood before.
fn closed_place<T>(heap: &Heap<T>, run: &Place) -> Place
    requires { (es : List (Entry T)) × IsRun (form_at heap.now) run.now es }
    ensures { (es : List (Entry T)) → IsRun (form_at heap.now) run.now es →
        IsPlace (form_at heap.now) (λ l us. AreChainRows (form_at heap.now) (Some l) us) result es }
{
    match *run {
        Place::Node(link) => {
            let row = row_of(heap, link);
            match row.next {
                Some(_) => Place::Node(link),
                None => Place::Entry(row.entry),
            }
        }
        Place::Entry(entry) => Place::Entry(entry),
        Place::Empty => Place::Empty,
    }
}

// What is kept of the fronts, as a run before another one. It halves the longer front, so that it can make the last rows
// first without memory. It makes at most one row for each entry of the fronts.
fn before<T: Element>(heap: &mut Heap<T>, fronts: &Fronts, after: &Merged, keeps: Keeps) -> Merged
    requires few { hold_count heap.old ≤ half_holds + 512 + length (new_links after.now) }
    requires graph { IsGraph heap.old }
    requires held { (l : ℕ) → count l (new_links after.now) ≤ holds_at heap.old l }
    requires spare { 0 < fronts.now.first + fronts.now.second → fronts.now.first + fronts.now.second + waiting after.now ≤ heap.old.spare_nodes }
    requires fronts { (es : List (Entry T)) × (ds : List (Entry T)) × (ts : List (Entry T)) × AreFronts (form_at heap.old) T.cmp fronts.now after.now es ds ts }
    ensures over { IsOver heap.old heap.new after.now result (fronts.now.first + fronts.now.second) }
    ensures run { (es ds ts : List (Entry T)) → AreFronts (form_at heap.old) T.cmp fronts.now after.now es ds ts → IsBefore (form_at heap.new) T.cmp keeps result fronts.now es ds ts }
{
    if fronts.are_short() {
        return before_of_one(heap, fronts, after, keeps);
    }
    let (early, late) = halves(heap, fronts);
    let made = before(heap, &late, after, keeps);
    before(heap, &early, &made, keeps)
}

impl Fronts {
    // The second run first.
    fn turned(&self) -> Fronts
        ensures { result ≡ record { a = self.now.b; first = self.now.second; b = self.now.a; second = self.now.first } }
    {
        Fronts {
            a: self.b,
            first: self.second,
            b: self.a,
            second: self.first,
        }
    }

    // Whether both have one entry at most.
    fn are_short(&self) -> bool
        ensures short { result ≡ true → (self.now.first ≤ 1) × (self.now.second ≤ 1) }
        ensures long { result ≡ false → self.now.first ≤ 1 → 1 < self.now.second }
    {
        self.first <= 1 && self.second <= 1
    }
}

// The fronts as two, the keys of the first below those of the second.
fn halves<T: Element>(heap: &Heap<T>, fronts: &Fronts) -> (Fronts, Fronts)
    requires more { fronts.now.first ≤ 1 → 1 < fronts.now.second }
    requires fronts { (es : List (Entry T)) × (ds : List (Entry T)) × AreFrontsOf (form_at heap.now) T.cmp fronts.now es ds }
    ensures some { (0 < result.0.first + result.0.second) × (0 < result.1.first + result.1.second) }
    ensures halves { (es ds : List (Entry T)) → AreFrontsOf (form_at heap.now) T.cmp fronts.now es ds →
        AreHalves (form_at heap.now) T.cmp fronts.now result.0 result.1 es ds }
{
    if fronts.first < fronts.second {
        let (early, late) = halves_by_first(heap, &fronts.turned());
        return (early.turned(), late.turned());
    }
    halves_by_first(heap, fronts)
}

// The same, in the middle of the first.
fn halves_by_first<T: Element>(heap: &Heap<T>, fronts: &Fronts) -> (Fronts, Fronts)
    requires more { 1 < fronts.now.first }
    requires fronts { (es : List (Entry T)) × (ds : List (Entry T)) × AreFrontsOf (form_at heap.now) T.cmp fronts.now es ds }
    ensures some { (0 < result.0.first + result.0.second) × (0 < result.1.first + result.1.second) }
    ensures halves { (es ds : List (Entry T)) → AreFrontsOf (form_at heap.now) T.cmp fronts.now es ds →
        AreHalves (form_at heap.now) T.cmp fronts.now result.0 result.1 es ds }
{
    let half = fronts.first / 2;
    let middle = run_after(heap, &fronts.a, half);
    let entry = front_of(heap, &middle).entry;
    let smaller = smaller_in(heap, &fronts.b, fronts.second, entry);
    let rest = run_after(heap, &fronts.b, smaller);
    let early = Fronts {
        a: fronts.a,
        first: half,
        b: fronts.b,
        second: smaller,
    };
    let late = Fronts {
        a: middle,
        first: fronts.first - half,
        b: rest,
        second: fronts.second - smaller,
    };
    (early, late)
}

// The same of fronts of one entry at most.
fn before_of_one<T: Element>(
    heap: &mut Heap<T>,
    fronts: &Fronts,
    after: &Merged,
    keeps: Keeps,
) -> Merged
    requires short { (fronts.now.first ≤ 1) × (fronts.now.second ≤ 1) }
    requires few { hold_count heap.old ≤ half_holds + 512 + length (new_links after.now) }
    requires graph { IsGraph heap.old }
    requires held { (l : ℕ) → count l (new_links after.now) ≤ holds_at heap.old l }
    requires spare { 0 < fronts.now.first + fronts.now.second → fronts.now.first + fronts.now.second + waiting after.now ≤ heap.old.spare_nodes }
    requires fronts { (es : List (Entry T)) × (ds : List (Entry T)) × (ts : List (Entry T)) × AreFronts (form_at heap.old) T.cmp fronts.now after.now es ds ts }
    ensures over { IsOver heap.old heap.new after.now result (fronts.now.first + fronts.now.second) }
    ensures run { (es ds ts : List (Entry T)) → AreFronts (form_at heap.old) T.cmp fronts.now after.now es ds ts → IsBefore (form_at heap.new) T.cmp keeps result fronts.now es ds ts }
{
    if fronts.first == 0 {
        if fronts.second == 0 {
            return *after;
        }
        return over_if(heap, keeps.second, &fronts.b, after);
    }
    if fronts.second == 0 {
        return over_if(heap, keeps.first, &fronts.a, after);
    }
    before_of_two(heap, fronts, after, keeps)
}

// The same of one entry in each.
fn before_of_two<T: Element>(
    heap: &mut Heap<T>,
    fronts: &Fronts,
    after: &Merged,
    keeps: Keeps,
) -> Merged
    requires short { (fronts.now.first ≡ 1) × (fronts.now.second ≡ 1) }
    requires few { hold_count heap.old ≤ half_holds + 512 + length (new_links after.now) }
    requires graph { IsGraph heap.old }
    requires held { (l : ℕ) → count l (new_links after.now) ≤ holds_at heap.old l }
    requires spare { 0 < fronts.now.first + fronts.now.second → fronts.now.first + fronts.now.second + waiting after.now ≤ heap.old.spare_nodes }
    requires fronts { (es : List (Entry T)) × (ds : List (Entry T)) × (ts : List (Entry T)) × AreFronts (form_at heap.old) T.cmp fronts.now after.now es ds ts }
    ensures over { IsOver heap.old heap.new after.now result (fronts.now.first + fronts.now.second) }
    ensures run { (es ds ts : List (Entry T)) → AreFronts (form_at heap.old) T.cmp fronts.now after.now es ds ts → IsBefore (form_at heap.new) T.cmp keeps result fronts.now es ds ts }
{
    let x = front_of(heap, &fronts.a).entry;
    let y = front_of(heap, &fronts.b).entry;
    match key_of(heap, x).cmp(key_of(heap, y)) {
        Ordering::Less => {
            let made = over_if(heap, keeps.second, &fronts.b, after);
            over_if(heap, keeps.first, &fronts.a, &made)
        }
        Ordering::Equal => over_if(heap, keeps.both, &fronts.a, after),
        Ordering::Greater => {
            let made = over_if(heap, keeps.first, &fronts.a, after);
            over_if(heap, keeps.second, &fronts.b, &made)
        }
    }
}

// The run's first entry before another run, if it is kept.
fn over_if<T>(heap: &mut Heap<T>, kept: bool, run: &Place, after: &Merged) -> Merged
    requires few { hold_count heap.old ≤ half_holds + 512 + length (new_links after.now) }
    requires graph { IsGraph heap.old }
    requires held { (l : ℕ) → count l (new_links after.now) ≤ holds_at heap.old l }
    requires spare { 1 + waiting after.now ≤ heap.old.spare_nodes }
    requires run { (e : Entry T) × (es : List (Entry T)) × IsRun (form_at heap.old) run.now (e ∷ es) }
    requires after { (ts : List (Entry T)) × IsMergedRun (form_at heap.old) after.now ts }
    ensures over { IsOver heap.old heap.new after.now result 1 }
    ensures run { (e : Entry T) (es ts : List (Entry T)) → IsRun (form_at heap.old) run.now (e ∷ es) → IsMergedRun (form_at heap.old) after.now ts →
        IsMergedRun (form_at heap.new) result ((if kept then e ∷ [] else []) ++ ts) }
{
    if kept {
        let entry = front_of(heap, run).entry;
        over(heap, entry, after)
    } else {
        *after
    }
}

// The entry before a run. An entry that is alone isn't made a row before another one comes.
fn over<T>(heap: &mut Heap<T>, entry: Link, after: &Merged) -> Merged
    requires few { hold_count heap.old ≤ half_holds + 512 + length (new_links after.now) }
    requires graph { IsGraph heap.old }
    requires held { (l : ℕ) → count l (new_links after.now) ≤ holds_at heap.old l }
    requires spare { 1 + waiting after.now ≤ heap.old.spare_nodes }
    requires entry { (key : T) × (key_at (form_at heap.old) entry ≡ Some key) }
    requires after { (ts : List (Entry T)) × IsMergedRun (form_at heap.old) after.now ts }
    ensures over { IsOver heap.old heap.new after.now result 1 }
    ensures run { (key : T) (ts : List (Entry T)) → key_at (form_at heap.old) entry ≡ Some key → IsMergedRun (form_at heap.old) after.now ts →
        IsMergedRun (form_at heap.new) result (entry_of key entry ∷ ts) }
{
    match rows_of(heap, after) {
        None => Merged::Old(Place::Entry(entry)),
        Some(tail) => {
            heap.hold(entry);
            Merged::New(row_over(heap, entry, Some(tail)))
        }
    }
}

// The rows of a run, with a hold, None if it is empty.
fn rows_of<T>(heap: &mut Heap<T>, run: &Merged) -> Option<Link>
    requires few { hold_count heap.old ≤ half_holds + 512 + length (new_links run.now) }
    requires graph { IsGraph heap.old }
    requires spare { waiting run.now ≤ heap.old.spare_nodes }
    requires run { (es : List (Entry T)) × IsMergedRun (form_at heap.old) run.now es }
    ensures builds { Builds heap.old heap.new (new_links run.now) (option_to_list result) 0 (waiting run.now) }
    ensures rows { (es : List (Entry T)) → IsMergedRun (form_at heap.old) run.now es → AreChainRows (form_at heap.new) result es }
{
    match *run {
        Merged::Old(place) => old_rows_of(heap, &place),
        Merged::New(row) => Some(row),
    }
}

// The same of a run that stood before. An entry alone is made a row.
fn old_rows_of<T>(heap: &mut Heap<T>, run: &Place) -> Option<Link>
    requires few { hold_count heap.old ≤ half_holds + 512 }
    requires graph { IsGraph heap.old }
    requires spare { waiting (Old run.now) ≤ heap.old.spare_nodes }
    requires run { (es : List (Entry T)) × IsRun (form_at heap.old) run.now es }
    ensures builds { Builds heap.old heap.new [] (option_to_list result) 0 (waiting (Old run.now)) }
    ensures rows { (es : List (Entry T)) → IsRun (form_at heap.old) run.now es → AreChainRows (form_at heap.new) result es }
{
    match *run {
        Place::Empty => None,
        Place::Entry(last) => {
            heap.hold(last);
            Some(row_over(heap, last, None))
        }
        Place::Node(row) => {
            heap.hold(row);
            Some(row)
        }
    }
}
