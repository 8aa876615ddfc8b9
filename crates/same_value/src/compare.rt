//! How entries of two tries are compared, and the values of two maps.
ghost use Rattle.std.specs.Prelude.{◌≡◌, ℕ, ◌↔◌, ◌+◌, ◌≤◌, List, ◌∷◌, Some, IsSome, IsTrue};
ghost use Rattle.std.specs.declared.cmp.Ordering.TheVariants.{Equal};
ghost use Rattle.node_heap.specs.Forms.{Kind, node};
ghost use Rattle.node_heap.specs.Heap.{Heap as Seen, form_at};
ghost use Rattle.node_heap.specs.Glass.{lent};
ghost use Rattle.champ_chain.specs.Entry.{key_at};

use elem_core::Element;
use node_heap::{Glass, Link, Steps};
use std::sync::ledger::Ledger;

// Two links of which it is asked whether they name the same.
#[derive(Clone, Copy)]
pub(crate) struct Both {
    pub(crate) left: Link,
    pub(crate) right: Link,
}

// A way to compare what two links name: entries of sets or of maps, or values of maps.
pub(crate) trait Compares<T: Element> {
    // What it reads besides the glass is of this heap.
    ghost reads: { Self → Seen T → Type 0 };

    // The link names something that it can compare.
    ghost good: { Self → Seen T → ℕ → Type 0 };

    // The links name the same.
    ghost same: { Self → Seen T → ℕ → ℕ → Type 0 };

    // It reads by the glass alone.
    ghost counted: { Type 0 };

    // It does so in two steps at most.
    ghost quick: { Type 0 };

    // Whether the two are the same, in six steps at most where it reads by the glass alone, and in two where it is quick.
    fn are_same<L: Ledger>(&self, glass: &Glass<'_, T>, both: Both, steps: &mut Steps<L>) -> bool
        requires reads { reads self.now (lent glass.now) }
        requires left { good self.now (lent glass.now) both.left }
        requires right { good self.now (lent glass.now) both.right }
        ensures same { IsTrue result ↔ same self.now (lent glass.now) both.left both.right }
        ensures few { counted → steps.new ≤ steps.old + 6 }
        ensures two { quick → steps.new ≤ steps.old + 2 };

    ghost itself: { (s : Self) (h : Seen T) (l : ℕ) → good s h l → same s h l l };
}

// A way to compare the entries of two tries, by their keys and, in maps, by their values too.
pub(crate) trait ComparesEntries<T: Element>: Compares<T> {
    ghost keyed: { (s : Self) (h : Seen T) (l m : ℕ) → Self.Compares.same s h l m → IsSome (key_at (form_at h) l) };

    ghost equal_keys: { (s : Self) (h : Seen T) (l m : ℕ) (j k : T) → Self.Compares.same s h l m → key_at (form_at h) l ≡ Some j → key_at (form_at h) m ≡ Some k → T.cmp j k ≡ Equal };

    ghost outermost: { (s : Self) (h : Seen T) (l k m : ℕ) (kind : Kind) (ks : List ℕ) → Self.Compares.good s h l → form_at h l ≡ Some (node kind (k ∷ ks)) → ¬ Self.Compares.same s h k m };
}
