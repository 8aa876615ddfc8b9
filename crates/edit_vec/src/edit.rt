//! A vector that is opened for edits in place.
ghost use Rattle.std.specs.Prelude.{◌≡◌, ◌↔◌, ℕ, ◌<◌, ◌≤◌, [], IfOk, IsOk, OnErr, IfErr};
ghost use Rattle.node_heap.specs.Heap.{row_at, holds_at, owners_at, hold_count, HasSpares, half_holds};
ghost use Rattle.node_heap.specs.Calls.{KeepsOwners, Extends, KeepsToNeed, MakesWhatCame};
ghost use Rattle.node_heap.specs.declared.owner.Owner.TheVariants.{Hold as by_hold};
ghost use Rattle.node_heap.specs.Owner.{EditsBy};
ghost use Rattle.rrb_core.specs.Vector.{elements, IsGoodVector, IsVectorOf};

use node_heap::{Heap, Link};
use rrb_core::{Flex, FlexRef};
use std::marker::Model;

/// A vector that is edited in place. It owns one hold of its root, and cannot be dropped or copied.
pub struct FlexEdit {
    pub(crate) root: Link,
}

impl Model for FlexEdit {
    ghost use Rattle.std.specs.Prelude.{ℕ};

    ghost Value = { ℕ };

    ghost view = { λ v. v.root };
}

/// Want of memory, with the vector that was to be opened.
pub struct OpenFault {
    /// The vector, as it was.
    pub vector: Flex,
}

impl FlexEdit {
    /// The vector, to be edited in place: its root is the same where it has one owner, and then only spares come, and else a
    /// copy of that row, of one node. Refused only where memory runs out. A refusal leaves the heap as it was.
    pub fn open<T>(vector: Flex, heap: &mut Heap<T>) -> Result<FlexEdit, OpenFault>
        requires good { IsGoodVector heap.old vector }
        requires held { 1 ≤ holds_at heap.old vector }
        requires few { hold_count heap.old < half_holds }
        ensures items { IfOk result (λ v. IsVectorOf heap.new v (elements heap.old vector)) }
        ensures same { IfOk result (λ v. (v ≡ vector) ↔ (owners_at heap.old vector ≡ 1)) }
        ensures row { IfOk result (λ v. row_at heap.new v ≡ row_at heap.old vector) }
        ensures sole { IfOk result (λ v. owners_at heap.new v ≡ 1) }
        ensures alone { owners_at heap.old vector ≡ 1 → IfOk result (λ _. KeepsOwners heap.old heap.new × (heap.new.made ≡ heap.old.made)) }
        ensures extends { IfOk result (λ _. Extends heap.old heap.new) }
        ensures edits { IfOk result (λ v. EditsBy (by_hold vector) heap.old heap.new v [] [] 0 1) }
        ensures makes { IfOk result (λ _. MakesWhatCame heap.old heap.new) }
        ensures spares { IfOk result (λ _. KeepsToNeed heap.old heap.new 0 1) }
        ensures back { IfErr result (λ fault. fault.vector ≡ vector) }
        ensures refused { OnErr result (heap.new ≡ heap.old) }
        ensures ample { HasSpares heap.old 0 1 → IsOk result }
    {
        let Ok(()) = heap.reserve(0, 1) else {
            return Err(OpenFault { vector });
        };
        let root = heap.own(vector.into_root());
        Ok(FlexEdit { root })
    }

    /// The vector as edited, with its hold. It takes no memory.
    pub fn freeze(self) -> Flex
        ensures { result ≡ self }
    {
        let FlexEdit { root } = self;
        Flex::from_root(root)
    }

    /// The vector as edited, without a hold.
    pub fn view(&self) -> FlexRef
        ensures { result ≡ self.now }
    {
        FlexRef::at(self.root)
    }
}
