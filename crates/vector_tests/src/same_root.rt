//! Calls that leave all elements as they are give the vector itself: its root is held once more, and no row is made.
ghost use Rattle.std.specs.Prelude.{◌≡◌, ◌<◌, IfOk};
ghost use Rattle.node_heap.specs.Heap.{hold_count, quarter_holds};
ghost use Rattle.rrb_core.specs.Vector.{IsGoodVector};

use crate::samples::pushed_all;
use elem_core::Num;
use node_heap::{Heap, Link};
use rrb_core::{Flex, FlexRef, take};
use rrb_join::{concat, drop_front, erase, slice};
use std::test::Fail;

#[derive(Clone, Copy, Debug)]
enum Call {
    TakeAll,
    TakeMore,
    DropNone,
    SliceAll,
    EraseNone,
    JoinNothingBehind,
    JoinNothingBefore,
}

// What the call gives of a vector of a hundred elements, beside one without any.
fn vector_after(heap: &mut Heap<Num>, call: Call, all: Link, none: Link) -> Result<Flex, Fail>
    requires good { IsGoodVector heap.old all }
    requires empty { IsGoodVector heap.old none }
    requires few { hold_count heap.old < quarter_holds }
    ensures good { IfOk result (λ v. IsGoodVector heap.new v) }
{
    let all = FlexRef::at(all);
    let none = FlexRef::at(none);
    match call {
        Call::TakeAll => Ok(take(heap, all, 100)?),
        Call::TakeMore => Ok(take(heap, all, 5_000)?),
        Call::DropNone => Ok(drop_front(heap, all, 0)?),
        Call::SliceAll => Ok(slice(heap, all, 0, 100)?),
        Call::EraseNone => Ok(erase(heap, all, 40, 40)?),
        Call::JoinNothingBehind => Ok(concat(heap, all, none)?),
        Call::JoinNothingBefore => Ok(concat(heap, none, all)?),
    }
}

const CALLS: [Call; 7] = [
    Call::TakeAll,
    Call::TakeMore,
    Call::DropNone,
    Call::SliceAll,
    Call::EraseNone,
    Call::JoinNothingBehind,
    Call::JoinNothingBefore,
];

// Whether the call gives the vector itself, held once more, and makes no row.
fn gives_itself(heap: &mut Heap<Num>, call: Call, all: Link, none: Link) -> Result<bool, Fail>
    requires good { IsGoodVector heap.old all }
    requires empty { IsGoodVector heap.old none }
    requires few { hold_count heap.old < quarter_holds }
{
    let live = heap.live();
    let made = heap.made();
    let owners = heap.owners(all);
    let root = vector_after(heap, call, all, none)?.into_root();
    let once_more = heap.owners(root).wrapping_sub(owners) == 1;
    Ok(root == all && once_more && heap.live() == live && heap.made() == made)
}

// The same, of a vector that is made in this heap.
fn gives_a_new_one_itself(heap: &mut Heap<Num>, call: Call) -> Result<bool, Fail>
    requires few { hold_count heap.old ≡ 0 }
{
    let none = Flex::empty(heap)?.into_root();
    let all = pushed_all(heap, none, 0, 100)?;
    gives_itself(heap, call, all, none)
}

#[test]
fn gives_the_vector_itself(rt: HostRuntime) -> Result<(), Fail> {
    for call in CALLS {
        let mut heap: Heap<Num> = Heap::new(rt.alloc());
        assert!(rt; gives_a_new_one_itself(&mut heap, call)?, "{call:?}");
    }
    Ok(())
}
