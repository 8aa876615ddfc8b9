//! Chains of numbers and of texts.
ghost use Rattle.std.specs.Prelude.{◌≢◌, ◌+◌, ◌<◌, ◌^◌, List, IfOk};
ghost use Rattle.std.specs.declared.cmp.Ordering.TheVariants.{Equal};
ghost use Rattle.node_heap.specs.Heap.{form_at, hold_count, program_holds};
ghost use Rattle.champ_chain.specs.Entry.{Entry};
ghost use Rattle.champ_chain.specs.Chain.{IsChain};

use crate::samples::{name, text};
use champ_chain::{find, join, length, with, without};
use elem_core::{Element, NoMemory, Num, Probe};
use node_heap::{Heap, Link};
use std::cmp::Ordering;
use std::test::Fail;

// A chain of three values, of which the first two have different keys.
fn chain_of<T: Element>(heap: &mut Heap<T>, first: T, second: T, third: T) -> Result<Link, NoMemory>
    requires few { hold_count heap.old < program_holds }
    requires apart { T.cmp first second ≢ Equal }
    ensures chain { IfOk result (λ l. (E : List (Entry T)) × IsChain T.cmp (form_at heap.new) l E) }
    ensures few { IfOk result (λ l. hold_count heap.new < 2 ^ 51) }
{
    heap.reserve(3, 0)?;
    let first = heap.cell(first);
    let second = heap.cell(second);
    let third = heap.cell(third);
    let two = join(heap, first, second)?;
    with(heap, two, third)
}

// How long the chain of three values is, whether it has the key, and whether the key can be taken out of it.
fn looked<T: Element, P: Probe<T>>(
    heap: &mut Heap<T>,
    first: T,
    second: T,
    third: T,
    key: &P,
) -> Result<(usize, bool, bool), NoMemory>
    requires few { hold_count heap.old < program_holds }
    requires apart { T.cmp first second ≢ Equal }
{
    let chain = chain_of(heap, first, second, third)?;
    let len = length(heap, chain);
    let found = find(heap, chain, key).is_some();
    let left = without(heap, chain, key)?;
    Ok((len, found, left.is_some()))
}

// The same, or (0, false, false) where the first two keys are the same, which `join` doesn't take.
fn seen<T: Element, P: Probe<T>>(
    heap: &mut Heap<T>,
    first: T,
    second: T,
    third: T,
    key: &P,
) -> Result<(usize, bool, bool), NoMemory>
    requires { hold_count heap.old < program_holds }
{
    match first.cmp(&second) {
        Ordering::Less => looked(heap, first, second, third, key),
        Ordering::Equal => Ok((0, false, false)),
        Ordering::Greater => looked(heap, first, second, third, key),
    }
}

#[test]
fn sees_numbers_and_texts(rt: HostRuntime) -> Result<(), Fail> {
    let mut numbers = Heap::new(rt.alloc());
    let answer = seen(&mut numbers, Num(5), Num(2), Num(9), &Num(2))?;
    assert_eq!(rt; answer, (3, true, true));
    let mut texts = Heap::new(rt.alloc());
    let (a, b, c) = (
        text(&rt, rt.alloc(), "a"),
        text(&rt, rt.alloc(), "b"),
        text(&rt, rt.alloc(), "c"),
    );
    let answer = seen(&mut texts, a, b, c, &name(&rt, "d"))?;
    assert_eq!(rt; answer, (3, false, false));
    Ok(())
}
