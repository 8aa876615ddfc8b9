//! Vectors of numbers in one heap, for tests that look at values alone: their calls ask for nothing and promise nothing, so a
//! test of them has nothing to prove.
ghost use Rattle.std.specs.Prelude.{◌≡◌, ◌+◌, ◌<◌, ◌++◌, [], ◌∷◌, ◌^◌, length, Some, IfOk, IfSome, IsOk, slice_get};
ghost use Rattle.std.specs.List.{All};
ghost use Rattle.node_heap.specs.Heap.{form_at, hold_count, program_holds};
ghost use Rattle.same_value.specs.Cells.{IsCellLink, IsLines};
ghost use Rattle.vector_tests.specs.Stands.{KeepsLines};

use crate::samples::{counts_to, number_at};
use crate::sums::{has_sums, has_sums_within};
use elem_core::{NoMemory, Num};
use node_heap::{Heap, Link};
use rrb_core::{Flex, FlexRef, PushFault, SetFault, push, set, take, vector_of};
use rrb_join::{JoinFault, concat, drop_front};
use same_value::equal_vec;
use std::alloc::Global;
use std::marker::Model;
use std::process::Abort;

/// Vectors of cells in one heap, each named by the turn in which it came, from 0 on. All of them stay.
#[derive(Drop)]
pub struct Versions {
    heap: Heap<Num>,
    roots: Vec<Link>,
}

impl Model for Versions {
    ghost use Rattle.std.specs.Prelude.{ℕ, vec_len};
    ghost use Rattle.vector_tests.specs.Stands.{HasVectors};

    ghost Value = { ℕ };

    ghost view = { λ v. vec_len v.roots };

    ghost invariant = { λ v. HasVectors v.heap v.roots.items };
}

// The root of the vector without elements.
fn no_lines(heap: &mut Heap<Num>) -> Result<Link, NoMemory>
    requires few { hold_count heap.old < program_holds }
    ensures lines { IfOk result (λ l. IsLines heap.new l) }
    ensures others { IfOk result (λ _. KeepsLines heap.old heap.new) }
    ensures count { IfOk result (λ _. hold_count heap.new ≡ hold_count heap.old + 1) }
{
    Ok(Flex::empty(heap)?.into_root())
}

// The root of the vector with a new cell of this number after its last.
fn pushed(heap: &mut Heap<Num>, root: Link, number: u32) -> Result<Link, PushFault>
    requires lines { IsLines heap.old root }
    requires few { hold_count heap.old < program_holds }
    ensures lines { IfOk result (λ l. IsLines heap.new l) }
    ensures others { IfOk result (λ _. KeepsLines heap.old heap.new) }
    ensures count { IfOk result (λ _. hold_count heap.new ≡ hold_count heap.old + 1) }
{
    heap.reserve(1, 0)?;
    let cell = heap.cell(Num(number));
    Ok(push(heap, FlexRef::at(root), cell)?.into_root())
}

// The root of the vector with a new cell of this number at the index.
fn changed(heap: &mut Heap<Num>, root: Link, index: u32, number: u32) -> Result<Link, SetFault>
    requires lines { IsLines heap.old root }
    requires few { hold_count heap.old < program_holds }
    ensures lines { IfOk result (λ l. IsLines heap.new l) }
    ensures others { IfOk result (λ _. KeepsLines heap.old heap.new) }
    ensures count { IfOk result (λ _. hold_count heap.new ≡ hold_count heap.old + 1) }
{
    heap.reserve(1, 0)?;
    let cell = heap.cell(Num(number));
    let vector = set(heap, FlexRef::at(root), index, cell)?;
    Ok(vector.into_root())
}

// The root of the vector of the first elements.
fn front(heap: &mut Heap<Num>, root: Link, count: u32) -> Result<Link, NoMemory>
    requires lines { IsLines heap.old root }
    requires few { hold_count heap.old < program_holds }
    ensures lines { IfOk result (λ l. IsLines heap.new l) }
    ensures others { IfOk result (λ _. KeepsLines heap.old heap.new) }
    ensures count { IfOk result (λ _. hold_count heap.new ≡ hold_count heap.old + 1) }
{
    Ok(take(heap, FlexRef::at(root), count)?.into_root())
}

// The root of the vector of the elements behind the first ones.
fn back(heap: &mut Heap<Num>, root: Link, count: u32) -> Result<Link, NoMemory>
    requires lines { IsLines heap.old root }
    requires few { hold_count heap.old < program_holds }
    ensures lines { IfOk result (λ l. IsLines heap.new l) }
    ensures others { IfOk result (λ _. KeepsLines heap.old heap.new) }
    ensures count { IfOk result (λ _. hold_count heap.new ≡ hold_count heap.old + 1) }
{
    Ok(drop_front(heap, FlexRef::at(root), count)?.into_root())
}

// The root of the two vectors one after the other.
fn joined(heap: &mut Heap<Num>, left: Link, right: Link) -> Result<Link, JoinFault>
    requires left { IsLines heap.old left }
    requires right { IsLines heap.old right }
    requires few { hold_count heap.old < program_holds }
    ensures lines { IfOk result (λ l. IsLines heap.new l) }
    ensures others { IfOk result (λ _. KeepsLines heap.old heap.new) }
    ensures count { IfOk result (λ _. hold_count heap.new ≡ hold_count heap.old + 1) }
{
    Ok(concat(heap, FlexRef::at(left), FlexRef::at(right))?.into_root())
}

// The root of the vector of these cells, made at once.
fn filled(heap: &mut Heap<Num>, links: &[Link]) -> Result<Link, NoMemory>
    requires cells { All (IsCellLink (form_at heap.old)) links.now }
    requires short { length links.now < 2 ^ 32 }
    requires few { hold_count heap.old < program_holds }
    ensures lines { IfOk result (λ l. IsLines heap.new l) }
    ensures others { IfOk result (λ _. KeepsLines heap.old heap.new) }
    ensures count { IfOk result (λ _. hold_count heap.new ≡ hold_count heap.old + 1) }
{
    heap.hold_all(links);
    Ok(vector_of(heap, links)?.into_root())
}

// The root at this turn. No test makes nearly so many vectors.
fn root_at(rt: &impl Abort, roots: &[Link], turn: usize) -> Link
    ensures root { slice_get roots.now turn ≡ Some result }
    ensures few { length roots.now < 2 ^ 40 }
{
    assert!(rt; roots.len() < 1 << 40);
    assert!(rt; turn < roots.len());
    roots[turn]
}

// Puts what a call made behind the other roots, and answers its turn.
fn kept<E: Drop>(rt: &impl Abort, roots: &mut Vec<Link>, made: Result<Link, E>) -> usize
    ensures ok { IsOk made }
    ensures list { IfOk made (λ root. roots.new.items ≡ roots.old.items ++ root ∷ []) }
{
    match made {
        Ok(root) => {
            roots.push(root).expect(rt, "memory");
            roots.len() - 1
        }
        Err(_) => panic!(rt; "a call was refused"),
    }
}

// The element at the index, which is a cell.
fn element_at(heap: &Heap<Num>, root: Link, index: u32) -> Option<Link>
    requires { IsLines heap.now root }
    ensures { IfSome result (IsCellLink (form_at heap.now)) }
{
    FlexRef::at(root).get(heap, index)
}

// All elements of the vector.
fn elements_of(rt: &impl Abort, alloc: Global, heap: &Heap<Num>, root: Link) -> Vec<Link>
    requires { IsLines heap.now root }
    ensures { All (IsCellLink (form_at heap.now)) result.items }
{
    let mut links = Vec::new(alloc);
    for index in 0..FlexRef::at(root).len(heap) {
        let Some(link) = element_at(heap, root, index) else {
            panic!(rt; "an element is missing");
        };
        let made: Result<Link, NoMemory> = Ok(link);
        kept(rt, &mut links, made);
    }
    links
}

impl Versions {
    /// The vector without elements alone.
    pub fn start(rt: &impl Abort, alloc: Global) -> Versions {
        let mut heap: Heap<Num> = Heap::new(alloc);
        let mut roots = Vec::new(alloc);
        let made = no_lines(&mut heap);
        kept(rt, &mut roots, made);
        Versions { heap, roots }
    }

    /// The one of this turn with a number more.
    pub fn push(&mut self, rt: &impl Abort, turn: usize, number: u32) -> usize {
        let root = root_at(rt, &self.roots, turn);
        let made = pushed(&mut self.heap, root, number);
        kept(rt, &mut self.roots, made)
    }

    /// The one of this turn with the numbers from `from` to below `to` more.
    pub fn push_all(&mut self, rt: &impl Abort, turn: usize, from: u32, to: u32) -> usize {
        let mut turn = turn;
        for number in from..to {
            turn = self.push(rt, turn, number);
        }
        turn
    }

    /// The one of this turn with another number at the index.
    pub fn set(&mut self, rt: &impl Abort, turn: usize, index: u32, number: u32) -> usize {
        let root = root_at(rt, &self.roots, turn);
        let made = changed(&mut self.heap, root, index, number);
        kept(rt, &mut self.roots, made)
    }

    /// The first elements of the one of this turn.
    pub fn take(&mut self, rt: &impl Abort, turn: usize, count: u32) -> usize {
        let root = root_at(rt, &self.roots, turn);
        let made = front(&mut self.heap, root, count);
        kept(rt, &mut self.roots, made)
    }

    /// The elements of the one of this turn behind the first ones.
    pub fn drop_front(&mut self, rt: &impl Abort, turn: usize, count: u32) -> usize {
        let root = root_at(rt, &self.roots, turn);
        let made = back(&mut self.heap, root, count);
        kept(rt, &mut self.roots, made)
    }

    /// Two one after the other.
    pub fn join(&mut self, rt: &impl Abort, left: usize, right: usize) -> usize {
        let left = root_at(rt, &self.roots, left);
        let right = root_at(rt, &self.roots, right);
        let made = joined(&mut self.heap, left, right);
        kept(rt, &mut self.roots, made)
    }

    /// The one of this turn joined to itself so many times in turn.
    pub fn double(&mut self, rt: &impl Abort, turn: usize, times: u32) -> usize {
        let mut turn = turn;
        for _time in 0..times {
            turn = self.join(rt, turn, turn);
        }
        turn
    }

    /// A vector of the elements of the one of this turn that is made at once.
    pub fn fill(&mut self, rt: &impl Abort, alloc: Global, turn: usize) -> usize {
        let root = root_at(rt, &self.roots, turn);
        let links = elements_of(rt, alloc, &self.heap, root);
        assert!(rt; links.len() < 1 << 32);
        let made = filled(&mut self.heap, &links);
        kept(rt, &mut self.roots, made)
    }

    /// Why no number is put at the index, and how many rows were freed till then.
    pub fn set_fault(self, rt: &impl Abort, turn: usize, index: u32) -> (Option<SetFault>, u64) {
        let Versions { mut heap, roots } = self;
        let root = root_at(rt, &roots, turn);
        let fault = changed(&mut heap, root, index, 7).err();
        (fault, heap.made().wrapping_sub(heap.live() as u64))
    }

    /// Why two are not joined.
    pub fn join_fault(self, rt: &impl Abort, left: usize, right: usize) -> Option<JoinFault> {
        let Versions { mut heap, roots } = self;
        let left = root_at(rt, &roots, left);
        let right = root_at(rt, &roots, right);
        joined(&mut heap, left, right).err()
    }

    /// How many elements the one of this turn has.
    pub fn len(&self, rt: &impl Abort, turn: usize) -> u32 {
        FlexRef::at(root_at(rt, &self.roots, turn)).len(&self.heap)
    }

    /// The height of the one of this turn.
    pub fn height(&self, rt: &impl Abort, turn: usize) -> u8 {
        FlexRef::at(root_at(rt, &self.roots, turn)).height(&self.heap)
    }

    /// Its number at the index.
    pub fn number(&self, rt: &impl Abort, turn: usize, index: u32) -> Option<u32> {
        number_at(&self.heap, root_at(rt, &self.roots, turn), index)
    }

    /// Whether it has the numbers from 0 to below this one, in order and no more.
    pub fn counts_to(&self, rt: &impl Abort, turn: usize, to: u32) -> bool {
        counts_to(&self.heap, root_at(rt, &self.roots, turn), to)
    }

    /// How many elements its iterator gives.
    pub fn walked(&self, rt: &impl Abort, turn: usize) -> usize {
        let vector = FlexRef::at(root_at(rt, &self.roots, turn));
        vector.lines(&self.heap, 0, vector.len(&self.heap)).count()
    }

    /// Whether its root keeps sums.
    pub fn has_sums(&self, rt: &impl Abort, turn: usize) -> bool {
        has_sums(&self.heap, root_at(rt, &self.roots, turn))
    }

    /// Whether its root, or a row at most so many links below it, does.
    pub fn has_sums_within(&self, rt: &impl Abort, turn: usize, levels: u32) -> bool {
        has_sums_within(&self.heap, root_at(rt, &self.roots, turn), levels)
    }

    /// Whether two have one root.
    pub fn are_one(&self, rt: &impl Abort, left: usize, right: usize) -> bool {
        root_at(rt, &self.roots, left) == root_at(rt, &self.roots, right)
    }

    /// Whether two are equal.
    pub fn are_equal(&self, rt: &impl Abort, left: usize, right: usize) -> bool {
        let left = FlexRef::at(root_at(rt, &self.roots, left));
        let right = FlexRef::at(root_at(rt, &self.roots, right));
        equal_vec(&self.heap, left, right)
    }

    /// How many rows were ever made.
    pub fn made(&self) -> u64 {
        self.heap.made()
    }

    /// How many rows there are.
    pub fn live(&self) -> usize {
        self.heap.live()
    }
}
