//! Random turns of the calls that make, hold, write and free rows of a heap. After each turn the owners of all rows are counted again.
ghost use Rattle.std.specs.Prelude.{◌≡◌, ℕ, ◌+◌, ◌<◌, ◌≤◌, ◌∷◌, length, IsSome, OnOk, IfOk};
ghost use Rattle.arrayvec.specs.ArrayVec.{array_vec_len};
ghost use Rattle.node_heap.specs.Links.{count};
ghost use Rattle.node_heap.specs.Forms.{is_node};
ghost use Rattle.node_heap.specs.Heap.{row_at, links_at, owners_at, IsGraph};
ghost use Rattle.container_tests.specs.Turns.{AreHeld};

use arrayvec::ArrayVec;
use elem_core::{NoMemory, Num};
use node_heap::{Head, Heap, Link};
use std::alloc::Global;
use std::test::Fail;

// So many holds there are at most between turns.
const KEPT: usize = 20;

// In so many turns more pairs of rows come than are kept at a time, and a row that stores one owner is written below a row of a pair:
// once where that is all of its owners, and once where it has another.
const TURNS: usize = 1000;

// Numbers by xorshift.
#[derive(Drop)]
struct Dice {
    state: u64,
}

impl Dice {
    // A number below the bound.
    fn roll(&mut self, bound: usize) -> usize
        requires { 0 < bound }
        ensures { result < bound }
    {
        self.state ^= self.state << 13;
        self.state ^= self.state >> 7;
        self.state ^= self.state << 17;
        ((self.state >> 20) as usize) % bound
    }

    fn head(&mut self) -> Head {
        match self.roll(7) {
            0 => Head::Leaf,
            1 => Head::Chain,
            2 => Head::Pair,
            3 => Head::State,
            depth => Head::Trie {
                depth: depth as u8,
                entries: self.roll(1000) as u32,
                nodes: self.roll(1000) as u32,
            },
        }
    }
}

// A heap, a link for each hold, and the number of rows that were made.
#[derive(Drop)]
struct Turns {
    heap: Heap<Num>,
    held: ArrayVec<Link, 32>,
    made: u64,
    dice: Dice,
}

impl Turns {
    // One of the links that are held.
    fn any(&mut self) -> Link
        requires { 0 < array_vec_len self.old.held }
        ensures one { 0 < count result self.old.held.items }
        ensures heap { self.new.heap ≡ self.old.heap }
        ensures same { self.new.held ≡ self.old.held }
    {
        let index = self.dice.roll(self.held.len());
        self.held[index]
    }

    fn make_cell(&mut self) -> Result<(), NoMemory>
        requires held { AreHeld self.old.heap self.old.held.items }
        requires few { array_vec_len self.old.held < 32 }
        ensures held { OnOk result (AreHeld self.new.heap self.new.held.items) }
        ensures few { array_vec_len self.new.held ≤ array_vec_len self.old.held + 1 }
    {
        self.heap.reserve(1, 0)?;
        let number = self.dice.roll(100) as u32;
        let cell = self.heap.cell(Num(number));
        self.made = self.made.saturating_add(1);
        self.held.push(cell);
        Ok(())
    }

    // A node of all that is held.
    fn gather(&mut self) -> Result<(), NoMemory>
        requires held { AreHeld self.old.heap self.old.held.items }
        ensures held { OnOk result (AreHeld self.new.heap self.new.held.items) }
    {
        self.heap.reserve(0, 1)?;
        let head = self.dice.head();
        let node = self.heap.node(head, self.held.as_slice());
        self.made = self.made.saturating_add(1);
        self.held.clear();
        self.held.push(node);
        Ok(())
    }

    // A hold of a row that stands in one that is held.
    fn hold_below(&mut self)
        requires held { AreHeld self.old.heap self.old.held.items }
        requires some { 0 < array_vec_len self.old.held }
        requires few { array_vec_len self.old.held < 32 }
        ensures held { AreHeld self.new.heap self.new.held.items }
    {
        let row = self.any();
        let links = self.heap.links(row);
        if links.is_empty() {
            return;
        }
        let child = links[self.dice.roll(links.len())];
        self.heap.hold(child);
        self.held.push(child);
    }

    // A hold of each row that stands in one that is held, where there is room for them.
    fn hold_all_below(&mut self)
        requires held { AreHeld self.old.heap self.old.held.items }
        requires some { 0 < array_vec_len self.old.held }
        ensures held { AreHeld self.new.heap self.new.held.items }
    {
        let row = self.any();
        if self.held.len() + self.heap.links(row).len() > 32 {
            return;
        }
        self.hold_links_of(row);
    }

    // A hold of each link of the row.
    fn hold_links_of(&mut self, row: Link)
        requires held { AreHeld self.old.heap self.old.held.items }
        requires live { IsSome (row_at self.old.heap row) }
        requires room { array_vec_len self.old.held + length (links_at self.old.heap row) ≤ 32 }
        ensures held { AreHeld self.new.heap self.new.held.items }
    {
        let before = self.held.len();
        // There is room for 32, so that this refuses nothing.
        let _ = self.held.try_extend_from_slice(self.heap.links(row));
        self.heap.hold_all(&self.held.as_slice()[before..]);
    }

    // A row that is made of a held one by one change. Another held one comes in, or a link goes out.
    fn change(&mut self) -> Result<(), NoMemory>
        requires held { AreHeld self.old.heap self.old.held.items }
        requires some { 0 < array_vec_len self.old.held }
        requires few { array_vec_len self.old.held < 32 }
        ensures held { OnOk result (AreHeld self.new.heap self.new.held.items) }
    {
        let row = self.any();
        let len = self.heap.links(row).len();
        if len == 0 || len == 32 {
            return Ok(());
        }
        self.heap.reserve(0, 1)?;
        self.made = self.made.saturating_add(1);
        let head = self.dice.head();
        let index = self.dice.roll(len);
        let way = self.dice.roll(4);
        if way == 0 {
            let made = self.heap.with_removed(row, head, index);
            self.held.push(made);
            return Ok(());
        }
        let link = self.any();
        self.heap.hold(link);
        let made = match way {
            1 => self.heap.with_inserted(row, head, index, link),
            2 => self.heap.with_replaced(row, head, index, link),
            _ => self
                .heap
                .with_turned(row, head, self.dice.roll(len), index, link),
        };
        self.held.push(made);
        Ok(())
    }

    // Makes a held row the holder's own, and often a row below, and writes it.
    fn write(&mut self) -> Result<(), NoMemory>
        requires held { AreHeld self.old.heap self.old.held.items }
        requires some { 0 < array_vec_len self.old.held }
        requires few { array_vec_len self.old.held < 32 }
        ensures held { OnOk result (AreHeld self.new.heap self.new.held.items) }
    {
        let at = self.dice.roll(self.held.len());
        let link = self.held[at];
        if self.heap.head(link).is_none() {
            return Ok(());
        }
        self.heap.reserve(1, 2)?;
        let row = self.heap.own(link);
        self.made = self.made.saturating_add(u64::from(row != link));
        self.held[at] = row;
        let len = self.heap.links(row).len();
        if len > 0 {
            let index = self.dice.roll(len);
            let child = self.heap.links(row)[index];
            if self.heap.head(child).is_some() {
                let own = self.heap.own_child(row, index);
                self.made = self.made.saturating_add(u64::from(own != child));
                self.write_own(own);
                return Ok(());
            }
        }
        self.write_own(row);
        Ok(())
    }

    // Writes a row with one owner: a new cell comes in, or a link goes out, or it gets another head.
    fn write_own(&mut self, row: Link)
        requires held { AreHeld self.old.heap self.old.held.items }
        requires few { array_vec_len self.old.held < 32 }
        requires sole { owners_at self.old.heap row ≡ 1 }
        requires node { is_node (row_at self.old.heap row) ≡ 1 }
        requires spare { 0 < self.old.heap.spare_cells }
        ensures held { AreHeld self.new.heap self.new.held.items }
    {
        let len = self.heap.links(row).len();
        if len == 0 || len == 32 {
            let head = self.dice.head();
            self.heap.set_head(row, head);
            return;
        }
        let index = self.dice.roll(len);
        let way = self.dice.roll(3);
        if way == 0 {
            let old = self.heap.remove_link(row, index);
            self.held.push(old);
            return;
        }
        let cell = self.heap.cell(Num(7));
        self.made = self.made.saturating_add(1);
        if way == 1 {
            let old = self.heap.replace(row, index, cell);
            self.held.push(old);
        } else {
            self.heap.insert_link(row, index, cell);
        }
    }

    fn give_up(&mut self)
        requires held { AreHeld self.old.heap self.old.held.items }
        requires some { 0 < array_vec_len self.old.held }
        ensures held { AreHeld self.new.heap self.new.held.items }
        ensures one { array_vec_len self.new.held + 1 ≡ array_vec_len self.old.held }
    {
        let index = self.dice.roll(self.held.len());
        let link = self.held.remove(index);
        self.heap.release(link);
    }

    fn turn(&mut self) -> Result<(), NoMemory>
        requires held { AreHeld self.old.heap self.old.held.items }
        requires few { array_vec_len self.old.held < 32 }
        ensures held { OnOk result (AreHeld self.new.heap self.new.held.items) }
    {
        if self.held.is_empty() {
            return self.make_cell();
        }
        match self.dice.roll(24) {
            0 | 1 | 2 => self.make_cell(),
            3 => self.gather(),
            4 | 5 => {
                self.hold_below();
                Ok(())
            }
            6 => {
                self.hold_all_below();
                Ok(())
            }
            7 | 8 | 9 | 10 | 11 => self.write(),
            12 | 13 => {
                self.give_up();
                Ok(())
            }
            _ => self.change(),
        }
    }
}

// Rows, and how many owners each has.
#[derive(Drop)]
struct Counted {
    rows: Vec<Link>,
    owners: Vec<usize>,
}

impl Counted {
    // Counts an owner of the row.
    fn add(&mut self, row: Link) -> Result<(), NoMemory>
        ensures { OnOk result ((k : ℕ) → 0 < count k self.new.rows.items → 0 < count k (row ∷ self.old.rows.items)) }
    {
        for at in 0..self.rows.len() {
            if self.rows[at] == row {
                if let Some(owners) = self.owners.get_mut(at) {
                    *owners = owners.saturating_add(1);
                }
                return Ok(());
            }
        }
        self.owners.push(1)?;
        self.rows.push(row)?;
        Ok(())
    }

    // Counts an owner for each place there.
    fn add_all(&mut self, heap: &Heap<Num>, links: &[Link]) -> Result<(), NoMemory>
        requires live { (k : ℕ) → 0 < count k links.now → IsSome (row_at heap.now k) }
        requires rows { (k : ℕ) → 0 < count k self.old.rows.items → IsSome (row_at heap.now k) }
        ensures { OnOk result ((k : ℕ) → 0 < count k self.new.rows.items → IsSome (row_at heap.now k)) }
    {
        for link in links {
            self.add(*link)?;
        }
        Ok(())
    }
}

// All rows from these links on, each with its owners.
fn rows_from(heap: &Heap<Num>, roots: &[Link], alloc: Global) -> Result<Counted, NoMemory>
    requires graph { IsGraph heap.now }
    requires live { (k : ℕ) → 0 < count k roots.now → IsSome (row_at heap.now k) }
    ensures { IfOk result (λ all. (k : ℕ) → 0 < count k all.rows.items → IsSome (row_at heap.now k)) }
{
    let mut all = Counted {
        rows: Vec::new(alloc),
        owners: Vec::new(alloc),
    };
    all.add_all(heap, roots)?;
    for at in 0..heap.live() {
        if at >= all.rows.len() {
            return Ok(all);
        }
        let row = all.rows[at];
        all.add_all(heap, heap.links(row))?;
    }
    Ok(all)
}

// Whether the owners of all rows are what the rows and the holds say, no row is left that none leads to, and the heap tells how many
// were made and which rows have one owner.
fn is_right(turns: &Turns, alloc: Global) -> Result<bool, NoMemory>
    requires { AreHeld turns.now.heap turns.now.held.items }
{
    turns.heap.rows_form_a_graph();
    let all = rows_from(&turns.heap, turns.held.as_slice(), alloc)?;
    if all.rows.len() != turns.heap.live() || turns.heap.made() != turns.made {
        return Ok(false);
    }
    for at in 0..all.rows.len() {
        let row = all.rows[at];
        let owners = turns.heap.owners(row);
        let alone = turns.heap.has_one_owner(row);
        if all.owners.get(at) != Some(&owners) || alone != (owners == 1) {
            return Ok(false);
        }
    }
    Ok(true)
}

#[test]
fn owners_are_counted_at_each_turn(rt: HostRuntime) -> Result<(), Fail> {
    let mut turns = Turns {
        heap: Heap::new(rt.alloc()),
        held: ArrayVec::new(),
        made: 0,
        dice: Dice {
            state: 5213019028570671171,
        },
    };
    for _ in 0..TURNS {
        turns.turn()?;
        // Few holds, so that rows go.
        while turns.held.len() > KEPT {
            turns.give_up();
        }
        assert!(rt; is_right(&turns, rt.alloc())?);
    }
    while !turns.held.is_empty() {
        turns.give_up();
    }
    assert_eq!(rt; turns.heap.live(), 0);
    Ok(())
}
