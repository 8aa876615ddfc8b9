//! The pool of rows that stand in a list.
ghost use Rattle.std.specs.Prelude.{◌≡◌, ℕ, ◌<◌, length, slice_get, nat_eq, [], IfOk};
ghost use Rattle.std.specs.List.{list_any};
ghost use Rattle.node_heap.specs.Links.{count};
ghost use Rattle.pool_order.specs.Order.{places, with_new, with_all_new, order};
ghost use Rattle.pool_order.specs.Laws.{IsReady, AreLinkedBelow};
ghost use Rattle.pool_text.specs.Pool.{links_from, settings_by, pool as pool_from};
ghost use Rattle.pool_text.specs.Listed.{HasPlaces};

use crate::pool::{Pool, Rows};
use crate::relink::{at_places, relinked};
use crate::row::link_at;
use crate::rules::PRESENT_VERSION;
use elem_core::NoMemory;
use pool_order::Visit;
use std::alloc::Global;

/// The pool of those rows of a list that these roots reach, with this number of code bits and this bound of undo. Each link of the
/// list names one of its rows, and leads down. It takes 8 bytes for each row of the list, and time and memory for the rows that are
/// reached, their links and their texts.
pub fn pool_of_rows(
    alloc: Global,
    rows: &Rows,
    roots: &[u64],
    bits: u32,
    history: u32,
) -> Result<Pool, NoMemory>
    requires linked { AreLinkedBelow (length rows.now) (links_from rows.now) }
    requires roots { (r : ℕ) → 0 < count r roots.now → r < length rows.now }
    ensures value { IfOk result (λ p. p ≡ pool_from (length rows.now) (slice_get rows.now) roots.now (settings_by bits history)) }
{
    let items = rows.as_slice();
    let listed = list_rows(alloc, rows, roots)?;
    let places = listed.places.as_slice();
    let mut made = Vec::with_capacity(alloc, listed.rows.len())?;
    for row in listed.rows.as_slice() {
        made.push(relinked(alloc, places, &items[*row as usize])?)?;
    }
    Ok(Pool {
        bits,
        version: PRESENT_VERSION,
        history,
        rows: Rows::from_vec(made),
        roots: at_places(alloc, places, roots)?,
    })
}

// The rows that are listed so far, in their order, and a number for each row of the list: its place, if it is listed.
#[derive(Drop)]
struct Listed {
    rows: Vec<u64>,
    places: Vec<u64>,
}

impl Listed {
    // None yet of so many rows.
    fn none(alloc: Global, count: usize) -> Result<Listed, NoMemory>
        ensures rows { IfOk result (λ listed. listed.rows.items ≡ []) }
        ensures places { IfOk result (HasPlaces count) }
    {
        Ok(Listed {
            rows: Vec::new(alloc),
            places: vec![in alloc; 0; count]?,
        })
    }

    // Whether the row is listed. Its number says nothing unless that place has just this row.
    fn has(&self, row: u64) -> bool
        requires places { HasPlaces (length self.now.places.items) self.now }
        requires low { row < length self.now.places.items }
        ensures { result ≡ list_any (nat_eq row) self.now.rows.items }
    {
        let place = self.places[row as usize] as usize;
        place < self.rows.len() && self.rows[place] == row
    }

    // Lists the row, unless it is listed.
    fn list(&mut self, row: u64) -> Result<(), NoMemory>
        requires places { HasPlaces (length self.old.places.items) self.old }
        requires low { row < length self.old.places.items }
        ensures rows { IfOk result (λ _. self.new.rows.items ≡ with_new self.old.rows.items row) }
        ensures places { IfOk result (λ _. HasPlaces (length self.old.places.items) self.new) }
    {
        if !self.has(row) {
            self.places[row as usize] = self.rows.len() as u64;
            self.rows.push(row)?;
        }
        Ok(())
    }
}

// The rows that the roots reach, each once, after those of its row.
fn list_rows(alloc: Global, rows: &Rows, roots: &[u64]) -> Result<Listed, NoMemory>
    requires linked { AreLinkedBelow (length rows.now) (links_from rows.now) }
    requires roots { (r : ℕ) → 0 < count r roots.now → r < length rows.now }
    ensures rows { IfOk result (λ listed. listed.rows.items ≡ order (length rows.now) (links_from rows.now) roots.now) }
    ensures places { IfOk result (HasPlaces (length rows.now)) }
{
    let mut listed = Listed::none(alloc, rows.as_slice().len())?;
    for root in roots {
        walk(alloc, rows, *root, &mut listed)?;
    }
    Ok(listed)
}

// Lists what the root reaches and is not listed yet.
fn walk(alloc: Global, rows: &Rows, root: u64, listed: &mut Listed) -> Result<(), NoMemory>
    requires linked { AreLinkedBelow (length rows.now) (links_from rows.now) }
    requires root { root < length rows.now }
    requires ready { IsReady (links_from rows.now) listed.old.rows.items }
    requires places { HasPlaces (length rows.now) listed.old }
    ensures rows { IfOk result (λ _. listed.new.rows.items ≡ with_all_new listed.old.rows.items (places (length rows.now) (links_from rows.now) root)) }
    ensures places { IfOk result (λ _. HasPlaces (length rows.now) listed.new) }
{
    let items = rows.as_slice();
    let mut stack = Vec::new(alloc);
    stack.push(Visit {
        link: root,
        next: 0,
    })?;
    while let Some(visit) = stack.pop() {
        match link_at(&items[visit.link as usize], visit.next) {
            Some(child) => {
                stack.push(Visit {
                    link: visit.link,
                    next: visit.next + 1,
                })?;
                if !listed.has(child) {
                    stack.push(Visit {
                        link: child,
                        next: 0,
                    })?;
                }
            }
            None => listed.list(visit.link)?,
        }
    }
    Ok(())
}
