//! The pool of a space's rows, and a pool that takes their place.
ghost use Rattle.std.specs.Prelude.{◌≡◌, [], IfOk};
ghost use Rattle.node_heap.specs.Calls.{KeepsToNeed};
ghost use Rattle.pool_text.specs.Pool.{settings_by, pool_at};
ghost use Rattle.plain_space.specs.Workspace.{Workspace};
ghost use Rattle.space_state.specs.declared.roots.Batch.TheVariants.{Closed};
ghost use Rattle.space_state.specs.Roots.{Keeps, root_list};
ghost use Rattle.space_state.specs.View.{TakesRows, EndsTaking};

use crate::roots::{Batch, RootedHeap, Roots};
use elem_core::{NoMemory, Text};
use node_heap::Link;
use plain_space::Refusal;
use pool_check::Checked;
use pool_load::load;
use pool_order::order;
use pool_text::{Pool, pool_of};
use std::alloc::Global;

impl RootedHeap {
    /// The pool of the rows that the roots reach.
    pub(crate) fn pool(&self, alloc: Global) -> Result<Pool, NoMemory>
        requires { (W : Workspace) × Keeps self.now [] W }
        ensures { IfOk result (λ p. p ≡ pool_at (λ text. text) self.now.heap (root_list self.now.roots) (settings_by self.now.bits self.now.history)) }
    {
        match self.roots.batch.base() {
            None => self.pool_from(
                alloc,
                &[
                    self.roots.current,
                    self.roots.versions,
                    self.roots.undo,
                    self.roots.redo,
                ],
            ),
            Some(base) => self.pool_from(
                alloc,
                &[
                    self.roots.current,
                    self.roots.versions,
                    self.roots.undo,
                    self.roots.redo,
                    base,
                ],
            ),
        }
    }

    // The pool of the rows that these links reach, which are the roots.
    fn pool_from(&self, alloc: Global, roots: &[Link]) -> Result<Pool, NoMemory>
        requires keeps { (W : Workspace) × Keeps self.now [] W }
        requires roots { roots.now ≡ root_list self.now.roots }
        ensures { IfOk result (λ p. p ≡ pool_at (λ text. text) self.now.heap (root_list self.now.roots) (settings_by self.now.bits self.now.history)) }
    {
        let order = order(alloc, &self.heap, roots)?;
        pool_of(alloc, &self.heap, &order, roots, self.bits, self.history)
    }

    /// Puts the checked pool in place of all rows, as new rows, and gives the old ones up then. Its history is the bound of undo.
    pub(crate) fn take_pool(&mut self, checked: Checked<Text>) -> Result<(), Refusal>
        requires keeps { (W : Workspace) × Keeps self.old [] W }
        requires bits { checked.bits ≡ self.old.bits }
        ensures { (W : Workspace) → Keeps self.old [] W → EndsTaking W result (TakesRows checked self.old self.new) (self.new ≡ self.old) }
    {
        if self.in_batch() {
            return Err(Refusal::Batch);
        }
        let history = checked.pool().history;
        let links = load(self.alloc, &mut self.heap, checked)?;
        let roots = Roots {
            current: links[0],
            versions: links[1],
            undo: links[2],
            redo: links[3],
            batch: Batch::Closed,
        };
        self.turn_roots(roots, history);
        Ok(())
    }

    // Puts these roots, of each of which the caller's hold is spent, and this bound in place of those that are there, which have no base.
    fn turn_roots(&mut self, roots: Roots, history: u32)
        requires closed { self.old.roots.batch ≡ Closed }
        requires kept { (W : Workspace) × Keeps (record self.old { roots = roots; history = history }) (root_list self.old.roots) W }
        ensures kept { (W : Workspace) → Keeps (record self.old { roots = roots; history = history }) (root_list self.old.roots) W → Keeps self.new [] W }
        ensures pool { pool_at (λ text. text) self.new.heap (root_list self.new.roots) (settings_by self.new.bits self.new.history) ≡ pool_at (λ text. text) self.old.heap (root_list roots) (settings_by self.old.bits history) }
        ensures made { self.new.heap.made ≡ self.old.heap.made }
        ensures spares { KeepsToNeed self.old.heap self.new.heap 0 0 }
    {
        let before = self.roots;
        self.roots = roots;
        self.history = history;
        self.heap.release(before.current);
        self.heap.release(before.versions);
        self.heap.release(before.undo);
        self.heap.release(before.redo);
    }
}
