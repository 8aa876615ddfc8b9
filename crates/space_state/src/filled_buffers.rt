//! The edit that fills a buffer with lines from outside.
ghost use Rattle.std.specs.Prelude.{◌≡◌, ◌≤◌, [], length, vec_capacity, IfOk};
ghost use Rattle.elem_core.specs.Shown.{name_bytes};
ghost use Rattle.shell_terms.specs.Edit.{fill};
ghost use Rattle.shell_terms.specs.Command.{edit};
ghost use Rattle.plain_space.specs.Workspace.{Workspace, most};
ghost use Rattle.space_state.specs.Roots.{Keeps};
ghost use Rattle.space_state.specs.Needed.{HoardsNone};
ghost use Rattle.space_state.specs.Turns.{EndsOnRows};

use crate::room::EDIT_NODES;
use crate::roots::RootedHeap;
use elem_core::{Name, NoMemory, Texts};
use node_heap::Link;
use plain_space::Refusal;
use rrb_core::vector_nodes;
use state_rows::filled;
use std::alloc::Global;

// An empty list with room for so many links.
fn links_for(alloc: Global, count: usize) -> Result<Vec<Link>, NoMemory>
    ensures empty { IfOk result (λ links. links.items ≡ []) }
    ensures room { IfOk result (λ links. count ≤ vec_capacity links) }
{
    let links = Vec::with_capacity(alloc, count)?;
    Ok(links)
}

impl RootedHeap {
    /// Gives the buffer these lines, made or replaced. All memory is taken before the first row is made.
    pub(crate) fn fill(&mut self, name: Name<'_>, lines: Texts) -> Result<(), Refusal>
        requires kept { (W : Workspace) × Keeps self.old [] W }
        requires few { length lines ≤ most }
        ensures ends { EndsOnRows (edit (fill (name_bytes name.entry) lines)) self.old result self.new }
        ensures spares { HoardsNone (edit (fill (name_bytes name.entry) lines)) self.old result self.new }
    {
        let texts = lines.into_vec();
        let count = texts.len();
        let mut links = links_for(self.alloc, count)?;
        let found = self.find(name);
        let key = self.new_key(name, found.lines)?;
        self.heap
            .reserve(count + 1, EDIT_NODES + vector_nodes(count) + found.alike)?;
        let lines = filled(&mut self.heap, texts, &mut links);
        self.write_lines(name, key, lines);
        Ok(())
    }
}
