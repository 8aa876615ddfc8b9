//! What the lines of a run are executed in.

ghost use Rattle.std.specs.Prelude.{◌≡◌, ◌↔◌, IfOk, IsTrue};
ghost use Rattle.elem_core.specs.Cell.{IsCell};
ghost use Rattle.ewig_shell.specs.Quits.{is_quit};
ghost use Rattle.ewig_shell.specs.Sending.{Replies};
ghost use Rattle.ewig_shell.specs.Step.{StepsOn};

use crate::execute::{Went, execute_on};
use crate::page::Page;
use shell_io::{Failed, Sink, Store};
use space_state::Space;
use std::alloc::Global;

/// What the lines of a run are executed in: its space, the page in which each reply is put together, whatever it holds, and whence
/// memory comes.
#[derive(Drop)]
pub struct Session {
    pub alloc: Global,
    pub space: Space,
    pub page: Page,
}

impl Session {
    /// Over the space.
    pub fn new(alloc: Global, space: Space) -> Session
        ensures { result.space ≡ space }
    {
        Session {
            alloc,
            space,
            page: Page::new(),
        }
    }

    /// Does what a line asks for, and writes the reply.
    pub fn execute<K: Sink, D: Store>(
        &mut self,
        piece: &[u8],
        sink: &mut K,
        store: &mut D,
    ) -> Result<Went, Failed>
        requires { IsCell piece.now }
        ensures replies { Replies K.Sink sink.old sink.new result
            (λ reply. StepsOn piece.now D.Store self.old.space store.old reply self.new.space store.new) }
        ensures bits { self.new.space.pool.bits ≡ self.old.space.pool.bits }
        ensures quits { IfOk result (λ went. (went ≡ Went.Quit) ↔ IsTrue (is_quit piece.now)) }
    {
        execute_on(
            self.alloc,
            &mut self.space,
            piece,
            &mut self.page,
            sink,
            store,
        )
    }
}
