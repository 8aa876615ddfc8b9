//! The buffer of a reader of lines.

ghost use Rattle.std.specs.Prelude.{◌≡◌, ℕ, ◌+◌, ◌<◌, ◌≤◌, ◌-◌, ◌^◌, List, [], ◌++◌, take, drop, length, IsErr, IfOk, OnErr, MatchResult};
ghost use Rattle.std.specs.Io.KnownBytes.{Consumes, Keeps, IsAtEnd};
ghost use Rattle.shell_io.specs.Fault.{Calls};
ghost use Rattle.shell_io.specs.Offer.{IsAmple, left_after};
ghost use Rattle.shell_io.specs.Window.{TakesMore};

use super::device::{Failed, Source};
use elem_core::MAX_LINE;
use std::alloc::{AllocError, Global};
use std::marker::Model;

// The longest line, and three times as much behind it, so that each pull has ample room.
const SIZE: usize = 4 * MAX_LINE;

/// A buffer in which the bytes that wait stand behind the line that was given last.
#[derive(Drop)]
pub struct Window {
    bytes: Vec<u8>,
    line_start: usize,
    line_end: usize,
    start: usize,
    end: usize,
}

impl Model for Window {
    ghost use Rattle.std.specs.Prelude.{◌≡◌, ◌≤◌, slice_range, vec_len};
    ghost use Rattle.shell_io.specs.Window.{Waiting};
    ghost use Rattle.shell_io.specs.declared.window.TheConstants.{SIZE};

    ghost Value = { Waiting };

    ghost view = { λ w. record {
      line = slice_range w.bytes.items w.line_start w.line_end;
      held = slice_range w.bytes.items w.start w.end;
    } };

    ghost invariant = { λ w. (w.line_start ≤ w.line_end) × (w.line_end ≤ vec_len w.bytes)
        × (w.start ≤ w.end) × (w.end ≤ vec_len w.bytes) × (vec_len w.bytes ≡ SIZE) };
}

impl Window {
    /// An empty buffer, with all its memory.
    pub fn new(alloc: Global) -> Result<Window, AllocError>
        ensures { IfOk result (λ window. window ≡ record { line = []; held = [] }) }
    {
        Ok(Window {
            bytes: vec![in alloc; 0; SIZE]?,
            line_start: 0,
            line_end: 0,
            start: 0,
            end: 0,
        })
    }

    /// The line that was given last.
    pub fn line(&self) -> &[u8]
        ensures { result.now ≡ self.now.line }
    {
        &self.bytes[self.line_start..self.line_end]
    }

    /// The bytes that wait.
    pub fn held(&self) -> &[u8]
        ensures shown { result.now ≡ self.now.held }
        ensures fits { length self.now.held ≤ SIZE }
    {
        &self.bytes[self.start..self.end]
    }

    /// No line was given last.
    pub fn forget_line(&mut self)
        ensures { self.new ≡ record self.old { line = [] } }
    {
        self.line_end = self.line_start;
    }

    /// Gives the first `count` bytes as a line, and passes over as many more as its end has.
    pub fn give(&mut self, count: usize, end: usize)
        requires { count + end ≤ length self.old.held }
        ensures { self.new ≡ record { line = take count self.old.held; held = drop (count + end) self.old.held } }
    {
        self.line_start = self.start;
        self.line_end = self.start + count;
        self.start += count + end;
    }

    /// Passes over the first `count` bytes.
    pub fn skip(&mut self, count: usize)
        requires { count ≤ length self.old.held }
        ensures { self.new ≡ record self.old { held = drop count self.old.held } }
    {
        self.start += count;
    }

    /// Takes more bytes from the source, at most `limit`. Room for 4,096 at least is offered, or for
    /// `limit` where that is less. Behind a call that fails the same bytes wait.
    pub fn pull<S: Source>(&mut self, source: &mut S, limit: u64) -> Result<usize, Failed>
        requires some { 0 < limit }
        requires room { length self.old.held ≤ MAX_LINE }

        ensures no_line { self.new.line ≡ [] }
        ensures within { IfOk result (λ n. n ≤ limit) }
        ensures more { IfOk result (λ n. TakesMore n self.old.held self.new.held (S.left source.old) (S.left source.new)) }
        ensures at_end { IfOk result (λ n. n ≡ 0 → IsAtEnd (S.left source.old)) }
        ensures kept { OnErr result ((self.new.held ≡ self.old.held) × Keeps (S.left source.old) (S.left source.new)) }

        ensures pulls { Calls S.faults S.steady S.faultless source.old source.new (IsErr result) }
        ensures ample { S.ample source.old limit →
            MatchResult result (λ n. S.ample source.new (left_after limit n)) (λ _. S.ample source.new limit) }
    {
        let waiting = self.end - self.start;
        self.bytes.copy_within(self.start..self.end, 0);
        self.line_start = 0;
        self.line_end = 0;
        self.start = 0;
        self.end = waiting;
        let count = pull_behind(&mut self.bytes, waiting, source, limit)?;
        self.end += count;
        Ok(count)
    }
}

// Takes bytes from the source to behind those that wait at the front.
fn pull_behind<S: Source>(
    bytes: &mut [u8],
    waiting: usize,
    source: &mut S,
    limit: u64,
) -> Result<usize, Failed>
    requires some { 0 < limit }
    requires room { waiting ≤ MAX_LINE }
    requires size { length bytes.old ≡ SIZE }

    ensures front { take waiting bytes.new ≡ take waiting bytes.old }
    ensures within { IfOk result (λ n. (n ≤ limit) × (waiting + n ≤ length bytes.new)) }
    ensures moved { IfOk result (λ n.
        Consumes (S.left source.old) (S.left source.new) (take n (drop waiting bytes.new))) }
    ensures at_end { IfOk result (λ n. n ≡ 0 → IsAtEnd (S.left source.old)) }
    ensures kept { OnErr result (Keeps (S.left source.old) (S.left source.new)) }
    ensures pulls { Calls S.faults S.steady S.faultless source.old source.new (IsErr result) }
    ensures ample { S.ample source.old limit →
        MatchResult result (λ n. S.ample source.new (left_after limit n)) (λ _. S.ample source.new limit) }
{
    let offer = offer_of(waiting, limit);
    source.pull(&mut bytes[waiting..waiting + offer])
}

// How many bytes a pull offers behind so many that wait: what there is room for, at most `limit`.
fn offer_of(waiting: usize, limit: u64) -> usize
    requires some { 0 < limit }
    requires room { waiting ≤ MAX_LINE }
    ensures some { 0 < result }
    ensures ample { IsAmple limit result }
    ensures fits { waiting + result ≤ SIZE }
{
    let room = SIZE - waiting;
    if limit < room as u64 {
        limit as usize
    } else {
        room
    }
}
