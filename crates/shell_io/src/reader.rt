//! The lines of a source, one at a time, over a buffer that is made once.

ghost use Rattle.std.specs.Prelude.{◌≡◌, ◌≢◌, ℕ, ◌+◌, ◌-◌, ◌<◌, ◌≤◌, ◌^◌, ◌==◌, ◌⊎◌, List, [], ◌∷◌, ◌++◌, length, take, drop, true, false, ◌↔◌, IsTrue, IsErr, IfOk, OnOk, OnErr, IfSome, IfNone};
ghost use Rattle.std.specs.declared.option.Option.{Option};
ghost use Rattle.std.specs.List.{position};
ghost use Rattle.std.specs.Option.{ForSome};
ghost use Rattle.elem_core.specs.Cell.{IsCell};
ghost use Rattle.shell_io.specs.Fault.{Calls};
ghost use Rattle.shell_io.specs.Pieces.{IsUnbroken};
ghost use Rattle.shell_io.specs.Reader.{Reading, StandsIn, Answers, SamePlace, Passes, EndsByNewline, EndsBySource, limit_of, may_take};

use super::device::{Failed, Source};
use super::window::Window;
use elem_core::{MAX_LINE, NEWLINE, NoMemory};
use memchr::memchr;
use std::alloc::Global;
use std::marker::Model;

/// What a reader answers.
#[derive(Clone, Copy, Debug, PartialEq, Eq)]
pub enum Next {
    /// The next line stands in `line`.
    Line,
    /// The next line has more than 65,536 bytes. It is passed over.
    Long,
    /// The source came to its end, and no line is left.
    End,
    /// One byte more than allowed was taken, and no further line ends before it.
    Budget,
    /// The source failed. What was taken is kept.
    Failed,
}

/// Cuts what a source gives at each newline.
#[derive(Drop)]
pub struct LineReader {
    window: Window,
    given: u64,
    let_go: u64,
    most: Option<u64>,
    at_end: bool,
    over: bool,
}

impl Model for LineReader {
    ghost use Rattle.shell_io.specs.Reader.{Reading};

    ghost Value = { Reading };

    ghost use Rattle.shell_io.specs.Sound.{reading_of, IsSound};

    ghost view = { reading_of };

    ghost invariant = { IsSound };
}

impl LineReader {
    /// A reader that has taken and given nothing, without a line and without a bound. It stands at the
    /// front of any input, and makes its whole buffer here. Err where memory runs out.
    pub fn new(alloc: Global) -> Result<LineReader, NoMemory>
        ensures fresh { IfOk result (λ reader. (reader.taken ≡ 0) × (reader.given ≡ 0) × (reader.let_go ≡ 0)
            × (reader.held ≡ []) × (reader.line ≡ []) × (reader.most ≡ None) × (reader.at_end ≡ false) × (reader.settled ≡ None)) }
        ensures start { IfOk result (λ reader. (input : List ℕ) → StandsIn input reader (Some input)) }
    {
        let window = Window::new(alloc)?;
        Ok(LineReader {
            window,
            given: 0,
            let_go: 0,
            most: None,
            at_end: false,
            over: false,
        })
    }

    /// The line that the last `next` gave; empty after another answer, and before the first.
    pub fn line(&self) -> &[u8]
        ensures { result.now ≡ self.now.line }
    {
        self.window.line()
    }

    /// Gives the next line of the source, of whose bytes it takes at most `most + 1` in all. Only
    /// lines that end within the first `most` are given. Takes no memory.
    pub fn next<S: Source>(&mut self, source: &mut S, most: u64) -> Next
        requires small { most < 2 ^ 63 }
        requires same_most { ForSome self.old.most (λ kept. kept ≡ most) }

        // Whether or not the source tells its bytes.
        ensures keeps_most { self.new.most ≡ Some most }
        ensures line { result ≡ Next.Line → IsCell self.new.line }
        ensures no_line { result ≢ Next.Line → self.new.line ≡ [] }
        ensures grows { self.old.taken ≤ self.new.taken }
        ensures bounded { self.new.taken ≤ most + 1 }
        ensures within { self.new.given ≤ self.new.taken }
        ensures progress { (result ≡ Next.Line) ⊎ (result ≡ Next.Long) → self.old.given < self.new.given }
        ensures budget { result ≡ Next.Budget → self.new.taken ≡ most + 1 }
        ensures settles { (result ≡ Next.End) ⊎ (result ≡ Next.Budget) → self.new.settled ≡ Some result }
        ensures again { IfSome self.old.settled (λ answer. (result ≡ answer) × (source.new ≡ source.old)) }

        // A fault has its cause, and comes only where each line that ended was given, and no byte past
        // the bound was taken.
        ensures pulls { Calls S.faults S.steady S.faultless source.old source.new (result ≡ Next.Failed) }
        ensures all_given { result ≡ Next.Failed → IsUnbroken self.new.held }
        ensures in_bound { result ≡ Next.Failed → self.new.taken ≤ most }

        // Each pull offers room for at least 4,096 bytes, or for all that are left, and none comes behind
        // the end of the source.
        ensures ample { S.ample source.old (may_take most self.old) → S.ample source.new (may_take most self.new) }

        // Where the source tells its bytes.
        ensures stands { (input : List ℕ) → StandsIn input self.old (S.left source.old) →
            StandsIn input self.new (S.left source.new) }
        ensures answers { (input : List ℕ) → StandsIn input self.old (S.left source.old) →
            Answers most input self.old self.new result }
    {
        self.begin(most);
        if self.over {
            return self.last_answer();
        }
        let answer = self.advance(source, most);
        self.over = answer.is_last();
        answer
    }
}

impl Next {
    // Whether the reader answers the same from now on.
    fn is_last(self) -> bool
        ensures { IsTrue result ↔ ((self ≡ Next.End) ⊎ (self ≡ Next.Budget)) }
    {
        matches!(self, Next::End | Next::Budget)
    }
}

impl LineReader {
    // Forgets the line that was given last, and keeps the bound.
    fn begin(&mut self, most: u64)
        requires small { most < 2 ^ 63 }
        requires same_most { ForSome self.old.most (λ kept. kept ≡ most) }
        ensures begun { self.new ≡ record self.old { line = []; most = Some most } }
        ensures stands { (input : List ℕ) (left : Option (List ℕ)) → StandsIn input self.old left →
            StandsIn input self.new left }
    {
        self.window.forget_line();
        self.most = Some(most);
    }

    // How many bytes were taken from the source.
    fn taken(&self) -> u64
        ensures taken { result ≡ self.now.taken }
        ensures small { result ≤ 2 ^ 63 }
    {
        self.given + self.let_go + self.window.held().len() as u64
    }

    // What it answers from now on.
    fn last_answer(&self) -> Next
        requires { self.now.settled ≢ None }
        ensures { self.now.settled ≡ Some result }
    {
        if self.at_end { Next::End } else { Next::Budget }
    }

    // Pulls until the answer is known.
    fn advance<S: Source>(&mut self, source: &mut S, most: u64) -> Next
        requires small { most < 2 ^ 63 }
        requires known { self.old.most ≡ Some most }
        requires open { self.old.settled ≡ None }
        requires no_line { self.old.line ≡ [] }

        ensures same { (self.new.most ≡ self.old.most) × (self.new.settled ≡ None) }
        ensures line { result ≡ Next.Line → IsCell self.new.line }
        ensures no_line { result ≢ Next.Line → self.new.line ≡ [] }
        ensures grows { self.old.taken ≤ self.new.taken }
        ensures progress { (result ≡ Next.Line) ⊎ (result ≡ Next.Long) → self.old.given < self.new.given }
        ensures end { result ≡ Next.End → self.new.at_end ≡ true }
        ensures budget { result ≡ Next.Budget → (self.new.taken ≡ most + 1) × (self.new.at_end ≡ false) }
        ensures failed { result ≡ Next.Failed → IsUnbroken self.new.held × (self.new.taken ≤ most) }
        ensures pulls { Calls S.faults S.steady S.faultless source.old source.new (result ≡ Next.Failed) }
        ensures ample { S.ample source.old (may_take most self.old) → S.ample source.new (may_take most self.new) }
        ensures stands { (input : List ℕ) → StandsIn input self.old (S.left source.old) →
            StandsIn input self.new (S.left source.new) }
        ensures answers { (input : List ℕ) → StandsIn input self.old (S.left source.old) →
            Answers most input self.old self.new result }
    {
        let mut searched = 0;
        loop {
            if let Some(answer) = self.decide(searched, most) {
                return answer;
            }
            match self.take_more(source, most) {
                Ok(before) => searched = before,
                Err(Failed) => return Next::Failed,
            }
        }
    }

    // The answer, where the bytes that wait decide it. None of the first `searched` is a newline.
    fn decide(&mut self, searched: usize, most: u64) -> Option<Next>
        requires known { self.old.most ≡ Some most }
        requires open { self.old.settled ≡ None }
        requires within { searched ≤ length self.old.held }
        requires clean { IsUnbroken (take searched self.old.held) }

        ensures undecided { IfNone result ((self.new ≡ self.old) × IsUnbroken self.old.held
            × (self.old.at_end ≡ false) × (self.old.taken ≤ most)) }
        ensures same { (self.new.taken ≡ self.old.taken) × (self.new.most ≡ self.old.most)
            × (self.new.at_end ≡ self.old.at_end) × (self.new.settled ≡ None) }
        ensures progress { (result ≡ Some Next.Line) ⊎ (result ≡ Some Next.Long) → self.old.given < self.new.given }
        ensures no_fault { result ≢ Some Next.Failed }
        ensures line { result ≡ Some Next.Line → IsCell self.new.line }
        ensures no_line { result ≢ Some Next.Line → self.new.line ≡ self.old.line }
        ensures end { result ≡ Some Next.End → self.old.at_end ≡ true }
        ensures budget { result ≡ Some Next.Budget →
            (self.old.taken ≡ most + 1) × (self.old.at_end ≡ false) }
        ensures stands { (input : List ℕ) (left : Option (List ℕ)) → StandsIn input self.old left →
            StandsIn input self.new left }
        ensures answers { (input : List ℕ) (left : Option (List ℕ)) → StandsIn input self.old left →
            IfSome result (Answers most input self.old self.new) }
    {
        let held = self.window.held();
        if let Some(at) = newline_from(held, searched) {
            if self.given + self.let_go + at as u64 >= most {
                return Some(Next::Budget);
            }
            return Some(self.give(at, 1));
        }
        let length = held.len();
        if self.at_end {
            if length == 0 && self.let_go == 0 {
                return Some(Next::End);
            }
            return Some(self.give(length, 0));
        }
        if self.taken() > most {
            return Some(Next::Budget);
        }
        None
    }

    // Gives the next piece, of which `count` bytes wait, with an end of so many bytes more.
    fn give(&mut self, count: usize, end: usize) -> Next
        requires open { self.old.settled ≡ None }
        requires within { count + end ≤ length self.old.held }
        requires in_time { self.old.given + (self.old.let_go + (count + end)) ≤ limit_of self.old.most - 1 }
        requires clean { IsUnbroken (take count self.old.held) }
        requires ends { EndsByNewline self.old count end ⊎ EndsBySource self.old count end }

        ensures piece { (result ≡ Next.Line) ⊎ (result ≡ Next.Long) }
        ensures progress { self.old.given < self.new.given }
        ensures line { result ≡ Next.Line → IsCell self.new.line }
        ensures no_line { result ≡ Next.Long → self.new.line ≡ self.old.line }
        ensures passes { Passes self.old self.new count end }
        ensures stands { (input : List ℕ) (left : Option (List ℕ)) → StandsIn input self.old left →
            StandsIn input self.new left }
        ensures answers { (input : List ℕ) (left : Option (List ℕ)) (most : ℕ) → StandsIn input self.old left →
            self.old.most ≡ Some most → Answers most input self.old self.new result }
    {
        let piece = self.let_go + count as u64;
        self.given += piece + end as u64;
        self.let_go = 0;
        if piece > MAX_LINE as u64 {
            self.window.skip(count + end);
            return Next::Long;
        }
        self.window.give(count, end);
        Next::Line
    }

    // Takes more bytes, and answers how many waited before. None of those is a newline.
    fn take_more<S: Source>(&mut self, source: &mut S, most: u64) -> Result<usize, Failed>
        requires small { most < 2 ^ 63 }
        requires known { self.old.most ≡ Some most }
        requires open { self.old.settled ≡ None }
        requires going_on { self.old.at_end ≡ false }
        requires left { self.old.taken ≤ most }
        requires clean { IsUnbroken self.old.held }

        ensures same { (self.new.given ≡ self.old.given) × (self.new.most ≡ self.old.most)
            × (self.new.settled ≡ None) × (self.new.line ≡ []) }
        ensures progress { OnOk result ((self.old.taken < self.new.taken) × (self.new.at_end ≡ false)
            ⊎ (self.old.taken ≡ self.new.taken) × (self.new.at_end ≡ true)) }
        ensures searched { IfOk result (λ n. (n ≤ length self.new.held) × IsUnbroken (take n self.new.held)) }
        ensures kept { OnErr result ((self.new.taken ≡ self.old.taken) × (self.new.at_end ≡ false)
            × IsUnbroken self.new.held) }

        ensures pulls { Calls S.faults S.steady S.faultless source.old source.new (IsErr result) }
        ensures ample { S.ample source.old (may_take most self.old) → S.ample source.new (may_take most self.new) }
        ensures stands { (input : List ℕ) → StandsIn input self.old (S.left source.old) →
            StandsIn input self.new (S.left source.new) }
    {
        self.let_go_of_front();
        let limit = most + 1 - self.taken();
        let before = self.window.held().len();
        self.at_end = self.window.pull(source, limit)? == 0;
        Ok(before)
    }

    // Lets go of what waits where the next piece is too long already.
    fn let_go_of_front(&mut self)
        requires { IsUnbroken self.old.held }
        ensures same { SamePlace self.old self.new }
        ensures clean { IsUnbroken self.new.held }
        ensures short { length self.new.held ≤ MAX_LINE }
        ensures stands { (input : List ℕ) (left : Option (List ℕ)) → StandsIn input self.old left →
            StandsIn input self.new left }
    {
        let length = self.window.held().len();
        if self.let_go + length as u64 > MAX_LINE as u64 {
            self.let_go += length as u64;
            self.window.skip(length);
        }
    }
}

// The place of the first newline that isn't among the first `from` bytes.
pub(crate) fn newline_from(bytes: &[u8], from: usize) -> Option<usize>
    requires within { from ≤ length bytes.now }
    requires clean { IsUnbroken (take from bytes.now) }
    ensures found { IfSome result (λ at. (at < length bytes.now) × IsUnbroken (take at bytes.now)
        × (bytes.now ≡ take at bytes.now ++ NEWLINE ∷ drop (at + 1) bytes.now)) }
    ensures none { IfNone result (IsUnbroken bytes.now) }
{
    let at = newline_in(&bytes[from..])?;
    Some(from + at)
}

// The place of the first newline.
fn newline_in(bytes: &[u8]) -> Option<usize>
    ensures { result ≡ position (λ byte. byte == NEWLINE) bytes.now }
{
    memchr(NEWLINE, bytes)
}
