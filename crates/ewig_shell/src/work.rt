//! A run of lines that the program makes by itself: what they come to.

ghost use Rattle.std.specs.Prelude.{◌+◌, ◌^◌, ◌<◌, ◌≤◌, IsTrue};
ghost use Rattle.shell_terms.specs.Command.{PlainCommand};
ghost use Rattle.space_state.specs.View.{Ends};
ghost use Rattle.work_lines.specs.Lines.{work_lines};
ghost use Rattle.shell_words.specs.Shown.{plain_command};
ghost use Rattle.shell_options.specs.Options.{most_count};
ghost use Rattle.work_lines.specs.Commands.{ChangesSpace, IsLineOf, is_made};
ghost use Rattle.ewig_shell.specs.Work.{Counts, CountsOne, SumsUp};

use shell_words::{Command, read_line};
use space_state::{Refusal, Space};
use work_lines::WorkLines;

/// What the lines of a seed came to.
#[derive(Clone, Copy, Debug, PartialEq, Eq)]
pub struct Summary {
    /// How many lines there were.
    pub commands: u32,
    /// How many of them were carried out.
    pub ok: u32,
    /// How many of them were refused.
    pub refused: u32,
    /// How many buffers there are behind them.
    pub buffers: usize,
    /// How many lines these buffers have in all.
    pub lines: u128,
}

// How many commands were carried out, and how many were refused.
#[derive(Clone, Copy, Debug, PartialEq, Eq)]
struct Tally {
    ok: u32,
    refused: u32,
}

/// Does what the lines of the seed ask for, and says what they came to. A command to which memory is refused counts as refused.
pub fn work(space: &mut Space, seed: u64, count: u32) -> Summary
    requires { count ≤ most_count }
    ensures { SumsUp seed count space.old result space.new }
{
    let tally = counted(space, seed, count);
    let (buffers, lines) = space.totals();
    Summary {
        commands: 8 + count,
        ok: tally.ok,
        refused: tally.refused,
        buffers,
        lines,
    }
}

// Does what the lines of the seed ask for, one after another, and counts.
fn counted(space: &mut Space, seed: u64, count: u32) -> Tally
    requires { count ≤ most_count }
    ensures { Counts (work_lines seed count) space.old result space.new }
{
    let mut tally = Tally { ok: 0, refused: 0 };
    let mut lines = WorkLines::new(seed, count);
    while lines.next() {
        let done = obeyed(space, lines.line());
        tally = with_one(tally, done);
    }
    tally
}

// The tally with one command more.
fn with_one(tally: Tally, done: Result<(), Refusal>) -> Tally
    requires { tally.ok + tally.refused < 2 ^ 31 }
    ensures { CountsOne tally done result }
{
    match done {
        Ok(()) => Tally {
            ok: tally.ok + 1,
            ..tally
        },
        Err(_) => Tally {
            refused: tally.refused + 1,
            ..tally
        },
    }
}

// Does what the line asks for, which changes the space.
fn obeyed(space: &mut Space, line: &[u8]) -> Result<(), Refusal>
    requires { ChangesSpace line.now }
    ensures { (command : PlainCommand) → IsLineOf line.now command → Ends command space.old result space.new }
{
    let Ok(command) = read_line(line) else {
        unreachable!()
    };
    carried_out(space, command)
}

// Carries out a command of the sorts that the lines are.
fn carried_out(space: &mut Space, command: Command<'_>) -> Result<(), Refusal>
    requires { IsTrue (is_made (plain_command command)) }
    ensures { Ends (plain_command command.entry) space.old result space.new }
{
    match command {
        Command::Edit(edit) => space.edit(edit),
        Command::Mark(version) => space.mark(version),
        Command::Undo => space.undo(),
        Command::Redo => space.redo(),
        _ => unreachable!(),
    }
}
