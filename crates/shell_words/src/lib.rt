//! The command language of the shell: what one line of input asks for.
#![tactic(auto)]

ghost use Rattle.std.specs.Prelude.{◌≡◌};
ghost use Rattle.elem_core.specs.Cell.{IsCell};
ghost use Rattle.shell_words.specs.Grammar.{meaning};
ghost use Rattle.shell_words.specs.Shown.{plain_answer};

use elem_core::Name;
use thiserror::Error;

mod numbers;
mod pieces;
mod worked;

pub use numbers::read_number;
pub use pieces::{MOST_NUMBERED, numbered};
use pieces::{
    chain, name, name_and_number, name_and_range, name_and_text, name_number_and_text,
    name_range_and_name, nothing, number, number_and_name, split_piece, two_names,
};
pub use plain_space::Edit;
pub use worked::names;

/// Why a line is no command: the first of these that holds.
#[derive(Clone, Copy, Debug, PartialEq, Eq, Error)]
pub enum BadLine {
    /// The bytes aren't UTF-8.
    #[error("the line isn't UTF-8")]
    Utf8,
    /// The first piece is no command, the number of pieces is wrong, or a number doesn't read.
    #[error("the line is no command")]
    Command,
    /// A piece that must be a name isn't one.
    #[error("the line has a piece that must be a name and isn't")]
    Name,
}

/// What one line asks for, over the bytes of that line. Lines of buffers are counted from 0.
#[derive(Clone, Copy, Debug, PartialEq, Eq)]
pub enum Command<'a> {
    /// An edit of the current state: `new B`, `add B TEXT`, `set B I TEXT`, `put B I TEXT`, `del B I J`, `cat B C`, `cut B I J C`,
    /// `copy B C`, `drop B`, `star N`, `unstar N`, `starmerge V`, `starboth V`, `starless V` or `merge V`.
    Edit(Edit<'a>),
    /// `mark V`: the current state as version V.
    Mark(Name<'a>),
    /// `unmark V`: no version V.
    Unmark(Name<'a>),
    /// `back V`: version V as the current state.
    Back(Name<'a>),
    /// `undo`: the state before the last change.
    Undo,
    /// `redo`: the state before the last undo.
    Redo,
    /// `begin`: a batch, whose changes are undone as one.
    Begin,
    /// `end`: the end of the batch.
    End,
    /// `abort`: the end of the batch, without its changes.
    Abort,
    /// `history N`: the last N states alone in undo, from now on.
    History(u32),
    /// `get B I`: line I of B.
    Get(Name<'a>, u32),
    /// `len B`: the number of lines of B.
    Len(Name<'a>),
    /// `show B I J`: lines I to J-1 of B.
    Show(Name<'a>, u32, u32),
    /// `list`: each buffer with its length.
    List,
    /// `stars`: each name with a star.
    Stars,
    /// `marks`: each version.
    Marks,
    /// `same B C`: whether B and C have the same lines.
    Same(Name<'a>, Name<'a>),
    /// `eqv V W`: whether versions V and W have the same buffers and stars.
    Eqv(Name<'a>, Name<'a>),
    /// `stats`: the number of rows that the space has.
    Stats,
    /// `made`: the number of rows that the space has ever made.
    Made,
    /// `read B F`: B with the lines of the file F, made or replaced.
    Read(Name<'a>, Name<'a>),
    /// `write B F`: the lines of B in the file F.
    Write(Name<'a>, Name<'a>),
    /// `save F`: the space as a document in the file F.
    Save(Name<'a>),
    /// `load F`: the space that the document in the file F stands for.
    Load(Name<'a>),
    /// `part F K`: in the file F.K what the space has beside the chain F, F.1 to F.(K-1). F.K is a name.
    Part(Name<'a>, u32),
    /// `chain F K`: the space that the chain F, F.1 to F.K stands for. F.K is a name.
    Chain(Name<'a>, u32),
    /// `indent N F`: the space as a document in the file F, with N spaces before each line.
    Indent(u32, Name<'a>),
    /// `dedent N F`: the same with up to N leading spaces fewer in each line.
    Dedent(u32, Name<'a>),
    /// `quit`: the end of the run.
    Quit,
}

/// The command of a line of at most 65,536 bytes without a newline, or the first refusal that holds.
pub fn read_line(line: &[u8]) -> Result<Command<'_>, BadLine>
    requires { IsCell line.now }
    ensures { plain_answer result ≡ meaning line.now }
{
    match str::from_utf8(line) {
        Ok(text) => read_text(text),
        Err(_) => Err(BadLine::Utf8),
    }
}

// The command of a line that is a text.
fn read_text(text: &str) -> Result<Command<'_>, BadLine>
    requires { IsCell text.now }
    ensures { plain_answer result ≡ meaning text.now }
{
    let (word, rest) = split_piece(text);
    // The words are tested one after another, so those that long inputs repeat come first.
    match word {
        "add" => name_and_text(rest).map(|(buffer, text)| Command::Edit(Edit::Add(buffer, text))),
        "get" => name_and_number(rest).map(|(buffer, index)| Command::Get(buffer, index)),
        "set" => name_number_and_text(rest).map(|(buffer, index, text)| Command::Edit(Edit::Set(
            buffer, index, text,
        ))),
        "put" => name_number_and_text(rest).map(|(buffer, index, text)| Command::Edit(Edit::Put(
            buffer, index, text,
        ))),
        "del" => name_and_range(rest).map(|(buffer, from, to)| Command::Edit(Edit::Del(
            buffer, from, to,
        ))),
        "len" => name(rest).map(Command::Len),
        "show" => name_and_range(rest).map(|(buffer, from, to)| Command::Show(buffer, from, to)),
        "undo" => nothing(rest).map(|()| Command::Undo),
        "redo" => nothing(rest).map(|()| Command::Redo),
        "new" => name(rest).map(|name| Command::Edit(Edit::New(name))),
        "cat" => two_names(rest).map(|(buffer, other)| Command::Edit(Edit::Cat(buffer, other))),
        "cut" => name_range_and_name(rest).map(|(buffer, from, to, other)| Command::Edit(Edit::Cut(
            buffer, from, to, other,
        ))),
        "copy" => two_names(rest).map(|(buffer, other)| Command::Edit(Edit::Copy(buffer, other))),
        "drop" => name(rest).map(|name| Command::Edit(Edit::Drop(name))),
        "star" => name(rest).map(|name| Command::Edit(Edit::Star(name))),
        "unstar" => name(rest).map(|name| Command::Edit(Edit::Unstar(name))),
        "starmerge" => name(rest).map(|name| Command::Edit(Edit::StarMerge(name))),
        "starboth" => name(rest).map(|name| Command::Edit(Edit::StarBoth(name))),
        "starless" => name(rest).map(|name| Command::Edit(Edit::StarLess(name))),
        "merge" => name(rest).map(|name| Command::Edit(Edit::Merge(name))),
        "mark" => name(rest).map(Command::Mark),
        "unmark" => name(rest).map(Command::Unmark),
        "back" => name(rest).map(Command::Back),
        "begin" => nothing(rest).map(|()| Command::Begin),
        "end" => nothing(rest).map(|()| Command::End),
        "abort" => nothing(rest).map(|()| Command::Abort),
        "history" => number(rest).map(|count| Command::History(count)),
        "list" => nothing(rest).map(|()| Command::List),
        "stars" => nothing(rest).map(|()| Command::Stars),
        "marks" => nothing(rest).map(|()| Command::Marks),
        "same" => two_names(rest).map(|(buffer, other)| Command::Same(buffer, other)),
        "eqv" => two_names(rest).map(|(version, other)| Command::Eqv(version, other)),
        "stats" => nothing(rest).map(|()| Command::Stats),
        "made" => nothing(rest).map(|()| Command::Made),
        "read" => two_names(rest).map(|(buffer, file)| Command::Read(buffer, file)),
        "write" => two_names(rest).map(|(buffer, file)| Command::Write(buffer, file)),
        "save" => name(rest).map(Command::Save),
        "load" => name(rest).map(Command::Load),
        "part" => chain(rest).map(|(file, number)| Command::Part(file, number)),
        "chain" => chain(rest).map(|(file, number)| Command::Chain(file, number)),
        "indent" => number_and_name(rest).map(|(count, file)| Command::Indent(count, file)),
        "dedent" => number_and_name(rest).map(|(count, file)| Command::Dedent(count, file)),
        "quit" => nothing(rest).map(|()| Command::Quit),
        _ => Err(BadLine::Command),
    }
}
