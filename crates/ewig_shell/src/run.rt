//! A run: from the words and the lines of a source to the replies in a sink, and how it ended.

ghost use Rattle.std.specs.Prelude.{◌≡◌, ℕ, ◌+◌, ◌^◌, ◌<◌, ◌≤◌, ◌⊎◌, List, ◌++◌, None, Some, IfNone, IfOk, MatchOption, map, string_bytes, option_copied, codes};
ghost use Rattle.std.specs.Option.{ForSome};
ghost use Rattle.elem_core.specs.declared.codes.TheConstants.{CODE_BITS};
ghost use Rattle.elem_core.specs.Cell.{IsCell};
ghost use Rattle.shell_io.specs.Reader.{StandsIn};
ghost use Rattle.shell_options.specs.Options.{PlainOptions, most_count};
ghost use Rattle.shell_options.specs.Shown.{plain_options};
ghost use Rattle.space_state.specs.View.{start_view};
ghost use Rattle.ewig_shell.specs.Going.{EndsInput, GoesAs, IsGoing, Opens, status_by_words, status_of, unbegun_as};
ghost use Rattle.ewig_shell.specs.Run.{RunsAs, Runs, HasAnswered, exit_code};
ghost use Rattle.ewig_shell.specs.Work.{StepsAlone, Works, status_by};

use crate::execute::{Went, refuse_long};
use crate::reply::send_summary;
use crate::session::Session;
use crate::work::work;
use arrayvec::ArrayVec;
use elem_core::{CODE_BITS, MAX_NAME, NoMemory};
use shell_io::{Failed, LineReader, Next, Sink, Source, Store};
use shell_options::{FileName, Options, WordsFault, read_words};
use space_state::Space;
use std::alloc::Global;

/// The most bytes of input that a run of the program takes: 2^40.
pub const MOST_BYTES: u64 = 1_099_511_627_776;

/// The most bytes of a line that loads a file: its word, a space and a name.
const LOAD_LINE: usize = 5 + MAX_NAME;

/// How a run ended.
#[derive(Clone, Copy, Debug, PartialEq, Eq)]
pub enum Status {
    /// The input was read to its end, a `quit` line was read, or the lines that the program makes by itself were run.
    Done,
    /// Memory ran out before a line was executed.
    Memory,
    /// The words aren't ones that the program reads.
    Usage,
    /// The source failed.
    ReadFault,
    /// The sink failed.
    WriteFault,
    /// The input has more bytes than the run may take.
    TooLong,
}

/// The exit status by which the program tells how a run ended: 0 to 5.
pub fn exit_code_of(status: Status) -> u8
    ensures { result ≡ exit_code status }
{
    match status {
        Status::Done => 0,
        Status::Memory => 1,
        Status::Usage => 2,
        Status::ReadFault => 3,
        Status::WriteFault => 4,
        Status::TooLong => 5,
    }
}

/// How a run ended, and the space that it left: None with `Usage` and `Memory`.
#[derive(Drop)]
pub struct Ended {
    /// Why it ended.
    pub status: Status,
    /// The run's one space as it was at the end.
    pub space: Option<Space>,
}

/// Runs the shell by the words: over at most 2^40 bytes of input, or over lines of its own.
pub fn run<S: Source, K: Sink, D: Store>(
    alloc: Global,
    words: &[String],
    source: &mut S,
    sink: &mut K,
    store: &mut D,
) -> Ended
    ensures { RunsAs (2 ^ 40) (map string_bytes words.now) S.Source source.old source.new K.Sink sink.old sink.new D.Store store.old store.new result }
{
    run_upto(alloc, words, MOST_BYTES, source, sink, store)
}

/// Runs the shell by the words, over at most `most` bytes of input.
pub fn run_upto<S: Source, K: Sink, D: Store>(
    alloc: Global,
    words: &[String],
    most: u64,
    source: &mut S,
    sink: &mut K,
    store: &mut D,
) -> Ended
    requires { most < 2 ^ 63 }
    ensures { RunsAs most (map string_bytes words.now) S.Source source.old source.new K.Sink sink.old sink.new D.Store store.old store.new result }
{
    let options = match read_words(alloc, words) {
        Ok(options) => options,
        Err(fault) => return unbegun(status_of_words(fault)),
    };
    match options.work {
        Some((seed, count)) => run_own(alloc, options.bits, seed, count, sink),
        None => run_input(alloc, &options, most, source, sink, store),
    }
}

// How a run ends that the words don't begin.
fn status_of_words(fault: WordsFault) -> Status
    ensures { result ≡ status_by_words fault }
{
    match fault {
        WordsFault::Usage => Status::Usage,
        WordsFault::Memory => Status::Memory,
    }
}

// The end of a run that did nothing.
fn unbegun(status: Status) -> Ended
    ensures { result ≡ unbegun_as status }
{
    Ended {
        status,
        space: None,
    }
}

// Runs the lines that the program makes by itself, and writes what they came to.
fn run_own<K: Sink>(alloc: Global, bits: u32, seed: u64, count: u32, sink: &mut K) -> Ended
    requires bits { bits ≤ CODE_BITS }
    requires few { count ≤ most_count }
    ensures { (sink.new ≡ sink.old) × (result ≡ unbegun_as Status.Memory) ⊎ Works bits seed count StepsAlone K.Sink sink.old sink.new result }
{
    let Ok(mut space) = Space::new(alloc, bits) else {
        return unbegun(Status::Memory);
    };
    let summary = work(&mut space, seed, count);
    let status = status_sent(send_summary(&summary, sink));
    Ended {
        status,
        space: Some(space),
    }
}

// How a run ends whose summary was sent so.
fn status_sent(sent: Result<(), Failed>) -> Status
    ensures { result ≡ status_by sent }
{
    match sent {
        Ok(()) => Status::Done,
        Err(Failed) => Status::WriteFault,
    }
}

// Runs the lines of the source, behind the line that loads the document, if there is one.
fn run_input<S: Source, K: Sink, D: Store>(
    alloc: Global,
    options: &Options,
    most: u64,
    source: &mut S,
    sink: &mut K,
    store: &mut D,
) -> Ended
    requires small { most < 2 ^ 63 }
    requires bits { options.now.bits ≤ CODE_BITS }
    ensures { EndsInput most (plain_options options.now) S.Source source.old source.new K.Sink sink.old sink.new D.Store store.old store.new result }
{
    let Ok((mut reader, mut session)) = begun(alloc, options.bits) else {
        return unbegun(Status::Memory);
    };
    match open(&mut session, options.first.as_ref(), sink, store) {
        Some(status) => Ended {
            status,
            space: Some(session.space),
        },
        None => {
            let status = follow(most, &mut reader, source, &mut session, sink, store);
            Ended {
                status,
                space: Some(session.space),
            }
        }
    }
}

// What a run over an input works with: all the memory that it takes before the first line.
fn begun(alloc: Global, bits: u32) -> Result<(LineReader, Session), NoMemory>
    requires { bits ≤ CODE_BITS }
    ensures unread { IfOk result (λ begun. (begun.0.given ≡ 0) × (begun.0.most ≡ None)) }
    ensures start { IfOk result (λ begun. (input : List ℕ) → StandsIn input begun.0 (Some input)) }
    ensures empty { IfOk result (λ begun. begun.1.space ≡ start_view bits) }
{
    let reader = LineReader::new(alloc)?;
    let space = Space::new(alloc, bits)?;
    Ok((reader, Session::new(alloc, space)))
}

// Executes the line that loads the document, if there is one. The status where the run ends with it.
fn open<K: Sink, D: Store>(
    session: &mut Session,
    first: Option<&FileName>,
    sink: &mut K,
    store: &mut D,
) -> Option<Status>
    ensures { Opens (option_copied first.entry) K.Sink sink.old sink.new D.Store store.old store.new session.old.space session.new.space result }
{
    let Some(file) = first else {
        return None;
    };
    let line = load_line(file);
    status_after(session.execute(line.as_slice(), sink, store))
}

// The line that loads the file.
fn load_line(file: &FileName) -> ArrayVec<u8, LOAD_LINE>
    ensures line { result.items ≡ codes "load " ++ file.now }
    ensures cell { IsCell result.items }
{
    let mut line = ArrayVec::new();
    line.try_extend_from_slice(b"load ").unwrap();
    line.try_extend_from_slice(file.as_str().as_bytes())
        .unwrap();
    line
}

// Executes the lines, one after another, until the run ends.
fn follow<S: Source, K: Sink, D: Store>(
    most: u64,
    reader: &mut LineReader,
    source: &mut S,
    session: &mut Session,
    sink: &mut K,
    store: &mut D,
) -> Status
    requires small { most < 2 ^ 63 }
    requires same_most { ForSome reader.old.most (λ kept. kept ≡ most) }

    ensures goes { GoesAs S.Source source.old source.new K.Sink sink.old sink.new D.Store store.old store.new session.old.space session.new.space (Some result) }
    ensures answers { (asked : PlainOptions) (begin : K) (first : D) →
        HasAnswered asked K.Sink begin sink.old D.Store first store.old session.old.space None →
        HasAnswered asked K.Sink begin sink.new D.Store first store.new session.new.space (Some result) }
    ensures told { (asked : PlainOptions) (input : List ℕ) (begin : K) (first : D) →
        IsGoing most asked input reader.old (S.left source.old) K.Sink begin sink.old D.Store first store.old session.old.space →
        Runs most asked input (S.left source.new) K.Sink begin sink.new D.Store first store.new result (Some session.new.space) }
{
    // The proof names the loop's invariant by this label.
    'lines: loop {
        if let Some(status) = turn(most, reader, source, session, sink, store) {
            return status;
        }
    }
}

// Executes the next line. The status where the run ends with it.
fn turn<S: Source, K: Sink, D: Store>(
    most: u64,
    reader: &mut LineReader,
    source: &mut S,
    session: &mut Session,
    sink: &mut K,
    store: &mut D,
) -> Option<Status>
    requires small { most < 2 ^ 63 }
    requires same_most { ForSome reader.old.most (λ kept. kept ≡ most) }

    ensures keeps_most { reader.new.most ≡ Some most }
    ensures within { reader.new.given ≤ most + 1 }
    ensures progress { IfNone result (reader.old.given < reader.new.given) }

    ensures goes { GoesAs S.Source source.old source.new K.Sink sink.old sink.new D.Store store.old store.new session.old.space session.new.space result }
    ensures answers { (asked : PlainOptions) (begin : K) (first : D) →
        HasAnswered asked K.Sink begin sink.old D.Store first store.old session.old.space None →
        HasAnswered asked K.Sink begin sink.new D.Store first store.new session.new.space result }
    ensures told { (asked : PlainOptions) (input : List ℕ) (begin : K) (first : D) →
        IsGoing most asked input reader.old (S.left source.old) K.Sink begin sink.old D.Store first store.old session.old.space →
        MatchOption result
        (IsGoing most asked input reader.new (S.left source.new) K.Sink begin sink.new D.Store first store.new session.new.space)
        (λ status. Runs most asked input (S.left source.new) K.Sink begin sink.new D.Store first store.new status (Some session.new.space)) }
{
    match reader.next(source, most) {
        Next::Line => status_after(session.execute(reader.line(), sink, store)),
        Next::Long => status_after(refuse_long(sink)),
        Next::End => Some(Status::Done),
        Next::Budget => Some(Status::TooLong),
        Next::Failed => Some(Status::ReadFault),
    }
}

// Whether the run ends with a piece that was executed so.
fn status_after(went: Result<Went, Failed>) -> Option<Status>
    ensures { result ≡ status_of went }
{
    match went {
        Ok(Went::On) => None,
        Ok(Went::Quit) => Some(Status::Done),
        Err(Failed) => Some(Status::WriteFault),
    }
}
