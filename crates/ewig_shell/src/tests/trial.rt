//! Runs over memory, for the tests: what a run is given, and what it leaves. The other tests know no clause of the run, since a test
//! compares values and needs no facts.

use crate::run::{Ended, Status, run, run_upto};
use elem_core::NoMemory;
use shell_io::{MemSink, MemSource, MemStore, Store};
use std::alloc::Global;
use std::process::Abort;
use std::test::Fail;

/// A document with two equal cells of different identity.
pub const TWO_CELLS: &str =
    r#"{"bits":64,"format":"ewig-pool","history":4294967295,"roots":[7,8,9,10],"rows":[["c","a"],["c","x"],["c","x"],["l",[1,2]],["p",[0,3]],["m",0,4096,0,[4]],["m",0,0,0,[]],["s",[5,6]],["m",0,0,0,[]],["l",[]],["l",[]]],"version":3}"#;

/// The same as shells saved it whose codes had 32 bits.
pub const OLD_TWO_CELLS: &str =
    r#"{"bits":32,"format":"ewig-pool","roots":[7,8,9,10],"rows":[["c","a"],["c","x"],["c","x"],["l",[1,2]],["p",[0,3]],["m",0,4096,0,[4]],["m",0,0,0,[]],["s",[5,6]],["m",0,0,0,[]],["l",[]],["l",[]]],"version":1}"#;

/// A document in sixteen rows, of which one is an undo of 4,294,967,295 times the same state.
pub const FULL_UNDO: &str =
    r#"{"bits":32,"format":"ewig-pool","roots":[1,0,14,15],"rows":[["m",0,0,0,[]],["s",[0,0]],["l",[1,1,1,1,1,1,1,1,1,1,1,1,1,1,1,1,1,1,1,1,1,1,1,1,1,1,1,1,1,1,1,1]],["i",1,[2,2,2,2,2,2,2,2,2,2,2,2,2,2,2,2,2,2,2,2,2,2,2,2,2,2,2,2,2,2,2,2]],["i",2,[3,3,3,3,3,3,3,3,3,3,3,3,3,3,3,3,3,3,3,3,3,3,3,3,3,3,3,3,3,3,3,3]],["i",3,[4,4,4,4,4,4,4,4,4,4,4,4,4,4,4,4,4,4,4,4,4,4,4,4,4,4,4,4,4,4,4,4]],["i",4,[5,5,5,5,5,5,5,5,5,5,5,5,5,5,5,5,5,5,5,5,5,5,5,5,5,5,5,5,5,5,5,5]],["i",5,[6,6,6,6,6,6,6,6,6,6,6,6,6,6,6,6,6,6,6,6,6,6,6,6,6,6,6,6,6,6,6,6]],["l",[1,1,1,1,1,1,1,1,1,1,1,1,1,1,1,1,1,1,1,1,1,1,1,1,1,1,1,1,1,1,1]],["i",1,[2,2,2,2,2,2,2,2,2,2,2,2,2,2,2,2,2,2,2,2,2,2,2,2,2,2,2,2,2,2,2,8]],["i",2,[3,3,3,3,3,3,3,3,3,3,3,3,3,3,3,3,3,3,3,3,3,3,3,3,3,3,3,3,3,3,3,9]],["i",3,[4,4,4,4,4,4,4,4,4,4,4,4,4,4,4,4,4,4,4,4,4,4,4,4,4,4,4,4,4,4,4,10]],["i",4,[5,5,5,5,5,5,5,5,5,5,5,5,5,5,5,5,5,5,5,5,5,5,5,5,5,5,5,5,5,5,5,11]],["i",5,[6,6,6,6,6,6,6,6,6,6,6,6,6,6,6,6,6,6,6,6,6,6,6,6,6,6,6,6,6,6,6,12]],["i",6,[7,7,7,13]],["l",[]]],"version":1}"#;

/// What a run is given: its words, its input, and how its devices take and give, which calls of theirs fail, each counted from 0,
/// and what is in the store.
#[derive(Clone, Copy)]
pub struct Given<'a> {
    /// Its words.
    pub words: &'a [&'a str],
    /// Its input.
    pub input: &'a [u8],
    /// The most bytes of input that it takes, at most 2^40; None for those of the program.
    pub most: Option<u64>,
    /// The file `d` of the store, which the first keep puts there, if it isn't empty.
    pub held: &'a [u8],
    /// The most bytes that the source gives a call.
    pub source_piece: usize,
    /// The most bytes that the sink takes a call.
    pub sink_piece: usize,
    /// The most bytes that the sink takes.
    pub room: usize,
    /// The calls of the source that fail.
    pub source_fails: &'a [u64],
    /// The calls of the sink that fail.
    pub sink_fails: &'a [u64],
    /// The fetches of the store that fail.
    pub fetch_fails: &'a [u64],
    /// The keeps of the store that fail.
    pub keep_fails: &'a [u64],
}

/// No words and no input, an empty store, and devices that give and take all at once, never fail, and have room for more than any
/// test writes.
pub const WHOLE: Given<'static> = Given {
    words: &[],
    input: b"",
    most: None,
    held: b"",
    source_piece: 1_000_000,
    sink_piece: 1_000_000,
    room: 200_000,
    source_fails: &[],
    sink_fails: &[],
    fetch_fails: &[],
    keep_fails: &[],
};

/// What a run left.
#[derive(Drop)]
pub struct Left {
    /// How it ended.
    pub status: Status,
    /// How many rows its space has, and how many it has made; None where it handed back no space.
    pub rows: Option<(usize, u64)>,
    /// Its devices afterwards.
    pub source: MemSource,
    /// What it wrote is in the sink.
    pub sink: MemSink,
    /// Its files are in the store.
    pub store: MemStore,
}

// The words as the host gives them.
fn words_of(alloc: Global, words: &[&str]) -> Result<Vec<String>, NoMemory> {
    let mut owned = Vec::new(alloc);
    for word in words {
        owned.push(String::from_str(alloc, word)?)?;
    }
    Ok(owned)
}

// The devices. Err also where the first keep is one of those that fail.
fn devices_of(
    alloc: Global,
    given: &Given<'_>,
) -> Result<(MemSource, MemSink, MemStore), NoMemory> {
    let input = given.input.to_vec(alloc)?;
    let source_fails = given.source_fails.to_vec(alloc)?;
    let sink_fails = given.sink_fails.to_vec(alloc)?;
    let fetch_fails = given.fetch_fails.to_vec(alloc)?;
    let keep_fails = given.keep_fails.to_vec(alloc)?;
    let source = MemSource::new(input, given.source_piece.max(1), source_fails);
    let sink = MemSink::new(alloc, given.room, given.sink_piece.max(1), sink_fails)?;
    let mut store = MemStore::new(alloc, fetch_fails, keep_fails);
    if !given.held.is_empty() && store.keep("d", given.held).is_err() {
        return Err(NoMemory);
    }
    Ok((source, sink, store))
}

// How the run ended, and the rows of its space.
fn told(ended: Ended) -> (Status, Option<(usize, u64)>) {
    match &ended.space {
        Some(space) => (ended.status, Some((space.rows(), space.made()))),
        None => (ended.status, None),
    }
}

// Runs. Only this function sees the clauses of a run, and it has nothing to prove by them.
fn end_of(
    alloc: Global,
    words: &[String],
    most: Option<u64>,
    source: &mut MemSource,
    sink: &mut MemSink,
    store: &mut MemStore,
) -> (Status, Option<(usize, u64)>) {
    match most {
        Some(most) => {
            let most = most.min(1 << 40);
            told(run_upto(alloc, words, most, source, sink, store))
        }
        None => told(run(alloc, words, source, sink, store)),
    }
}

/// Runs, and gives what is left. Err where memory for the words or the devices is refused.
pub fn run_given(alloc: Global, given: &Given<'_>) -> Result<Left, NoMemory> {
    let words = words_of(alloc, given.words)?;
    let (mut source, mut sink, mut store) = devices_of(alloc, given)?;
    let (status, rows) = end_of(
        alloc,
        &words,
        given.most,
        &mut source,
        &mut sink,
        &mut store,
    );
    Ok(Left {
        status,
        rows,
        source,
        sink,
        store,
    })
}

/// Runs, compares what is written and how the run ends, and gives what is left. A space is handed back, and at `Usage` none, and
/// the input is unread then.
pub fn check<R: Abort + AllocGlobal>(
    rt: &R,
    given: &Given<'_>,
    written: &[u8],
    status: Status,
) -> Result<Left, Fail> {
    let left = run_given(rt.alloc(), given)?;
    assert_eq!(rt; left.sink.bytes(), written);
    assert_eq!(rt; left.status, status);
    assert_eq!(rt; left.rows.is_none(), status == Status::Usage);
    assert!(rt; status != Status::Usage || left.source.rest() == given.input);
    Ok(left)
}
