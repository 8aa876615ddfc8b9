//! A fault at each call of each device. A run with a fault is the run without what the fault refused or cut off.

use super::trial::{Given, Left, TWO_CELLS, WHOLE, run_given};
use crate::run::Status;
use elem_core::NoMemory;
use std::alloc::Global;
use std::process::Abort;
use std::test::Fail;

// The lines of a script that is begun by opening a document. It reads a file and, in a batch, writes one, and saves twice under one
// name, and once more. Then it merges, stores its lines moved, and stores a part behind the document and loads their chain. Wherever a
// call fails, those of later lines keep their numbers.
const LINES: [&str; 23] = [
    "new b",
    "read b d",
    "begin",
    "add b x",
    "write b o",
    "end",
    "save f",
    "mark v",
    "save f",
    "list",
    "marks",
    "save g",
    "star s",
    "mark w",
    "starless w",
    "starmerge w",
    "starboth w",
    "drop b",
    "merge w",
    "indent 2 h",
    "dedent 2 i",
    "part d 1",
    "chain d 1",
];

// The words that open the document.
const OPENING: [&str; 1] = ["--open=d"];

// The first lines of the script, so many, but for those whose numbers are left out.
fn script(alloc: Global, count: usize, left_out: &[usize]) -> Result<Vec<u8>, NoMemory> {
    let mut bytes = Vec::new(alloc);
    for (number, line) in LINES.iter().enumerate() {
        if number < count && !left_out.contains(&number) {
            bytes.extend_from_slice(line.as_bytes())?;
            bytes.push(b'\n')?;
        }
    }
    Ok(bytes)
}

// These lines, of which the source gives four bytes a call, behind that which opens the document.
fn opened(lines: &[u8]) -> Given<'_> {
    Given {
        words: &OPENING,
        input: lines,
        held: TWO_CELLS.as_bytes(),
        source_piece: 4,
        ..WHOLE
    }
}

// The two runs left the same files, and spaces of as many rows, now and ever made.
fn leave_the_same<R: Abort>(rt: &R, a: &Left, b: &Left) {
    for name in ["d", "o", "f", "g", "h", "i", "d.1"] {
        assert_eq!(rt; a.store.file(name), b.store.file(name), "{name}");
    }
    assert!(rt; a.rows.is_some());
    assert_eq!(rt; a.rows, b.rows);
}

// The lines of the bytes that a newline ends.
fn ended_lines(bytes: &[u8]) -> &[u8] {
    match bytes.iter().rposition(|&byte| byte == b'\n') {
        Some(last) => bytes.get(..=last).unwrap_or(b""),
        None => b"",
    }
}

#[test]
fn a_fault_of_the_source_cuts_off_what_comes_after(rt: HostRuntime) -> Result<(), Fail> {
    let alloc = rt.alloc();
    let input = script(alloc, LINES.len(), &[])?;
    // The last call that a run makes tells it that the input has ended.
    let last = input.len().div_ceil(4);
    for call in 0..last + 2 {
        let fails = [call as u64];
        let given = Given {
            source_fails: &fails,
            ..opened(&input)
        };
        let run = run_given(alloc, &given)?;
        let taken = input.len().min(call.saturating_mul(4));
        let (lines, status) = if call > last {
            (input.as_slice(), Status::Done)
        } else {
            (ended_lines(&input[..taken]), Status::ReadFault)
        };
        let cut = run_given(alloc, &opened(lines))?;
        assert_eq!(rt; run.status, status, "{call}");
        assert_eq!(rt; run.sink.bytes(), cut.sink.bytes(), "{call}");
        leave_the_same(&rt, &run, &cut);
    }
    Ok(())
}

#[test]
fn a_fault_of_the_sink_ends_the_run_with_its_line(rt: HostRuntime) -> Result<(), Fail> {
    let alloc = rt.alloc();
    let input = script(alloc, LINES.len(), &[])?;
    // Each reply goes out in one call, and the first is that to the line that opens the document.
    for call in 0..LINES.len() + 2 {
        let fails = [call as u64];
        let given = Given {
            sink_fails: &fails,
            ..opened(&input)
        };
        let run = run_given(alloc, &given)?;
        let lines = script(alloc, call, &[])?;
        let cut = run_given(alloc, &opened(&lines))?;
        leave_the_same(&rt, &run, &cut);
        let is_whole = run.sink.bytes() == cut.sink.bytes();
        assert_eq!(rt; is_whole, call > LINES.len(), "{call}");
        assert!(rt; cut.sink.bytes().starts_with(run.sink.bytes()), "{call}");
        let status = if is_whole {
            Status::Done
        } else {
            Status::WriteFault
        };
        assert_eq!(rt; run.status, status, "{call}");
    }
    Ok(())
}

// A call of the store: the number among its fetches or among its keeps, each from 0, and the number of its line, which the opening
// of the document hasn't.
type StoreCall = (&'static [u64], &'static [u64], usize);

// The calls of the store in the script's order. The first keep puts the document there.
const CALLS: [StoreCall; 12] = [
    (&[0], &[], LINES.len()),
    (&[1], &[], 1),
    (&[], &[1], 4),
    (&[], &[2], 6),
    (&[], &[3], 8),
    (&[], &[4], 11),
    (&[], &[5], 19),
    (&[], &[6], 20),
    (&[2], &[], 21),
    (&[], &[7], 21),
    (&[3], &[], 22),
    (&[4], &[], 22),
];

// Of so many calls in a row each two fail together.
const IN_A_ROW: usize = 4;

// How many of the replies tell a fault. Behind those the others are these, in order.
fn faults_among<R: Abort>(rt: &R, replies: &[u8], others: &[u8]) -> Result<u32, Fail> {
    let mut told = 0u32;
    let mut wanted = str::from_utf8(others)?.lines();
    for reply in str::from_utf8(replies)?.lines() {
        if reply == "! fault" {
            told = told.saturating_add(1);
        } else {
            assert_eq!(rt; Some(reply), wanted.next());
        }
    }
    assert_eq!(rt; wanted.next(), None);
    Ok(told)
}

// How many bytes a run has written that comes to the line of this number, or to the opening of the document.
fn written_before(alloc: Global, line: usize) -> Result<usize, NoMemory> {
    if line == LINES.len() {
        return Ok(0);
    }
    let lines = script(alloc, line, &[])?;
    let run = run_given(alloc, &opened(&lines))?;
    Ok(run.sink.bytes().len())
}

// The script's run, of which these two calls fail, or this one.
fn run_failing(alloc: Global, first: StoreCall, second: StoreCall) -> Result<Left, NoMemory> {
    let mut fetch_fails = first.0.to_vec(alloc)?;
    fetch_fails.extend_from_slice(second.0)?;
    let mut keep_fails = first.1.to_vec(alloc)?;
    keep_fails.extend_from_slice(second.1)?;
    let lines = script(alloc, LINES.len(), &[])?;
    let given = Given {
        fetch_fails: &fetch_fails,
        keep_fails: &keep_fails,
        ..opened(&lines)
    };
    run_given(alloc, &given)
}

// The same without the lines of these calls.
fn run_without(alloc: Global, first: usize, second: usize) -> Result<Left, NoMemory> {
    let lines = script(alloc, LINES.len(), &[first, second])?;
    let given = opened(&lines);
    if first == LINES.len() {
        return run_given(
            alloc,
            &Given {
                words: &[],
                ..given
            },
        );
    }
    run_given(alloc, &given)
}

// These two calls fail, or this one: the run says so, and replies else and leaves what it does without their lines.
fn fails_at<R: Abort + AllocGlobal>(
    rt: &R,
    first: StoreCall,
    second: StoreCall,
) -> Result<(), Fail> {
    let alloc = rt.alloc();
    let run = run_failing(alloc, first, second)?;
    let without = run_without(alloc, first.2, second.2)?;
    leave_the_same(rt, &run, &without);
    assert_eq!(rt; run.status, Status::Done);
    let kept = written_before(alloc, first.2)?;
    let told_first = run.sink.bytes().get(kept..).unwrap_or(b"");
    assert!(rt; told_first.starts_with(b"! fault\n"));
    let told = faults_among(rt, run.sink.bytes(), without.sink.bytes())?;
    assert_eq!(rt; told, if first.2 == second.2 { 1 } else { 2 });
    Ok(())
}

#[test]
fn a_fault_of_the_store_refuses_its_line(rt: HostRuntime) -> Result<(), Fail> {
    for (before, &first) in CALLS.iter().enumerate() {
        for &second in CALLS.iter().skip(before).take(IN_A_ROW) {
            fails_at(&rt, first, second)?;
        }
    }
    Ok(())
}
