//! Worked inputs over memory. What no clause can say: that memory is there, and that the clauses mean what they should. What a
//! program shows that is run with whole devices stands in examples.

use super::trial::{FULL_UNDO, Given, OLD_TWO_CELLS, TWO_CELLS, WHOLE, check};
use crate::run::Status;
use std::process::Abort;
use std::test::Fail;

// The document of a new space.
const START: &str =
    r#"{"bits":64,"format":"ewig-pool","history":4294967295,"roots":[2,3,4,5],"rows":[["m",0,0,0,[]],["m",0,0,0,[]],["s",[0,1]],["m",0,0,0,[]],["l",[]],["l",[]]],"version":3}"#;

// Runs with all taken and given at once, and however input and output are cut.
fn check_cut<R: Abort + AllocGlobal>(
    rt: &R,
    whole: &Given<'_>,
    written: &[u8],
    status: Status,
) -> Result<(), Fail> {
    check(rt, whole, written, status)?;
    for piece in 1..whole.input.len() + 2 {
        let cut = Given {
            source_piece: piece,
            sink_piece: piece,
            ..*whole
        };
        check(rt, &cut, written, status)?;
    }
    Ok(())
}

// An input, and what is written.
const INPUTS: [(&[u8], &[u8]); 12] = [
    (b"", b""),
    (b"new a\nadd a hello\nget a 0\n", b"ok\nok\n= hello\n"),
    (b"new a", b"ok\n"),
    (b"\nlist\n", b"! command\nok\n"),
    (
        b"new a\nadd a \nadd a\nlen a\n",
        b"ok\nok\n! command\n= 1\n",
    ),
    (b"add a \xff\n", b"! utf8\n"),
    (
        b"new .x\nget a 01\nlist \nget a 0\n",
        b"! name\n! command\n! command\n! none\n",
    ),
    (
        b"new b\nnew B\nnew b\nadd B x\nget B 1\nlist\n",
        b"ok\nok\n! exists\nok\n! range\n= B 1\n= b 0\nok\n",
    ),
    (b"new a\nquit\nnew a\n", b"ok\nok\n"),
    (b"new a\nquit", b"ok\nok\n"),
    (
        b"quit \nquit a\nQuit\n",
        b"! command\n! command\n! command\n",
    ),
    (
        b"stats\nmade\nmade \nnew .x\nundo\nbegin\nabort\nmade\n",
        b"= 6\n= 6\n! command\n! name\n! empty\nok\nok\n= 6\n",
    ),
];

// An input of which at most twelve bytes are taken, what is written, and how the run ends.
const BOUNDED: [(&[u8], &[u8], Status); 5] = [
    (b"new a\nlen a\nlist\n", b"ok\n= 0\n", Status::TooLong),
    (b"new a\nlen a\n", b"ok\n= 0\n", Status::Done),
    (b"new a\nlen aa", b"ok\n! none\n", Status::Done),
    (b"new a\nlen aaa", b"ok\n", Status::TooLong),
    (b"new a\nquit\nlist\n", b"ok\nok\n", Status::Done),
];

#[test]
fn replies_however_the_input_is_cut(rt: HostRuntime) -> Result<(), Fail> {
    for &(input, written) in INPUTS.iter() {
        let whole = Given { input, ..WHOLE };
        check_cut(&rt, &whole, written, Status::Done)?;
    }
    for &(input, written, status) in BOUNDED.iter() {
        let whole = Given {
            input,
            most: Some(12),
            ..WHOLE
        };
        check_cut(&rt, &whole, written, status)?;
    }
    Ok(())
}

// A list of words.
type Words = &'static [&'static str];

// The words, the file `d` where there is one, the input, and what is written.
const OPENINGS: [(Words, &str, &[u8], &[u8]); 9] = [
    (&["--open=nothere"], "", b"quit\nlist\n", b"! missing\nok\n"),
    (&["--open", "d"], "", b"", b"! missing\n"),
    (
        &["--open", "d"],
        TWO_CELLS,
        b"stats\nget a 1\n",
        b"ok\n= 11\n= x\n",
    ),
    (
        &["--open", "d"],
        OLD_TWO_CELLS,
        b"stats\nget a 1\n",
        b"ok\n= 10\n= x\n",
    ),
    (
        &["--open=d", "--bits=32"],
        OLD_TWO_CELLS,
        b"stats\nget a 1\n",
        b"ok\n= 10\n= x\n",
    ),
    (
        &["--open=d", "--bits=31"],
        OLD_TWO_CELLS,
        b"stats\n",
        b"! damaged bits\n= 6\n",
    ),
    (
        &["--open", "d"],
        "{",
        b"new a\nstats\n",
        b"! damaged json\nok\n= 11\n",
    ),
    (
        &["--open", "d", "--bits", "5"],
        START,
        b"list\n",
        b"! damaged bits\nok\n",
    ),
    (
        &["--bits=64", "--open=d"],
        START,
        b"new a\nlist",
        b"ok\nok\n= a 0\nok\n",
    ),
];

#[test]
fn opens_a_document_as_a_first_line(rt: HostRuntime) -> Result<(), Fail> {
    for &(words, held, input, written) in OPENINGS.iter() {
        let whole = Given {
            words,
            input,
            held: held.as_bytes(),
            ..WHOLE
        };
        check_cut(&rt, &whole, written, Status::Done)?;
    }
    Ok(())
}

const UNREAD: [Words; 5] = [
    &["--bits", "65"],
    &["--bits=5", "--bits", "5"],
    &["--open=.x"],
    &["--work", "0"],
    &["a"],
];

#[test]
fn words_that_do_not_read_are_usage(rt: HostRuntime) -> Result<(), Fail> {
    for &words in UNREAD.iter() {
        let given = Given {
            words,
            input: b"list\n",
            ..WHOLE
        };
        check(&rt, &given, b"", Status::Usage)?;
    }
    Ok(())
}

// Five lines that use each device, and what they write.
const FIVE: &[u8] = b"new a\nadd a x\nsave f\nload f\nget a 0\n";

const ALL_OF_FIVE: &[u8] = b"ok\nok\nok\nok\n= x\n";

// Nine lines with short replies.
const NINE: &[u8] = b"new a\nadd a x\nlen a\nlist\nget a 0\nshow a 0 1\nstar z\nstars\nget b 0\n";

// The calls of the source, of the sink, of the store's fetches and of its keeps that fail, each kind counted from 0; what is
// written then, and how the run ends.
type Faulty = (
    &'static [u64],
    &'static [u64],
    &'static [u64],
    &'static [u64],
    &'static [u8],
    Status,
);

// The source gives four bytes a call, so what is written is the replies to the lines that ended in the calls before; the sink takes
// a reply a call.
#[rattlefmt::skip]
const FIVE_CUT_OFF: [Faulty; 20] = [
    (&[0], &[], &[], &[], b"", Status::ReadFault),
    (&[1], &[], &[], &[], b"", Status::ReadFault),
    (&[2], &[], &[], &[], b"ok\n", Status::ReadFault),
    (&[3], &[], &[], &[], b"ok\n", Status::ReadFault),
    (&[4], &[], &[], &[], b"ok\nok\n", Status::ReadFault),
    (&[5], &[], &[], &[], b"ok\nok\n", Status::ReadFault),
    (&[6], &[], &[], &[], b"ok\nok\nok\n", Status::ReadFault),
    (&[7], &[], &[], &[], b"ok\nok\nok\nok\n", Status::ReadFault),
    (&[8], &[], &[], &[], b"ok\nok\nok\nok\n", Status::ReadFault),
    (&[9], &[], &[], &[], ALL_OF_FIVE, Status::ReadFault),
    (&[10], &[], &[], &[], ALL_OF_FIVE, Status::Done),
    (&[], &[0], &[], &[], b"", Status::WriteFault),
    (&[], &[1], &[], &[], b"ok\n", Status::WriteFault),
    (&[], &[2], &[], &[], b"ok\nok\n", Status::WriteFault),
    (&[], &[3], &[], &[], b"ok\nok\nok\n", Status::WriteFault),
    (&[], &[4], &[], &[], b"ok\nok\nok\nok\n", Status::WriteFault),
    (&[], &[5], &[], &[], ALL_OF_FIVE, Status::Done),
    (&[], &[], &[], &[0], b"ok\nok\n! fault\n! missing\n= x\n", Status::Done),
    (&[], &[], &[0], &[], b"ok\nok\nok\n! fault\n= x\n", Status::Done),
    (&[], &[], &[0], &[0], b"ok\nok\n! fault\n! fault\n= x\n", Status::Done),
];

// The replies to nine lines, one a call.
#[rattlefmt::skip]
const NINE_CUT_OFF: [Faulty; 10] = [
    (&[], &[0], &[], &[], b"", Status::WriteFault),
    (&[], &[1], &[], &[], b"ok\n", Status::WriteFault),
    (&[], &[2], &[], &[], b"ok\nok\n", Status::WriteFault),
    (&[], &[3], &[], &[], b"ok\nok\n= 1\n", Status::WriteFault),
    (&[], &[4], &[], &[], b"ok\nok\n= 1\n= a 1\nok\n", Status::WriteFault),
    (&[], &[5], &[], &[], b"ok\nok\n= 1\n= a 1\nok\n= x\n", Status::WriteFault),
    (&[], &[6], &[], &[], b"ok\nok\n= 1\n= a 1\nok\n= x\n= x\nok\n", Status::WriteFault),
    (&[], &[7], &[], &[], b"ok\nok\n= 1\n= a 1\nok\n= x\n= x\nok\nok\n", Status::WriteFault),
    (&[], &[8], &[], &[], b"ok\nok\n= 1\n= a 1\nok\n= x\n= x\nok\nok\n= z\nok\n", Status::WriteFault),
    (&[], &[9], &[], &[], b"ok\nok\n= 1\n= a 1\nok\n= x\n= x\nok\nok\n= z\nok\n! none\n", Status::Done),
];

// The store or the sink fails at the line that opens a document, or the sink at the next.
const OPENING_CUT_OFF: [Faulty; 3] = [
    (&[], &[], &[0], &[], b"! fault\nok\n", Status::Done),
    (&[], &[0], &[], &[], b"", Status::WriteFault),
    (&[], &[1], &[], &[], b"ok\n", Status::WriteFault),
];

// A full undo refuses neither a read nor an undo; the second fetch, which fails, is that of the first read.
const FULL_CUT_OFF: [Faulty; 1] = [(
    &[],
    &[],
    &[1],
    &[],
    b"ok\n! fault\nok\nok\n! missing\n",
    Status::Done,
)];

// The words, the file `d` where there is one, the input, and what comes of faults.
const FAULTS: [(Words, &str, &[u8], &[Faulty]); 4] = [
    (&[], "", FIVE, &FIVE_CUT_OFF),
    (&[], "", NINE, &NINE_CUT_OFF),
    (&["--open", "d"], START, b"list\n", &OPENING_CUT_OFF),
    (
        &[],
        FULL_UNDO,
        b"load d\nread n d\nread n d\nundo\nread n nothere\n",
        &FULL_CUT_OFF,
    ),
];

#[test]
fn a_fault_ends_the_run_or_refuses_a_line(rt: HostRuntime) -> Result<(), Fail> {
    for &(words, held, input, faults) in FAULTS.iter() {
        for &(source_fails, sink_fails, fetch_fails, keep_fails, written, status) in faults {
            let given = Given {
                words,
                input,
                held: held.as_bytes(),
                source_piece: 4,
                source_fails,
                sink_fails,
                fetch_fails,
                keep_fails,
                ..WHOLE
            };
            check(&rt, &given, written, status)?;
        }
    }
    Ok(())
}

#[test]
fn a_full_sink_ends_the_run(rt: HostRuntime) -> Result<(), Fail> {
    for room in 0..ALL_OF_FIVE.len() {
        let given = Given {
            input: FIVE,
            room,
            ..WHOLE
        };
        check(&rt, &given, &ALL_OF_FIVE[..room], Status::WriteFault)?;
    }
    Ok(())
}

// The file `d` where there is one, the input, what is written, and the file `o` that is left.
const FILES_OF_LINES: [(&[u8], &[u8], &[u8], Option<&[u8]>); 12] = [
    (
        b"one\ntwo\nthree\n",
        b"read n d\nlen n\nput n 1 new\nwrite n o\n",
        b"ok\n= 3\nok\nok\n",
        Some(b"one\nnew\ntwo\nthree\n"),
    ),
    (
        b"one\n\ntwo",
        b"read n d\nshow n 0 3\nwrite n o\nread m o\nsame n m\n",
        b"ok\n= one\n= \n= two\nok\nok\nok\n= yes\n",
        Some(b"one\n\ntwo\n"),
    ),
    (
        b"x\n",
        b"new n\nwrite n o\nread n d\nundo\nlen n\n",
        b"ok\nok\nok\nok\n= 0\n",
        Some(b""),
    ),
    (
        b"x\r\n",
        b"read n d\nget n 0\nwrite n o\n",
        b"ok\n= x\r\nok\n",
        Some(b"x\r\n"),
    ),
    (
        b"",
        b"read n d\nread n o\nwrite n o\n",
        b"! missing\n! missing\n! none\n",
        None,
    ),
    (b"\xff\n", b"read n d\nlen n\n", b"! utf8\n! none\n", None),
    (
        b"x\n",
        b"begin\nread n d\nwrite n o\nabort\nlen n\n",
        b"ok\nok\nok\nok\n! none\n",
        Some(b"x\n"),
    ),
    (
        b"x\n",
        b"new n\nadd n y\nread n d\nget n 0\nundo\nget n 0\n",
        b"ok\nok\nok\n= x\nok\n= y\n",
        None,
    ),
    (
        b"x\n",
        b"read n\nwrite n\nread n d e\nwrite .n o\nread n .d\n",
        b"! command\n! command\n! command\n! name\n! name\n",
        None,
    ),
    (
        b"\n",
        b"read n d\nlen n\nget n 0\nwrite n o\n",
        b"ok\n= 1\n= \nok\n",
        Some(b"\n"),
    ),
    (
        b"x\n",
        b"read n d\nread m d\nlist\nsame n m\n",
        b"ok\nok\n= m 1\n= n 1\nok\n= yes\n",
        None,
    ),
    (
        b"x\n",
        b"read n d\nwrite n d\nread n d\nlen n\nwrite n o\n",
        b"ok\nok\nok\n= 1\nok\n",
        Some(b"x\n"),
    ),
];

#[test]
fn reads_and_writes_the_lines_of_files(rt: HostRuntime) -> Result<(), Fail> {
    for &(held, input, written, file) in FILES_OF_LINES.iter() {
        let given = Given {
            input,
            held,
            ..WHOLE
        };
        let left = check(&rt, &given, written, Status::Done)?;
        assert_eq!(rt; left.store.file("o"), file);
    }
    Ok(())
}

// The byte of which the file `d` has so many, what is behind them, the input, and what is written. A line of a byte too many is
// found before bytes that aren't UTF-8.
const LIMITS: [(u8, usize, &[u8], &[u8], &[u8]); 4] = [
    (b'x', 65_537, b"\n\xff", b"read n d\n", b"! long\n"),
    (b'x', 65_536, b"\n\xff", b"read n d\n", b"! utf8\n"),
    (b'x', 65_536, b"\n", b"read n d\n", b"ok\n"),
    (
        b' ',
        67_108_865,
        b"",
        b"read n d\nload d\nlist\n",
        b"! large\n! large\nok\n",
    ),
];

#[test]
fn takes_lines_and_files_up_to_their_limits(rt: HostRuntime) -> Result<(), Fail> {
    let alloc = rt.alloc();
    for &(byte, count, behind, input, written) in LIMITS.iter() {
        let mut held = vec![in alloc; byte; count]?;
        held.extend_from_slice(behind)?;
        let given = Given {
            input,
            held: &held,
            ..WHOLE
        };
        check(&rt, &given, written, Status::Done)?;
    }
    Ok(())
}

// Runs with these words, and compares what is written. The input isn't read, and the store stays.
fn works<R: Abort + AllocGlobal>(
    rt: &R,
    words: &[&str],
    room: usize,
    written: &[u8],
    status: Status,
) -> Result<(), Fail> {
    let given = Given {
        words,
        input: b"list\n",
        held: b"x\n",
        source_piece: 1,
        sink_piece: 1_000,
        room,
        ..WHOLE
    };
    let left = check(rt, &given, written, status)?;
    assert_eq!(rt; left.source.rest(), b"list\n".as_slice());
    assert_eq!(rt; left.store.file("d"), Some(b"x\n".as_slice()));
    Ok(())
}

// What two lines behind the eight that make buffers come to.
const TEN: &[u8] = b"= commands 10\n= ok 10\n= refused 0\n= names 8\n= lines 2\nok\n";

// Words that ask for made lines, and what these come to.
const WORKS: [(Words, &[u8]); 3] = [
    (&["--work", "0", "--count", "2"], TEN),
    (
        &["--work=7", "--count=0", "--bits", "0"],
        b"= commands 8\n= ok 8\n= refused 0\n= names 8\n= lines 0\nok\n",
    ),
    (
        &["--work", "0", "--count", "10000"],
        b"= commands 10008\n= ok 8972\n= refused 1036\n= names 8\n= lines 30346166615\nok\n",
    ),
];

#[test]
fn works_on_lines_of_its_own(rt: HostRuntime) -> Result<(), Fail> {
    for &(words, written) in WORKS.iter() {
        works(&rt, words, 1_000, written, Status::Done)?;
    }
    let words = ["--work", "0", "--count", "2"];
    for room in 0..TEN.len() {
        works(&rt, &words, room, &TEN[..room], Status::WriteFault)?;
    }
    Ok(())
}
