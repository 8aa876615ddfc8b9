//! Worked inputs, cut in many ways.

ghost use Rattle.std.specs.Prelude.{◌≡◌, [], Some, true, ⊤};

use shell_io::{Failed, LineReader, LinesFault, MemSource, Next, Source, lines_of};
use std::alloc::Global;
use std::test::Fail;

// A source over memory that counts how many bytes may still be taken, none behind its end, and looks
// whether each call offers ample room for them.
#[derive(Drop)]
struct Watched {
    source: MemSource,
    room: u64,
    ample: bool,
}

impl Source for Watched {
    ghost left = { λ s. Some s.source.left };

    ghost faults = { λ s. s.source.faults };

    ghost faultless = { λ s. s.source.fails ≡ [] };

    ghost steady = { λ _. ⊤ };

    ghost ample = { λ s room. (s.ample ≡ true) × (s.room ≡ room) };

    fn pull(&mut self, buf: &mut [u8]) -> Result<usize, Failed> {
        let offered = buf.len() as u64;
        self.ample = self.ample && self.room.min(4096) <= offered && offered <= self.room;
        let count = self.source.pull(buf)?;
        self.room = if count == 0 {
            0
        } else {
            self.room.saturating_sub(count as u64)
        };
        Ok(count)
    }
}

// What a reader answers up to its last answer, as text: a line with its newline, `long` for one that
// is too long, `?` for a fault, `.` at the end and `$` where the bound was passed.
fn answers(
    alloc: Global,
    input: &[u8],
    piece: usize,
    fails: Vec<u64>,
    most: u32,
) -> Result<Vec<u8>, Fail> {
    let mut source = Watched {
        source: MemSource::new(Vec::from_slice(alloc, input)?, piece.max(1), fails),
        room: u64::from(most) + 1,
        ample: true,
    };
    let mut reader = LineReader::new(alloc)?;
    let mut log = Vec::new(alloc);
    for _ in 0..1000 {
        match reader.next(&mut source, u64::from(most)) {
            Next::Line => {
                log.extend_from_slice(reader.line())?;
                log.push(b'\n')?;
            }
            Next::Long => log.extend_from_slice(b"long\n")?,
            Next::Failed => log.push(b'?')?,
            Next::End => {
                log.push(b'.')?;
                break;
            }
            Next::Budget => {
                log.push(b'$')?;
                break;
            }
        }
    }
    // That each offer was ample, and none came behind the end, is a fact here, by the clause of `next`.
    let ample = source.ample;
    prove!(ample);
    Ok(log)
}

// Whether a reader of these bytes, of which a source gives so many a call, answers this.
fn is_answered(
    alloc: Global,
    input: &[u8],
    piece: usize,
    most: u32,
    want: &[u8],
) -> Result<bool, Fail> {
    let log = answers(alloc, input, piece, Vec::new(alloc), most)?;
    Ok(log.as_slice() == want)
}

// Bytes, and what a reader answers.
const CUT: [(&[u8], &[u8]); 5] = [
    (b"", b"."),
    (b"\n", b"\n."),
    (b"new a", b"new a\n."),
    (b"new a\n", b"new a\n."),
    (b"\n\nnew a\r\n\nlast", b"\n\nnew a\r\n\nlast\n."),
];

#[test]
fn cuts_lines_however_the_bytes_come(rt: HostRuntime) -> Result<(), Fail> {
    for (input, want) in CUT {
        for piece in 1..20usize {
            assert!(rt;
                is_answered(rt.alloc(), input, piece, 100, want)?,
                "at {piece}"
            );
        }
    }
    Ok(())
}

// Three lines, read by three bytes a call, of which this one fails.
fn by_threes(alloc: Global, call: u64) -> Result<Vec<u8>, Fail> {
    let mut fails = Vec::new(alloc);
    fails.push(call)?;
    answers(alloc, b"one\ntwo\nthree", 3, fails, 100)
}

// What a reader of them answers where the call of this number fails.
const FAILED: [(u64, &[u8]); 7] = [
    (0, b"?one\ntwo\nthree\n."),
    (1, b"?one\ntwo\nthree\n."),
    (2, b"one\n?two\nthree\n."),
    (3, b"one\ntwo\n?three\n."),
    (4, b"one\ntwo\n?three\n."),
    (5, b"one\ntwo\n?three\n."),
    (6, b"one\ntwo\nthree\n."),
];

#[test]
fn goes_on_after_a_fault_at_each_call(rt: HostRuntime) -> Result<(), Fail> {
    for (call, want) in FAILED {
        let log = by_threes(rt.alloc(), call)?;
        assert!(rt; log.as_slice() == want, "at {call}");
    }
    Ok(())
}

// The most bytes that are taken, and what a reader of three lines answers.
const BOUNDED: [(u32, &[u8]); 8] = [
    (0, b"$"),
    (2, b"$"),
    (3, b"ab\n$"),
    (5, b"ab\n$"),
    (6, b"ab\ncd\n$"),
    (7, b"ab\ncd\n$"),
    (8, b"ab\ncd\nef\n."),
    (9, b"ab\ncd\nef\n."),
];

#[test]
fn stops_one_byte_past_the_bound(rt: HostRuntime) -> Result<(), Fail> {
    for (most, want) in BOUNDED {
        for piece in 1..11usize {
            assert!(rt;
                is_answered(rt.alloc(), b"ab\ncd\nef", piece, most, want)?,
                "{most} by {piece}"
            );
        }
    }
    Ok(())
}

// So many bytes of a letter, and a newline.
fn long_line(alloc: Global, letter: u8, length: usize) -> Result<Vec<u8>, Fail> {
    let mut line = vec![in alloc; letter; length]?;
    line.push(b'\n')?;
    Ok(line)
}

// The longest line, two that are longer, and the front of a line; and what a reader answers.
fn long_lines(alloc: Global) -> Result<(Vec<u8>, Vec<u8>), Fail> {
    let mut input = long_line(alloc, b'a', 65_536)?;
    let mut want = input.clone()?;
    for length in [65_537usize, 300_000] {
        input.extend_from_slice(&long_line(alloc, b'b', length)?)?;
    }
    input.push(b'c')?;
    want.extend_from_slice(b"long\nlong\nc\n.")?;
    Ok((input, want))
}

#[test]
fn passes_over_lines_past_the_limit(rt: HostRuntime) -> Result<(), Fail> {
    let (input, want) = long_lines(rt.alloc())?;
    for piece in [100usize, 4096, 65_537, 1_000_000] {
        assert!(rt;
            is_answered(rt.alloc(), &input, piece, 1_000_000, &want)?,
            "by {piece}"
        );
    }
    Ok(())
}

// The lines of these bytes, each behind its number of bytes.
fn lines_told(alloc: Global, bytes: &[u8]) -> Result<Result<String, LinesFault>, Fail> {
    let lines = match lines_of(alloc, bytes) {
        Ok(lines) => lines.into_vec(),
        Err(fault) => return Ok(Err(fault)),
    };
    let mut told = String::new(alloc);
    for line in &lines {
        write!(told, "{}:{};", line.text().len(), line.text())?;
    }
    Ok(Ok(told))
}

// A file, and its lines.
const FILES: [(&[u8], &str); 6] = [
    (b"", ""),
    (b"\n", "0:;"),
    (b"one", "3:one;"),
    (b"one\n", "3:one;"),
    (b"one\n\n", "3:one;0:;"),
    (b"one\r\n \xc3\xa9\nlast", "4:one\r;3: \u{e9};4:last;"),
];

#[test]
fn cuts_a_file_into_lines(rt: HostRuntime) -> Result<(), Fail> {
    for (bytes, want) in FILES {
        let told = lines_told(rt.alloc(), bytes)?;
        assert!(rt; told.as_ref().map(|text| text.as_str()) == Ok(want));
    }
    Ok(())
}

// The longest line makes a file, one that isn't text none, and one that is longer neither.
#[test]
fn tells_a_long_line_before_one_that_is_no_text(rt: HostRuntime) -> Result<(), Fail> {
    let mut long = long_line(rt.alloc(), b'x', 65_536)?;
    assert!(rt; lines_told(rt.alloc(), &long)?.is_ok());
    long.push(0xff)?;
    assert!(rt; lines_told(rt.alloc(), &long)?.err() == Some(LinesFault::Utf8));
    long.insert(0, b'x')?;
    assert!(rt; lines_told(rt.alloc(), &long)?.err() == Some(LinesFault::Long));
    Ok(())
}
