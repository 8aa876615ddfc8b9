//! Sinks over memory, and standard devices over streams.

use shell_io::{Failed, LineReader, MemSink, Next, Sink, Source, StdSink, StdSource, write_all};
use std::alloc::Global;
use std::io;
use std::io::{ErrorKind, Read, Write};
use std::test::Fail;

// The room, the most bytes a call takes and the call that fails; what is written, and whether all.
const PIECES: [(usize, usize, u64, &[u8], bool); 5] = [
    (9, 9, 7, b"= a 1\nok\n", true),
    (20, 1, 9, b"= a 1\nok\n", true),
    (8, 9, 9, b"= a 1\nok", false),
    (9, 4, 1, b"= a ", false),
    (9, 4, 0, b"", false),
];

// A sink over memory of this room, of which one call fails.
fn failing_sink(alloc: Global, room: usize, piece: usize, call: u64) -> Result<MemSink, Fail> {
    let mut fails = Vec::new(alloc);
    fails.push(call)?;
    Ok(MemSink::new(alloc, room, piece.max(1), fails)?)
}

#[test]
fn writes_a_piece_or_its_front(rt: HostRuntime) -> Result<(), Fail> {
    for (room, piece, call, want, whole) in PIECES {
        let mut sink = failing_sink(rt.alloc(), room, piece, call)?;
        let written = write_all(&mut sink, b"= a 1\nok\n");
        assert!(rt; sink.bytes() == want && written.is_ok() == whole);
    }
    Ok(())
}

// A stream of which the first call is interrupted, and the third fails. Read, it gives a line and
// two bytes before that, and the rest of their line behind. Written, it takes two bytes before that,
// and none behind.
#[derive(Drop)]
struct Broken {
    call: u8,
}

impl Broken {
    fn next_call(&mut self) -> u8 {
        let call = self.call;
        self.call = call.saturating_add(1);
        call
    }
}

impl Read for Broken {
    fn read(&mut self, buf: &mut [u8]) -> io::Result<usize> {
        let part = match self.next_call() {
            0 => return Err(io::Error::from(ErrorKind::Interrupted)),
            1 => b"ok\nno".as_slice(),
            2 => return Err(io::Error::from(ErrorKind::Other)),
            3 => b"w\n".as_slice(),
            _ => b"".as_slice(),
        };
        let count = part.len().min(buf.len());
        buf[..count].copy_from_slice(&part[..count]);
        Ok(count)
    }
}

impl Write for Broken {
    fn write(&mut self, buf: &[u8]) -> io::Result<usize> {
        match self.next_call() {
            0 => Err(io::Error::from(ErrorKind::Interrupted)),
            1 => Ok(buf.len().min(2)),
            2 => Err(io::Error::from(ErrorKind::Other)),
            _ => Ok(0),
        }
    }

    fn flush(&mut self) -> io::Result<()> {
        Ok(())
    }
}

#[test]
fn tells_an_error_amid_a_stream_as_no_end(rt: HostRuntime) -> Result<(), Fail> {
    let mut source = StdSource::new(Broken { call: 0 });
    let mut buffer = [0u8; 8];
    assert_eq!(rt; source.pull(&mut buffer), Ok(5));
    assert_eq!(rt; &buffer[..5], b"ok\nno".as_slice());
    assert_eq!(rt; source.pull(&mut buffer), Err(Failed));
    assert_eq!(rt; source.pull(&mut buffer), Ok(2));
    assert_eq!(rt; &buffer[..2], b"w\n".as_slice());
    assert_eq!(rt; source.pull(&mut buffer), Ok(0));

    let mut source = StdSource::new(Broken { call: 0 });
    let mut reader = LineReader::new(rt.alloc())?;
    assert_eq!(rt; reader.next(&mut source, 100), Next::Line);
    assert_eq!(rt; reader.line(), b"ok".as_slice());
    assert_eq!(rt; reader.next(&mut source, 100), Next::Failed);
    assert_eq!(rt; reader.next(&mut source, 100), Next::Line);
    assert_eq!(rt; reader.line(), b"now".as_slice());
    assert_eq!(rt; reader.next(&mut source, 100), Next::End);
    Ok(())
}

#[test]
fn tells_an_error_amid_writing_as_not_written(rt: HostRuntime) -> Result<(), Fail> {
    let mut sink = StdSink::new(Broken { call: 0 });
    assert_eq!(rt; sink.push(b"ok\n"), Ok(2));
    assert_eq!(rt; sink.push(b"\n"), Err(Failed));
    assert_eq!(rt; sink.push(b"\n"), Err(Failed));
    assert_eq!(rt; sink.push(b""), Ok(0));

    let mut sink = StdSink::new(Broken { call: 0 });
    assert_eq!(rt; write_all(&mut sink, b"ok\n"), Err(Failed));
    Ok(())
}

// A reader and a writer over memory, whose bytes are known.
#[test]
fn reads_and_writes_known_bytes(rt: HostRuntime) -> Result<(), Fail> {
    let mut source = StdSource::new(b"one\ntwo".as_slice());
    let mut reader = LineReader::new(rt.alloc())?;
    assert_eq!(rt; reader.next(&mut source, 100), Next::Line);
    assert_eq!(rt; reader.line(), b"one".as_slice());
    assert_eq!(rt; reader.next(&mut source, 100), Next::Line);
    assert_eq!(rt; reader.line(), b"two".as_slice());
    assert_eq!(rt; reader.next(&mut source, 100), Next::End);

    let mut bytes = Vec::new(rt.alloc());
    let mut sink = StdSink::new(&mut bytes);
    assert_eq!(rt; write_all(&mut sink, b"ok\n"), Ok(()));
    assert_eq!(rt; bytes.as_slice(), b"ok\n".as_slice());
    Ok(())
}

#[test]
fn writes_a_stream(rt: HostRuntime) -> Result<(), Fail> {
    let mut sink = StdSink::new(rt.stdout());
    assert_eq!(rt; sink.push(b""), Ok(0));
    assert_eq!(rt; write_all(&mut sink, b"ok\n"), Ok(()));
    Ok(())
}
