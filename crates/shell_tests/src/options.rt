//! Lists of words with the options that each must give, and the lines of a seed.

use elem_core::CODE_BITS;
use shell_options::{Options, WordsFault, read_words};
use std::process::Abort;
use std::test::Fail;
use work_lines::WorkLines;

// What the words read as.
fn read<R: Abort + AllocGlobal>(
    rt: &R,
    words: &[&str],
) -> Result<Result<Options, WordsFault>, Fail> {
    let alloc = rt.alloc();
    let mut list = Vec::new(alloc);
    for word in words {
        list.push(String::from_str(alloc, word)?)?;
    }
    Ok(read_words(alloc, &list))
}

// Words, and what they read as: how many code bits, the document to open, and the seed and the number of made lines.
const READ: [(&[&str], u32, Option<&str>, Option<(u64, u32)>); 5] = [
    (&[], CODE_BITS, None, None),
    (&["--bits=0"], 0, None, None),
    (&["--open=a.b", "--bits", "7"], 7, Some("a.b"), None),
    (
        &["--work", "0", "--count", "2"],
        CODE_BITS,
        None,
        Some((0, 2)),
    ),
    (
        &["--count=100000", "--work=18446744073709551615"],
        CODE_BITS,
        None,
        Some((18_446_744_073_709_551_615, 100_000)),
    ),
];

#[test]
fn reads_words(rt: HostRuntime) -> Result<(), Fail> {
    for (words, bits, first, work) in READ {
        match read(&rt, words)? {
            Ok(options) => {
                assert!(rt; options.bits == bits && options.work == work);
                assert!(rt; options.first.as_ref().map(|name| name.as_str()) == first);
            }
            Err(_) => panic!(rt; "words that don't read"),
        }
    }
    Ok(())
}

const REFUSED: [&[&str]; 14] = [
    &["--bits", "65"],
    &["--bits", "064"],
    &["--bits", "-1"],
    &["--bits", "5", "--bits=5"],
    &["--bi", "5"],
    &["-b", "5"],
    &["--"],
    &["--help"],
    &["--version"],
    &["--open=a=b"],
    &["--work", "0"],
    &["--work", "0", "--count", "2", "--open", "a"],
    &["--bits", "5", "a"],
    &[""],
];

#[test]
fn refuses_words(rt: HostRuntime) -> Result<(), Fail> {
    for words in REFUSED {
        assert!(rt; read(&rt, words)?.err() == Some(WordsFault::Usage));
    }
    Ok(())
}

// The lines of the seed 0, with two edits.
const LINES: [&str; 10] = [
    "new w0",
    "new w1",
    "new w2",
    "new w3",
    "new w4",
    "new w5",
    "new w6",
    "new w7",
    "add w2 t359294",
    "add w5 t585233",
];

#[test]
fn makes_the_lines_of_a_seed(rt: HostRuntime) {
    let mut lines = WorkLines::new(0, 2);
    for line in LINES {
        assert!(rt; lines.next());
        assert!(rt; lines.line() == line.as_bytes(), "{line}");
    }
    assert!(rt; !lines.next());
}
