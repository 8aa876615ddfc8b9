//! Borrowed texts that were tested once: lines and names.

ghost use Rattle.std.specs.Prelude.{◌≡◌, ◌↔◌, Contains, IsTrue, IsSome, IfSome};
ghost use Rattle.elem_core.specs.Cell.{IsCell};
ghost use Rattle.elem_core.specs.Naming.{IsName, is_name_byte};
ghost use Rattle.std.specs.List.{list_all};

use super::{MAX_LINE, MAX_NAME, NEWLINE};
use memchr::memchr;

/// A borrowed text that may stand in a cell: no newline, at most `MAX_LINE` bytes.
#[derive(Clone, Copy, Debug, PartialEq, Eq)]
pub struct Line<'a> {
    text: &'a str,
    ghost cell: { IsCell text.now },
}

/// A borrowed name: 1 to `MAX_NAME` bytes of `A-Z a-z 0-9 . _ -`, the first neither `.` nor `-`.
#[derive(Clone, Copy, Debug, PartialEq, Eq)]
pub struct Name<'a> {
    text: &'a str,
    ghost named: { IsName text.now },
}

impl<'a> Line<'a> {
    ghost use Rattle.elem_core.specs.Shown.{line_bytes};

    /// The text as a line, None exactly where it isn't a cell.
    pub fn new(text: &'a str) -> Option<Line<'a>>
        ensures tested { IsSome result ↔ IsCell text.now }
        ensures kept { IfSome result (λ line. line_bytes line ≡ text.now) }
    {
        if text.len() > MAX_LINE || has_newline(text.as_bytes()) {
            None
        } else {
            Some(Line { text })
        }
    }

    /// The line of a text that is a cell. It isn't looked through.
    pub fn of_cell(text: &'a str) -> Line<'a>
        requires { IsCell text.now }
        ensures { line_bytes result ≡ text.now }
    {
        Line { text }
    }

    /// The text of the line.
    pub fn as_str(&self) -> &'a str
        ensures shown { result.now ≡ line_bytes self.now }
        ensures cell { IsCell result.now }
    {
        self.text
    }
}

impl<'a> Name<'a> {
    ghost use Rattle.elem_core.specs.Shown.{line_bytes, name_bytes};

    /// The text as a name, None exactly where it isn't one.
    pub fn new(text: &'a str) -> Option<Name<'a>>
        ensures tested { IsSome result ↔ IsName text.now }
        ensures kept { IfSome result (λ name. name_bytes name ≡ text.now) }
    {
        if is_name(text) {
            Some(Name { text })
        } else {
            None
        }
    }

    /// The text of the name.
    pub fn as_str(&self) -> &'a str
        ensures shown { result.now ≡ name_bytes self.now }
        ensures named { IsName result.now }
    {
        self.text
    }

    /// The name as a line: each name may stand in a cell.
    pub fn as_line(&self) -> Line<'a>
        ensures { line_bytes result ≡ name_bytes self.now }
    {
        Line { text: self.text }
    }
}

// Whether a newline is among the bytes.
fn has_newline(bytes: &[u8]) -> bool
    ensures { IsTrue result ↔ Contains bytes.now NEWLINE }
{
    memchr(NEWLINE, bytes).is_some()
}

/// Whether the text is a name.
pub fn is_name(text: &str) -> bool
    ensures { IsTrue result ↔ IsName text.now }
{
    let bytes = text.as_bytes();
    let Some(first) = bytes.first() else {
        return false;
    };
    if *first == b'.' || *first == b'-' || bytes.len() > MAX_NAME {
        return false;
    }
    is_of_names(bytes)
}

// Whether each byte is of the alphabet of names.
fn is_of_names(bytes: &[u8]) -> bool
    ensures { result ≡ list_all is_name_byte bytes.now }
{
    bytes.iter().all(
        |byte| matches!(*byte, b'A'..=b'Z' | b'a'..=b'z' | b'0'..=b'9' | b'.' | b'_' | b'-'),
    )
}
