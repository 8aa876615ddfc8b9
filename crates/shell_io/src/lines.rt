//! The lines of a file.

ghost use Rattle.std.specs.Prelude.{◌≡◌, ◌↔◌, ◌<◌, ◌∷◌, length, IsTrue};
ghost use Rattle.shell_io.specs.Pieces.{pieces, IsUnbroken};
ghost use Rattle.shell_io.specs.Lines.{HasOverlong, HasLines};
ghost use Rattle.shell_io.specs.declared.lines.LinesFault.TheVariants.{Memory};

use super::reader::newline_from;
use elem_core::{Line, MAX_LINE, NoMemory, Texts, text_of};
use std::alloc::{AllocFailed, Global};
use thiserror::Error;

/// Why the bytes of a file have no lines.
#[derive(Clone, Copy, Debug, PartialEq, Eq, Error)]
pub enum LinesFault {
    /// A line has more than `MAX_LINE` bytes.
    #[error("a line is too long")]
    Long,
    /// The bytes aren't UTF-8.
    #[error("the bytes are not UTF-8")]
    Utf8,
    /// Memory ran out.
    #[error("out of memory")]
    Memory,
}

impl From<NoMemory> for LinesFault {
    ghost from_gives = { λ _ fault. fault ≡ Memory };

    fn from(_error: NoMemory) -> LinesFault {
        LinesFault::Memory
    }
}

impl<T: Drop> From<AllocFailed<T>> for LinesFault {
    ghost from_gives = { λ _ fault. fault ≡ Memory };

    fn from(_error: AllocFailed<T>) -> LinesFault {
        LinesFault::Memory
    }
}

/// The lines of a file's bytes, which are split at each newline. An empty rest behind the last newline
/// is no line. Refused with `Long` where a line has more than 65,536 bytes, else with `Utf8` where the
/// bytes aren't UTF-8, and with `Memory` where memory runs out.
pub fn lines_of(alloc: Global, bytes: &[u8]) -> Result<Texts, LinesFault>
    ensures { HasLines bytes.now result }
{
    let text = match str::from_utf8(bytes) {
        Ok(text) => text,
        // The lines of a text are measured as they are taken, so only these bytes are looked through for a long one.
        Err(_) if has_overlong(bytes) => return Err(LinesFault::Long),
        Err(_) => return Err(LinesFault::Utf8),
    };
    let mut lines = Vec::new(alloc);
    let mut rest = text;
    while !rest.is_empty() {
        let (first, others) = first_line(rest);
        if first.len() > MAX_LINE {
            return Err(LinesFault::Long);
        }
        lines.push(text_of(alloc, Line::of_cell(first))?)?;
        rest = others;
    }
    Ok(Texts::from_vec(lines))
}

// The first line of a text, and what is behind its newline.
fn first_line(text: &str) -> (&str, &str)
    requires { 0 < length text.now }
    ensures pieces { pieces text.now ≡ result.0.now ∷ pieces result.1.now }
    ensures unbroken { IsUnbroken result.0.now }
    ensures shorter { length result.1.now < length text.now }
{
    match newline_from(text.as_bytes(), 0) {
        Some(at) => (&text[..at], &text[at + 1..]),
        None => (text, ""),
    }
}

// The same of bytes.
fn first_piece(bytes: &[u8]) -> (&[u8], &[u8])
    requires { 0 < length bytes.now }
    ensures pieces { pieces bytes.now ≡ result.0.now ∷ pieces result.1.now }
    ensures shorter { length result.1.now < length bytes.now }
{
    match newline_from(bytes, 0) {
        Some(at) => (&bytes[..at], &bytes[at + 1..]),
        None => (bytes, &[]),
    }
}

// Whether a line has more bytes than it may have.
fn has_overlong(bytes: &[u8]) -> bool
    ensures { IsTrue result ↔ HasOverlong bytes.now }
{
    let mut rest = bytes;
    while !rest.is_empty() {
        let (first, others) = first_piece(rest);
        if first.len() > MAX_LINE {
            return true;
        }
        rest = others;
    }
    false
}
