//! Where a text lies: in the value itself if it is short, and apart if it isn't.

ghost use Rattle.std.specs.Prelude.{◌≡◌, ◌≤◌, length, IfOk, IsOk};
ghost use Rattle.std.specs.String.{string_bytes};
ghost use Rattle.elem_core.specs.Kept.{kept_bytes};

use super::{NoMemory, SHORT_TEXT};
use std::alloc::Global;
use std::marker::Model;
use std::mem::size_of;
use std::str;

/// A text. A short one takes no memory of its own, and is read with what it lies in.
#[derive(Drop)]
pub(crate) enum Kept {
    Short(Short),
    Long(String),
}

// Four words: one more than a `String`.
const _: () = prove!(size_of::<Kept>() <= 32);

impl Kept {
    /// Keeps the text.
    pub(crate) fn new(text: String) -> Kept
        ensures { kept_bytes result ≡ string_bytes text }
    {
        if text.len() <= SHORT_TEXT {
            Kept::Short(Short::new(&text))
        } else {
            Kept::Long(text)
        }
    }

    /// Keeps a copy of the text. Err where memory runs out, which a short text takes none of.
    pub(crate) fn copy(alloc: Global, text: &str) -> Result<Kept, NoMemory>
        ensures kept { IfOk result (λ made. kept_bytes made ≡ text.now) }
        ensures short { length text.now ≤ SHORT_TEXT → IsOk result }
    {
        if text.len() <= SHORT_TEXT {
            Ok(Kept::Short(Short::new(text)))
        } else {
            Ok(Kept::Long(String::from_str(alloc, text)?))
        }
    }

    /// The text itself.
    pub(crate) fn as_str(&self) -> &str
        ensures { result.now ≡ kept_bytes self.now }
    {
        match self {
            Kept::Short(text) => text.as_str(),
            Kept::Long(text) => text,
        }
    }
}

/// A text of at most `SHORT_TEXT` bytes. Contracts see its bytes.
#[derive(Drop)]
pub(crate) struct Short {
    bytes: [u8; SHORT_TEXT],
    len: u8,
}

impl Model for Short {
    ghost use Rattle.std.specs.Prelude.{ℕ, List, ◌≡◌, ◌≤◌, length, take, IsUtf8};

    ghost Value = { List ℕ };

    ghost view = { λ it. take it.len it.bytes };

    ghost invariant = { λ it. (it.len ≤ 30) × (length it.bytes ≡ 30) × ∥ IsUtf8 (take it.len it.bytes) ∥₁ };
}

impl Short {
    /// A copy of the text.
    pub(crate) fn new(text: &str) -> Short
        requires { length text.now ≤ SHORT_TEXT }
        ensures { result ≡ text.now }
    {
        let mut bytes = [0; SHORT_TEXT];
        bytes[..text.len()].copy_from_slice(text.as_bytes());
        Short {
            bytes,
            len: text.len() as u8,
        }
    }

    /// The text itself.
    pub(crate) fn as_str(&self) -> &str
        ensures { result.now ≡ self.now }
    {
        // SAFETY: the invariant says that these bytes are UTF-8.
        unsafe { str::from_utf8_unchecked(&self.bytes[..usize::from(self.len)]) }
    }
}
