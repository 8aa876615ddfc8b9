//! Texts, lines and names: what the cells of the containers hold, and how a user names them.
#![tactic(auto)]

mod codes;
mod element;
mod kept;
mod laws;
mod text;
mod words;

pub use codes::{CODE_BITS, Code, DEEPEST, LEVELS, digit, fnv32, fnv64, masked};
pub use element::{Element, Num, Probe, Stored};
pub use laws::worked_codes;
use std::alloc::{AllocError, AllocFailed};
pub use text::{Text, Texts, text_of};
use thiserror::Error;
pub use words::{Line, Name, is_name};

/// The most bytes that a line, and so a text cell, may have.
pub const MAX_LINE: usize = 65_536;

/// The most bytes of a text that takes no memory of its own: with its length, and what tells it from a long one, it fills four words.
pub const SHORT_TEXT: usize = 30;

/// The most bytes that a name may have.
pub const MAX_NAME: usize = 64;

/// The byte that ends a line and that no line contains.
pub const NEWLINE: u8 = 10;

/// Memory ran out. The one answer that comes without a stated cause.
#[derive(Clone, Copy, Debug, Drop, PartialEq, Eq, Error)]
#[error("out of memory")]
pub struct NoMemory;

impl From<AllocError> for NoMemory {
    fn from(_error: AllocError) -> NoMemory {
        NoMemory
    }
}

impl<T: Drop> From<AllocFailed<T>> for NoMemory {
    fn from(_error: AllocFailed<T>) -> NoMemory {
        NoMemory
    }
}
