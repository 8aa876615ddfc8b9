//! What is wrong with a document.
ghost use Rattle.std.specs.Prelude.{◌≡◌};
ghost use Rattle.pool_text.specs.declared.damage.Damage.TheVariants.{Memory};

use elem_core::NoMemory;
use std::alloc::{AllocError, AllocFailed};
use thiserror::Error;

/// The tests of a document, in the order in which they are made: a damage is the first that fails. `Memory` is no test.
#[derive(Debug, Clone, Copy, PartialEq, Eq, Drop, Error)]
pub enum Damage {
    /// The bytes aren't the text of a JSON value.
    #[error("the bytes are no JSON value")]
    Json,
    /// The value isn't an object of the keys of its version, with their values.
    #[error("the value is no object of the keys of its version")]
    Form,
    /// The version isn't one that is read.
    #[error("the version is none that is read")]
    Version,
    /// The number of code bits isn't what a document of this version keeps in the space: the space's, and by the first version at
    /// most 32.
    #[error("the number of code bits is another")]
    Bits,
    /// A row has no form, or a number or a count of links out of range.
    #[error("a row has no form, or a number out of range")]
    Row,
    /// A link or a root leads to no earlier row.
    #[error("a link leads to no earlier row")]
    Link,
    /// A cell's text isn't a line.
    #[error("the text of a cell is no line")]
    Text,
    /// An inner row breaks the fill rule.
    #[error("an inner row breaks the fill rule")]
    Vector,
    /// A trie row or a chain row isn't canonical.
    #[error("a row of a trie or a chain is not canonical")]
    Trie,
    /// A root isn't of its kind, or undo has more states than it keeps.
    #[error("a root is not of its kind")]
    Kind,
    /// The rows don't stand in their order.
    #[error("the rows are out of order")]
    Order,
    /// Memory ran out.
    #[error("out of memory")]
    Memory,
}

impl From<NoMemory> for Damage {
    ghost from_gives = { λ _ damage. damage ≡ Memory };

    fn from(_error: NoMemory) -> Damage {
        Damage::Memory
    }
}

impl From<AllocError> for Damage {
    ghost from_gives = { λ _ damage. damage ≡ Memory };

    fn from(_error: AllocError) -> Damage {
        Damage::Memory
    }
}

impl<T: Drop> From<AllocFailed<T>> for Damage {
    ghost from_gives = { λ _ damage. damage ≡ Memory };

    fn from(_error: AllocFailed<T>) -> Damage {
        Damage::Memory
    }
}
