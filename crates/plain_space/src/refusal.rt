//! Why a command on a space is refused.

ghost use Rattle.std.specs.Prelude.{◌≡◌};
ghost use Rattle.plain_space.specs.declared.refusal.Refusal.TheVariants.{Memory};

use elem_core::NoMemory;
use thiserror::Error;

/// Why a command on a space is refused. It leaves the space as it was.
#[derive(Clone, Copy, Debug, Drop, PartialEq, Eq, Error)]
pub enum Refusal {
    /// There is no buffer, star or version of this name.
    #[error("there is nothing of this name")]
    Absent,
    /// The name is taken: by a buffer, a star or a version.
    #[error("the name is taken")]
    Exists,
    /// There is no line at this index, or no such range of lines.
    #[error("there is no such line")]
    Range,
    /// The buffer would have more lines than it may, or redo holds as many states as it may.
    #[error("the list is full")]
    Limit,
    /// A batch is open, or none is where one has to be.
    #[error("a batch is open, or none is")]
    Batch,
    /// There is nothing to undo, or nothing to redo.
    #[error("there is nothing to undo or redo")]
    Empty,
    /// Memory ran out.
    #[error("out of memory")]
    Memory,
}

impl From<NoMemory> for Refusal {
    ghost from_gives = { λ _ refusal. refusal ≡ Memory };

    fn from(_error: NoMemory) -> Refusal {
        Refusal::Memory
    }
}
