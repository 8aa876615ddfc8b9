//! Why a call was refused.
ghost use Rattle.std.specs.Prelude.{◌≡◌};

use elem_core::NoMemory;
use thiserror::Error;

/// Why a call was refused.
#[derive(Clone, Copy, Debug, PartialEq, Eq, Error)]
pub enum Fault {
    /// The list would have 2^32 elements or more.
    #[error("the list is too long")]
    Long,
    /// The list has no such element, place or part.
    #[error("the index is out of range")]
    Range,
    /// Memory ran out, or the store has 2^50 versions.
    #[error("out of memory")]
    Memory,
}

impl From<NoMemory> for Fault {
    ghost use Rattle.versions.specs.declared.faults.Fault.TheVariants.{Memory};

    ghost from_gives = { λ _ fault. fault ≡ Memory };

    fn from(_none: NoMemory) -> Fault {
        Fault::Memory
    }
}

/// Why an element wasn't taken, with the element.
#[derive(Debug, Drop, Error)]
#[error("{fault}")]
pub struct Refused<T> {
    /// The element, as it was given.
    pub element: T,
    /// Why.
    pub fault: Fault,
}

impl<T> Refused<T> {
    // Want of memory.
    pub(crate) fn no_memory(element: T) -> Refused<T>
        ensures element { result.element ≡ element }
        ensures fault { result.fault ≡ Fault.Memory }
    {
        let fault = Fault::Memory;
        Refused { element, fault }
    }
}
