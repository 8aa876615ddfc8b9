//! Why a command that uses the store wasn't carried out.

ghost use Rattle.std.specs.Prelude.{◌≡◌};
ghost use Rattle.ewig_shell.specs.declared.store_fault.StoreFault.TheVariants.{Memory};
ghost use Rattle.ewig_shell.specs.Faults.{fault_of, fetch_fault, lines_fault, keep_fault, change_fault};

use elem_core::NoMemory;
use pool_map::ChangeFault;
use pool_text::Damage;
use shell_io::{FetchFault, KeepFault, LinesFault};
use std::alloc::{AllocError, AllocFailed};

/// Why nothing was loaded or read, saved or written.
#[derive(Clone, Copy, Debug, PartialEq, Eq)]
pub enum StoreFault {
    /// A batch is open.
    Batch,
    /// There is no such buffer.
    Absent,
    /// A partial document may not have this number, or lines aren't moved by so many spaces.
    Range,
    /// A line would be longer than a line may.
    Limit,
    /// There is no such file.
    Missing,
    /// There are more bytes than a file may have, or the files of a chain together.
    Large,
    /// The store failed.
    Failed,
    /// The file, or the chain of files, is no document of a space of so many bits: the first test that it fails. Want of memory
    /// is `Memory`.
    Damaged(Damage),
    /// A line of the file has more than 65,536 bytes.
    Long,
    /// The file isn't UTF-8.
    Utf8,
    /// Memory ran out.
    Memory,
}

impl From<Damage> for StoreFault {
    ghost from_gives = { λ damage fault. fault ≡ fault_of damage };

    fn from(damage: Damage) -> StoreFault {
        match damage {
            Damage::Memory => StoreFault::Memory,
            damage => StoreFault::Damaged(damage),
        }
    }
}

impl From<FetchFault> for StoreFault {
    ghost from_gives = { λ fetch fault. fault ≡ fetch_fault fetch };

    fn from(fetch: FetchFault) -> StoreFault {
        match fetch {
            FetchFault::Missing => StoreFault::Missing,
            FetchFault::Large => StoreFault::Large,
            FetchFault::Failed => StoreFault::Failed,
            FetchFault::Memory => StoreFault::Memory,
        }
    }
}

impl From<LinesFault> for StoreFault {
    ghost from_gives = { λ lines fault. fault ≡ lines_fault lines };

    fn from(lines: LinesFault) -> StoreFault {
        match lines {
            LinesFault::Long => StoreFault::Long,
            LinesFault::Utf8 => StoreFault::Utf8,
            LinesFault::Memory => StoreFault::Memory,
        }
    }
}

impl From<NoMemory> for StoreFault {
    ghost from_gives = { λ _ fault. fault ≡ Memory };

    fn from(_error: NoMemory) -> StoreFault {
        StoreFault::Memory
    }
}

impl From<AllocError> for StoreFault {
    ghost from_gives = { λ _ fault. fault ≡ Memory };

    fn from(_error: AllocError) -> StoreFault {
        StoreFault::Memory
    }
}

impl<T: Drop> From<AllocFailed<T>> for StoreFault {
    ghost from_gives = { λ _ fault. fault ≡ Memory };

    fn from(_error: AllocFailed<T>) -> StoreFault {
        StoreFault::Memory
    }
}

impl From<KeepFault> for StoreFault {
    ghost from_gives = { λ kept fault. fault ≡ keep_fault kept };

    fn from(kept: KeepFault) -> StoreFault {
        match kept {
            KeepFault::Failed => StoreFault::Failed,
            KeepFault::Memory => StoreFault::Memory,
        }
    }
}

impl From<ChangeFault> for StoreFault {
    ghost from_gives = { λ change fault. fault ≡ change_fault change };

    fn from(change: ChangeFault) -> StoreFault {
        match change {
            ChangeFault::Long => StoreFault::Limit,
            ChangeFault::Memory => StoreFault::Memory,
        }
    }
}
