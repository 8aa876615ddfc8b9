//! What a source, a sink and a store are.
//!
//! A device may tell what it holds, as one over memory does; a file, a stream and a terminal don't.
//! Where it tells nothing, a clause on its content claims nothing.

ghost use Rattle.std.specs.Prelude.{◌≡◌, ℕ, ◌+◌, ◌-◌, ◌<◌, ◌≤◌, List, [], length, take, Err, IsOk, IsErr, IfOk, OnOk, OnErr, MatchResult};
ghost use Rattle.std.specs.declared.option.Option.{Option};
ghost use Rattle.std.specs.FinMap.{get};
ghost use Rattle.std.specs.Option.{IfSome};
ghost use Rattle.std.specs.Io.KnownBytes.{Consumes, Appends, Keeps, IsAtEnd};
ghost use Rattle.shell_io.specs.declared.device.KeepFault.TheVariants.{Memory};
ghost use Rattle.shell_io.specs.Fault.{HasCause, CountsFaults, Calls};
ghost use Rattle.shell_io.specs.InMemory.{Files};
ghost use Rattle.shell_io.specs.Offer.{IsAmple, left_after};
ghost use Rattle.shell_io.specs.Sending.{Sends};
ghost use Rattle.shell_io.specs.Storing.{FetchesFile, KeepsFile, ChangesFiles};

use std::alloc::{AllocError, AllocFailed};
use thiserror::Error;

/// A device failed at this call.
#[derive(Clone, Copy, Debug, PartialEq, Eq, Error)]
#[error("the device failed")]
pub struct Failed;

/// Why a store didn't give a file.
#[derive(Clone, Copy, Debug, PartialEq, Eq, Error)]
pub enum FetchFault {
    /// No file has this name.
    #[error("no such file")]
    Missing,
    /// The file has more bytes than allowed.
    #[error("the file is too large")]
    Large,
    /// The store failed at this call.
    #[error("the store failed")]
    Failed,
    /// Memory ran out.
    #[error("out of memory")]
    Memory,
}

/// Why a store didn't keep a file.
#[derive(Clone, Copy, Debug, PartialEq, Eq, Error)]
pub enum KeepFault {
    /// The store failed at this call. What the file of this name holds then is open.
    #[error("the store failed")]
    Failed,
    /// Memory ran out. The files are as they were.
    #[error("out of memory")]
    Memory,
}

impl From<AllocError> for KeepFault {
    ghost from_gives = { λ _ fault. fault ≡ Memory };

    fn from(_error: AllocError) -> KeepFault {
        KeepFault::Memory
    }
}

impl<T: Drop> From<AllocFailed<T>> for KeepFault {
    ghost from_gives = { λ _ fault. fault ≡ Memory };

    fn from(_error: AllocFailed<T>) -> KeepFault {
        KeepFault::Memory
    }
}

/// What gives bytes.
pub trait Source {
    // The bytes still to come, where they are told.
    ghost left: { Self → Option (List ℕ) };

    // How often a call has failed. It stays at its last value.
    ghost faults: { Self → ℕ };

    // No call from now on fails. A source that can't know it claims nothing.
    ghost faultless: { Self → Type 0 };

    // No call that succeeds raises the count of faults. A source that can't know it claims nothing.
    ghost steady: { Self → Type 0 };

    // So many bytes may still be taken, none behind the end of input, and each call so far offered
    // ample room for them. A source that keeps no count of them claims nothing.
    ghost ample: { Self → ℕ → Type 0 };

    /// Moves the next bytes to the front of the buffer, and answers how many: 0 is the end of input.
    /// A call that fails takes none.
    fn pull(&mut self, buf: &mut [u8]) -> Result<usize, Failed>
        requires { 0 < length buf.old }

        ensures within { IfOk result (λ n. n ≤ length buf.old) }
        ensures moved { IfOk result (λ n. Consumes (left self.old) (left self.new) (take n buf.new)) }
        ensures at_end { IfOk result (λ n. n ≡ 0 → IsAtEnd (left self.old)) }
        ensures kept { OnErr result (Keeps (left self.old) (left self.new)) }

        ensures pulls { Calls faults steady faultless self.old self.new (IsErr result) }
        ensures ample { (room : ℕ) → ample self.old room → IsAmple room (length buf.old) →
            MatchResult result (λ n. ample self.new (left_after room n)) (λ _. ample self.new room) };
}

/// What takes bytes.
pub trait Sink {
    // The bytes written, where they are told.
    ghost written: { Self → Option (List ℕ) };

    // How often a call has failed. It stays at its last value.
    ghost faults: { Self → ℕ };

    // No call that doesn't fail raises the count of faults. A sink that can't know it claims nothing.
    ghost steady: { Self → Type 0 };

    // So many bytes more are written without a fault. A sink that can't know it claims nothing.
    ghost has_room: { Self → ℕ → Type 0 };

    /// Writes the front of the piece, and answers how many bytes. A call that fails writes none.
    fn push(&mut self, piece: &[u8]) -> Result<usize, Failed>
        ensures within { IfOk result (λ n. n ≤ length piece.now) }
        ensures grown { IfOk result (λ n. Appends (written self.old) (written self.new) (take n piece.now)) }
        ensures kept { OnErr result (Keeps (written self.old) (written self.new)) }

        ensures counts { CountsFaults faults steady self.old self.new (IsErr result) }
        // None of a piece that has bytes is written only where the sink failed.
        ensures stuck { IfOk result (λ n. n ≡ 0 → 0 < length piece.now → HasCause (faults self.old) (faults self.new)) }
        ensures sure { (room : ℕ) → has_room self.old room → length piece.now ≤ room →
            (faults self.new ≡ faults self.old) × IsOk result
            × IfOk result (λ n. (0 < length piece.now → 0 < n) × has_room self.new (room - n)) };
}

/// What keeps files by their names.
pub trait Store {
    // The files, by their names, where they are told.
    ghost held: { Self → Option Files };

    // How often a call has failed. It stays at its last value.
    ghost faults: { Self → ℕ };

    // No call from now on fails. A store that can't know it claims nothing.
    ghost faultless: { Self → Type 0 };

    // No call that doesn't fail raises the count of faults. A store that can't know it claims nothing.
    ghost steady: { Self → Type 0 };

    /// Puts the bytes of a file into a vector that is empty. After a refusal the vector may hold
    /// anything. `Failed` and `Memory` may come in place of `Missing` and `Large`.
    fn fetch(&mut self, name: &str, limit: usize, into: &mut Vec<u8>) -> Result<(), FetchFault>
        requires { into.old.items ≡ [] }

        ensures told { IfSome (held self.old) (λ files. FetchesFile (get files name.now) limit result into.new.items) }
        ensures within { OnOk result (length into.new.items ≤ limit) }
        ensures same { held self.new ≡ held self.old }
        ensures calls { Calls faults steady faultless self.old self.new (result ≡ Err FetchFault.Failed) };

    /// Makes these bytes the file of this name, and changes no other. Refused with `Failed` where the store
    /// fails, and then what this file holds is open, and with `Memory` where memory runs out, and then all
    /// files are as they were.
    fn keep(&mut self, name: &str, bytes: &[u8]) -> Result<(), KeepFault>
        ensures told { ChangesFiles (held self.old) (held self.new)
            (λ old new. KeepsFile old new name.now bytes.now result) }
        ensures calls { Calls faults steady faultless self.old self.new (result ≡ Err KeepFault.Failed) };
}

/// Writes the whole piece. `Failed`, and a proper prefix of it is written, where the sink fails, or
/// takes no more of it.
pub fn write_all<K: Sink>(sink: &mut K, piece: &[u8]) -> Result<(), Failed>
    ensures { Sends K.written K.faults K.steady K.has_room sink.old sink.new result piece.now }
{
    let mut rest = piece;
    while !rest.is_empty() {
        let written = sink.push(rest)?;
        if written == 0 {
            return Err(Failed);
        }
        rest = &rest[written..];
    }
    Ok(())
}
