//! The devices of the system: standard input and output, and the files of the current directory.
//!
//! A source and a sink tell what their reader has left and what their writer holds, where that is known, as it is over
//! memory; of the system's own streams it isn't. The folder tells nothing. Each call that fails raises their count.

ghost use Rattle.std.specs.Prelude.{◌≡◌, ◌≢◌, ◌<◌, ◌≤◌, ◌++◌, length, None, Err, IfOk, OnOk, IfSome, ⊤, string_bytes};
ghost use Rattle.std.specs.Io.KnownBytes.{Appends};
ghost use Rattle.elem_core.specs.Naming.{IsName};
ghost use Rattle.shell_io.specs.Fault.{one_more};

use super::device::{Failed, FetchFault, KeepFault, Sink, Source, Store};
use elem_core::is_name;
use std::alloc::AllocGlobal;
use std::fs::{File, Metadata, OpenFile, Permissions};
use std::io::{Error, ErrorKind, Read, Write};
use std::os::unix::fs::MetadataExt;
use std::rt::Files;
use std::{format, fs, io};

/// A source over a reader, as the runtime's standard input. Where the reader's bytes are known, it gives just these.
#[derive(Drop)]
pub struct StdSource<R> {
    input: R,
    faults: u64,
}

impl<R: Read> StdSource<R> {
    /// A source over this reader, which has failed at no call.
    pub fn new(input: R) -> StdSource<R>
        ensures input { result.input ≡ input }
        ensures faults { result.faults ≡ 0 }
    {
        StdSource { input, faults: 0 }
    }
}

impl<R: Read> Source for StdSource<R> {
    ghost left = { λ s. R.remaining s.input };

    ghost faults = { λ s. s.faults };

    ghost faultless = { λ _. ⊥ };

    ghost steady = { λ _. ⊤ };

    ghost ample = { λ _ _. ⊥ };

    /// One read of the reader, so it returns as soon as some bytes are there. A read that was
    /// interrupted is no fault: it is made again.
    fn pull(&mut self, buf: &mut [u8]) -> Result<usize, Failed> {
        // The call has to return, so the loop has an end; no read is interrupted so often.
        for _ in 0..u64::MAX {
            match self.input.read(buf) {
                Ok(count) => return Ok(count),
                Err(error) if error.kind() == ErrorKind::Interrupted => {}
                Err(_) => break,
            }
        }
        self.faults = self.faults.saturating_add(1);
        Err(Failed)
    }
}

/// A sink over a writer, as the runtime's standard output. Where the writer's bytes are known, it adds just what it tells.
#[derive(Drop)]
pub struct StdSink<W> {
    output: W,
    faults: u64,
}

impl<W: Write> StdSink<W> {
    /// A sink over this writer, which has failed at no call.
    pub fn new(output: W) -> StdSink<W>
        ensures output { result.output ≡ output }
        ensures faults { result.faults ≡ 0 }
    {
        StdSink { output, faults: 0 }
    }
}

impl<W: Write> Sink for StdSink<W> {
    ghost written = { λ s. W.contents s.output };

    ghost faults = { λ s. s.faults };

    ghost steady = { λ _. ⊤ };

    ghost has_room = { λ _ _. ⊥ };

    /// One write to the writer. One that was interrupted is made again, and one that takes nothing
    /// of a piece that has bytes is a fault.
    fn push(&mut self, piece: &[u8]) -> Result<usize, Failed> {
        // The call has to return, so the loop has an end; no write is interrupted so often.
        for _ in 0..u64::MAX {
            match self.output.write(piece) {
                Ok(count) if count > 0 || piece.is_empty() => return Ok(count),
                Err(error) if error.kind() == ErrorKind::Interrupted => {}
                _ => break,
            }
        }
        self.faults = self.faults.saturating_add(1);
        Err(Failed)
    }
}

/// The files of the current directory, under the names that `is_name` accepts. No other text names a
/// file here, so no path leaves the directory.
#[derive(Drop)]
pub struct DirStore<R> {
    system: R,
    faults: u64,
}

impl<R: Files> DirStore<R> {
    /// The files that this runtime reaches; no call has failed.
    pub fn new(system: R) -> DirStore<R>
        ensures { result.faults ≡ 0 }
    {
        DirStore { system, faults: 0 }
    }
}

impl<R: Files + AllocGlobal> Store for DirStore<R> {
    ghost held = { λ _. None };

    ghost faults = { λ s. s.faults };

    ghost faultless = { λ _. ⊥ };

    ghost steady = { λ _. ⊤ };

    /// Reads at most `limit + 1` bytes. What is no plain file of this directory is a fault: a folder,
    /// a device, a link.
    fn fetch(&mut self, name: &str, limit: usize, into: &mut Vec<u8>) -> Result<(), FetchFault>
        ensures named { ¬ IsName name.now → result ≡ Err FetchFault.Failed }
        ensures within { OnOk result (length into.new.items ≤ limit) }
        ensures fault { result ≡ Err FetchFault.Failed → self.new.faults ≡ one_more self.old.faults }
        ensures rest { ¬ (result ≡ Err FetchFault.Failed) → self.new.faults ≡ self.old.faults }
        ensures counted { self.old.faults ≤ self.new.faults }
    {
        let fetched = if is_name(name) {
            fetch_file(&self.system, name, limit, into)
        } else {
            Err(FetchFault::Failed)
        };
        if fetched == Err(FetchFault::Failed) {
            self.faults = self.faults.saturating_add(1);
        }
        fetched
    }

    /// Writes a new file beside the place and renames it, so that a call that is cut off leaves the
    /// old file.
    fn keep(&mut self, name: &str, bytes: &[u8]) -> Result<(), KeepFault>
        ensures named { ¬ IsName name.now → result ≡ Err KeepFault.Failed }
        ensures fault { result ≡ Err KeepFault.Failed → self.new.faults ≡ one_more self.old.faults }
        ensures rest { ¬ (result ≡ Err KeepFault.Failed) → self.new.faults ≡ self.old.faults }
        ensures counted { self.old.faults ≤ self.new.faults }
    {
        let kept = if is_name(name) {
            keep_file(&self.system, name, bytes)
        } else {
            Err(KeepFault::Failed)
        };
        if kept == Err(KeepFault::Failed) {
            self.faults = self.faults.saturating_add(1);
        }
        kept
    }
}

// So many files that calls left when they were cut off are passed over, and no more.
const MOST_LEFT: u32 = 1000;

fn fetch_file<R: Files>(
    system: &R,
    name: &str,
    limit: usize,
    into: &mut Vec<u8>,
) -> Result<(), FetchFault>
    ensures { OnOk result (length into.new.items ≤ limit) }
{
    let file = match open_plain(system, name) {
        Ok(file) => file,
        Err(error) if error.kind() == ErrorKind::NotFound => return Err(FetchFault::Missing),
        Err(_) => return Err(FetchFault::Failed),
    };
    read_within(file, limit, into)
}

// Appends all that the reader has left, if the vector then has no more bytes than the limit. It reads at most one byte past that.
pub(crate) fn read_within<F: Read + Drop>(
    input: F,
    limit: usize,
    into: &mut Vec<u8>,
) -> Result<(), FetchFault>
    ensures within { OnOk result (length into.new.items ≤ limit) }
    ensures all { OnOk result (IfSome (F.remaining input) (λ bytes. into.new.items ≡ into.old.items ++ bytes)) }
    ensures large { result ≡ Err FetchFault.Large → IfSome (F.remaining input) (λ bytes. limit < length (into.old.items ++ bytes)) }
    ensures found { result ≢ Err FetchFault.Missing }
{
    let most = (limit as u64).saturating_add(1);
    match input.take(most).read_to_end(into) {
        Ok(_) if into.len() > limit => Err(FetchFault::Large),
        Ok(_) => Ok(()),
        Err(error) if is_want_of_memory(&error) => Err(FetchFault::Memory),
        Err(_) => Err(FetchFault::Failed),
    }
}

// The vector's own want of memory. The system's is an error like others.
fn is_want_of_memory(error: &Error) -> bool {
    error.kind() == ErrorKind::OutOfMemory && error.raw_os_error().is_none()
}

// The plain file that stands at this name itself: no folder, no device, and not what a link leads to.
fn plain_file<R: Files>(system: &R, name: &str) -> io::Result<Metadata> {
    let found = fs::symlink_metadata(system, name)?;
    if found.is_file() {
        Ok(found)
    } else {
        Err(Error::from(ErrorKind::InvalidInput))
    }
}

fn open_plain<R: Files>(system: &R, name: &str) -> io::Result<R::File> {
    let found = plain_file(system, name)?;
    let file = fs::open(system, name)?;
    let opened = file.metadata()?;
    // Another program may have put a link there in between.
    if opened.dev() == found.dev() && opened.ino() == found.ino() {
        Ok(file)
    } else {
        Err(Error::from(ErrorKind::InvalidInput))
    }
}

// The permissions of the file that a new one is to replace, if there is one. A renaming asks nobody
// whether that file may be written, so this does.
fn replaced<R: Files>(system: &R, name: &str) -> io::Result<Option<Permissions>> {
    match plain_file(system, name) {
        Ok(old) if old.permissions().readonly() => Err(Error::from(ErrorKind::PermissionDenied)),
        Ok(old) => Ok(Some(old.permissions())),
        Err(error) if error.kind() == ErrorKind::NotFound => Ok(None),
        Err(error) => Err(error),
    }
}

// A new file beside the one of this name, and its path, which is no name.
fn file_beside<R: Files + AllocGlobal>(
    system: &R,
    name: &str,
) -> Result<(R::File, String), KeepFault>
    ensures { IfOk result (λ made. ¬ IsName (string_bytes made.1)) }
{
    for left in 0..MOST_LEFT {
        // No name begins with a full stop, so this is no file that is kept.
        let path = format!(in system.alloc(); ".{name}.{left}")?;
        match File::create_new(system, path.as_str()) {
            Ok(file) => return Ok((file, path)),
            Err(error) if error.kind() == ErrorKind::AlreadyExists => {}
            Err(_) => break,
        }
    }
    Err(KeepFault::Failed)
}

// Writes the bytes behind what the new file holds, and gives it the permissions of the old one before, so that what was private stays
// so.
fn fill<F: Write + OpenFile>(file: &mut F, old: Option<Permissions>, bytes: &[u8]) -> io::Result<()>
    ensures { OnOk result (Appends (F.contents file.old) (F.contents file.new) bytes.now) }
{
    if let Some(permissions) = old {
        file.set_permissions(permissions)?;
    }
    file.write_all(bytes)?;
    file.sync_all()
}

fn keep_file<R: Files + AllocGlobal>(
    system: &R,
    name: &str,
    bytes: &[u8],
) -> Result<(), KeepFault> {
    let Ok(old) = replaced(system, name) else {
        return Err(KeepFault::Failed);
    };
    let (mut file, path) = file_beside(system, name)?;
    if fill(&mut file, old, bytes).is_ok() && fs::rename(system, path.as_str(), name).is_ok() {
        return Ok(());
    }
    // The call has failed already, whatever becomes of this.
    let _ = fs::remove_file(system, path.as_str());
    Err(KeepFault::Failed)
}
