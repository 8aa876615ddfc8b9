//! The system for tests, but that one kind of its calls fails, or another program comes in between.

use std::alloc::Allocator;
use std::fs::{Metadata, OpenFile, OpenOptions, Permissions};
use std::io;
use std::io::{Error, ErrorKind, Read, Seek, SeekFrom, Write};
use std::rt::Files;

/// The kind of call that fails. A file is read and written two bytes a call, and fails behind so many of its calls.
#[derive(Clone, Copy, Debug, PartialEq, Eq)]
pub enum Fails {
    Look,
    Open,
    Read(u32),
    /// The read is interrupted, and one behind it goes on.
    Interrupt(u32),
    Write(u32),
    Sync,
    Rename,
    /// Nothing fails, but before a file is opened another program puts a link to another in its place.
    Link,
}

/// Where the other program's link leads.
pub const ELSEWHERE: &str = "elsewhere-in-a-test";

#[derive(Drop)]
pub struct Failing<R> {
    pub system: R,
    pub fails: Fails,
}

impl Fails {
    // Fails where this call is of that kind.
    fn at(self, call: Fails) -> io::Result<()> {
        if self == call {
            Err(Error::from(ErrorKind::Other))
        } else {
            Ok(())
        }
    }
}

impl<R: Files> Files for Failing<R> {
    type File = FailingFile<R::File>;

    type Dir = R::Dir;

    fn open_file(&self, how: &OpenOptions, path: &str) -> io::Result<FailingFile<R::File>> {
        self.fails.at(Fails::Open)?;
        if self.fails == Fails::Link {
            self.system.remove_file(path)?;
            self.system.symlink(ELSEWHERE, path)?;
        }
        let file = self.system.open_file(how, path)?;
        Ok(FailingFile {
            file,
            fails: self.fails,
            calls: 0,
        })
    }

    fn open_dir(&self, path: &str) -> io::Result<R::Dir> {
        self.system.open_dir(path)
    }

    fn metadata(&self, path: &str) -> io::Result<Metadata> {
        self.system.metadata(path)
    }

    fn symlink_metadata(&self, path: &str) -> io::Result<Metadata> {
        self.fails.at(Fails::Look)?;
        self.system.symlink_metadata(path)
    }

    fn copy(&self, from: &str, to: &str) -> io::Result<u64> {
        self.system.copy(from, to)
    }

    fn rename(&self, from: &str, to: &str) -> io::Result<()> {
        self.fails.at(Fails::Rename)?;
        self.system.rename(from, to)
    }

    fn remove_file(&self, path: &str) -> io::Result<()> {
        self.system.remove_file(path)
    }

    fn create_dir(&self, path: &str) -> io::Result<()> {
        self.system.create_dir(path)
    }

    fn remove_dir(&self, path: &str) -> io::Result<()> {
        self.system.remove_dir(path)
    }

    fn remove_dir_all<B: Allocator>(&self, alloc: B, path: &str) -> io::Result<()> {
        self.system.remove_dir_all(alloc, path)
    }
}

#[derive(Drop)]
pub struct FailingFile<F> {
    file: F,
    fails: Fails,
    calls: u32,
}

impl<F> FailingFile<F> {
    // How many calls came before this one.
    fn next(&mut self) -> u32 {
        let before = self.calls;
        self.calls = before.saturating_add(1);
        before
    }
}

impl<F: Read> Read for FailingFile<F> {
    fn read(&mut self, buf: &mut [u8]) -> io::Result<usize> {
        let before = self.next();
        self.fails.at(Fails::Read(before))?;
        if self.fails == Fails::Interrupt(before) {
            return Err(Error::from(ErrorKind::Interrupted));
        }
        let most = buf.len().min(2);
        self.file.read(&mut buf[..most])
    }
}

impl<F: Write> Write for FailingFile<F> {
    fn write(&mut self, buf: &[u8]) -> io::Result<usize> {
        let before = self.next();
        self.fails.at(Fails::Write(before))?;
        let most = buf.len().min(2);
        self.file.write(&buf[..most])
    }

    fn flush(&mut self) -> io::Result<()> {
        self.file.flush()
    }
}

impl<F: Seek> Seek for FailingFile<F> {
    fn seek(&mut self, to: SeekFrom) -> io::Result<u64> {
        self.file.seek(to)
    }
}

impl<F: OpenFile> OpenFile for FailingFile<F> {
    fn metadata(&self) -> io::Result<Metadata> {
        self.file.metadata()
    }

    fn set_len(&self, size: u64) -> io::Result<()> {
        self.file.set_len(size)
    }

    fn sync_all(&self) -> io::Result<()> {
        self.fails.at(Fails::Sync)?;
        self.file.sync_all()
    }

    fn sync_data(&self) -> io::Result<()> {
        self.file.sync_data()
    }

    fn set_permissions(&self, perm: Permissions) -> io::Result<()> {
        self.file.set_permissions(perm)
    }
}
