//! Devices over memory. They tell all that they hold, and fail at the calls that they were told to.

ghost use Rattle.std.specs.Prelude.{◌≡◌, ℕ, ◌+◌, ◌-◌, ◌<◌, ◌≤◌, ◌↔◌, List, [], ◌∷◌, ◌++◌, length, take, min, None, Some, Err, Contains, IsErr, IfOk, OnOk, OnErr, ⊤};
ghost use Rattle.std.specs.declared.option.Option.{Option};
ghost use Rattle.std.specs.Option.{option_copied};
ghost use Rattle.std.specs.FinMap as map;
ghost use Rattle.shell_io.specs.InMemory.{Files, SourceState, SinkState, StoreState, source_after, source_after_fault, given_by, RefusesPush, sink_after, sink_after_fault, accepted_by, store_after_fetch, store_after_keep};
ghost use Rattle.shell_io.specs.Storing.{FetchesFile};

use super::device::{Failed, FetchFault, KeepFault, Sink, Source, Store};
use elem_core::NoMemory;
use std::alloc::Global;
use std::collections::BTreeMap;
use std::marker::Model;

/// A source over memory. It gives at most `piece` bytes a call.
#[derive(Drop)]
pub struct MemSource {
    bytes: Vec<u8>,
    given: usize,
    piece: usize,
    fails: Vec<u64>,
    call: u64,
    faults: u64,
}

impl Model for MemSource {
    ghost use Rattle.std.specs.Prelude.{◌<◌, ◌≤◌, drop, vec_len};
    ghost use Rattle.shell_io.specs.InMemory.{SourceState};

    ghost Value = { SourceState };

    ghost view = { λ s. record {
      left = drop s.given s.bytes.items;
      piece = s.piece;
      fails = s.fails.items;
      call = s.call;
      faults = s.faults;
    } };

    ghost invariant = { λ s. (s.given ≤ vec_len s.bytes) × (0 < s.piece) };
}

impl MemSource {
    /// A source of these bytes. The calls whose numbers are listed fail, counted from 0.
    pub fn new(bytes: Vec<u8>, piece: usize, fails: Vec<u64>) -> MemSource
        requires { 0 < piece }
        ensures { result ≡ record {
          left = bytes.items;
          piece = piece;
          fails = fails.items;
          call = 0;
          faults = 0;
        } }
    {
        MemSource {
            bytes,
            given: 0,
            piece,
            fails,
            call: 0,
            faults: 0,
        }
    }

    /// The bytes still to come.
    pub fn rest(&self) -> &[u8]
        ensures { result.now ≡ self.now.left }
    {
        &self.bytes[self.given..]
    }
}

impl Source for MemSource {
    ghost left = { λ s. Some s.left };

    ghost faults = { λ s. s.faults };

    ghost faultless = { λ s. s.fails ≡ [] };

    ghost steady = { λ _. ⊤ };

    ghost ample = { λ _ _. ⊥ };

    fn pull(&mut self, buf: &mut [u8]) -> Result<usize, Failed>
        requires { 0 < length buf.old }

        ensures fails { IsErr result ↔ Contains self.old.fails self.old.call }
        ensures failed { OnErr result (self.new ≡ source_after_fault self.old) }
        ensures kept { OnErr result (buf.new ≡ buf.old) }
        ensures given { IfOk result (λ n. n ≡ given_by self.old (length buf.old)) }
        ensures moved { IfOk result (λ n. take n buf.new ≡ take n self.old.left) }
        ensures after { IfOk result (λ n. self.new ≡ source_after self.old n) }
        ensures at_end { IfOk result (λ n. n ≡ 0 → self.old.left ≡ []) }
        ensures counted { self.old.faults ≤ self.new.faults }
    {
        let listed = self.fails.contains(&self.call);
        self.call = self.call.saturating_add(1);
        if listed {
            self.faults = self.faults.saturating_add(1);
            return Err(Failed);
        }
        let rest = &self.bytes[self.given..];
        let count = buf.len().min(self.piece).min(rest.len());
        buf[..count].copy_from_slice(&rest[..count]);
        self.given += count;
        Ok(count)
    }
}

/// A sink over memory. It accepts at most `piece` bytes a call, and at most the room that is left.
#[derive(Drop)]
pub struct MemSink {
    bytes: Vec<u8>,
    room: usize,
    piece: usize,
    fails: Vec<u64>,
    call: u64,
    faults: u64,
}

impl Model for MemSink {
    ghost use Rattle.std.specs.Prelude.{◌+◌, ◌<◌, ◌≤◌, vec_len, vec_capacity};
    ghost use Rattle.shell_io.specs.InMemory.{SinkState};

    ghost Value = { SinkState };

    ghost view = { λ s. record {
      written = s.bytes.items;
      room = s.room;
      piece = s.piece;
      fails = s.fails.items;
      call = s.call;
      faults = s.faults;
    } };

    ghost invariant = { λ s. (vec_len s.bytes + s.room ≤ vec_capacity s.bytes) × (0 < s.piece) };
}

impl MemSink {
    /// A sink with memory for `room` bytes. The calls whose numbers are listed fail, counted from 0.
    pub fn new(
        alloc: Global,
        room: usize,
        piece: usize,
        fails: Vec<u64>,
    ) -> Result<MemSink, NoMemory>
        requires { 0 < piece }
        ensures { IfOk result (λ sink. sink ≡ record {
          written = [];
          room = room;
          piece = piece;
          fails = fails.items;
          call = 0;
          faults = 0;
        }) }
    {
        let bytes = Vec::with_capacity(alloc, room)?;
        Ok(MemSink {
            bytes,
            room,
            piece,
            fails,
            call: 0,
            faults: 0,
        })
    }

    /// The bytes written.
    pub fn bytes(&self) -> &[u8]
        ensures { result.now ≡ self.now.written }
    {
        &self.bytes
    }
}

impl Sink for MemSink {
    ghost written = { λ s. Some s.written };

    ghost faults = { λ s. s.faults };

    ghost steady = { λ _. ⊤ };

    ghost has_room = { λ s n. (s.fails ≡ []) × (n ≤ s.room) × (0 < s.piece) };

    /// Takes no memory: `new` took it.
    fn push(&mut self, piece: &[u8]) -> Result<usize, Failed>
        ensures fails { IsErr result ↔ RefusesPush self.old piece.now }
        ensures failed { OnErr result (self.new ≡ sink_after_fault self.old) }
        ensures accepted { IfOk result (λ n. n ≡ accepted_by self.old (length piece.now)) }
        ensures after { IfOk result (λ n. self.new ≡ sink_after self.old (take n piece.now)) }
        ensures some { IfOk result (λ n. 0 < length piece.now → 0 < n) }
        ensures counted { self.old.faults ≤ self.new.faults }
    {
        let listed = self.fails.contains(&self.call);
        self.call = self.call.saturating_add(1);
        if listed || (self.room == 0 && !piece.is_empty()) {
            self.faults = self.faults.saturating_add(1);
            return Err(Failed);
        }
        let count = piece.len().min(self.piece).min(self.room);
        // There is room for these bytes, so nothing is refused.
        let _ = self.bytes.extend_from_slice(&piece[..count]);
        self.room -= count;
        Ok(count)
    }
}

/// A store over memory.
#[derive(Drop)]
pub struct MemStore {
    alloc: Global,
    files: BTreeMap<String, Vec<u8>>,
    fetch_fails: Vec<u64>,
    keep_fails: Vec<u64>,
    fetch_call: u64,
    keep_call: u64,
    faults: u64,
}

impl Model for MemStore {
    ghost use Rattle.shell_io.specs.InMemory.{StoreState, store_code, files_of};

    ghost Value = { StoreState };

    ghost coded = { store_code };

    ghost view = { λ s. record {
      held = files_of s.files.entries;
      fetch_fails = s.fetch_fails.items;
      keep_fails = s.keep_fails.items;
      fetch_call = s.fetch_call;
      keep_call = s.keep_call;
      faults = s.faults;
    } };
}

impl MemStore {
    /// A store that holds no file. The fetches and the keeps whose numbers are listed fail, each
    /// counted from 0.
    pub fn new(alloc: Global, fetch_fails: Vec<u64>, keep_fails: Vec<u64>) -> MemStore
        ensures { result ≡ record {
          held = map.empty;
          fetch_fails = fetch_fails.items;
          keep_fails = keep_fails.items;
          fetch_call = 0;
          keep_call = 0;
          faults = 0;
        } }
    {
        MemStore {
            alloc,
            files: BTreeMap::new(alloc),
            fetch_fails,
            keep_fails,
            fetch_call: 0,
            keep_call: 0,
            faults: 0,
        }
    }

    /// The bytes of a file that is held, None exactly where the name isn't.
    pub fn file(&self, name: &str) -> Option<&[u8]>
        ensures { option_copied result ≡ map.get self.now.held name.now }
    {
        match self.files.get(name) {
            Some(bytes) => Some(bytes.as_slice()),
            None => None,
        }
    }
}

impl Store for MemStore {
    ghost held = { λ s. Some s.held };

    ghost faults = { λ s. s.faults };

    ghost faultless = { λ s. (s.fetch_fails ≡ []) × (s.keep_fails ≡ []) };

    ghost steady = { λ _. ⊤ };

    fn fetch(&mut self, name: &str, limit: usize, into: &mut Vec<u8>) -> Result<(), FetchFault>
        requires { into.old.items ≡ [] }
        ensures fails { (result ≡ Err FetchFault.Failed) ↔ Contains self.old.fetch_fails self.old.fetch_call }
        ensures fetched { FetchesFile (map.get self.old.held name.now) limit result into.new.items }
        ensures within { OnOk result (length into.new.items ≤ limit) }
        ensures after { self.new ≡ store_after_fetch self.old result }
        ensures counted { self.old.faults ≤ self.new.faults }
    {
        let listed = self.fetch_fails.contains(&self.fetch_call);
        self.fetch_call = self.fetch_call.saturating_add(1);
        if listed {
            self.faults = self.faults.saturating_add(1);
            return Err(FetchFault::Failed);
        }
        let Some(bytes) = self.file(name) else {
            return Err(FetchFault::Missing);
        };
        if bytes.len() > limit {
            return Err(FetchFault::Large);
        }
        into.extend_from_slice(bytes)
            .map_err(|_| FetchFault::Memory)
    }

    /// Where it is refused, the files are as they were.
    fn keep(&mut self, name: &str, bytes: &[u8]) -> Result<(), KeepFault>
        ensures fails { (result ≡ Err KeepFault.Failed) ↔ Contains self.old.keep_fails self.old.keep_call }
        ensures after { self.new ≡ store_after_keep self.old name.now bytes.now result }
        ensures counted { self.old.faults ≤ self.new.faults }
    {
        let listed = self.keep_fails.contains(&self.keep_call);
        self.keep_call = self.keep_call.saturating_add(1);
        if listed {
            self.faults = self.faults.saturating_add(1);
            return Err(KeepFault::Failed);
        }
        let name = String::from_str(self.alloc, name)?;
        let bytes = Vec::from_slice(self.alloc, bytes)?;
        self.files.insert(name, bytes)?;
        Ok(())
    }
}
