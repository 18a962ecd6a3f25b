//! Ends in memory that fail at listed calls.
ghost use Rattle.std.specs.Prelude.{◌≡◌, ◌⊎◌, ◌↔◌, ◌-◌, ◌≤◌, ◌<◌, [], ◌++◌, Some, Ok, length, take, drop, IfOk, OnErr, IsErr, IsTrue, Contains};
ghost use Rattle.std.specs.Io.{ReadsAtMost, WritesAtMost};
ghost use Rattle.std.specs.Io.KnownBytes.{ReadConsumes};
ghost use Rattle.tn_io.specs.Counts.{next_count, Rose};
ghost use Rattle.tn_io.specs.Ends.{moved_count, filled};

use crate::sink::{Sink, WriteFailed};
use crate::source::{ReadFailed, Source};
use crate::steady::{SteadySource, store};
use std::alloc::Global;
use std::marker::Model;
use tn_base::OutOfMemory;

/// Bytes in memory, given in order and at most a chunk at a call. Listed calls fail.
#[derive(Drop)]
pub struct MemorySource {
    steady: SteadySource,
    fails: Vec<u64>,
    calls: u64,
    faults: u64,
}

impl Model for MemorySource {
    ghost use Rattle.tn_io.specs.Ends.{FailingSourceState};

    ghost Value = { FailingSourceState };

    ghost view = { λ a. record {
      unread = a.steady.unread;
      chunk = a.steady.chunk;
      fails = a.fails.items;
      calls = a.calls;
      faults = a.faults;
    } };
}

impl MemorySource {
    /// A source of these bytes that gives at most `chunk` of them at a call. The calls whose
    /// numbers, from 1, stand in `fails` fail. `chunk` is at least 1.
    pub fn new(bytes: Vec<u8>, chunk: usize, fails: Vec<u64>) -> MemorySource
        requires { 1 ≤ chunk }
        ensures { result ≡ record {
          unread = bytes.items;
          chunk = chunk;
          fails = fails.items;
          calls = 0;
          faults = 0;
        } }
    {
        MemorySource {
            steady: SteadySource::new(bytes, chunk),
            fails,
            calls: 0,
            faults: 0,
        }
    }
}

impl Source for MemorySource {
    ghost left = { λ a. Some a.unread };

    ghost faults = { λ a. a.faults };

    fn read(&mut self, into: &mut [u8]) -> Result<usize, ReadFailed>
        ensures bound { ReadsAtMost result into.new }
        ensures bytes { ReadConsumes (Some self.old.unread) (Some self.new.unread) result into.new }
        ensures failed { OnErr result (Rose self.old.faults self.new.faults) }
        ensures later { self.old.faults ≤ self.new.faults }

        // Exactly the listed calls fail, and a failed call is counted and changes nothing else.
        ensures listed { IsErr result ↔ Contains self.old.fails (next_count self.old.calls) }
        ensures counted { OnErr result (self.new ≡ record self.old {
          calls = next_count self.old.calls;
          faults = next_count self.old.faults;
        }) }

        ensures count { IfOk result (λ count. count
            ≡ moved_count self.old.chunk self.old.unread (length into.old)) }
        ensures given { IfOk result (λ count. into.new ≡ filled into.old self.old.unread count) }
        ensures rest { IfOk result (λ count. self.new ≡ record self.old {
          unread = drop count self.old.unread;
          calls = next_count self.old.calls;
        }) }
    {
        self.calls = self.calls.saturating_add(1);
        if self.fails.contains(&self.calls) {
            self.faults = self.faults.saturating_add(1);
            return Err(ReadFailed);
        }
        self.steady.read(into)
    }
}

/// Room in memory for bytes, taken at most a chunk at a call. Listed calls fail, and those that
/// find no room.
#[derive(Drop)]
pub struct MemorySink {
    bytes: Vec<u8>,
    room: usize,
    chunk: usize,
    fails: Vec<u64>,
    calls: u64,
    faults: u64,
}

impl Model for MemorySink {
    ghost use Rattle.std.specs.Prelude.{◌≤◌, length, vec_capacity};
    ghost use Rattle.tn_io.specs.Ends.{FailingSinkState};

    ghost Value = { FailingSinkState };

    ghost view = { λ a. record {
      stored = a.bytes.items;
      room = a.room;
      chunk = a.chunk;
      fails = a.fails.items;
      calls = a.calls;
      faults = a.faults;
    } };

    ghost invariant = { λ a.
        (length a.bytes.items ≤ a.room) × (a.room ≤ vec_capacity a.bytes) × (1 ≤ a.chunk) };
}

impl MemorySink {
    /// A sink with nothing written, that has room for `room` bytes and takes at most `chunk` of
    /// them at a call. The calls whose numbers, from 1, stand in `fails` fail. `chunk` is at least 1.
    pub fn new(
        alloc: Global,
        room: usize,
        chunk: usize,
        fails: Vec<u64>,
    ) -> Result<MemorySink, OutOfMemory>
        requires { 1 ≤ chunk }
        ensures { IfOk result (λ sink. sink ≡ record {
          stored = [];
          room = room;
          chunk = chunk;
          fails = fails.items;
          calls = 0;
          faults = 0;
        }) }
    {
        Ok(MemorySink {
            bytes: Vec::with_capacity(alloc, room)?,
            room,
            chunk,
            fails,
            calls: 0,
            faults: 0,
        })
    }

    /// Whether the present call, which is counted already, has to fail.
    fn is_refused(&self) -> bool
        ensures { IsTrue result
            ↔ (Contains self.now.fails self.now.calls ⊎ (length self.now.stored ≡ self.now.room)) }
    {
        self.bytes.len() == self.room || self.fails.contains(&self.calls)
    }

    /// The bytes written.
    pub fn written(&self) -> &[u8]
        ensures { result.now ≡ self.now.stored }
    {
        &self.bytes
    }
}

impl Sink for MemorySink {
    ghost written = { λ a. Some a.stored };

    ghost faults = { λ a. a.faults };

    fn write(&mut self, piece: &[u8]) -> Result<usize, WriteFailed>
        ensures bound { WritesAtMost result piece.now }
        ensures progress { IfOk result (λ count. 0 < length piece.now → 0 < count) }
        ensures empty { piece.now ≡ [] → result ≡ Ok 0 }
        ensures failed { OnErr result (Rose self.old.faults self.new.faults) }
        ensures later { self.old.faults ≤ self.new.faults }

        // A piece that isn't empty fails at exactly the listed calls, and where no room is left.
        ensures refused { 0 < length piece.now → (IsErr result ↔
            (Contains self.old.fails (next_count self.old.calls)
            ⊎ (length self.old.stored ≡ self.old.room))) }
        ensures counted { OnErr result (self.new ≡ record self.old {
          calls = next_count self.old.calls;
          faults = next_count self.old.faults;
        }) }

        ensures count { IfOk result (λ count. count
            ≡ moved_count self.old.chunk piece.now (self.old.room - length self.old.stored)) }
        ensures grown { IfOk result (λ count. self.new ≡ record self.old {
          stored = self.old.stored ++ take count piece.now;
          calls = next_count self.old.calls;
        }) }
    {
        self.calls = self.calls.saturating_add(1);
        if piece.is_empty() {
            return Ok(0);
        }
        if self.is_refused() {
            self.faults = self.faults.saturating_add(1);
            return Err(WriteFailed);
        }
        let space = self.room - self.bytes.len();
        let count = self.chunk.min(piece.len()).min(space);
        store(&mut self.bytes, &piece[..count]);
        Ok(count)
    }
}
