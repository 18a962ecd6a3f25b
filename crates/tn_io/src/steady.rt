//! Ends in memory that never fail.
ghost use Rattle.std.specs.Prelude.{◌≡◌, ◌≤◌, ◌<◌, ◌+◌, ◌++◌, [], vec_len, vec_capacity, length, min, take, drop, Ok, Some, None, IfOk, option_map};
ghost use Rattle.std.specs.Io.{ReadsAtMost, WritesAtMost};
ghost use Rattle.std.specs.Io.KnownBytes.{ReadConsumes};
ghost use Rattle.tn_io.specs.Sink.{Grows};
ghost use Rattle.tn_io.specs.Ends.{moved_count, filled, told_within};

use crate::sink::{Sink, WriteFailed};
use crate::source::{ReadFailed, Source};
use std::alloc::Global;
use std::marker::Model;
use tn_base::OutOfMemory;

/// Bytes in memory, given in order and at most a chunk at a call. Reading never fails.
#[derive(Drop)]
pub struct SteadySource {
    bytes: Vec<u8>,
    taken: usize,
    chunk: usize,
}

impl Model for SteadySource {
    ghost use Rattle.std.specs.Prelude.{◌≤◌, drop, length};
    ghost use Rattle.tn_io.specs.Ends.{SourceState};

    ghost Value = { SourceState };

    ghost view = { λ a. record { unread = drop a.taken a.bytes.items; chunk = a.chunk } };

    ghost invariant = { λ a. (a.taken ≤ length a.bytes.items) × (1 ≤ a.chunk) };
}

impl SteadySource {
    /// A source of these bytes that gives at most `chunk` of them at a call. `chunk` is at least 1.
    pub fn new(bytes: Vec<u8>, chunk: usize) -> SteadySource
        requires { 1 ≤ chunk }
        ensures { result ≡ record { unread = bytes.items; chunk = chunk } }
    {
        SteadySource {
            bytes,
            taken: 0,
            chunk,
        }
    }

    /// Moves the next bytes, as `Source::read` does, and answers how many they are.
    pub(crate) fn give(&mut self, into: &mut [u8]) -> usize
        ensures chunk { 0 < self.old.chunk }
        ensures count { result ≡ moved_count self.old.chunk self.old.unread (length into.old) }
        ensures given { into.new ≡ filled into.old self.old.unread result }
        ensures rest { self.new ≡ record self.old { unread = drop result self.old.unread } }
    {
        let rest = &self.bytes[self.taken..];
        let count = self.chunk.min(rest.len()).min(into.len());
        into[..count].copy_from_slice(&rest[..count]);
        self.taken += count;
        count
    }
}

impl Source for SteadySource {
    ghost left = { λ a. Some a.unread };

    ghost faults = { λ _. 0 };

    fn read(&mut self, into: &mut [u8]) -> Result<usize, ReadFailed>
        ensures bound { ReadsAtMost result into.new }
        ensures bytes { ReadConsumes (Some self.old.unread) (Some self.new.unread) result into.new }
        ensures count { result
            ≡ Ok (moved_count self.old.chunk self.old.unread (length into.old)) }
        ensures given { IfOk result (λ count. into.new ≡ filled into.old self.old.unread count) }
        ensures rest { IfOk result (λ count. self.new
            ≡ record self.old { unread = drop count self.old.unread }) }
    {
        Ok(self.give(into))
    }
}

/// Appends bytes where their room was taken before. It takes no memory.
pub(crate) fn store(bytes: &mut Vec<u8>, piece: &[u8])
    requires { vec_len bytes.old + length piece.now ≤ vec_capacity bytes.old }
    ensures items { bytes.new.items ≡ bytes.old.items ++ piece.now }
    ensures capacity { vec_capacity bytes.old ≤ vec_capacity bytes.new }
{
    let stored = bytes.extend_from_slice(piece);
    prove!(stored.is_ok());
}

/// Room in memory that takes any bytes, at most a chunk at a call. Writing never fails.
///
/// It tells the bytes written while they fit its room; past that it drops what it takes, and tells
/// nothing.
#[derive(Drop)]
pub struct SteadySink {
    bytes: Vec<u8>,
    room: usize,
    chunk: usize,
    is_past: bool,
}

impl Model for SteadySink {
    ghost use Rattle.std.specs.Prelude.{◌≤◌, length, Some, None, if◌then◌else◌, vec_capacity};
    ghost use Rattle.tn_io.specs.Ends.{SinkState};

    ghost Value = { SinkState };

    ghost view = { λ a. record {
      told = (if a.is_past then None else Some a.bytes.items);
      room = a.room;
      chunk = a.chunk;
    } };

    ghost invariant = { λ a.
        (length a.bytes.items ≤ a.room) × (a.room ≤ vec_capacity a.bytes) × (1 ≤ a.chunk) };
}

impl SteadySink {
    /// A sink with nothing written, that tells up to `room` bytes and takes at most `chunk` of them
    /// at a call. `chunk` is at least 1.
    pub fn with_room(alloc: Global, room: usize, chunk: usize) -> Result<SteadySink, OutOfMemory>
        requires { 1 ≤ chunk }
        ensures { IfOk result (λ sink. sink
            ≡ record { told = Some []; room = room; chunk = chunk }) }
    {
        Ok(SteadySink {
            bytes: Vec::with_capacity(alloc, room)?,
            room,
            chunk,
            is_past: false,
        })
    }

    /// The bytes written, or nothing once they were more than the room.
    pub fn written(&self) -> Option<&[u8]>
        ensures { option_map (λ bytes. bytes.now) result ≡ self.now.told }
    {
        if self.is_past {
            None
        } else {
            Some(&self.bytes)
        }
    }
}

impl Sink for SteadySink {
    ghost written = { λ a. a.told };

    ghost faults = { λ _. 0 };

    fn write(&mut self, piece: &[u8]) -> Result<usize, WriteFailed>
        ensures bound { WritesAtMost result piece.now }
        ensures progress { IfOk result (λ count. 0 < length piece.now → 0 < count) }
        ensures bytes { IfOk result (λ count.
            Grows self.old.told self.new.told (take count piece.now)) }
        ensures count { result ≡ Ok (min self.old.chunk (length piece.now)) }
        ensures told { IfOk result (λ count. self.new ≡ record self.old {
          told = told_within self.old.room self.old.told (take count piece.now);
        }) }
    {
        let count = self.chunk.min(piece.len());
        if self.is_past || count > self.room - self.bytes.len() {
            self.is_past = true;
        } else {
            store(&mut self.bytes, &piece[..count]);
        }
        Ok(count)
    }
}
