//! A sink that keeps all that is written.

ghost use Rattle.std.specs.Prelude.{◌≡◌, ◌≤◌, ◌<◌, [], Ok, Some, length, take, IfOk, OnErr};
ghost use Rattle.std.specs.Io.{WritesAtMost};
ghost use Rattle.tn_io.specs.Counts.{Rose};
ghost use Rattle.tn_io.specs.Sink.{Grows};

use std::alloc::Global;
use tn_io::{Sink, WriteFailed};

/// Bytes in memory, which grow as they are written. A write fails only for want of memory.
#[derive(Drop)]
pub struct KeptSink {
    pub bytes: Vec<u8>,
    pub faults: u64,
}

impl KeptSink {
    /// A sink with nothing written.
    pub fn new(alloc: Global) -> KeptSink
        ensures bytes { result.bytes.items ≡ [] }
        ensures faults { result.faults ≡ 0 }
    {
        KeptSink {
            bytes: Vec::new(alloc),
            faults: 0,
        }
    }
}

impl Sink for KeptSink {
    ghost written = { λ sink. Some sink.bytes.items };

    ghost faults = { λ sink. sink.faults };

    fn write(&mut self, piece: &[u8]) -> Result<usize, WriteFailed>
        ensures bound { WritesAtMost result piece.now }
        ensures progress { IfOk result (λ count. 0 < length piece.now → 0 < count) }
        ensures bytes { IfOk result (λ count.
            Grows (Some self.old.bytes.items) (Some self.new.bytes.items) (take count piece.now)) }
        ensures unchanged { OnErr result (Some self.new.bytes.items ≡ Some self.old.bytes.items) }
        ensures empty { piece.now ≡ [] → result ≡ Ok 0 }
        ensures failed { OnErr result (Rose self.old.faults self.new.faults) }
        ensures later { self.old.faults ≤ self.new.faults }
    {
        if self.bytes.extend_from_slice(piece).is_err() {
            self.faults = self.faults.saturating_add(1);
            return Err(WriteFailed);
        }
        Ok(piece.len())
    }
}
