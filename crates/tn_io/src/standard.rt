//! Ends over std's readers and writers: the edge to files, pipes and terminals.
ghost use Rattle.std.specs.Prelude.{◌≡◌, ◌≤◌, ◌<◌, [], None, Ok, length, take, IfOk, OnOk, OnErr};
ghost use Rattle.std.specs.Io.{ReadsAtMost, WritesAtMost};
ghost use Rattle.std.specs.Io.KnownBytes.{Appends, ReadConsumes};
ghost use Rattle.tn_io.specs.Counts.{next_count, Rose};
ghost use Rattle.tn_io.specs.StdEnds.{reader_of, read_faults, writer_of, write_faults};

use crate::sink::{Sink, WriteFailed};
use crate::source::{ReadFailed, Source};
use std::io::{Read, Write};

/// Reads from a reader of std. It tells the bytes that are left where the reader tells them;
/// standard input doesn't.
#[derive(Drop)]
pub struct StdSource<R> {
    inner: R,
    faults: u64,
}

impl<R: Read> StdSource<R> {
    /// A source over this reader, which hasn't failed yet.
    pub fn new(inner: R) -> StdSource<R>
        ensures reader { reader_of result ≡ inner }
        ensures faults { read_faults result ≡ 0 }
    {
        StdSource { inner, faults: 0 }
    }
}

impl<R: Read> Source for StdSource<R> {
    ghost left = { λ source. R.remaining (reader_of source) };

    ghost faults = { read_faults };

    /// One read of std. Any error of it, an interruption too, is a failure.
    fn read(&mut self, into: &mut [u8]) -> Result<usize, ReadFailed>
        ensures bound { ReadsAtMost result into.new }
        ensures bytes { ReadConsumes
            (R.remaining (reader_of self.old)) (R.remaining (reader_of self.new)) result into.new }
        ensures failed { OnErr result (Rose (read_faults self.old) (read_faults self.new)) }
        ensures later { read_faults self.old ≤ read_faults self.new }
        ensures counted { OnErr result (read_faults self.new ≡ next_count (read_faults self.old)) }
        ensures uncounted { OnOk result (read_faults self.new ≡ read_faults self.old) }
    {
        match self.inner.read(into) {
            Ok(count) => Ok(count),
            Err(_) => {
                self.faults = self.faults.saturating_add(1);
                Err(ReadFailed)
            }
        }
    }
}

/// Writes to a writer of std. It tells no bytes, since a flush may fail after its write was done.
#[derive(Drop)]
pub struct StdSink<W> {
    inner: W,
    faults: u64,
}

impl<W: Write> StdSink<W> {
    /// A sink over this writer, which hasn't failed yet.
    pub fn new(inner: W) -> StdSink<W>
        ensures writer { writer_of result ≡ inner }
        ensures faults { write_faults result ≡ 0 }
    {
        StdSink { inner, faults: 0 }
    }
}

impl<W: Write> Sink for StdSink<W> {
    ghost written = { λ _. None };

    ghost faults = { write_faults };

    /// One write of std and one flush. Any error of either, and a write of nothing, is a failure.
    fn write(&mut self, piece: &[u8]) -> Result<usize, WriteFailed>
        ensures bound { WritesAtMost result piece.now }
        ensures progress { IfOk result (λ count. 0 < length piece.now → 0 < count) }
        ensures passed_on { IfOk result (λ count. Appends
            (W.contents (writer_of self.old)) (W.contents (writer_of self.new))
            (take count piece.now)) }
        ensures empty { piece.now ≡ [] → result ≡ Ok 0 }
        ensures failed { OnErr result (Rose (write_faults self.old) (write_faults self.new)) }
        ensures later { write_faults self.old ≤ write_faults self.new }
        ensures counted { OnErr result
            (write_faults self.new ≡ next_count (write_faults self.old)) }
        ensures uncounted { OnOk result (write_faults self.new ≡ write_faults self.old) }
    {
        if piece.is_empty() {
            return Ok(0);
        }
        if let Ok(count) = self.inner.write(piece)
            && count > 0
            && self.inner.flush().is_ok()
        {
            return Ok(count);
        }
        self.faults = self.faults.saturating_add(1);
        Err(WriteFailed)
    }
}
