//! Reading and writing over the readers and writers of std.

use std::io::{self, Read, Write};
use std::test::Fail;
use tn_io::{ReadFailed, Sink, Source, StdSink, StdSource, WriteFailed, read_all, write_all};

/// Moves up to four bytes at a call. The second call fails, and so does the second flush.
#[derive(Drop)]
struct Faltering<T> {
    inner: T,
    calls: u8,
    flushes: u8,
}

impl<T> Faltering<T> {
    fn over(inner: T) -> Faltering<T> {
        Faltering {
            inner,
            calls: 0,
            flushes: 0,
        }
    }
}

impl<R: Read> Read for Faltering<R> {
    fn read(&mut self, into: &mut [u8]) -> io::Result<usize> {
        self.calls = self.calls.saturating_add(1);
        if self.calls == 2 {
            return Err(io::ErrorKind::Interrupted.into());
        }
        let count = into.len().min(4);
        self.inner.read(&mut into[..count])
    }
}

impl<W: Write> Write for Faltering<W> {
    fn write(&mut self, piece: &[u8]) -> io::Result<usize> {
        self.calls = self.calls.saturating_add(1);
        if self.calls == 2 {
            return Err(io::ErrorKind::Interrupted.into());
        }
        self.inner.write(&piece[..piece.len().min(4)])
    }

    fn flush(&mut self) -> io::Result<()> {
        self.flushes = self.flushes.saturating_add(1);
        if self.flushes == 2 {
            return Err(io::ErrorKind::Other.into());
        }
        self.inner.flush()
    }
}

#[test]
fn reads_and_tells_a_failure(rt: HostRuntime) -> Result<(), Fail> {
    let mut whole = StdSource::new(&b"steel and lumber"[..]);
    let bytes = read_all(rt.alloc(), &mut whole, 16)?;
    assert!(rt; bytes.as_slice() == &b"steel and lumber"[..]);

    let mut source = StdSource::new(Faltering::over(&b"steel"[..]));
    let mut into = [0; 8];
    let first = source.read(&mut into);
    let second = source.read(&mut into);
    let third = source.read(&mut into);
    let read = [first, second, third, source.read(&mut into)];
    assert!(rt; read == [Ok(4), Err(ReadFailed), Ok(1), Ok(0)]);
    Ok(())
}

#[test]
fn writes_and_tells_a_failure(rt: HostRuntime) -> Result<(), Fail> {
    let mut whole = Vec::new(rt.alloc());
    let mut sink = StdSink::new(&mut whole);
    let wrote = write_all(&mut sink, b"steel and lumber");
    assert!(rt; (wrote, whole.as_slice()) == (Ok(()), &b"steel and lumber"[..]));

    let mut part = Vec::new(rt.alloc());
    let mut sink = StdSink::new(Faltering::over(&mut part));
    let stopped = write_all(&mut sink, b"steel");
    let unflushed = sink.write(b"l");
    let wrote = [unflushed, sink.write(b"s")];
    assert!(rt; (stopped, wrote) == (Err(WriteFailed), [Err(WriteFailed), Ok(1)]));
    assert!(rt; part.as_slice() == &b"steels"[..]);
    Ok(())
}

#[test]
fn tells_a_write_of_nothing(rt: HostRuntime) {
    let mut room = [0u8; 2];
    let mut sink = StdSink::new(&mut room[..]);
    let wrote = [sink.write(b"steel"), sink.write(b"eel"), sink.write(b"")];
    assert!(rt; wrote == [Ok(2), Err(WriteFailed), Ok(0)]);
}
