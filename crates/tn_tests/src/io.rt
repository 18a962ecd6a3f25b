//! Reading and writing over the ends in memory.
ghost use Rattle.std.specs.Prelude.{◌≢◌, ◌<◌, ◌^◌, Err, IsOk};

use std::alloc::Global;
use std::test::Fail;
use tn_io::{
    LineReader, LineStop, MemorySink, MemorySource, ReadStop, Source, SteadySink, SteadySource,
    WriteFailed, read_all, write_all,
};

/// What these tests read and write.
const TEXT: &[u8] = b"steel and lumber";

/// Reading over a source that never fails isn't failed.
fn read_steadily(
    alloc: Global,
    source: &mut SteadySource,
    limit: usize,
) -> Result<Vec<u8>, ReadStop>
    requires { limit < 2 ^ 31 }
    ensures { result ≢ Err ReadStop.Failed }
{
    read_all(alloc, source, limit)
}

/// Writing over a sink that never fails succeeds.
fn write_steadily(sink: &mut SteadySink, bytes: &[u8]) -> Result<(), WriteFailed>
    ensures { IsOk result }
{
    write_all(sink, bytes)
}

/// Whether what is read of a source is the text.
fn reads_text(alloc: Global, source: &mut SteadySource) -> bool {
    match read_steadily(alloc, source, 16) {
        Ok(read) => read.as_slice() == TEXT,
        Err(_) => false,
    }
}

#[test]
fn reads_to_the_end(rt: HostRuntime) -> Result<(), Fail> {
    for chunk in [1, 5, 16, 100] {
        let mut source = SteadySource::new(TEXT.to_vec(rt.alloc())?, chunk);
        assert!(rt; reads_text(rt.alloc(), &mut source), "by {chunk}");
    }
    Ok(())
}

/// Whether reading up to a limit stops for this reason, and what is read next is the rest.
fn stops_and_goes_on<S: Source>(
    alloc: Global,
    source: &mut S,
    limit: usize,
    reason: ReadStop,
    rest: &[u8],
) -> bool
    requires { limit < 2 ^ 31 }
{
    let stopped = read_all(alloc, source, limit).err();
    match read_all(alloc, source, limit) {
        Ok(read) => stopped == Some(reason) && read.as_slice() == rest,
        Err(_) => false,
    }
}

#[test]
fn stops_past_the_limit(rt: HostRuntime) -> Result<(), Fail> {
    let mut source = SteadySource::new(TEXT.to_vec(rt.alloc())?, 7);
    assert!(rt; stops_and_goes_on(rt.alloc(), &mut source, 8, ReadStop::TooLong, b" lumber"));
    Ok(())
}

/// The text in pieces of 10 bytes, of which the second call fails.
fn failing_source(alloc: Global) -> Result<MemorySource, Fail> {
    let fails = [2u64].to_vec(alloc)?;
    Ok(MemorySource::new(TEXT.to_vec(alloc)?, 10, fails))
}

#[test]
fn stops_at_a_failing_read(rt: HostRuntime) -> Result<(), Fail> {
    let mut source = failing_source(rt.alloc())?;
    assert!(rt; stops_and_goes_on(rt.alloc(), &mut source, 16, ReadStop::Failed, b"lumber"));
    Ok(())
}

/// Room for 20 bytes, of which each call takes 8 and the calls with these numbers fail.
fn sink_failing(alloc: Global, fails: &[u64]) -> Result<MemorySink, Fail> {
    Ok(MemorySink::new(alloc, 20, 8, fails.to_vec(alloc)?)?)
}

/// Whether writing ends like this, and leaves these bytes in the room.
fn leaves(sink: &mut MemorySink, bytes: &[u8], end: Result<(), WriteFailed>, left: &[u8]) -> bool {
    write_all(sink, bytes) == end && sink.written() == left
}

#[test]
fn writes_whole_or_what_there_is_room_for(rt: HostRuntime) -> Result<(), Fail> {
    let mut sink = sink_failing(rt.alloc(), &[])?;
    let whole = leaves(&mut sink, TEXT, Ok(()), TEXT);
    let full = leaves(
        &mut sink,
        b" and coal",
        Err(WriteFailed),
        b"steel and lumber and",
    );
    assert!(rt; whole && full);
    Ok(())
}

#[test]
fn writes_up_to_a_failing_call(rt: HostRuntime) -> Result<(), Fail> {
    let mut sink = sink_failing(rt.alloc(), &[2])?;
    assert!(rt; leaves(&mut sink, TEXT, Err(WriteFailed), b"steel an"));
    Ok(())
}

/// Whether writing succeeds, and this is told of the room.
fn tells(sink: &mut SteadySink, bytes: &[u8], told: Option<&[u8]>) -> bool {
    write_steadily(sink, bytes).is_ok() && sink.written() == told
}

#[test]
fn tells_nothing_past_the_room(rt: HostRuntime) -> Result<(), Fail> {
    let mut sink = SteadySink::with_room(rt.alloc(), 5, 2)?;
    let within = tells(&mut sink, b"steel", Some(b"steel"));
    let past = tells(&mut sink, b"s", None);
    assert!(rt; within && past && tells(&mut sink, b"", None));
    Ok(())
}

/// What came of a line, as text.
fn text_of(line: &Result<Option<Vec<u8>>, LineStop>) -> &[u8] {
    match line {
        Ok(Some(bytes)) => bytes,
        Ok(None) => b"no line",
        Err(LineStop::TooLong) => b"too long",
        Err(LineStop::Failed | LineStop::OutOfMemory) => b"stopped",
    }
}

/// Whether the next line of at most five bytes comes to this text.
fn next_is(
    alloc: Global,
    reader: &mut LineReader,
    source: &mut SteadySource,
    wanted: &str,
) -> bool {
    text_of(&reader.next_line(alloc, source, 5)) == wanted.as_bytes()
}

#[test]
fn reads_line_by_line(rt: HostRuntime) -> Result<(), Fail> {
    let bytes = b"steel\n\nlumber and coal\ncoal".to_vec(rt.alloc())?;
    let mut source = SteadySource::new(bytes, 7);
    let mut reader = LineReader::new();
    for wanted in ["steel", "", "too long", "coal", "no line", "no line"] {
        assert!(rt; next_is(rt.alloc(), &mut reader, &mut source, wanted));
    }
    Ok(())
}
