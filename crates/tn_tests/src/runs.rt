//! Whole runs on documents, and over ends that fail.

use std::alloc::Global;
use std::process::ExitCode;
use std::test::Fail;
use tn_answer::no_memory_text;
use tn_io::{MemorySink, MemorySource, Source, SteadySink, SteadySource};
use tn_run::{run_market, run_steadily, run_to_exit};

/// One trade from S to B at the price 4, worth -3 and 5.
const DEAL: &[u8] =
    b"{\"version\":1,\"firms\":[{\"name\":\"S\",\"kind\":\"table\",\"rows\":[[[\"a\"],-3]]},{\"name\":\"B\",\"kind\":\"table\",\"rows\":[[[\"a\"],5]]}],\"trades\":[{\"name\":\"a\",\"seller\":\"S\",\"buyer\":\"B\"}],\"arrangement\":{\"on\":[\"a\"],\"prices\":[[\"a\",4]]}}";

const EQUILIBRIUM: &str = "{\"answer\":\"equilibrium\",\"surplus\":2}\n";

const NOT_JSON: &str = "{\"answer\":\"fault\",\"fault\":1,\"name\":\"NotJson\",\"place\":[]}\n";

/// Words with blanks between them.
fn words_of(alloc: Global, text: &str) -> Result<Vec<String>, Fail> {
    let mut words = Vec::new(alloc);
    for word in text.split_whitespace() {
        words.push(String::from_str(alloc, word)?)?;
    }
    Ok(words)
}

/// What was written into a room.
fn text_in(alloc: Global, sink: &SteadySink) -> Result<Vec<u8>, Fail> {
    let text = sink.written().ok_or("more than the room was written")?;
    Ok(text.to_vec(alloc)?)
}

/// The status of a run on some words and a document, whose text goes into this sink.
fn run_into(
    alloc: Global,
    words: &str,
    document: &[u8],
    sink: &mut SteadySink,
) -> Result<u8, Fail> {
    let words = words_of(alloc, words)?;
    let mut source = SteadySource::new(document.to_vec(alloc)?, 100);
    Ok(run_steadily(alloc, &words, &mut source, sink).into_status())
}

/// The status and the written text of a run over ends that never fail.
pub(crate) fn run_on(alloc: Global, words: &str, document: &[u8]) -> Result<(u8, Vec<u8>), Fail> {
    let mut sink = SteadySink::with_room(alloc, 65_536, 10)?;
    let status = run_into(alloc, words, document, &mut sink)?;
    Ok((status, text_in(alloc, &sink)?))
}

/// Whether a document is refused as no JSON.
fn is_refused(alloc: Global, document: &[u8]) -> Result<bool, Fail> {
    let (status, written) = run_on(alloc, "check", document)?;
    Ok(status == 1 && written.as_slice() == NOT_JSON.as_bytes())
}

#[test]
fn takes_no_document_that_is_cut(rt: HostRuntime) -> Result<(), Fail> {
    for length in 0..DEAL.len() {
        assert!(rt; is_refused(rt.alloc(), &DEAL[..length])?);
    }
    Ok(())
}

/// The deal in pieces of 16 bytes, of which the call with this number fails.
fn deal_failing(alloc: Global, at: u64) -> Result<MemorySource, Fail> {
    let calls = [at].to_vec(alloc)?;
    Ok(MemorySource::new(DEAL.to_vec(alloc)?, 16, calls))
}

/// Room for text that takes 8 bytes at a time, of which the call with this number fails.
fn sink_failing(alloc: Global, room: usize, at: u64) -> Result<MemorySink, Fail> {
    Ok(MemorySink::new(alloc, room, 8, [at].to_vec(alloc)?)?)
}

/// Whether a run between these ends comes to a status and writes a text.
fn runs_to(
    alloc: Global,
    source: &mut MemorySource,
    sink: &mut MemorySink,
    status: u8,
    text: Option<&[u8]>,
) -> Result<bool, Fail> {
    let words = words_of(alloc, "check")?;
    let found = run_market(alloc, &words, source, sink).into_status();
    Ok(found == status && Some(sink.written()) == text)
}

/// Whether a run on the deal ends with a status and writes a text, where the source fails at one call, and a sink of this
/// room at another. Calls count from 1.
fn ends_with(
    alloc: Global,
    read: u64,
    write: u64,
    room: usize,
    status: u8,
    text: Option<&[u8]>,
) -> Result<bool, Fail> {
    let mut source = deal_failing(alloc, read)?;
    let mut sink = sink_failing(alloc, room, write)?;
    runs_to(alloc, &mut source, &mut sink, status, text)
}

/// A failed read is told; a failed write leaves the pieces of 8 bytes before it, and a full room what it had room for.
#[test]
fn tells_a_failed_end(rt: HostRuntime) -> Result<(), Fail> {
    let read_fault = b"{\"answer\":\"read_fault\"}\n".as_slice();
    for read in 1..4 {
        assert!(rt; ends_with(rt.alloc(), read, 0, 100, 3, Some(read_fault))?);
    }
    let line = EQUILIBRIUM.as_bytes();
    for write in 1..6 {
        let length = 8 * (write as usize - 1);
        assert!(rt; ends_with(rt.alloc(), 0, write, 100, 4, line.get(..length))?);
    }
    assert!(rt; ends_with(rt.alloc(), 0, 6, 100, 0, line.get(..37))?);
    assert!(rt; ends_with(rt.alloc(), 0, 0, 10, 4, line.get(..10))?);
    assert!(rt; no_memory_text() == b"{\"answer\":\"no_memory\"}\n".as_slice());
    Ok(())
}

/// The deal, an empty line and the deal once more.
fn three_lines(alloc: Global) -> Result<Vec<u8>, Fail> {
    let mut lines = DEAL.to_vec(alloc)?;
    lines.extend_from_slice(b"\n\n")?;
    lines.extend_from_slice(DEAL)?;
    Ok(lines)
}

/// How a run on lines ends.
fn run_lines<S: Source>(
    alloc: Global,
    source: &mut S,
    sink: &mut SteadySink,
) -> Result<ExitCode, Fail> {
    let words = words_of(alloc, "check --lines")?;
    Ok(run_to_exit(alloc, &words, source, sink))
}

#[test]
fn answers_line_by_line(rt: HostRuntime) -> Result<(), Fail> {
    let mut source = SteadySource::new(three_lines(rt.alloc())?, 100);
    let mut sink = SteadySink::with_room(rt.alloc(), 1_000, 10)?;
    let exit = run_lines(rt.alloc(), &mut source, &mut sink)?;
    assert!(rt; exit == ExitCode::from(1));
    let written = format!(in rt.alloc(); "{EQUILIBRIUM}{NOT_JSON}{EQUILIBRIUM}")?;
    assert!(rt; sink.written() == Some(written.as_bytes()));
    Ok(())
}

/// A read fails within the third line: the two lines before it have their answers. What is left is the rest of the third.
#[test]
fn answers_the_lines_before_a_failed_read(rt: HostRuntime) -> Result<(), Fail> {
    let fails = [16].to_vec(rt.alloc())?;
    let mut source = MemorySource::new(three_lines(rt.alloc())?, 16, fails);
    let mut sink = SteadySink::with_room(rt.alloc(), 1_000, 10)?;
    let failed = run_lines(rt.alloc(), &mut source, &mut sink)?;
    let rest = run_lines(rt.alloc(), &mut source, &mut sink)?;
    assert!(rt; [failed, rest] == [ExitCode::from(3), ExitCode::from(1)]);
    let written = format!(in rt.alloc();
        "{EQUILIBRIUM}{NOT_JSON}{{\"answer\":\"read_fault\"}}\n{NOT_JSON}"
    )?;
    assert!(rt; sink.written() == Some(written.as_bytes()));
    Ok(())
}
