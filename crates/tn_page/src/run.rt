//! The run of the program on words and a document, over ends in memory.

ghost use Rattle.std.specs.Prelude.{◌≡◌, ◌≤◌, IfOk, length};
ghost use Rattle.tn_answer.specs.AnswerText.{answer_line};
ghost use Rattle.tn_names.specs.Names.{NameLists};
ghost use Rattle.tn_said.specs.declared.said.Said.{Said};
ghost use Rattle.tn_run.specs.Request.{layout_of, request_of};
ghost use Rattle.tn_run.specs.Run.{status_of};
ghost use Rattle.tn_run.specs.Status.{status_number};
ghost use Rattle.tn_page.specs.Answered.{MayBeAnswered};
ghost use Rattle.tn_page.specs.Words.{words_in};

use crate::kept::KeptSink;
use crate::words::words_of;
use std::alloc::Global;
use tn_base::OutOfMemory;
use tn_io::SteadySource;
use tn_run::{Run, run_market};

/// The most bytes of a text that is told.
const MOST_BYTES: usize = 1 << 32;

/// What the program ended with, and the whole text that it wrote.
#[derive(Drop)]
pub struct Whole {
    pub status: u8,
    pub text: Vec<u8>,
}

/// The status of a run, whose answer is let go.
fn status_of_run(run: Run) -> u8
    ensures { result ≡ run.status }
{
    run.status
}

/// Runs the program. Want of memory, or of room for the text, comes as that.
pub fn run_on(alloc: Global, words: &[u8], document: &[u8]) -> Result<Whole, OutOfMemory>
    ensures answer { IfOk result (λ whole. (names : NameLists) × (said : Said)
        × MayBeAnswered (request_of (words_in words.now)) document.now names said
        × (whole.text.items ≡ answer_line (layout_of (request_of (words_in words.now))) names said)
        × (whole.status ≡ status_number (status_of said))) }
    ensures few { IfOk result (λ whole. length whole.text.items ≤ 4294967296) }
{
    let words = words_of(alloc, words)?;
    let mut source = SteadySource::new(Vec::from_slice(alloc, document)?, usize::MAX);
    let mut sink = KeptSink::new(alloc);
    let status = status_of_run(run_market(alloc, words.as_slice(), &mut source, &mut sink));
    if sink.faults > 0 || sink.bytes.len() > MOST_BYTES {
        return Err(OutOfMemory);
    }
    Ok(Whole {
        status,
        text: sink.bytes,
    })
}
