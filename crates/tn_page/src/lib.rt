//! The program for a page: bytes in, bytes out, over ends in memory.
#![tactic(auto)]

mod kept;
mod run;
mod told;
mod words;

ghost use Rattle.tn_answer.specs.AnswerText.{answer_line};
ghost use Rattle.tn_names.specs.Names.{NameLists};
ghost use Rattle.tn_said.specs.declared.said.Said.{Said};
ghost use Rattle.tn_run.specs.Request.{layout_of, request_of};
ghost use Rattle.tn_run.specs.Run.{status_of};
ghost use Rattle.tn_run.specs.Status.{status_number};
ghost use Rattle.tn_page.specs.Answered.{MayBeAnswered};
ghost use Rattle.tn_page.specs.Told.{IsTold};
ghost use Rattle.tn_page.specs.Words.{words_in};

use crate::run::run_on;
use crate::told::tell;
use std::alloc::Global;
use tn_answer::no_memory_text;
use tn_base::OutOfMemory;
use tn_run::Status;

/// Runs the program on words, which bytes 0 part, and on the bytes of a document. The text that it writes comes to
/// stand at the start of `out`; what stands beyond it stays.
///
/// The answer is 256 times the length of that text in bytes, and the exit status. Where `out` is shorter than the text,
/// it stays as it was, and 8 stands in place of the status, which is none. Words that aren't UTF-8 are none.
#[unsafe(no_mangle)]
pub extern "C" fn page_answer(alloc: Global, words: &[u8], document: &[u8], out: &mut [u8]) -> u64
    // The defined answer to these words and this document, or want of memory: its text and its status.
    ensures { (names : NameLists) × (said : Said)
        × MayBeAnswered (request_of (words_in words.now)) document.now names said
        × IsTold (answer_line (layout_of (request_of (words_in words.now))) names said) (status_number (status_of said))
        out.old out.new result }
{
    match run_on(alloc, words, document) {
        Ok(whole) => tell(whole.status, &whole.text, out),
        Err(OutOfMemory) => tell(Status::NoMemory.number(), no_memory_text(), out),
    }
}
