//! The run that answers its source line by line, each answer as an object.

ghost use Rattle.std.specs.Prelude.{◌≡◌, ◌≤◌, ◌⊎◌, ℕ, List, ◌∷◌, [], IfOk, IfSome, IfNone, OnErr};
ghost use Rattle.std.specs.Io.KnownBytes.{Consumes, IsAtEnd, prepend_known};
ghost use Rattle.tn_answer.specs.Kept.{IsWithinClaims};
ghost use Rattle.tn_file.specs.Readings.{any_reading_of};
ghost use Rattle.tn_io.specs.Counts.{Rose};
ghost use Rattle.tn_io.specs.Lines.{TakesLines, TakesPart};
ghost use Rattle.tn_run.specs.Answer.{IsAnswerTo, KeepsRules};
ghost use Rattle.tn_run.specs.Lined.{IsLineAnswer, IsLinedRun, with_status};

use crate::answer::{DOCUMENT_LIMIT, answer_bytes, too_long};
use crate::status::Status;
use crate::top::{tell, write_line};
use std::alloc::Global;
use tn_answer::{Layout, Names, read_fault_text};
use tn_base::OutOfMemory;
use tn_file::Command;
use tn_io::{LineReader, LineStop, ReadFailed, Sink, Source};
use tn_said::Said;

/// The answer of a command to the bytes of a line, or that memory ran out; with the names that were read.
fn answer_line(alloc: Global, command: Command, line: &[u8]) -> (Said, Names)
    ensures answer { (result.0 ≡ Said.NoMemory)
        ⊎ (IsAnswerTo command (any_reading_of command line.now) result.1 result.0 × KeepsRules result.1 result.0) }
    ensures within { IsWithinClaims result.0 }
{
    match answer_bytes(alloc, command, line) {
        Ok(told) => told,
        Err(OutOfMemory) => (Said::NoMemory, Names::empty(alloc)),
    }
}

/// The answer of a command to the next line of a source, with the names that were read; none at the end of input.
fn next_answer<S: Source>(
    alloc: Global,
    command: Command,
    reader: &mut LineReader,
    source: &mut S,
) -> Result<Option<(Said, Names)>, ReadFailed>
    ensures answer { IfOk result (λ next. IfSome next (λ told. (line : List ℕ)
        × TakesLines (prepend_known reader.old (S.left source.old)) (prepend_known reader.new (S.left source.new))
        (line ∷ [])
        × IsLineAnswer command (record { line = line; names = told.1; said = told.0 }))) }
    ensures end { IfOk result (λ next. IfNone next (IsAtEnd (prepend_known reader.old (S.left source.old)))) }
    ensures rest { IfOk result (λ next. IfNone next
        (Consumes (prepend_known reader.old (S.left source.old)) (S.left source.new) [])) }
    ensures part { OnErr result (TakesPart (prepend_known reader.old (S.left source.old)) (S.left source.new)) }
    ensures within { IfOk result (λ next. IfSome next (λ told. IsWithinClaims told.0)) }
    ensures failed { OnErr result (Rose (S.faults source.old) (S.faults source.new)) }
    ensures later { S.faults source.old ≤ S.faults source.new }
{
    match reader.next_line(alloc, source, DOCUMENT_LIMIT) {
        Ok(None) => Ok(None),
        Ok(Some(line)) => Ok(Some(answer_line(alloc, command, &line))),
        Err(LineStop::Failed) => Err(ReadFailed),
        Err(LineStop::TooLong) => Ok(Some((too_long(alloc), Names::empty(alloc)))),
        Err(LineStop::OutOfMemory) => Ok(Some((Said::NoMemory, Names::empty(alloc)))),
    }
}

/// The status of a run after one more answer: want of memory goes before a fault, and a fault before all else.
fn with_status(status: u8, answer: u8) -> u8
    ensures { result ≡ with_status status answer }
{
    let no_memory = Status::NoMemory.number();
    let fault = Status::Fault.number();
    if status == no_memory || answer == no_memory {
        no_memory
    } else if status == fault || answer == fault {
        fault
    } else {
        Status::Yes.number()
    }
}

/// Answers each line of a source, and writes each answer before the next line is read. Where a read fails, every whole
/// line before it has its answer. What comes back is the exit status.
pub(crate) fn run_lines<S: Source, K: Sink>(
    alloc: Global,
    command: Command,
    source: &mut S,
    sink: &mut K,
) -> u8
    ensures { IsLinedRun command (S.left source.old) (S.left source.new) (S.faults source.old) (S.faults source.new)
        (K.written sink.old) (K.written sink.new) (K.faults sink.old) (K.faults sink.new) result }
{
    let mut reader = LineReader::new();
    let write_failed = Status::WriteFailed.number();
    let mut status = Status::Yes.number();
    // No input has as many lines; a loop must be known to end.
    for _turn in 0..u64::MAX {
        match next_answer(alloc, command, &mut reader, source) {
            Ok(None) => return status,
            Ok(Some((said, names))) => {
                let answer = tell(alloc, &names, said, Layout::Object, sink).into_status();
                drop(names);
                if answer == write_failed {
                    return answer;
                }
                status = with_status(status, answer);
            }
            Err(ReadFailed) => {
                return write_line(sink, read_fault_text(), Said::ReadFault).into_status();
            }
        }
    }
    status
}
