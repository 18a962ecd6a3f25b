//! The run as the end of a program.

ghost use Rattle.std.specs.Prelude.{◌≡◌, ℕ, true, List, None, Some, IfSome, map, string_bytes};
ghost use Rattle.std.specs.Process.{exit_status};
ghost use Rattle.tn_answer.specs.Kept.{IsWithinClaims};
ghost use Rattle.tn_names.specs.Names.{NameLists};
ghost use Rattle.tn_run.specs.Complete.{AnswersAll, NoneCounted};
ghost use Rattle.tn_run.specs.Headline.{IsHeadline, is_headlined};
ghost use Rattle.tn_run.specs.Lined.{AnswersLines, IsLinedRun};
ghost use Rattle.tn_run.specs.Request.{IfDocument, layout_of, lines_command, request_of};
ghost use Rattle.tn_run.specs.Run.{IsWritten};
ghost use Rattle.tn_run.specs.Saying.{MaySay};
ghost use Rattle.tn_said.specs.declared.said.Said.{Said};

use crate::lines::run_lines;
use crate::request::{lines_command, request_of};
use crate::top::run_request;
use std::alloc::Global;
use std::process::ExitCode;
use tn_io::{Sink, Source};

/// Runs the program on its words, and ends with the status of the run, whatever it is.
pub fn run_to_exit<S: Source, K: Sink>(
    alloc: Global,
    words: &[String],
    source: &mut S,
    sink: &mut K,
) -> ExitCode
    // One answer over some names, unless it is to be answered line by line: what may be said on the request is said,
    // completely where a source tells its bytes and no fault was counted at either end; its text was written, or a
    // prefix; and the status is its own, or that of a failed write.
    ensures answer { lines_command (request_of (map string_bytes words.now)) ≡ None → (said : Said) × (names : NameLists)
        × MaySay S.left S.faults (request_of (map string_bytes words.now)) source.old source.new names said
        × IfDocument (request_of (map string_bytes words.now)) (λ command layout. is_headlined command ≡ true
        → IsHeadline command (S.left source.old) (S.left source.new) (S.faults source.old) (S.faults source.new) said)
        × ((all : List ℕ) → S.left source.old ≡ Some all
        → NoneCounted (S.faults source.old) (S.faults source.new) → NoneCounted (K.faults sink.old) (K.faults sink.new)
        → AnswersAll (request_of (map string_bytes words.now)) all (K.written sink.old) (K.written sink.new) names said
        (exit_status result))
        × IsWithinClaims said
        × IsWritten (K.written sink.old) (K.written sink.new) (K.faults sink.old) (K.faults sink.new)
        (layout_of (request_of (map string_bytes words.now))) names said (exit_status result) }
    // Line by line: the answers to all lines of the source, in order, each whole, and the status of all; or a read
    // failed, which was told after the answers to all whole lines before; or a write failed, and at most a prefix of
    // one more text was written. What the source has left comes right after what was taken.
    ensures lines { IfSome (lines_command (request_of (map string_bytes words.now))) (λ command. IsLinedRun command
        (S.left source.old) (S.left source.new) (S.faults source.old) (S.faults source.new)
        (K.written sink.old) (K.written sink.new) (K.faults sink.old) (K.faults sink.new) (exit_status result)) }
    // No fault counted at either end: the answers to all lines, and nothing else.
    ensures all_lines { IfSome (lines_command (request_of (map string_bytes words.now))) (λ command.
        NoneCounted (S.faults source.old) (S.faults source.new) → NoneCounted (K.faults sink.old) (K.faults sink.new)
        → AnswersLines command (S.left source.old) (S.left source.new) (K.written sink.old) (K.written sink.new)
        (exit_status result)) }
{
    let request = request_of(words);
    match lines_command(request) {
        Some(command) => ExitCode::from(run_lines(alloc, command, source, sink)),
        None => ExitCode::from(run_request(alloc, request, source, sink).into_status()),
    }
}
