//! The top call: words, reading, the answer, writing.

ghost use Rattle.std.specs.Prelude.{◌≡◌, ◌≢◌, ◌≤◌, ◌⊎◌, true, List, ℕ, Some, if◌then◌else◌, map, string_bytes};
ghost use Rattle.tn_answer.specs.AnswerText.{answer_line};
ghost use Rattle.tn_answer.specs.Kept.{IsWithinClaims};
ghost use Rattle.tn_answer.specs.declared.layout.Layout.{Layout};
ghost use Rattle.tn_drill.specs.Draws.{most_drilled, most_start};
ghost use Rattle.tn_names.specs.Names.{NameLists};
ghost use Rattle.tn_run.specs.Complete.{AnswersAll, NoneCounted};
ghost use Rattle.tn_run.specs.Drilled.{MayBeDrilled};
ghost use Rattle.tn_run.specs.Headline.{IsHeadline, is_headlined};
ghost use Rattle.tn_run.specs.Request.{IfDocument, IsWithinBounds, layout_of, request_of};
ghost use Rattle.tn_run.specs.Run.{IsWritten, status_of};
ghost use Rattle.tn_run.specs.Saying.{MaySay, has_fixed_text};
ghost use Rattle.tn_run.specs.Status.{status_number};
ghost use Rattle.tn_run.specs.declared.status.Status.{Status};

use crate::answer::answer_source;
use crate::casing::cases;
use crate::request::{Request, layout_of, request_of};
use crate::status::Status;
use std::alloc::Global;
use tn_answer::{
    Layout, Names, answer_text, no_memory_text, page_text, read_fault_text, usage_text,
};
use tn_base::OutOfMemory;
use tn_commands::answer_drill;
use tn_io::{Sink, Source, SteadySink, SteadySource, WriteFailed, write_all};
use tn_said::Said;

/// What a run has come to: its exit status, and the answer whose text was written. Where the status is that of a
/// failed write, a prefix of the text was written.
#[derive(Drop)]
pub struct Run {
    /// The number of a `Status`.
    pub status: u8,
    pub said: Said,
}

impl Run {
    ghost use Rattle.std.specs.Prelude.{◌≡◌};

    /// The status alone. The answer is dropped here, so that no caller's proof has to follow how.
    pub fn into_status(self) -> u8
        ensures { result ≡ self.status }
    {
        let status = self.status;
        drop(self);
        status
    }
}

/// The exit status of an answer that is a yes where something holds.
fn yes_if(holds: bool) -> Status
    ensures { result ≡ (if holds then Status.Yes else Status.No) }
{
    if holds { Status::Yes } else { Status::No }
}

/// The exit status of an answer that was written whole.
pub fn status_of(said: &Said) -> Status
    ensures { result ≡ status_of said.now }
{
    match said {
        Said::Equilibrium { .. }
        | Said::Accepted
        | Said::Supported { .. }
        | Said::SupportedByCounts { .. }
        | Said::Solved { .. }
        | Said::SolvedByCounts { .. }
        | Said::Drill { .. }
        | Said::Ranges { .. }
        | Said::RangesByCounts { .. }
        | Said::Session { .. }
        | Said::SessionByCounts { .. }
        | Said::Completes { .. }
        | Said::CompletesByCounts { .. }
        | Said::Valid
        | Said::Page(_) => Status::Yes,
        Said::Fault(_) => Status::Fault,
        Said::Usage => Status::Usage,
        Said::ReadFault => Status::ReadFailed,
        Said::NoMemory => Status::NoMemory,
        Said::Better { .. }
        | Said::BetterByCounts { .. }
        | Said::Impossible { .. }
        | Said::ExchangeFails { .. }
        | Said::Cycle { .. }
        | Said::CycleByCounts { .. }
        | Said::Drops { .. }
        | Said::DropsByCounts { .. }
        | Said::Blocks { .. }
        | Said::Invalid(_) => Status::No,
        Said::Cases { failed, .. } => {
            if failed.len() == 0 {
                Status::Yes
            } else {
                Status::No
            }
        }
        Said::Firms { content, firms, .. } => yes_if(*content as usize == firms.len()),
        Said::FirmsByCounts { content, firms, .. } => yes_if(*content as usize == firms.len()),
    }
}

/// Writes the text of an answer.
pub(crate) fn write_line<K: Sink>(sink: &mut K, line: &[u8], said: Said) -> Run
    ensures said { result.said ≡ said }
    ensures written { (layout : Layout) (names : NameLists) → line.now ≡ answer_line layout names said
        → IsWritten (K.written sink.old) (K.written sink.new) (K.faults sink.old) (K.faults sink.new) layout names said
        result.status }
    ensures later { K.faults sink.old ≤ K.faults sink.new }
{
    match write_all(sink, line) {
        Ok(()) => Run {
            status: status_of(&said).number(),
            said,
        },
        Err(WriteFailed) => Run {
            status: Status::WriteFailed.number(),
            said,
        },
    }
}

/// Writes an answer in a layout, or that memory ran out before its text was whole.
pub(crate) fn tell<K: Sink>(
    alloc: Global,
    names: &Names,
    said: Said,
    layout: Layout,
    sink: &mut K,
) -> Run
    requires { IsWithinClaims said }
    ensures said { (result.said ≡ said) ⊎ (result.said ≡ Said.NoMemory) }
    ensures fixed { has_fixed_text said ≡ true → result.said ≡ said }
    ensures within { IsWithinClaims result.said }
    ensures written { IsWritten (K.written sink.old) (K.written sink.new) (K.faults sink.old) (K.faults sink.new) layout
        names.now result.said result.status }
    ensures later { K.faults sink.old ≤ K.faults sink.new }
{
    match said {
        Said::Usage => write_line(sink, usage_text(), said),
        Said::Page(page) => write_line(sink, page_text(page), Said::Page(page)),
        Said::ReadFault => write_line(sink, read_fault_text(), said),
        Said::NoMemory => write_line(sink, no_memory_text(), said),
        said => match answer_text(alloc, names, &said, layout) {
            Ok(text) => write_line(sink, &text, said),
            Err(OutOfMemory) => {
                drop(said);
                write_line(sink, no_memory_text(), Said::NoMemory)
            }
        },
    }
}

/// The answer of `drill`, or that memory ran out.
fn drilled(alloc: Global, size: u32, start: u32) -> Said
    requires some { 1 ≤ size }
    requires few { size ≤ most_drilled }
    requires start { start ≤ most_start }
    ensures drill { MayBeDrilled size start result }
    ensures within { IsWithinClaims result }
{
    match answer_drill(alloc, size, start) {
        Ok(said) => said,
        Err(OutOfMemory) => Said::NoMemory,
    }
}

/// What is said on a request, with the names that it is over.
fn say<S: Source>(alloc: Global, request: Request, source: &mut S) -> (Said, Names)
    requires { IsWithinBounds request }
    ensures said { MaySay S.left S.faults request source.old source.new result.1 result.0 }
    ensures within { IsWithinClaims result.0 }
{
    match request {
        Request::Document { command, .. } => answer_source(alloc, command, source),
        Request::Drill { size, start } => (drilled(alloc, size, start), Names::empty(alloc)),
        Request::Cases => (cases(alloc), Names::empty(alloc)),
        Request::Page(page) => (Said::Page(page), Names::empty(alloc)),
        // `run_to_exit` alone answers line by line.
        Request::Usage | Request::Lines(_) => (Said::Usage, Names::empty(alloc)),
    }
}

/// The run on a request, with the names that the answer's text is over.
fn run_with<S: Source, K: Sink>(
    alloc: Global,
    request: Request,
    source: &mut S,
    sink: &mut K,
) -> (Run, Names)
    requires { IsWithinBounds request }
    ensures said { MaySay S.left S.faults request source.old source.new result.1 result.0.said }
    ensures within { IsWithinClaims result.0.said }
    ensures written { IsWritten (K.written sink.old) (K.written sink.new) (K.faults sink.old) (K.faults sink.new)
        (layout_of request) result.1 result.0.said result.0.status }
{
    let (said, names) = say(alloc, request, source);
    let run = tell(alloc, &names, said, layout_of(request), sink);
    (run, names)
}

/// The run on what words ask for: `run_market` says what it comes to.
pub(crate) fn run_request<S: Source, K: Sink>(
    alloc: Global,
    request: Request,
    source: &mut S,
    sink: &mut K,
) -> Run
    requires { IsWithinBounds request }
    ensures answer { (names : NameLists) × MaySay S.left S.faults request source.old source.new names result.said
        × ((all : List ℕ) → S.left source.old ≡ Some all
        → NoneCounted (S.faults source.old) (S.faults source.new) → NoneCounted (K.faults sink.old) (K.faults sink.new)
        → AnswersAll request all (K.written sink.old) (K.written sink.new) names result.said result.status)
        × IsWritten (K.written sink.old) (K.written sink.new) (K.faults sink.old) (K.faults sink.new) (layout_of request)
        names result.said result.status }
    ensures headline { IfDocument request (λ command layout. is_headlined command ≡ true
        → IsHeadline command (S.left source.old) (S.left source.new) (S.faults source.old) (S.faults source.new)
        result.said) }
    ensures within { IsWithinClaims result.said }
{
    let (run, names) = run_with(alloc, request, source, sink);
    drop(names);
    run
}

/// Runs the program on its words: reads the source, if they ask for the answer to a document, answers, and writes the
/// answer's text to the sink.
pub fn run_market<S: Source, K: Sink>(
    alloc: Global,
    words: &[String],
    source: &mut S,
    sink: &mut K,
) -> Run
    // On each request of the words, what may be said, over some names: of a document the answer to what the source
    // gave; else, with the source as at entry, the page, the drill, the cases or usage. Of a source that tells its
    // bytes, and with no fault counted at either end: the defined answer for them, or want of memory. What was written
    // is the answer's text, or a prefix.
    ensures answer { (names : NameLists)
        × MaySay S.left S.faults (request_of (map string_bytes words.now)) source.old source.new names result.said
        × ((all : List ℕ) → S.left source.old ≡ Some all
        → NoneCounted (S.faults source.old) (S.faults source.new) → NoneCounted (K.faults sink.old) (K.faults sink.new)
        → AnswersAll (request_of (map string_bytes words.now)) all (K.written sink.old) (K.written sink.new) names
        result.said result.status)
        × IsWritten (K.written sink.old) (K.written sink.new) (K.faults sink.old) (K.faults sink.new)
        (layout_of (request_of (map string_bytes words.now))) names result.said result.status }
    // The headline, of `solve` and `judge`: whatever bytes they read, the answer is what is promised, or a fault that
    // the input or the source shows, or want of memory. (That the sink shows a fault is in `answer`.)
    ensures headline { IfDocument (request_of (map string_bytes words.now))
        (λ command layout. is_headlined command ≡ true
        → IsHeadline command (S.left source.old) (S.left source.new) (S.faults source.old) (S.faults source.new)
        result.said) }
    ensures within { IsWithinClaims result.said }
{
    run_request(alloc, request_of(words), source, sink)
}

/// The run over ends in memory that never fail: it ends by neither a failed read nor a failed write.
pub fn run_steadily(
    alloc: Global,
    words: &[String],
    source: &mut SteadySource,
    sink: &mut SteadySink,
) -> Run
    // On each request of the words, what may be said: of a document the answer to what the source gave, which is the
    // defined one for all bytes or want of memory. The answer's text was written whole.
    ensures answer { (names : NameLists)
        × MaySay (λ steady. Some steady.unread) (λ _. 0) (request_of (map string_bytes words.now)) source.old source.new
        names result.said
        × AnswersAll (request_of (map string_bytes words.now)) source.old.unread sink.old.told sink.new.told names
        result.said result.status }
    ensures within { IsWithinClaims result.said }
    ensures read { result.status ≢ status_number Status.ReadFailed }
    ensures written { result.status ≢ status_number Status.WriteFailed }
{
    run_market(alloc, words, source, sink)
}
