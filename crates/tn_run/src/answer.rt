//! The answer to the bytes of a document.

ghost use Rattle.std.specs.Prelude.{◌≡◌, ◌≤◌, length, IfOk};
ghost use Rattle.tn_answer.specs.Kept.{IsWithinClaims};
ghost use Rattle.tn_file.specs.Readings.{any_reading_of, names_in};
ghost use Rattle.tn_file.specs.Reads.{IsMade, IsRead, any_view, read_for};
ghost use Rattle.tn_file.specs.Laws.{IsDocument, IsUnitExtra};
ghost use Rattle.tn_file.specs.Asked.{unit_asked_by, unit_part_of};
ghost use Rattle.tn_file.specs.Refusal.{IsMadeAsAccepted, command_of, document_view};
ghost use Rattle.tn_run.specs.Answer.{IsAnswerOf, IsAnswerTo, IsAnyAnswerOf, IsUnitAnswerOf, KeepsRules, MayBeSaid, too_long};

use std::alloc::Global;
use tn_answer::Names;
use tn_base::OutOfMemory;
use tn_commands::{
    answer_check, answer_judge, answer_range, answer_replay, answer_session, answer_solve,
    answer_support,
};
use tn_file::{
    Asked, Command, Content, DocRefusal, Document, RawAsked, ReadDocument, UnitAsked, read_doc,
};
use tn_io::{ReadStop, Source, read_all};
use tn_raw_answers::{answer_firms, answer_replay_raw, answer_test};
use tn_read_units::UnitDocument;
use tn_said::{Fault, FaultKind, Place, Said};
use tn_unit_answers::{
    answer_unit_check, answer_unit_firms, answer_unit_range, answer_unit_session,
    answer_unit_solve, answer_unit_support,
};

/// How many bytes a document may have.
pub(crate) const DOCUMENT_LIMIT: usize = 4_194_304;

/// The answer to what is asked about the network of a document.
fn answer_document(alloc: Global, doc: &Document) -> Result<Said, OutOfMemory>
    requires document { IsDocument (command_of doc.now.content) (document_view doc.now) }
    requires made { IsMadeAsAccepted doc.now.content }
    ensures answer { IfOk result (IsAnswerOf (command_of doc.now.content) (document_view doc.now)) }
    ensures within { IfOk result IsWithinClaims }
{
    match &doc.content {
        Content::Market(market, asked) => match asked {
            Asked::Check(at) => answer_check(alloc, market, at),
            Asked::Judge(outcome) => answer_judge(alloc, market, outcome),
            Asked::Range => answer_range(alloc, market),
            Asked::Replay(claim) => answer_replay(alloc, market, claim),
            Asked::Session(edits) => answer_session(alloc, market, edits),
            Asked::Solve => answer_solve(alloc, market),
            Asked::Support(on) => answer_support(alloc, market, on),
        },
        Content::Raw(net, asked) => match asked {
            RawAsked::Firms(at) => answer_firms(alloc, net.firms(), net.ends(), at),
            RawAsked::Replay(claim) => answer_replay_raw(alloc, net, claim),
            RawAsked::Test => answer_test(alloc, net),
        },
    }
}

/// The answer to what is asked about the network of a document, with the names of the document.
fn answer_network(alloc: Global, doc: Document) -> Result<(Said, Names), OutOfMemory>
    requires document { IsDocument (command_of doc.content) (document_view doc) }
    requires made { IsMadeAsAccepted doc.content }
    ensures answer { IfOk result (λ told. IsAnswerOf (command_of doc.content) (document_view doc) told.0) }
    ensures names { IfOk result (λ told. told.1 ≡ (document_view doc).names) }
    ensures within { IfOk result (λ told. IsWithinClaims told.0) }
{
    let said = answer_document(alloc, &doc);
    let names = doc.into_names();
    Ok((said?, names))
}

/// The answer to what is asked about a document whose trades have units.
fn answer_units(alloc: Global, doc: &UnitDocument, asked: &UnitAsked) -> Result<Said, OutOfMemory>
    requires part { IsUnitExtra (length doc.now.head.names.firms) doc.now.head.trades (unit_part_of asked.now) }
    ensures answer { IfOk result (IsUnitAnswerOf (unit_asked_by asked.now) doc.now (unit_part_of asked.now)) }
    ensures within { IfOk result IsWithinClaims }
{
    match asked {
        UnitAsked::Check(at) => answer_unit_check(alloc, doc, &at.counts, &at.prices),
        UnitAsked::Firms(at) => answer_unit_firms(alloc, doc, &at.counts, &at.prices),
        UnitAsked::Range => answer_unit_range(alloc, doc),
        UnitAsked::Session(edits) => answer_unit_session(alloc, doc, edits),
        UnitAsked::Solve => answer_unit_solve(alloc, doc),
        UnitAsked::Support(counts) => answer_unit_support(alloc, doc, counts),
        // They are laminar.
        UnitAsked::Test => Ok(Said::Accepted),
    }
}

/// The answer to what is asked about a document whose trades have units, with the names of the document.
fn answer_by_counts(
    alloc: Global,
    doc: UnitDocument,
    asked: UnitAsked,
) -> Result<(Said, Names), OutOfMemory>
    requires part { IsUnitExtra (length doc.head.names.firms) doc.head.trades (unit_part_of asked) }
    ensures answer { IfOk result (λ told. IsUnitAnswerOf (unit_asked_by asked) doc (unit_part_of asked) told.0) }
    ensures names { IfOk result (λ told. told.1 ≡ doc.head.names) }
    ensures within { IfOk result (λ told. IsWithinClaims told.0) }
{
    let said = answer_units(alloc, &doc, &asked);
    drop(asked);
    let names = doc.into_names();
    Ok((said?, names))
}

/// The answer to what is asked about a document, with its names.
fn answer_read(alloc: Global, doc: ReadDocument) -> Result<(Said, Names), OutOfMemory>
    requires document { IsRead (read_for doc) doc }
    requires made { IsMade doc }
    ensures answer { IfOk result (λ told. IsAnyAnswerOf (read_for doc) (any_view doc) told.0) }
    ensures names { IfOk result (λ told. told.1 ≡ names_in (any_view doc)) }
    ensures within { IfOk result (λ told. IsWithinClaims told.0) }
{
    match doc {
        ReadDocument::Network(doc) => answer_network(alloc, doc),
        ReadDocument::Units(doc, asked) => answer_by_counts(alloc, doc, asked),
    }
}

/// The answer of a command to the bytes of a document, with the names that were read. It fails only where memory runs
/// out.
pub fn answer_bytes(
    alloc: Global,
    command: Command,
    bytes: &[u8],
) -> Result<(Said, Names), OutOfMemory>
    ensures answer { IfOk result (λ told. IsAnswerTo command (any_reading_of command bytes.now) told.1 told.0) }
    ensures kept { IfOk result (λ told. KeepsRules told.1 told.0) }
    ensures within { IfOk result (λ told. IsWithinClaims told.0) }
{
    match read_doc(alloc, command, bytes) {
        Ok(doc) => answer_read(alloc, doc),
        Err(DocRefusal::Fault { fault, names }) => Ok((Said::Fault(fault), names)),
        Err(DocRefusal::OutOfMemory) => Err(OutOfMemory),
    }
}

/// The fault of a document that is too long.
pub(crate) fn too_long(alloc: Global) -> Said
    ensures { result ≡ too_long }
{
    Said::Fault(Fault {
        kind: FaultKind::TooLong,
        place: Place::from_vec(Vec::new(alloc)),
        shown: None,
    })
}

/// The answer of a command to what a source gives, with the names that were read.
pub fn answer_source<S: Source>(alloc: Global, command: Command, source: &mut S) -> (Said, Names)
    ensures answer { MayBeSaid command (S.left source.old) (S.left source.new) (S.faults source.old)
        (S.faults source.new) result.1 result.0 }
    ensures within { IsWithinClaims result.0 }
    ensures later { S.faults source.old ≤ S.faults source.new }
{
    match read_all(alloc, source, DOCUMENT_LIMIT) {
        Ok(bytes) => match answer_bytes(alloc, command, &bytes) {
            Ok(told) => told,
            Err(OutOfMemory) => (Said::NoMemory, Names::empty(alloc)),
        },
        Err(ReadStop::Failed) => (Said::ReadFault, Names::empty(alloc)),
        Err(ReadStop::TooLong) => (too_long(alloc), Names::empty(alloc)),
        Err(ReadStop::OutOfMemory) => (Said::NoMemory, Names::empty(alloc)),
    }
}
