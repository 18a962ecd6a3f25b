//! Reads a document from bytes.

ghost use Rattle.std.specs.Prelude.{◌≡◌, [], Some, IfOk};
ghost use Rattle.serde_json.specs.View.{view};
ghost use Rattle.tn_said.specs.declared.fault.FaultKind.TheVariants.{NotJson};
ghost use Rattle.tn_read_shapes.specs.Reading.{Gives, wanted};
ghost use Rattle.tn_read_head.specs.Refused.{Reads};
ghost use Rattle.tn_file.specs.Asked.{command_for, unit_asked_by, unit_command, unit_part_of};
ghost use Rattle.tn_file.specs.Document.{document_of};
ghost use Rattle.tn_file.specs.Json.{json_of};
ghost use Rattle.tn_file.specs.Readings.{any_document_of, any_reading_of, as_network, says_units, unit_extra_of, units_of};
ghost use Rattle.tn_file.specs.Reads.{IsRead, IsReadFor, any_view};

use crate::asked::UnitAsked;
use crate::command::{Command, UnitCommand};
use crate::document::ReadDocument;
use crate::network::read_document;
use serde_json::Value;
use std::alloc::Global;
use tn_names::Names;
use tn_read_head::DocRefusal;
use tn_read_shapes::{ReadError, fault, member};
use tn_read_unit_parts::{read_counts_on, read_unit_arrangement, read_unit_edits};
use tn_read_units::{UnitHead, read_unit_document};
use tn_said::{FaultKind, Word};

/// The version of documents whose trades have units.
const UNIT_VERSION: u64 = 4;

/// Reads a document from its bytes: what they stand for, or the first fault.
pub fn read_doc(alloc: Global, command: Command, bytes: &[u8]) -> Result<ReadDocument, DocRefusal>
    ensures exact { Reads any_view result (any_reading_of command bytes.now) }
    // A network with its names, whose firms are accepted unless it is read raw; or laminar firms with theirs, between
    // which trades have units.
    ensures network { IfOk result (IsRead command) }
    ensures needed { IfOk result (IsReadFor command) }
{
    read_bytes(alloc, command, bytes)
}

/// Reads a document from its bytes.
#[tactic(auto, unfolding(crate::specs::Readings::any_reading_of))]
fn read_bytes(alloc: Global, command: Command, bytes: &[u8]) -> Result<ReadDocument, DocRefusal>
    ensures exact { Reads any_view result (any_reading_of command bytes.now) }
    ensures needed { IfOk result (IsReadFor command) }
{
    match value_of(alloc, bytes) {
        Ok(top) => read_value(alloc, command, &top),
        Err(error) => Err(DocRefusal::beside(error, Names::empty(alloc))),
    }
}

/// Reads a document from its JSON value. Only what a command asks about trades with units makes their version one that
/// is read.
fn read_value(alloc: Global, command: Command, top: &Value) -> Result<ReadDocument, DocRefusal>
    ensures exact { Reads any_view result (any_document_of command (view top.now)) }
    ensures needed { IfOk result (IsReadFor command) }
{
    match unit_command(command) {
        Some(asked) => read_asked(alloc, command, asked, top),
        None => read_network(alloc, command, top),
    }
}

/// Reads a document of any version.
fn read_asked(
    alloc: Global,
    command: Command,
    asked: UnitCommand,
    top: &Value,
) -> Result<ReadDocument, DocRefusal>
    requires { unit_command command ≡ Some asked }
    ensures exact { Reads any_view result (any_document_of command (view top.now)) }
    ensures needed { IfOk result (IsReadFor command) }
{
    if says_units(top) {
        read_units(alloc, asked, top)
    } else {
        read_network(alloc, command, top)
    }
}

/// Reads a document of single trades.
fn read_network(alloc: Global, command: Command, top: &Value) -> Result<ReadDocument, DocRefusal>
    ensures exact { Reads any_view result (as_network (document_of command (view top.now))) }
    ensures needed { IfOk result (IsReadFor command) }
{
    Ok(ReadDocument::Network(read_document(alloc, command, top)?))
}

/// Reads a document whose trades have units, and what is asked about its firms.
#[tactic(auto, unfolding(crate::specs::Readings::units_of))]
fn read_units(alloc: Global, asked: UnitCommand, top: &Value) -> Result<ReadDocument, DocRefusal>
    ensures exact { Reads any_view result (units_of (command_for asked) (view top.now)) }
    ensures needed { IfOk result (IsReadFor (command_for asked)) }
{
    let doc = read_unit_document(alloc, top)?;
    match read_unit_part(alloc, asked, doc.head(), top) {
        Ok(asked) => Ok(ReadDocument::Units(doc, asked)),
        Err(error) => Err(DocRefusal::beside(error, doc.into_names())),
    }
}

/// What is asked about firms by counts, with the part of the document that this speaks of.
#[tactic(auto, unfolding(crate::specs::Readings::unit_extra_of))]
fn read_unit_part(
    alloc: Global,
    asked: UnitCommand,
    head: &UnitHead,
    top: &Value,
) -> Result<UnitAsked, ReadError>
    ensures gives { Gives unit_part_of result (unit_extra_of (command_for asked) head.now (view top.now)) }
    ensures asked { IfOk result (λ part. unit_asked_by part ≡ command_for asked) }
{
    match asked {
        UnitCommand::Check => Ok(UnitAsked::Check(read_unit_arrangement(alloc, head, top)?)),
        UnitCommand::Firms => Ok(UnitAsked::Firms(read_unit_arrangement(alloc, head, top)?)),
        UnitCommand::Range => Ok(UnitAsked::Range),
        UnitCommand::Session => Ok(UnitAsked::Session(read_unit_edits(alloc, head, top)?)),
        UnitCommand::Solve => Ok(UnitAsked::Solve),
        UnitCommand::Support => Ok(UnitAsked::Support(read_counts_on(alloc, head, top)?)),
        UnitCommand::Test => Ok(UnitAsked::Test),
    }
}

/// What a command asks about a document whose trades have units, none where it answers none.
fn unit_command(command: Command) -> Option<UnitCommand>
    ensures { result ≡ unit_command command }
{
    match command {
        Command::Check => Some(UnitCommand::Check),
        Command::Firms => Some(UnitCommand::Firms),
        Command::Range => Some(UnitCommand::Range),
        Command::Session => Some(UnitCommand::Session),
        Command::Solve => Some(UnitCommand::Solve),
        Command::Support => Some(UnitCommand::Support),
        Command::Test => Some(UnitCommand::Test),
        Command::Judge | Command::Replay => None,
    }
}

/// Whether a document says the version of those whose trades have units.
fn says_units(top: &Value) -> bool
    ensures { result ≡ says_units (view top.now) }
{
    match member(top, Word::Version).and_then(Value::as_u64) {
        Some(version) => version == UNIT_VERSION,
        None => false,
    }
}

/// The JSON value of bytes.
#[tactic(auto, unfolding(crate::specs::Json::json_of))]
fn value_of(alloc: Global, bytes: &[u8]) -> Result<Value, ReadError>
    ensures { Gives view result (wanted NotJson [] (json_of bytes.now)) }
{
    match Value::from_slice(alloc, bytes) {
        Ok(value) => Ok(value),
        Err(error) if error.is_memory() => Err(ReadError::OutOfMemory),
        Err(_) => Err(fault(alloc, FaultKind::NotJson, &[])),
    }
}
