//! Reads a document from a JSON value.

ghost use Rattle.std.specs.Prelude.{◌≡◌, length, IfOk};
ghost use Rattle.serde_json.specs.View.{view, items_view};
ghost use Rattle.tn_read_shapes.specs.Reading.{Gives};
ghost use Rattle.tn_read_references.specs.Ordered.{AreTrades};
ghost use Rattle.tn_read_head.specs.Refused.{Reads, refusal_of};
ghost use Rattle.tn_file.specs.declared.command.Command.TheVariants.{Replay};
ghost use Rattle.tn_file.specs.Document.{content_of, document_of};
ghost use Rattle.tn_file.specs.Parts.{AreFor, parts_view};
ghost use Rattle.tn_file.specs.Refusal.{IsFor, document_view};

use crate::asked::{Asked, RawAsked};
use crate::command::Command;
use crate::document::{Content, Document, RawNet};
use serde_json::Value;
use std::alloc::Global;
use tn_firm::{FirmValue, RawFirm};
use tn_market::Market;
use tn_read_claims::{named_claim, read_firm_claim, read_market_claim};
use tn_read_firms::read_firms;
use tn_read_head::{DocRefusal, read_head};
use tn_read_parts::{read_arrangement, read_edits, read_outcome, read_trades_on};
use tn_read_references::Head;
use tn_read_shapes::{ClaimKind, ReadError};

/// What stands in a document behind its head: the firms, and what is asked about them.
#[derive(Drop)]
pub(crate) enum Parts {
    /// Firms that meet exchange.
    Market(Vec<FirmValue>, Asked),
    /// Firms as they are listed.
    Raw(Vec<RawFirm>, RawAsked),
}

/// Reads a document.
#[tactic(auto, unfolding(crate::specs::Document::document_of))]
pub(crate) fn read_document(
    alloc: Global,
    command: Command,
    top: &Value,
) -> Result<Document, DocRefusal>
    ensures exact { Reads document_view result (document_of command (view top.now)) }
    ensures needed { IfOk result (λ doc. IsFor command doc.content) }
{
    let (head, firms) = read_head(alloc, top)?;
    match read_parts(alloc, command, &head, firms, top) {
        Ok(Parts::Market(made, asked)) => {
            let (names, ends) = head.into_parts();
            match Market::new(alloc, made, ends) {
                Ok(market) => Ok(Document {
                    names,
                    content: Content::Market(market, asked),
                }),
                Err(error) => {
                    drop(asked);
                    drop(names);
                    Err(DocRefusal::from(error))
                }
            }
        }
        Ok(Parts::Raw(made, asked)) => {
            let (names, ends) = head.into_parts();
            let content = Content::Raw(RawNet::new(made, ends), asked);
            Ok(Document { names, content })
        }
        Err(error) => Err(refused(head, error)),
    }
}

/// The refusal where reading failed after this head.
fn refused(head: Head, error: ReadError) -> DocRefusal
    ensures { result ≡ refusal_of head.names error }
{
    let (names, _) = head.into_parts();
    DocRefusal::beside(error, names)
}

/// The firms, and then the part of the document that the command speaks of.
#[tactic(auto, unfolding(crate::specs::Document::content_of, crate::specs::Document::extra_of))]
fn read_parts(
    alloc: Global,
    command: Command,
    head: &Head,
    firms: &[Value],
    top: &Value,
) -> Result<Parts, ReadError>
    requires trades { AreTrades head.now }
    requires count { length head.now.names.firms ≡ length firms.now }
    ensures gives { Gives parts_view result (content_of command head.now (items_view firms.now) (view top.now)) }
    ensures asked { IfOk result (AreFor command) }
{
    match command {
        Command::Check => {
            let made = read_firms(alloc, head, firms)?;
            Ok(Parts::Market(made, Asked::Check(read_arrangement(alloc, head, top)?)))
        }
        Command::Firms => {
            let made = read_firms(alloc, head, firms)?;
            Ok(Parts::Raw(made, RawAsked::Firms(read_arrangement(alloc, head, top)?)))
        }
        Command::Judge => {
            let made = read_firms(alloc, head, firms)?;
            let outcome = read_outcome(alloc, head, top)?;
            Ok(Parts::Market(made, Asked::Judge(outcome)))
        }
        Command::Range => Ok(Parts::Market(read_firms(alloc, head, firms)?, Asked::Range)),
        Command::Replay => read_claimed(alloc, head, firms, top),
        Command::Session => {
            let made = read_firms(alloc, head, firms)?;
            Ok(Parts::Market(made, Asked::Session(read_edits(alloc, head, top)?)))
        }
        Command::Solve => Ok(Parts::Market(read_firms(alloc, head, firms)?, Asked::Solve)),
        Command::Support => {
            let made = read_firms(alloc, head, firms)?;
            Ok(Parts::Market(made, Asked::Support(read_trades_on(alloc, head, top)?)))
        }
        Command::Test => Ok(Parts::Raw(read_firms(alloc, head, firms)?, RawAsked::Test)),
    }
}

/// The firms, and then the claim of the document. Each firm is to meet exchange, unless the claim is one on firms as
/// they are listed.
#[tactic(auto, unfolding(crate::specs::Document::content_of, crate::specs::Document::extra_of, tn_read_claims::specs::Claimed::claim_of))]
fn read_claimed(
    alloc: Global,
    head: &Head,
    firms: &[Value],
    top: &Value,
) -> Result<Parts, ReadError>
    requires trades { AreTrades head.now }
    requires count { length head.now.names.firms ≡ length firms.now }
    ensures gives { Gives parts_view result (content_of Replay head.now (items_view firms.now) (view top.now)) }
    ensures asked { IfOk result (AreFor Replay) }
{
    match named_claim(alloc, top) {
        Ok((ClaimKind::OnMarket(kind), claim)) => {
            let made = read_firms(alloc, head, firms)?;
            let claim = read_market_claim(alloc, head, kind, top, claim)?;
            Ok(Parts::Market(made, Asked::Replay(claim)))
        }
        Ok((ClaimKind::OnFirms(kind), claim)) => {
            let made = read_firms(alloc, head, firms)?;
            let claim = read_firm_claim(alloc, head, kind, claim)?;
            Ok(Parts::Raw(made, RawAsked::Replay(claim)))
        }
        Err(ReadError::Fault(fault)) => {
            let made: Vec<FirmValue> = read_firms(alloc, head, firms)?;
            drop(made);
            Err(ReadError::Fault(fault))
        }
        Err(ReadError::OutOfMemory) => Err(ReadError::OutOfMemory),
    }
}
