//! Reads the head of a document.

ghost use Rattle.std.specs.Prelude.{◌≡◌, length, IfOk};
ghost use Rattle.serde_json.specs.View.{view, items_view};
ghost use Rattle.tn_names.specs.Names.{no_names};
ghost use Rattle.tn_model.specs.Limits.{AreLimits};
ghost use Rattle.tn_read_shapes.specs.Reading.{Gives};
ghost use Rattle.tn_read_references.specs.Ordered.{AreTrades};
ghost use Rattle.tn_read_head.specs.Beside.{GivesBeside};
ghost use Rattle.tn_read_head.specs.Listing.{limits_at, listed_of};
ghost use Rattle.tn_read_head.specs.Refused.{Reads};

use crate::names::read_firm_names;
use crate::refusal::DocRefusal;
use crate::trades::read_trades;
use serde_json::Value;
use std::alloc::Global;
use tn_model::{Ends, Limits};
use tn_names::Names;
use tn_read_references::Head;
use tn_read_shapes::{ObjectKind, ReadError, fault, few, found, member, object_of};
use tn_said::PlaceStep::Key;
use tn_said::{FaultKind, Word};

/// Reads the head of a document, and gives the list of the firms beside it.
pub fn read_head<'a>(alloc: Global, top: &'a Value) -> Result<(Head, &'a [Value]), DocRefusal>
    ensures reads { Reads (λ p. (p.0, items_view p.1.now)) result (listed_of (view top.now)) }
    ensures trades { IfOk result (λ p. AreTrades p.0) }
    ensures count { IfOk result (λ p. length p.0.names.firms ≡ length p.1.now) }
{
    let mut names = Names::empty(alloc);
    match read_listed(alloc, &mut names, top) {
        Ok((limits, ends, firms)) => Ok((Head::new(limits, names, ends), firms)),
        Err(error) => Err(DocRefusal::beside(error, names)),
    }
}

/// Reads the limits, the names and the trades, and gives the list of the firms.
#[tactic(auto, unfolding(crate::specs::Listing::listed_of))]
fn read_listed<'a>(
    alloc: Global,
    names: &mut Names,
    top: &'a Value,
) -> Result<(Limits, Vec<Ends>, &'a [Value]), ReadError>
    requires { names.old ≡ no_names }
    ensures gives { GivesBeside names.new
        (λ p. (record { limits = p.0; names = names.new; ends = p.1.items }, items_view p.2.now))
        result (listed_of (view top.now)) }
    ensures trades { IfOk result (λ p. AreTrades (record { limits = p.0; names = names.new; ends = p.1.items })) }
    ensures count { IfOk result (λ p. length names.new.firms ≡ length p.2.now) }
{
    object_of(alloc, ObjectKind::Top, Some(top), &[])?;
    let limits = read_limits(alloc, top)?;
    let firms = few(
        alloc,
        limits.firms,
        member(top, Word::Firms),
        &[Key(Word::Firms)],
    )?;
    read_firm_names(alloc, names, firms)?;
    let trades = few(
        alloc,
        limits.trades,
        member(top, Word::Trades),
        &[Key(Word::Trades)],
    )?;
    let ends = read_trades(alloc, names, trades)?;
    Ok((limits, ends, firms))
}

/// The limits of the document's version.
#[tactic(auto, unfolding(crate::specs::Listing::limits_at))]
fn read_limits(alloc: Global, top: &Value) -> Result<Limits, ReadError>
    ensures gives { Gives (λ limits. limits) result (limits_at (view top.now)) }
    ensures kept { IfOk result AreLimits }
{
    match member(top, Word::Version).and_then(Value::as_u64) {
        Some(version) => found(
            alloc,
            Limits::of_version(version),
            FaultKind::Shape,
            &[Key(Word::Version)],
        ),
        None => Err(fault(alloc, FaultKind::Shape, &[Key(Word::Version)])),
    }
}
