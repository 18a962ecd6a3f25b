//! The head of a document whose trades have units.

ghost use Rattle.std.specs.Prelude.{◌≡◌, ◌≤◌, [], length, All, IfOk, OnOk};
ghost use Rattle.serde_json.specs.View.{view, items_view};
ghost use Rattle.tn_names.specs.Names.{no_names};
ghost use Rattle.tn_counts.specs.Widths.{most_market_units, most_unit_trades};
ghost use Rattle.tn_read_shapes.specs.Reading.{Gives};
ghost use Rattle.tn_read_head.specs.Beside.{GivesBeside};
ghost use Rattle.tn_read_head.specs.Refused.{Reads};
ghost use Rattle.tn_read_units.specs.Heads.{AreUnitTrades, all_units, head_of, trades_of, version_at};
ghost use Rattle.tn_read_units.specs.Trades.{IsUnitTrade};

use crate::trades::{all_units, each_trade};
use serde_json::Value;
use std::alloc::Global;
use std::marker::Model;
use tn_counts::UnitTrade;
use tn_names::Names;
use tn_read_head::{DocRefusal, read_firm_names};
use tn_read_shapes::{ObjectKind, ReadError, few, found, member, object_of, require};
use tn_said::PlaceStep::Key;
use tn_said::{FaultKind, Word};

/// The version of documents whose trades have units.
const UNIT_VERSION: u64 = 4;

/// The most firms, and the most trades.
const MOST_FIRMS: u32 = 1024;

const MOST_TRADES: u32 = 4096;

/// The most units of all trades.
const MOST_UNITS: u64 = 1 << 20;

/// The head of a document whose trades have units: the names of its firms and trades, and the trades. Names and trades
/// are of the same trades; each is between two different firms, and there are no more than the limits allow.
#[derive(Drop)]
pub struct UnitHead {
    names: Names,
    trades: Vec<UnitTrade>,
}

impl Model for UnitHead {
    ghost use Rattle.tn_read_units.specs.Heads.{AreUnitTrades};
    ghost use Rattle.tn_read_units.specs.Trades.{UnitTrades};

    ghost Value = { UnitTrades };

    ghost view = { λ head. record { names = head.names; trades = head.trades.items } };

    ghost invariant = { λ head. AreUnitTrades (record { names = head.names; trades = head.trades.items }) };
}

impl UnitHead {
    /// The names of the firms and of the trades.
    pub fn names(&self) -> &Names
        ensures is { result.now ≡ self.now.names }
        ensures kept { AreUnitTrades self.now }
    {
        &self.names
    }

    /// The names alone.
    pub(crate) fn into_names(self) -> Names
        ensures { result ≡ self.names }
    {
        self.names
    }

    /// The trades, in file order.
    pub fn trades(&self) -> &[UnitTrade]
        ensures is { result.now ≡ self.now.trades }
        ensures kept { AreUnitTrades self.now }
    {
        &self.trades
    }
}

/// Reads the head of a document whose trades have units, and gives the list of the firms beside it.
pub fn read_unit_head<'a>(
    alloc: Global,
    top: &'a Value,
) -> Result<(UnitHead, &'a [Value]), DocRefusal>
    ensures reads { Reads (λ p. (p.0, items_view p.1.now)) result (head_of (view top.now)) }
    ensures kept { IfOk result (λ p. AreUnitTrades p.0) }
    ensures count { IfOk result (λ p. length p.0.names.firms ≡ length p.1.now) }
{
    let mut names = Names::empty(alloc);
    match read_listed(alloc, &mut names, top) {
        Ok((trades, firms)) => Ok((UnitHead { names, trades }, firms)),
        Err(error) => Err(DocRefusal::beside(error, names)),
    }
}

/// Reads the names and the trades, and gives the list of the firms.
#[tactic(auto, unfolding(crate::specs::Heads::head_of))]
fn read_listed<'a>(
    alloc: Global,
    names: &mut Names,
    top: &'a Value,
) -> Result<(Vec<UnitTrade>, &'a [Value]), ReadError>
    requires { names.old ≡ no_names }
    ensures gives { GivesBeside names.new
        (λ p. (record { names = names.new; trades = p.0.items }, items_view p.1.now))
        result (head_of (view top.now)) }
    ensures kept { IfOk result (λ p. AreUnitTrades (record { names = names.new; trades = p.0.items })) }
    ensures count { IfOk result (λ p. length names.new.firms ≡ length p.1.now) }
{
    object_of(alloc, ObjectKind::Top, Some(top), &[])?;
    check_version(alloc, top)?;
    let place = [Key(Word::Firms)];
    let firms = few(alloc, MOST_FIRMS, member(top, Word::Firms), &place)?;
    read_firm_names(alloc, names, firms)?;
    let place = [Key(Word::Trades)];
    let items = few(alloc, MOST_TRADES, member(top, Word::Trades), &place)?;
    let trades = read_trades(alloc, names, items)?;
    Ok((trades, firms))
}

/// Whether the version is that of documents whose trades have units; another is a fault of shape.
#[tactic(auto, unfolding(crate::specs::Heads::version_at))]
fn check_version(alloc: Global, top: &Value) -> Result<(), ReadError>
    ensures { Gives (λ _. tt) result (version_at (view top.now)) }
{
    let version = member(top, Word::Version).and_then(Value::as_u64);
    let place = [Key(Word::Version)];
    let version = found(alloc, version, FaultKind::Shape, &place)?;
    require(alloc, version == UNIT_VERSION, FaultKind::Shape, &place)
}

/// Reads the trades, and puts their names to the names. All units together aren't too many.
#[tactic(auto, unfolding(crate::specs::Heads::trades_of))]
fn read_trades(
    alloc: Global,
    names: &mut Names,
    items: &[Value],
) -> Result<Vec<UnitTrade>, ReadError>
    requires none { length names.old.trades ≡ 0 }
    requires few { length items.now ≤ most_unit_trades }
    ensures gives { GivesBeside names.new
        (λ trades. record { names = names.new; trades = trades.items })
        result (trades_of (record { names = names.old; trades = [] }) (items_view items.now)) }
    ensures each { IfOk result (λ trades. All (IsUnitTrade (length names.new.firms)) trades.items) }
    ensures few_units { IfOk result (λ trades. all_units trades.items ≤ most_market_units) }
    ensures count { IfOk result (λ trades. length trades.items ≡ length items.now) }
    ensures named { OnOk result (length names.new.trades ≡ length items.now) }
    ensures firms { OnOk result (names.new.firms ≡ names.old.firms) }
{
    let trades = each_trade(alloc, names, items)?;
    let few = all_units(&trades) <= MOST_UNITS;
    require(alloc, few, FaultKind::Limit, &[Key(Word::Trades)])?;
    Ok(trades)
}
