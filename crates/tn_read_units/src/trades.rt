//! Reads trades with units.

ghost use Rattle.std.specs.Prelude.{◌≡◌, ◌+◌, ◌<◌, ◌≤◌, ◌++◌, [], ◌∷◌, length, All, IfOk, OnOk};
ghost use Rattle.serde_json.specs.View.{view, items_view};
ghost use Rattle.tn_names.specs.Names.{NameLists};
ghost use Rattle.tn_counts.specs.Widths.{most_unit_trades};
ghost use Rattle.tn_read_shapes.specs.Reading.{Gives, each};
ghost use Rattle.tn_read_head.specs.Beside.{GivesBeside, with_names};
ghost use Rattle.tn_read_units.specs.Heads.{all_units};
ghost use Rattle.tn_read_units.specs.Trades.{HasFewUnits, IsUnitTrade, one_trade, trade_name, trade_of};

use crate::counts::units;
use serde_json::Value;
use std::alloc::Global;
use tn_counts::UnitTrade;
use tn_names::Names;
use tn_read_head::name;
use tn_read_references::firm;
use tn_read_shapes::{ObjectKind, ReadError, fault, member, object_of, require};
use tn_said::PlaceStep::Key;
use tn_said::{FaultKind, PlaceStep, Word};

/// Reads the trades in their order, and puts their names to the names.
pub(crate) fn each_trade(
    alloc: Global,
    names: &mut Names,
    items: &[Value],
) -> Result<Vec<UnitTrade>, ReadError>
    requires none { length names.old.trades ≡ 0 }
    requires few { length items.now ≤ most_unit_trades }
    ensures gives { GivesBeside names.new
        (λ trades. record { names = names.new; trades = trades.items })
        result (each one_trade (record { names = names.old; trades = [] }) (items_view items.now)) }
    ensures each { IfOk result (λ trades. All (IsUnitTrade (length names.new.firms)) trades.items) }
    ensures count { IfOk result (λ trades. length trades.items ≡ length items.now) }
    ensures named { OnOk result (length names.new.trades ≡ length items.now) }
    ensures firms { OnOk result (names.new.firms ≡ names.old.firms) }
{
    let mut trades = Vec::new(alloc);
    for item in items {
        let next = read_trade(alloc, names, &trades, item)?;
        trades.push(next)?;
    }
    Ok(trades)
}

/// Puts the name of one more trade to the names, and reads its ends and its units.
#[tactic(auto, unfolding(crate::specs::Trades::one_trade))]
fn read_trade(
    alloc: Global,
    names: &mut Names,
    before: &[UnitTrade],
    item: &Value,
) -> Result<UnitTrade, ReadError>
    requires count { length names.old.trades ≡ length before.now }
    requires few { length before.now < most_unit_trades }
    ensures gives { GivesBeside names.new
        (λ trade. record { names = names.new; trades = before.now ++ trade ∷ [] })
        result (one_trade (record { names = names.old; trades = before.now }) (view item.now)) }
    ensures sound { IfOk result (IsUnitTrade (length names.new.firms)) }
    ensures count { OnOk result (length names.new.trades ≡ length before.now + 1) }
    ensures firms { OnOk result (names.new.firms ≡ names.old.firms) }
{
    read_name(alloc, names, item)?;
    read_ends(alloc, names, before.len() as u32, item)
}

/// Puts the name of one more trade to the names.
#[tactic(auto, unfolding(crate::specs::Trades::trade_name, tn_read_head::specs::Naming::new_name))]
fn read_name(alloc: Global, names: &mut Names, item: &Value) -> Result<(), ReadError>
    requires { length names.old.trades < most_unit_trades }
    ensures gives { GivesBeside names.new (λ _. names.new) result
        (with_names names.old (trade_name names.old (view item.now))) }
    ensures count { OnOk result (length names.new.trades ≡ length names.old.trades + 1) }
    ensures firms { OnOk result (names.new.firms ≡ names.old.firms) }
{
    let t = PlaceStep::Index(names.trades());
    let place = [Key(Word::Trades), t];
    object_of(alloc, ObjectKind::UnitTrade, Some(item), &place)?;
    let place = [Key(Word::Trades), t, Key(Word::Name)];
    let name = name(alloc, member(item, Word::Name), &place)?;
    if !names.add_trade(name)? {
        return Err(fault(alloc, FaultKind::SameName, &place));
    }
    Ok(())
}

/// The two ends of trade `t`, and its units.
#[tactic(auto, unfolding(crate::specs::Trades::trade_of))]
fn read_ends(alloc: Global, names: &Names, t: u32, item: &Value) -> Result<UnitTrade, ReadError>
    ensures gives { Gives (λ trade. trade) result (trade_of names.now.firms t (view item.now)) }
    ensures sound { IfOk result (IsUnitTrade (length names.now.firms)) }
{
    let t = PlaceStep::Index(t);
    let place = [Key(Word::Trades), t, Key(Word::Seller)];
    let seller = firm(alloc, names, member(item, Word::Seller), &place)?;
    let place = [Key(Word::Trades), t, Key(Word::Buyer)];
    let buyer = firm(alloc, names, member(item, Word::Buyer), &place)?;
    let place = [Key(Word::Trades), t];
    require(alloc, seller != buyer, FaultKind::SelfTrade, &place)?;
    let place = [Key(Word::Trades), t, Key(Word::Units)];
    let units = units(alloc, member(item, Word::Units), &place)?;
    Ok(UnitTrade {
        seller,
        buyer,
        units,
    })
}

/// The units of all trades.
pub(crate) fn all_units(trades: &[UnitTrade]) -> u64
    requires few { length trades.now ≤ most_unit_trades }
    requires each { All HasFewUnits trades.now }
    ensures { result ≡ all_units trades.now }
{
    let mut units = 0;
    for trade in trades {
        units += u64::from(trade.units);
    }
    units
}
