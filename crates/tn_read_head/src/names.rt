//! Reads the names of firms and trades.

ghost use Rattle.std.specs.Prelude.{◌≡◌, ◌+◌, ◌<◌, ◌≤◌, length, option_map, true, IfOk, OnOk};
ghost use Rattle.serde_json.specs.View.{view, items_view};
ghost use Rattle.tn_names.specs.Names.{is_name};
ghost use Rattle.tn_model.specs.Limits.{most_firms, most_trades};
ghost use Rattle.tn_read_shapes.specs.Reading.{Gives, each};
ghost use Rattle.tn_read_head.specs.Beside.{GivesBeside, with_names};
ghost use Rattle.tn_read_head.specs.Naming.{firm_name, name_at, one_firm_name, trade_name};

use serde_json::Value;
use std::alloc::Global;
use tn_names::{Names, is_name};
use tn_read_shapes::{ObjectKind, ReadError, fault, member, object, object_of, require, text};
use tn_said::PlaceStep::Key;
use tn_said::{FaultKind, PlaceStep, Word};

/// Puts the names of the firms to the names.
pub fn read_firm_names(alloc: Global, names: &mut Names, firms: &[Value]) -> Result<(), ReadError>
    requires none { length names.old.firms ≡ 0 }
    requires few { length firms.now ≤ most_firms }
    ensures gives { GivesBeside names.new (λ _. names.new) result
        (each one_firm_name names.old (items_view firms.now)) }
    ensures count { OnOk result (length names.new.firms ≡ length firms.now) }
    ensures trades { OnOk result (names.new.trades ≡ names.old.trades) }
{
    for firm in firms {
        read_firm_name(alloc, names, firm)?;
    }
    Ok(())
}

/// Puts the name of one more firm to the names.
#[tactic(auto, unfolding(crate::specs::Naming::firm_name, crate::specs::Naming::new_name))]
fn read_firm_name(alloc: Global, names: &mut Names, firm: &Value) -> Result<(), ReadError>
    requires { length names.old.firms < most_firms }
    ensures gives { GivesBeside names.new (λ _. names.new) result
        (one_firm_name names.old (view firm.now)) }
    ensures count { OnOk result (length names.new.firms ≡ length names.old.firms + 1) }
    ensures trades { OnOk result (names.new.trades ≡ names.old.trades) }
{
    let f = PlaceStep::Index(names.firms());
    object(alloc, firm, &[Key(Word::Firms), f])?;
    let place = [Key(Word::Firms), f, Key(Word::Name)];
    let name = name(alloc, member(firm, Word::Name), &place)?;
    if !names.add_firm(name)? {
        return Err(fault(alloc, FaultKind::SameName, &place));
    }
    Ok(())
}

/// Puts the name of one more trade to the names.
#[tactic(auto, unfolding(crate::specs::Naming::trade_name, crate::specs::Naming::new_name))]
pub(crate) fn read_trade_name(
    alloc: Global,
    names: &mut Names,
    trade: &Value,
) -> Result<(), ReadError>
    requires { length names.old.trades < most_trades }
    ensures gives { GivesBeside names.new (λ _. names.new) result
        (with_names names.old (trade_name names.old (view trade.now))) }
    ensures count { OnOk result (length names.new.trades ≡ length names.old.trades + 1) }
    ensures firms { OnOk result (names.new.firms ≡ names.old.firms) }
{
    let t = PlaceStep::Index(names.trades());
    object_of(
        alloc,
        ObjectKind::Trade,
        Some(trade),
        &[Key(Word::Trades), t],
    )?;
    let place = [Key(Word::Trades), t, Key(Word::Name)];
    let name = name(alloc, member(trade, Word::Name), &place)?;
    if !names.add_trade(name)? {
        return Err(fault(alloc, FaultKind::SameName, &place));
    }
    Ok(())
}

/// A text that keeps the rule for names.
#[tactic(auto, unfolding(crate::specs::Naming::name_at))]
pub fn name<'a>(
    alloc: Global,
    value: Option<&'a Value>,
    place: &[PlaceStep],
) -> Result<&'a str, ReadError>
    ensures gives { Gives (λ s. s.now) result
        (name_at place.now (option_map (λ v. view v.now) value.entry)) }
    ensures named { IfOk result (λ s. is_name s.now ≡ true) }
{
    let name = text(alloc, value, place)?;
    require(alloc, is_name(name), FaultKind::BadName, place)?;
    Ok(name)
}
