//! Reads references to the trades of a firm.

ghost use Rattle.std.specs.Prelude.{◌≡◌, ◌<◌, [], length, option_map, All, IfOk};
ghost use Rattle.serde_json.specs.View.{view, items_view};
ghost use Rattle.tn_counts.specs.Widths.{most_unit_trades};
ghost use Rattle.tn_read_shapes.specs.Reading.{Gives, each};
ghost use Rattle.tn_read_references.specs.References.{trade_at};
ghost use Rattle.tn_read_units.specs.Own.{members_at, one_member, own_trade, side_at};
ghost use Rattle.tn_read_units.specs.Steps.{part_place};
ghost use Rattle.tn_said.specs.declared.place.Word.TheVariants.{Trades};

use crate::head::UnitHead;
use crate::steps::SetAt;
use serde_json::Value;
use std::alloc::Global;
use std::marker::Model;
use tn_base::{Side, TradeSet};
use tn_counts::UnitTrade;
use tn_read_shapes::{ReadError, found, list, require, text};
use tn_said::PlaceStep::{Index, Key};
use tn_said::{FaultKind, PlaceStep, Word};

/// The trades of a set, in the order in which the set names them.
#[derive(Drop)]
pub struct Members {
    pub(crate) named: TradeSet<64>,
    pub(crate) trades: Vec<u32>,
}

impl Model for Members {
    ghost use Rattle.std.specs.Prelude.{◌<◌, All};
    ghost use Rattle.tn_counts.specs.Widths.{most_unit_trades};
    ghost use Rattle.tn_read_units.specs.Own.{Members as ReadMembers};

    ghost Value = { ReadMembers };

    ghost view = { λ members. record { named = members.named; trades = members.trades.items } };

    ghost invariant = { λ members. All (λ t. t < most_unit_trades) members.trades.items };
}

impl Members {
    /// The trades.
    pub fn trades(&self) -> &[u32]
        ensures is { result.now ≡ self.now.trades }
        ensures known { All (λ t. t < most_unit_trades) self.now.trades }
    {
        &self.trades
    }
}

/// The trade that a reference names; the faults are, in this order, no text and no trade of the name.
#[tactic(auto, unfolding(tn_read_references::specs::References::trade_at), using(std::proofs::lemmas::Option::slice_get_within))]
fn trade(
    alloc: Global,
    head: &UnitHead,
    value: &Value,
    place: &[PlaceStep],
) -> Result<u32, ReadError>
    ensures gives { Gives (λ t. t) result (trade_at head.now.names.trades place.now (view value.now)) }
    ensures known { IfOk result (λ t. t < length head.now.trades) }
{
    let name = text(alloc, Some(value), place)?;
    let number = head.names().trade_of(name);
    found(alloc, number, FaultKind::UnknownTrade, place)
}

/// The trade of firm `f` that a reference names, and on which side of it the firm stands; the faults are, in this
/// order, no text, no trade of the name, and a trade of other firms.
#[tactic(auto, unfolding(crate::specs::Own::own_trade))]
pub(crate) fn own_trade(
    alloc: Global,
    head: &UnitHead,
    f: u32,
    value: &Value,
    place: &[PlaceStep],
) -> Result<(u32, Side), ReadError>
    ensures gives { Gives (λ p. p) result (own_trade head.now f place.now (view value.now)) }
    ensures known { IfOk result (λ p. p.0 < length head.now.trades) }
{
    let t = trade(alloc, head, value, place)?;
    let side = side_at(f, head.trades()[t as usize]);
    let side = found(alloc, side, FaultKind::NotOwnTrade, place)?;
    Ok((t, side))
}

/// On which side of a trade a firm stands, None where it is a trade of other firms.
fn side_at(f: u32, trade: UnitTrade) -> Option<Side>
    ensures { result ≡ side_at f trade }
{
    if trade.seller == f {
        Some(Side::Sell)
    } else if trade.buyer == f {
        Some(Side::Buy)
    } else {
        None
    }
}

/// The trades of a set, which a list of references names.
#[tactic(auto, unfolding(crate::specs::Own::members_at))]
pub(crate) fn members_of(
    alloc: Global,
    head: &UnitHead,
    at: SetAt,
    value: Option<&Value>,
) -> Result<Members, ReadError>
    ensures { Gives (λ members. members) result (members_at head.now at.firm (part_place at Trades)
        (option_map (λ v. view v.now) value.entry)) }
{
    let references = list(alloc, value, &at.part(Word::Trades))?;
    each_member(alloc, head, at, references)
}

/// The trades that references name, one after the other.
fn each_member(
    alloc: Global,
    head: &UnitHead,
    at: SetAt,
    references: &[Value],
) -> Result<Members, ReadError>
    ensures { Gives (λ members. members) result (each (one_member head.now at.firm (part_place at Trades))
        (record { named = 0; trades = [] }) (items_view references.now)) }
{
    let mut members = Members {
        named: TradeSet::empty(),
        trades: Vec::new(alloc),
    };
    for reference in references {
        add_member(alloc, head, at, &mut members, reference)?;
    }
    Ok(members)
}

/// Puts the trade that one more reference names to the trades.
#[tactic(auto, unfolding(crate::specs::Own::one_member))]
fn add_member(
    alloc: Global,
    head: &UnitHead,
    at: SetAt,
    members: &mut Members,
    reference: &Value,
) -> Result<(), ReadError>
    ensures gives { Gives (λ _. members.new) result
        (one_member head.now at.firm (part_place at Trades) members.old (view reference.now)) }
{
    let _trades = head.trades();
    let [firms, firm, sets, set, part] = at.part(Word::Trades);
    let place = [firms, firm, sets, set, part, Index(members.named.count())];
    let (t, _) = own_trade(alloc, head, at.firm, reference, &place)?;
    require(alloc, !members.named.has(t), FaultKind::SameTrade, &place)?;
    members.trades.push(t)?;
    members.named.toggle(t);
    Ok(())
}
