//! References: texts that name a firm, a trade, or an own trade of a firm.

ghost use Rattle.std.specs.Prelude.{◌≡◌, ◌<◌, length, option_map, IfOk, Some};
ghost use Rattle.serde_json.specs.View.{view};
ghost use Rattle.tn_model.specs.Limits.{most_trades};
ghost use Rattle.tn_read_shapes.specs.Reading.{Gives};
ghost use Rattle.tn_read_references.specs.Ordered.{sides_of};
ghost use Rattle.tn_read_references.specs.References.{firm_at, new_trade, own_position, position_in, position_on, trade_at};

use crate::head::Head;
use serde_json::Value;
use std::alloc::Global;
use tn_base::{Side, TradeSet};
use tn_model::Ends;
use tn_names::Names;
use tn_read_shapes::{ReadError, found, require, text};
use tn_said::{FaultKind, PlaceStep};

/// The firm that a value names; the faults are, in this order, no text and no firm of the name.
#[tactic(auto, unfolding(crate::specs::References::firm_at), using(std::proofs::lemmas::Option::slice_get_within))]
pub fn firm(
    alloc: Global,
    names: &Names,
    value: Option<&Value>,
    place: &[PlaceStep],
) -> Result<u32, ReadError>
    ensures gives { Gives (λ f. f) result
        (firm_at names.now.firms place.now (option_map (λ v. view v.now) value.entry)) }
    ensures known { IfOk result (λ f. f < length names.now.firms) }
{
    let name = text(alloc, value, place)?;
    found(alloc, names.firm_of(name), FaultKind::UnknownFirm, place)
}

/// The trade that a reference names; the faults are, in this order, no text and no trade of the name.
#[tactic(auto, unfolding(crate::specs::References::trade_at), using(std::proofs::lemmas::Option::slice_get_within))]
pub fn trade(
    alloc: Global,
    head: &Head,
    value: &Value,
    place: &[PlaceStep],
) -> Result<u32, ReadError>
    ensures gives { Gives (λ t. t) result (trade_at head.now.names.trades place.now (view value.now)) }
    ensures known { IfOk result (λ t. t < length head.now.names.trades) }
    ensures listed { IfOk result (λ t. t < most_trades) }
{
    let name = text(alloc, Some(value), place)?;
    found(
        alloc,
        head.names().trade_of(name),
        FaultKind::UnknownTrade,
        place,
    )
}

/// The trade that a reference names, where it isn't a member of the set yet; the faults are, in this order, no text, no
/// trade of the name, and a trade that is in the set.
#[tactic(auto, unfolding(crate::specs::References::new_trade))]
pub fn new_trade(
    alloc: Global,
    head: &Head,
    named: &TradeSet<16>,
    value: &Value,
    place: &[PlaceStep],
) -> Result<u32, ReadError>
    ensures gives { Gives (λ t. t) result
        (new_trade head.now.names.trades place.now named.now (view value.now)) }
    ensures known { IfOk result (λ t. t < length head.now.names.trades) }
    ensures listed { IfOk result (λ t. t < most_trades) }
{
    let t = trade(alloc, head, value, place)?;
    require(alloc, !named.has(t), FaultKind::SameTrade, place)?;
    Ok(t)
}

/// The position of the own trade of firm `f` that a reference names, on one side if it is given; the faults are, in
/// this order, no text, no trade of the name, and a trade that isn't an own one on that side.
#[tactic(auto, unfolding(crate::specs::References::own_position))]
pub fn own_position(
    alloc: Global,
    head: &Head,
    f: u32,
    side: Option<Side>,
    value: &Value,
    place: &[PlaceStep],
) -> Result<u32, ReadError>
    ensures gives { Gives (λ k. k) result
        (own_position head.now f side place.now (view value.now)) }
    ensures own { IfOk result (λ k. k < length (sides_of head.now.ends f)) }
{
    let t = trade(alloc, head, value, place)?;
    let position = position_on(side, &head.ends()[t as usize], f);
    found(alloc, position, FaultKind::NotOwnTrade, place)
}

/// Where a trade stands among the own trades of firm `f` on a side, or on either where none is given.
fn position_on(side: Option<Side>, trade: &Ends, f: u32) -> Option<u32>
    ensures { result ≡ position_on side f trade.now }
{
    match side {
        None => position_in(trade, f),
        Some(Side::Sell) => (trade.seller == f).then_some(trade.at_seller),
        Some(Side::Buy) => (trade.buyer == f).then_some(trade.at_buyer),
    }
}

/// Where a trade stands among the own trades of firm `f`.
fn position_in(trade: &Ends, f: u32) -> Option<u32>
    ensures { result ≡ position_in f trade.now }
{
    if trade.seller == f {
        Some(trade.at_seller)
    } else if trade.buyer == f {
        Some(trade.at_buyer)
    } else {
        None
    }
}
