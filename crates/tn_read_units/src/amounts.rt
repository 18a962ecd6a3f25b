//! Reads the amounts of a firm.

ghost use Rattle.std.specs.Prelude.{◌≡◌, ◌++◌, [], length, option_map};
ghost use Rattle.serde_json.specs.View.{view, items_view};
ghost use Rattle.tn_read_shapes.specs.Reading.{Gives, each};
ghost use Rattle.tn_read_units.specs.Firms.{amounts_at, amounts_place, one_amount};

use crate::head::UnitHead;
use crate::own::own_trade;
use crate::steps::MOST_NUMBER;
use serde_json::Value;
use std::alloc::Global;
use std::marker::Model;
use tn_base::{Side, TradeSet};
use tn_read_shapes::{ReadError, number, optional_list, require, two};
use tn_said::PlaceStep::{Index, Key};
use tn_said::{FaultKind, Word};

/// What a unit of a trade adds to the worth of the firm that stands on one side of it.
#[derive(Clone, Copy)]
pub struct Amount {
    /// The number of the trade.
    pub trade: u32,
    /// The side on which the firm stands.
    pub side: Side,
    pub number: i64,
}

/// The amounts of a firm, in the order in which it gives them.
#[derive(Drop)]
pub struct OwnAmounts {
    named: TradeSet<64>,
    entries: Vec<Amount>,
}

impl Model for OwnAmounts {
    ghost use Rattle.tn_read_units.specs.Firms.{OwnAmounts as ReadAmounts};

    ghost Value = { ReadAmounts };

    ghost view = { λ amounts. record { named = amounts.named; entries = amounts.entries.items } };
}

impl OwnAmounts {
    /// The amounts, in the order in which the firm gives them.
    pub fn entries(&self) -> &[Amount]
        ensures { result.now ≡ self.now.entries }
    {
        &self.entries
    }
}

/// The amounts of firm `f`, none where the member isn't there.
#[tactic(auto, unfolding(crate::specs::Firms::amounts_at))]
pub(crate) fn amounts_of(
    alloc: Global,
    head: &UnitHead,
    f: u32,
    value: Option<&Value>,
) -> Result<OwnAmounts, ReadError>
    ensures { Gives (λ amounts. amounts) result
        (amounts_at head.now f (option_map (λ v. view v.now) value.entry)) }
{
    let place = [Key(Word::Firms), Index(f), Key(Word::Amounts)];
    let entries = optional_list(alloc, value, &place)?;
    each_amount(alloc, head, f, entries)
}

/// The amounts of the entries, one after the other.
fn each_amount(
    alloc: Global,
    head: &UnitHead,
    f: u32,
    entries: &[Value],
) -> Result<OwnAmounts, ReadError>
    ensures { Gives (λ amounts. amounts) result (each (one_amount head.now f (amounts_place f))
        (record { named = 0; entries = [] }) (items_view entries.now)) }
{
    let mut amounts = OwnAmounts {
        named: TradeSet::empty(),
        entries: Vec::new(alloc),
    };
    for entry in entries {
        add_amount(alloc, head, f, &mut amounts, entry)?;
    }
    Ok(amounts)
}

/// Puts the amount of one more entry to the amounts.
#[tactic(auto, unfolding(crate::specs::Firms::one_amount))]
fn add_amount(
    alloc: Global,
    head: &UnitHead,
    f: u32,
    amounts: &mut OwnAmounts,
    entry: &Value,
) -> Result<(), ReadError>
    ensures gives { Gives (λ _. amounts.new) result
        (one_amount head.now f (amounts_place f) amounts.old (view entry.now)) }
{
    let _trades = head.trades();
    let list = [Key(Word::Firms), Index(f), Key(Word::Amounts)];
    let [firms, firm, member] = list;
    let item = Index(amounts.named.count());
    let (reference, value) = two(alloc, entry, &[firms, firm, member, item])?;
    let place = [firms, firm, member, item, Index(0)];
    let (trade, side) = own_trade(alloc, head, f, reference, &place)?;
    require(
        alloc,
        !amounts.named.has(trade),
        FaultKind::SameTrade,
        &place,
    )?;
    let place = [firms, firm, member, item, Index(1)];
    let number = number(alloc, MOST_NUMBER, Some(value), &place)?;
    amounts.entries.push(Amount {
        trade,
        side,
        number: number as i64,
    })?;
    amounts.named.toggle(trade);
    Ok(())
}
