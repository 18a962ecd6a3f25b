//! Reads lists of entries, each of which names a trade and gives a number to it.

ghost use Rattle.std.specs.Prelude.{◌≡◌, ◌<◌, ◌≤◌, length, unsigned_abs, IfOk};
ghost use Rattle.serde_json.specs.View.{view, items_view};
ghost use Rattle.tn_counts.specs.Widths.{most_unit_trades};
ghost use Rattle.tn_read_parts.specs.Lists.{first_without, unless_missing};
ghost use Rattle.tn_read_references.specs.References.{new_trade as new_trade_at};
ghost use Rattle.tn_read_shapes.specs.Reading.{Gives, each};
ghost use Rattle.tn_read_unit_parts.specs.Entries.{numbers_place, number_of, numbered, one_number, prices_of, units_within};

use serde_json::Value;
use std::alloc::Global;
use tn_base::TradeSet;
use tn_read_shapes::{ReadError, fault, found, number, require, text, two, whole};
use tn_read_units::UnitHead;
use tn_said::PlaceStep::{Index, Key, Trade};
use tn_said::{FaultKind, PlaceStep, Word};

/// The most that a price of a unit may be in size.
const MOST_PRICE: u64 = 200_000_000_000;

/// What the numbers of a list of entries are.
#[derive(Clone, Copy)]
pub enum EntryNumbers {
    /// Units of the entry's trade, from none to all that there are.
    Units,
    /// Prices of a unit.
    Prices,
}

/// The place of the list in an arrangement whose entries have these numbers.
fn place_of(numbers: EntryNumbers) -> [PlaceStep; 2]
    ensures { result ≡ numbers_place numbers }
{
    match numbers {
        EntryNumbers::Units => [Key(Word::Arrangement), Key(Word::On)],
        EntryNumbers::Prices => [Key(Word::Arrangement), Key(Word::Prices)],
    }
}

/// So many units of a trade that has some; the faults are, in this order, no whole number, and one below 0 or above these.
#[tactic(auto, unfolding(crate::specs::Entries::units_within))]
pub(crate) fn units_within(
    alloc: Global,
    units: u32,
    value: &Value,
    place: &[PlaceStep],
) -> Result<i128, ReadError>
    ensures gives { Gives (λ z. z) result (units_within units place.now (view value.now)) }
    ensures within { IfOk result (λ z. unsigned_abs z ≤ units) }
{
    let number = whole(alloc, Some(value), place)?;
    let within = 0 <= number && number.unsigned_abs() <= u64::from(units);
    require(alloc, within, FaultKind::AmountRange, place)?;
    Ok(i128::from(number))
}

/// The number of an entry of a trade.
fn number_of(
    alloc: Global,
    head: &UnitHead,
    numbers: EntryNumbers,
    t: u32,
    value: &Value,
    place: &[PlaceStep],
) -> Result<i128, ReadError>
    requires { t < length head.now.trades }
    ensures gives { Gives (λ z. z) result (number_of head.now numbers t place.now (view value.now)) }
{
    match numbers {
        EntryNumbers::Units => units_within(alloc, head.trades()[t as usize].units, value, place),
        EntryNumbers::Prices => number(alloc, MOST_PRICE, Some(value), place),
    }
}

/// The trade that a reference names, which no entry names yet; the faults are, in this order, no text, no trade of the
/// name, and a trade that has an entry.
#[tactic(auto, unfolding(tn_read_references::specs::References::new_trade, tn_read_references::specs::References::trade_at), using(std::proofs::lemmas::Option::slice_get_within))]
fn new_trade(
    alloc: Global,
    head: &UnitHead,
    named: &TradeSet<64>,
    value: &Value,
    place: &[PlaceStep],
) -> Result<u32, ReadError>
    ensures gives { Gives (λ t. t) result
        (new_trade_at head.now.names.trades place.now named.now (view value.now)) }
    ensures known { IfOk result (λ t. t < length head.now.trades) }
    ensures listed { IfOk result (λ t. t < most_unit_trades) }
{
    let _trades = head.trades();
    let name = text(alloc, Some(value), place)?;
    let number = head.names().trade_of(name);
    let t = found(alloc, number, FaultKind::UnknownTrade, place)?;
    require(alloc, !named.has(t), FaultKind::SameTrade, place)?;
    Ok(t)
}

/// Puts the number of one more entry to its trade.
#[tactic(auto, unfolding(crate::specs::Entries::one_number))]
fn add_number(
    alloc: Global,
    head: &UnitHead,
    numbers: EntryNumbers,
    named: &mut TradeSet<64>,
    given: &mut [i128],
    entry: &Value,
) -> Result<(), ReadError>
    requires places { length given.old ≡ length head.now.trades }
    ensures gives { Gives (λ _. record { named = named.new; numbers = given.new }) result
        (one_number head.now numbers (record { named = named.old; numbers = given.old }) (view entry.now)) }
    ensures places { length given.new ≡ length given.old }
{
    let [part, member] = place_of(numbers);
    let k = Index(named.count());
    let (reference, value) = two(alloc, entry, &[part, member, k])?;
    let t = new_trade(alloc, head, named, reference, &[part, member, k, Index(0)])?;
    let z = number_of(alloc, head, numbers, t, value, &[part, member, k, Index(1)])?;
    given[t as usize] = z;
    named.toggle(t);
    Ok(())
}

/// Puts the numbers of the entries to their trades, and gives the trades that have one.
fn each_number(
    alloc: Global,
    head: &UnitHead,
    numbers: EntryNumbers,
    entries: &[Value],
    given: &mut [i128],
) -> Result<TradeSet<64>, ReadError>
    requires places { length given.old ≡ length head.now.trades }
    ensures gives { Gives (λ named. record { named = named; numbers = given.new }) result
        (each (one_number head.now numbers) (record { named = 0; numbers = given.old }) (items_view entries.now)) }
    ensures places { length given.new ≡ length given.old }
{
    let mut named = TradeSet::empty();
    for entry in entries {
        add_number(alloc, head, numbers, &mut named, given, entry)?;
    }
    Ok(named)
}

/// The trades that the entries of a list name, and the numbers by trade, 0 without an entry.
#[tactic(auto, unfolding(crate::specs::Entries::numbered))]
pub(crate) fn numbered(
    alloc: Global,
    head: &UnitHead,
    numbers: EntryNumbers,
    entries: &[Value],
) -> Result<(TradeSet<64>, Vec<i128>), ReadError>
    ensures gives { Gives (λ p. record { named = p.0; numbers = p.1.items }) result
        (numbered head.now numbers (items_view entries.now)) }
    ensures places { IfOk result (λ p. length p.1.items ≡ length head.now.trades) }
{
    let mut given = vec![in alloc; 0; head.trades().len()]?;
    let named = each_number(alloc, head, numbers, entries, &mut given)?;
    Ok((named, given))
}

/// The prices of all trades, by trade number.
#[tactic(auto, unfolding(crate::specs::Entries::prices_of))]
pub(crate) fn prices_of(
    alloc: Global,
    head: &UnitHead,
    entries: &[Value],
) -> Result<Vec<i128>, ReadError>
    ensures { Gives (λ prices. prices.items) result (prices_of head.now (items_view entries.now)) }
{
    let (named, prices) = numbered(alloc, head, EntryNumbers::Prices, entries)?;
    check_complete(alloc, &named, head.trades().len() as u32)?;
    Ok(prices)
}

/// Whether each of so many trades has a price.
fn check_complete(alloc: Global, named: &TradeSet<64>, trades: u32) -> Result<(), ReadError>
    requires { trades ≤ most_unit_trades }
    ensures { Gives (λ _. tt) result
        (unless_missing (numbers_place EntryNumbers.Prices) (first_without named.now 0 trades)) }
{
    let [part, member] = place_of(EntryNumbers::Prices);
    for t in 0..trades {
        if !named.has(t) {
            let place = [part, member, Trade(t)];
            return Err(fault(alloc, FaultKind::PriceMissing, &place));
        }
    }
    Ok(())
}
