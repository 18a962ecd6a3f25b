//! Lists of an extra part: of trades, of prices for trades, and of contracts.

ghost use Rattle.std.specs.Prelude.{◌≡◌, ◌<◌, ◌≤◌, length, IfOk, Some};
ghost use Rattle.serde_json.specs.View.{view, items_view};
ghost use Rattle.tn_model.specs.Limits.{most_trades};
ghost use Rattle.tn_model.specs.Prices.{price_at};
ghost use Rattle.tn_model.specs.Choices.{contracts_of};
ghost use Rattle.tn_read_shapes.specs.Reading.{Gives, each};
ghost use Rattle.tn_read_parts.specs.Lists.{contracts_at, first_without, list_place, named_prices, one_on, one_price, price_of, prices_of, unless_missing};

use serde_json::Value;
use std::alloc::Global;
use tn_base::{OutOfMemory, TradeSet};
use tn_model::{Contract, Contracts};
use tn_read_references::{Head, new_trade};
use tn_read_shapes::{ReadError, fault, number, two};
use tn_said::PlaceStep::{Index, Trade};
use tn_said::{FaultKind, PlaceStep};

/// A list that is a member of an extra part.
#[derive(Clone, Copy)]
pub struct ListAt {
    /// The part.
    pub part: PlaceStep,
    /// The member.
    pub member: PlaceStep,
}

/// The set of the trades that a list names.
pub fn read_trades(
    alloc: Global,
    head: &Head,
    at: ListAt,
    references: &[Value],
) -> Result<TradeSet<16>, ReadError>
    ensures { Gives (λ on. on) result
        (each (one_on head.now.names.trades (list_place at)) 0 (items_view references.now)) }
{
    let mut on = TradeSet::empty();
    for reference in references {
        add_trade(alloc, head, at, &mut on, reference)?;
    }
    Ok(on)
}

/// Adds one more trade to a set.
#[tactic(auto, unfolding(crate::specs::Lists::one_on))]
fn add_trade(
    alloc: Global,
    head: &Head,
    at: ListAt,
    on: &mut TradeSet<16>,
    reference: &Value,
) -> Result<(), ReadError>
    ensures { Gives (λ _. on.new) result
        (one_on head.now.names.trades (list_place at) on.old (view reference.now)) }
{
    let place = [at.part, at.member, Index(on.count())];
    let t = new_trade(alloc, head, on, reference, &place)?;
    on.toggle(t);
    Ok(())
}

/// The prices of all trades, by trade number.
#[tactic(auto, unfolding(crate::specs::Lists::prices_of))]
pub fn read_prices(
    alloc: Global,
    head: &Head,
    at: ListAt,
    limit: u64,
    entries: &[Value],
) -> Result<Vec<i128>, ReadError>
    ensures { Gives (λ prices. prices.items) result
        (prices_of head.now.names.trades (list_place at) limit (items_view entries.now)) }
{
    let (named, prices) = named_prices(alloc, head, at, limit, entries)?;
    check_complete(alloc, at, &named, head.names().trades())?;
    Ok(prices)
}

/// The contracts of a list, ascending by trade whatever the order of the entries.
#[tactic(auto, unfolding(crate::specs::Lists::contracts_at))]
pub(crate) fn read_contracts(
    alloc: Global,
    head: &Head,
    at: ListAt,
    limit: u64,
    entries: &[Value],
) -> Result<Contracts, ReadError>
    ensures { Gives (λ contracts. contracts) result
        (contracts_at head.now.names.trades (list_place at) limit (items_view entries.now)) }
{
    let (named, prices) = named_prices(alloc, head, at, limit, entries)?;
    let contracts = contracts_of(alloc, &named, &prices)?;
    Ok(Contracts::from_vec(contracts))
}

/// The contracts of the trades of a set at their prices, ascending.
fn contracts_of(
    alloc: Global,
    named: &TradeSet<16>,
    prices: &[i128],
) -> Result<Vec<Contract>, OutOfMemory>
    requires { length prices.now ≤ most_trades }
    ensures { IfOk result (λ contracts. contracts.items
        ≡ contracts_of named.now (price_at prices.now) (length prices.now)) }
{
    let mut contracts = Vec::new(alloc);
    for (t, price) in prices.iter().enumerate() {
        let trade = t as u32;
        if named.has(trade) {
            contracts.push(Contract {
                trade,
                price: *price,
            })?;
        }
    }
    Ok(contracts)
}

/// The trades that the entries of a list name, and the prices by trade number, 0 without an entry.
#[tactic(auto, unfolding(crate::specs::Lists::named_prices))]
fn named_prices(
    alloc: Global,
    head: &Head,
    at: ListAt,
    limit: u64,
    entries: &[Value],
) -> Result<(TradeSet<16>, Vec<i128>), ReadError>
    ensures gives { Gives (λ p. record { named = p.0; numbers = p.1.items }) result
        (named_prices head.now.names.trades (list_place at) limit (items_view entries.now)) }
    ensures places { IfOk result (λ p. length p.1.items ≡ length head.now.names.trades) }
    ensures few { IfOk result (λ p. length p.1.items ≤ most_trades) }
{
    let mut prices = vec![in alloc; 0; head.names().trades() as usize]?;
    let named = read_entries(alloc, head, at, limit, entries, &mut prices)?;
    Ok((named, prices))
}

/// Puts the prices of the entries to their trades, and gives the trades that have one.
fn read_entries(
    alloc: Global,
    head: &Head,
    at: ListAt,
    limit: u64,
    entries: &[Value],
    prices: &mut [i128],
) -> Result<TradeSet<16>, ReadError>
    requires places { length prices.old ≡ length head.now.names.trades }
    ensures gives { Gives (λ named. record { named = named; numbers = prices.new }) result
        (each (one_price head.now.names.trades (list_place at) limit)
        (record { named = 0; numbers = prices.old }) (items_view entries.now)) }
    ensures places { length prices.new ≡ length prices.old }
{
    let mut named = TradeSet::empty();
    for entry in entries {
        add_price(alloc, head, at, limit, &mut named, prices, entry)?;
    }
    Ok(named)
}

/// Puts one more price to its trade.
#[tactic(auto, unfolding(tn_read_references::specs::Entries::one_entry))]
fn add_price(
    alloc: Global,
    head: &Head,
    at: ListAt,
    limit: u64,
    named: &mut TradeSet<16>,
    prices: &mut [i128],
    entry: &Value,
) -> Result<(), ReadError>
    requires places { length prices.old ≡ length head.now.names.trades }
    ensures gives { Gives (λ _. record { named = named.new; numbers = prices.new }) result
        (one_price head.now.names.trades (list_place at) limit
        (record { named = named.old; numbers = prices.old }) (view entry.now)) }
    ensures places { length prices.new ≡ length prices.old }
{
    let (t, price) = price_of(alloc, head, at, limit, named, entry)?;
    prices[t as usize] = price;
    named.toggle(t);
    Ok(())
}

/// The price that one more entry gives to a trade, which no earlier entry names.
#[tactic(auto, unfolding(tn_read_references::specs::Entries::entry_of))]
pub fn price_of(
    alloc: Global,
    head: &Head,
    at: ListAt,
    limit: u64,
    named: &TradeSet<16>,
    entry: &Value,
) -> Result<(u32, i128), ReadError>
    ensures gives { Gives (λ p. p) result
        (price_of head.now.names.trades (list_place at) limit named.now (view entry.now)) }
    ensures known { IfOk result (λ p. p.0 < length head.now.names.trades) }
    ensures listed { IfOk result (λ p. p.0 < most_trades) }
{
    let k = Index(named.count());
    let (reference, price) = two(alloc, entry, &[at.part, at.member, k])?;
    let place = [at.part, at.member, k, Index(0)];
    let t = new_trade(alloc, head, named, reference, &place)?;
    let place = [at.part, at.member, k, Index(1)];
    let price = number(alloc, limit, Some(price), &place)?;
    Ok((t, price))
}

/// Whether each of so many trades has a price.
fn check_complete(
    alloc: Global,
    at: ListAt,
    named: &TradeSet<16>,
    trades: u32,
) -> Result<(), ReadError>
    requires { trades ≤ most_trades }
    ensures { Gives (λ _. tt) result
        (unless_missing (list_place at) (first_without named.now 0 trades)) }
{
    for t in 0..trades {
        if !named.has(t) {
            let place = [at.part, at.member, Trade(t)];
            return Err(fault(alloc, FaultKind::PriceMissing, &place));
        }
    }
    Ok(())
}
