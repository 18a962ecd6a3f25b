//! Prices that complete an outcome.

ghost use Rattle.std.specs.Prelude.{◌≡◌, ℕ, ◌+◌, ◌<◌, ◌≤◌, ◌-◌, pos, length, map, set, slice_get, Some, All, IfOk};
ghost use Rattle.std.specs.List.{range_with_len};
ghost use Rattle.tn_base.specs.Arcs.{IsAtMost};
ghost use Rattle.tn_links.specs.Widths.{most_each};
ghost use Rattle.tn_counts.specs.Laminar.{firms_of};
ghost use Rattle.tn_counts.specs.Markets.{IsUnitMarket};
ghost use Rattle.tn_counts.specs.Outcomes.{AreUnitContracts, IsRationalByCounts};
ghost use Rattle.tn_counts.specs.Widths.{most_unit_price, most_unit_trades};
ghost use Rattle.tn_counts.specs.declared.contract.UnitContract.{UnitContract};
ghost use Rattle.tn_tree.specs.Lists.{count_in, price_in};
ghost use Rattle.tn_tree.specs.Pinned.{most_beside_price};
ghost use Rattle.tn_unit_judge.specs.Completion.{AreUnsigned, FindsCompletion, IsPriceOf, contract_pins};

use crate::lists::{counts_of, price_of};
use crate::split::split_market;
use std::alloc::Global;
use tn_base::OutOfMemory;
use tn_counts::{Pin, UnitContract, UnitMarket, UnitTrade};
use tn_tree::{PinnedSupport, support_beside};

/// What the search for prices that complete an outcome finds.
#[derive(Drop)]
pub enum UnitCompletion {
    /// A price of a unit of each trade, over the outcome's denominator. Where units of a trade are signed, it is theirs.
    Completed { prices: Vec<i128> },
    /// No prices complete the outcome, over any denominator: with a unit of each part of the split network that is passed
    /// on, contracts first, all firms together gain at any prices.
    Incomplete { passed: Vec<u32> },
}

/// How many units each trade has.
pub(crate) fn all_units(alloc: Global, trades: &[UnitTrade]) -> Result<Vec<u32>, OutOfMemory>
    ensures { IfOk result (λ units. units.items ≡ map (λ trade. trade.units) trades.now) }
{
    Ok(trades.iter().map(|trade| trade.units).collect(alloc)?)
}

/// Takes so many units off those of a trade.
pub(crate) fn take_off(free: &mut Vec<u32>, contract: &UnitContract)
    requires known { contract.now.trade < length free.old.items }
    requires within { contract.now.units ≤ count_in free.old.items contract.now.trade }
    ensures { free.new.items
        ≡ set free.old.items contract.now.trade (count_in free.old.items contract.now.trade - contract.now.units) }
{
    free[contract.trade as usize] -= contract.units;
}

/// How many units of each trade are not signed.
pub(crate) fn unsigned_of(
    alloc: Global,
    trades: &[UnitTrade],
    contracts: &[UnitContract],
) -> Result<Vec<u32>, OutOfMemory>
    requires { AreUnitContracts trades.now contracts.now }
    ensures { IfOk result (λ free. AreUnsigned trades.now contracts.now free.items) }
{
    let mut free = all_units(alloc, trades)?;
    for contract in contracts {
        take_off(&mut free, contract);
    }
    Ok(free)
}

/// The contracts as pins of trades of the split network.
pub(crate) fn pins_of(alloc: Global, contracts: &[UnitContract]) -> Result<Vec<Pin>, OutOfMemory>
    requires few { length contracts.now ≤ most_unit_trades }
    requires small { (k : ℕ) (contract : UnitContract) → slice_get contracts.now k ≡ Some contract
        → IsAtMost contract.price most_each }
    ensures { IfOk result (λ pins. pins.items ≡ contract_pins contracts.now) }
{
    let mut pins = Vec::new(alloc);
    for k in 0..contracts.len() {
        pins.push(Pin {
            trade: k as u32,
            price: price_of(&contracts[k]),
        })?;
    }
    Ok(pins)
}

/// The prices of what is unsigned of each trade.
fn unsigned_prices(
    alloc: Global,
    trades: u32,
    contracts: &[UnitContract],
    beside: &[i128],
) -> Result<Vec<i128>, OutOfMemory>
    requires few { length contracts.now ≤ most_unit_trades }
    requires sized { length beside.now ≡ length contracts.now + trades }
    requires beside { All (λ price. IsAtMost price most_beside_price) beside.now }
    ensures { IfOk result (λ prices. prices.items
        ≡ map (λ t. price_in beside.now (length contracts.now + t)) (range_with_len 0 trades)) }
{
    let mut prices = Vec::new(alloc);
    for t in 0..trades as usize {
        prices.push(beside[contracts.len() + t])?;
    }
    Ok(prices)
}

/// The price of each trade: that of its signed units, or else that of its unsigned ones.
fn prices_by(
    alloc: Global,
    trades: u32,
    contracts: &[UnitContract],
    beside: &[i128],
) -> Result<Vec<i128>, OutOfMemory>
    requires few { length contracts.now ≤ most_unit_trades }
    requires known { (k : ℕ) (contract : UnitContract) → slice_get contracts.now k ≡ Some contract
        → contract.trade < trades }
    requires small { (k : ℕ) (contract : UnitContract) → slice_get contracts.now k ≡ Some contract
        → IsAtMost contract.price most_unit_price }
    requires sized { length beside.now ≡ length contracts.now + trades }
    requires beside { All (λ price. IsAtMost price most_beside_price) beside.now }
    ensures one_each { IfOk result (λ prices. length prices.items ≡ trades) }
    ensures each { IfOk result (λ prices. (t : ℕ) → t < trades
        → IsPriceOf contracts.now beside.now t (price_in prices.items t)) }
{
    let mut prices = unsigned_prices(alloc, trades, contracts, beside)?;
    for contract in contracts {
        if contract.units > 0 {
            prices[contract.trade as usize] = contract.price;
        }
    }
    Ok(prices)
}

/// Prices of unsigned units that complete a rational outcome, exactly where there are any: with them and the contracts'
/// prices what is signed is best for each firm among the counts that have at most the units of each contract and at most
/// the unsigned units of each trade. There are at most 4,096 contracts, at prices of at most 2 * 10^11 in size, over a
/// denominator from 1 to 100. It fails only where memory runs out.
pub fn completion(
    alloc: Global,
    market: &UnitMarket,
    over: u32,
    contracts: &[UnitContract],
) -> Result<UnitCompletion, OutOfMemory>
    requires market { IsUnitMarket market.now }
    requires over { over ≤ 100 }
    requires few { length contracts.now ≤ most_unit_trades }
    requires contracts { AreUnitContracts market.now.trades.items contracts.now }
    requires small { (k : ℕ) (contract : UnitContract) → slice_get contracts.now k ≡ Some contract
        → IsAtMost contract.price most_unit_price }
    requires rational { IsRationalByCounts (firms_of market.now) market.now.trades.items (pos over) contracts.now }
    ensures { IfOk result (FindsCompletion market.now over contracts.now) }
{
    let trades = market.trades.len() as u32;
    let free = unsigned_of(alloc, &market.trades, contracts)?;
    let split = split_market(alloc, market, over, contracts, &free)?;
    let counts = counts_of(alloc, trades, contracts)?;
    let pins = pins_of(alloc, contracts)?;
    match support_beside(alloc, &split, &pins, &counts)? {
        PinnedSupport::Supported { prices: beside } => {
            let prices = prices_by(alloc, trades, contracts, &beside)?;
            Ok(UnitCompletion::Completed { prices })
        }
        PinnedSupport::Unsupported { passed } => Ok(UnitCompletion::Incomplete { passed }),
    }
}
