//! Offers that block an outcome which no prices complete.

ghost use Rattle.std.specs.Prelude.{◌≡◌, ℕ, ◌+◌, ◌*◌, ◌<◌, ◌≤◌, pos, length, map, slice_get, nat_lt, if◌then◌else◌, Some, All, IfOk};
ghost use Rattle.std.specs.List.{range_with_len};
ghost use Rattle.tn_base.specs.Arcs.{IsAtMost};
ghost use Rattle.tn_links.specs.Totals.{total};
ghost use Rattle.tn_counts.specs.Counts.{trade_at};
ghost use Rattle.tn_counts.specs.Laminar.{firms_of};
ghost use Rattle.tn_counts.specs.Markets.{AreAmountsWithin, IsUnitMarket};
ghost use Rattle.tn_counts.specs.Outcomes.{AreUnitContracts, IsRationalByCounts, counted, signed_units};
ghost use Rattle.tn_counts.specs.Widths.{most_unit_price, most_unit_trades, most_wide_trades};
ghost use Rattle.tn_counts.specs.declared.contract.UnitContract.{UnitContract};
ghost use Rattle.tn_counts.specs.declared.trade.UnitAmounts.{UnitAmounts};
ghost use Rattle.tn_tree.specs.Lists.{count_in, price_in};
ghost use Rattle.tn_tree.specs.Pinned.{most_beside_price};
ghost use Rattle.tn_unit_judge.specs.Blocks.{AreBlocking, AreOffersTo, AreTaxed, IsTax, IsTaxedMarket, free_one, less_one};
ghost use Rattle.tn_unit_judge.specs.Completion.{IsPassing};
ghost use Rattle.tn_unit_judge.specs.Split.{most_split_amount, most_split_over};

use crate::completions::{pins_of, unsigned_of};
use crate::split::split_market;
use std::alloc::Global;
use tn_base::OutOfMemory;
use tn_counts::{UnitAmounts, UnitContract, UnitMarket};
use tn_tree::settle_beside;

/// Offers that block an outcome.
#[derive(Drop)]
pub(crate) struct UnitBlock {
    /// One unit each.
    pub offers: Vec<UnitContract>,
    /// What their prices are over.
    pub over: u32,
}

/// One unit of each trade that is passed on, where one is unsigned.
fn free_of(
    alloc: Global,
    signed: usize,
    passed: &[u32],
    unsigned: &[u32],
) -> Result<Vec<u32>, OutOfMemory>
    requires { length passed.now ≡ signed + length unsigned.now }
    ensures { IfOk result (λ free. free.items
        ≡ map (free_one signed passed.now unsigned.now) (range_with_len 0 (length unsigned.now))) }
{
    let mut free = Vec::new(alloc);
    for t in 0..unsigned.len() {
        free.push(passed[signed + t].min(unsigned[t]))?;
    }
    Ok(free)
}

/// How many units there are.
fn sum_of(units: &[u32]) -> u32
    requires few { length units.now ≤ most_unit_trades }
    requires single { (t : ℕ) → count_in units.now t ≤ 1 }
    ensures sum { pos result ≡ total (λ t. pos (count_in units.now t)) (length units.now) }
    ensures few { result ≤ length units.now }
{
    let mut sum = 0;
    for t in 0..units.len() {
        sum += units[t];
    }
    sum
}

/// Units that are taxed, and what all other numbers are counted by.
#[derive(Drop)]
pub(crate) struct UnitTax {
    /// How many of each trade: at most one.
    pub free: Vec<u32>,
    /// More than all taxes, at both ends of each unit.
    pub scale: u32,
}

/// The tax on one unit of each trade that is passed on and has an unsigned one.
fn tax_of(
    alloc: Global,
    market: &UnitMarket,
    contracts: &[UnitContract],
    passed: &[u32],
) -> Result<UnitTax, OutOfMemory>
    requires few { length market.now.trades.items ≤ most_unit_trades }
    requires contracts { AreUnitContracts market.now.trades.items contracts.now }
    requires sized { length passed.now ≡ length contracts.now + length market.now.trades.items }
    requires single { (t : ℕ) → count_in passed.now t ≤ 1 }
    ensures { IfOk result (IsTax market.now.trades.items contracts.now passed.now) }
{
    let unsigned = unsigned_of(alloc, &market.trades, contracts)?;
    let free = free_of(alloc, contracts.len(), passed, &unsigned)?;
    let scale = 2 * sum_of(&free) + 1;
    Ok(UnitTax { free, scale })
}

/// The amounts of a part, which are one less where it isn't signed.
fn taxed(amounts: &UnitAmounts, is_signed: bool) -> UnitAmounts
    requires { AreAmountsWithin most_split_amount amounts.now }
    ensures { result ≡ (if is_signed then amounts.now else less_one amounts.now) }
{
    let tax = if is_signed { 0 } else { 1 };
    UnitAmounts {
        seller: amounts.seller - tax,
        buyer: amounts.buyer - tax,
    }
}

/// The amounts of all parts, which are one less where they aren't signed.
fn taxed_amounts(
    alloc: Global,
    amounts: &[UnitAmounts],
    signed: usize,
) -> Result<Vec<UnitAmounts>, OutOfMemory>
    requires { (k : ℕ) (each : UnitAmounts) → slice_get amounts.now k ≡ Some each
        → AreAmountsWithin most_split_amount each }
    ensures { IfOk result (λ made. AreTaxed signed amounts.now made.items) }
{
    let mut made = Vec::new(alloc);
    for k in 0..amounts.len() {
        made.push(taxed(&amounts[k], k < signed))?;
    }
    Ok(made)
}

/// The split network of which so many unsigned units may go, where each of these costs each of its two firms one more.
fn taxed_market(
    alloc: Global,
    market: &UnitMarket,
    over: u32,
    contracts: &[UnitContract],
    free: &[u32],
) -> Result<UnitMarket, OutOfMemory>
    requires market { IsUnitMarket market.now }
    requires over { over ≤ most_split_over }
    requires few { length contracts.now ≤ most_unit_trades }
    requires known { (k : ℕ) (contract : UnitContract) → slice_get contracts.now k ≡ Some contract
        → contract.trade < length market.now.trades.items }
    requires free { length free.now ≡ length market.now.trades.items }
    requires left { (t : ℕ) → t < length market.now.trades.items
        → signed_units contracts.now t + count_in free.now t ≤ (trade_at market.now.trades.items t).units }
    ensures { IfOk result (IsTaxedMarket market.now over contracts.now (count_in free.now)) }
{
    let split = split_market(alloc, market, over, contracts, free)?;
    let amounts = taxed_amounts(alloc, &split.amounts, contracts.len())?;
    Ok(UnitMarket {
        firms: split.firms,
        trades: split.trades,
        amounts,
        sets: split.sets,
    })
}

/// The contracts with all prices counted so often.
fn counted(
    alloc: Global,
    scale: u32,
    contracts: &[UnitContract],
) -> Result<Vec<UnitContract>, OutOfMemory>
    requires scale { scale ≤ 8193 }
    requires small { (k : ℕ) (contract : UnitContract) → slice_get contracts.now k ≡ Some contract
        → IsAtMost contract.price most_unit_price }
    ensures { IfOk result (λ made. made.items ≡ counted (pos scale) contracts.now) }
{
    let mut made = Vec::new(alloc);
    for contract in contracts {
        made.push(UnitContract {
            trade: contract.trade,
            units: contract.units,
            price: i128::from(scale) * contract.price,
        })?;
    }
    Ok(made)
}

/// An offer of one unit of each trade of which one is sold beside the contracts.
fn offers_of(
    alloc: Global,
    signed: usize,
    trades: u32,
    sold: &[u32],
    prices: &[i128],
) -> Result<Vec<UnitContract>, OutOfMemory>
    requires sold { length sold.now ≡ signed + trades }
    requires prices { length prices.now ≡ signed + trades }
    requires small { All (λ price. IsAtMost price most_beside_price) prices.now }
    requires single { (t : ℕ) → t < trades → count_in sold.now (signed + t) ≤ 1 }
    ensures { IfOk result (λ offers. AreOffersTo signed sold.now prices.now trades offers.items) }
{
    let mut offers = Vec::new(alloc);
    for trade in 0..trades {
        let part = signed + trade as usize;
        if sold[part] > 0 {
            offers.push(UnitContract {
                trade,
                units: 1,
                price: prices[part],
            })?;
        }
    }
    Ok(offers)
}

/// Offers that block a rational outcome which no prices complete. Where a unit of each part that is passed on makes all
/// firms together gain at any prices, a tax on these units that is less in all than the gain leaves some of them to be
/// traded beside the contracts; a firm that chose among these and its contracts without the tax would take all of its own.
pub(crate) fn block_by(
    alloc: Global,
    market: &UnitMarket,
    over: u32,
    contracts: &[UnitContract],
    passed: &[u32],
) -> Result<UnitBlock, OutOfMemory>
    requires market { IsUnitMarket market.now }
    requires least { 1 ≤ over }
    requires over { over ≤ 100 }
    requires few { length contracts.now ≤ most_unit_trades }
    requires contracts { AreUnitContracts market.now.trades.items contracts.now }
    requires small { (k : ℕ) (contract : UnitContract) → slice_get contracts.now k ≡ Some contract
        → IsAtMost contract.price most_unit_price }
    requires rational { IsRationalByCounts (firms_of market.now) market.now.trades.items (pos over) contracts.now }
    requires passed { IsPassing market.now over contracts.now passed.now }
    ensures { IfOk result (λ block. AreBlocking (firms_of market.now) market.now.trades.items (pos over) contracts.now
        block.offers.items (pos block.over)) }
{
    let tax = tax_of(alloc, market, contracts, passed)?;
    let taxed = taxed_market(alloc, market, over * tax.scale, contracts, &tax.free)?;
    let scaled = counted(alloc, tax.scale, contracts)?;
    let pins = pins_of(alloc, &scaled)?;
    let settled = settle_beside(alloc, &taxed, &pins)?;
    let offers = offers_of(
        alloc,
        contracts.len(),
        market.trades.len() as u32,
        &settled.sold,
        &settled.prices,
    )?;
    Ok(UnitBlock {
        offers,
        over: over * tax.scale,
    })
}
