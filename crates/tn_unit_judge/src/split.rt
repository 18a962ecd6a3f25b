//! The split network of an outcome as a market.

ghost use Rattle.std.specs.Prelude.{◌≡◌, ◌==◌, ℕ, ◌<◌, ◌≤◌, ◌++◌, ◌&&◌, ◌*ℤ◌, nat_lt, pos, length, map, get_or, slice_get, Some, IfOk};
ghost use Rattle.std.specs.List.{list_any, range_with_len};
ghost use Rattle.tn_base.specs.Arcs.{IsAtMost};
ghost use Rattle.tn_links.specs.Links.{AddAtMost};
ghost use Rattle.tn_links.specs.declared.link.Step.{Step};
ghost use Rattle.tn_counts.specs.Laminar.{amounts_at, holds};
ghost use Rattle.tn_counts.specs.Markets.{HaveSmallAmounts, IsCountSet, IsUnitMarket};
ghost use Rattle.tn_counts.specs.Outcomes.{split_trades, units_of};
ghost use Rattle.tn_counts.specs.Widths.{most_unit_amount, most_unit_trades, most_wide_trades};
ghost use Rattle.tn_counts.specs.declared.contract.UnitContract.{UnitContract};
ghost use Rattle.tn_counts.specs.declared.set.CountSet.{CountSet};
ghost use Rattle.tn_tree.specs.Lists.{count_in};
ghost use Rattle.tn_unit_judge.specs.Split.{AreSplitSets, IsSplitMarket, IsSplitSet, most_split_over, origins, times_amounts, times_step};

use std::alloc::Global;
use tn_base::OutOfMemory;
use tn_counts::{CountSet, UnitAmounts, UnitContract, UnitMarket, UnitTrade};
use tn_links::Step;

/// The trades of the contracts.
fn signed_trades(alloc: Global, contracts: &[UnitContract]) -> Result<Vec<u32>, OutOfMemory>
    ensures { IfOk result (λ from. from.items ≡ map (λ contract. contract.trade) contracts.now) }
{
    Ok(
        contracts
            .iter()
            .map(|contract| contract.trade)
            .collect(alloc)?,
    )
}

/// The trade of which each trade of the split network is a part.
pub(crate) fn origins_of(
    alloc: Global,
    trades: u32,
    contracts: &[UnitContract],
) -> Result<Vec<u32>, OutOfMemory>
    ensures { IfOk result (λ from. from.items ≡ origins trades contracts.now) }
{
    let mut from = signed_trades(alloc, contracts)?;
    for t in 0..trades {
        from.push(t)?;
    }
    Ok(from)
}

/// So many units of a trade.
fn part_of(trades: &[UnitTrade], t: u32, units: u32) -> UnitTrade
    requires { t < length trades.now }
    ensures { result ≡ units_of trades.now t units }
{
    let trade = trades[t as usize];
    UnitTrade {
        seller: trade.seller,
        buyer: trade.buyer,
        units,
    }
}

/// The trades of the contracts, with their units.
fn signed_parts(
    alloc: Global,
    trades: &[UnitTrade],
    contracts: &[UnitContract],
) -> Result<Vec<UnitTrade>, OutOfMemory>
    requires { (k : ℕ) (contract : UnitContract) → slice_get contracts.now k ≡ Some contract
        → contract.trade < length trades.now }
    ensures { IfOk result (λ parts. parts.items
        ≡ map (λ contract. units_of trades.now contract.trade contract.units) contracts.now) }
{
    let mut parts = Vec::new(alloc);
    for contract in contracts {
        parts.push(part_of(trades, contract.trade, contract.units))?;
    }
    Ok(parts)
}

/// These, and then what is free of each trade.
fn all_parts(
    alloc: Global,
    trades: &[UnitTrade],
    contracts: &[UnitContract],
    free: &[u32],
) -> Result<Vec<UnitTrade>, OutOfMemory>
    requires few { length trades.now ≤ most_unit_trades }
    requires known { (k : ℕ) (contract : UnitContract) → slice_get contracts.now k ≡ Some contract
        → contract.trade < length trades.now }
    requires free { length free.now ≡ length trades.now }
    ensures { IfOk result (λ parts. parts.items ≡ split_trades trades.now contracts.now (count_in free.now)) }
{
    let mut parts = signed_parts(alloc, trades, contracts)?;
    for t in 0..trades.len() as u32 {
        parts.push(part_of(trades, t, free[t as usize]))?;
    }
    Ok(parts)
}

/// A number that is counted so often.
fn times(over: u32, number: i64) -> i64
    requires few { over ≤ most_split_over }
    requires small { IsAtMost number most_unit_amount }
    ensures { result ≡ pos over *ℤ number }
{
    i64::from(over) * number
}

/// The amounts of a trade, counted so often.
fn times_amounts(over: u32, amounts: &[UnitAmounts], t: u32) -> UnitAmounts
    requires few { over ≤ most_split_over }
    requires small { HaveSmallAmounts amounts.now }
    requires known { t < length amounts.now }
    ensures { result ≡ times_amounts over (amounts_at amounts.now t) }
{
    let each = amounts[t as usize];
    UnitAmounts {
        seller: times(over, each.seller),
        buyer: times(over, each.buyer),
    }
}

/// The amounts of the split network.
fn split_amounts(
    alloc: Global,
    amounts: &[UnitAmounts],
    over: u32,
    from: &[u32],
) -> Result<Vec<UnitAmounts>, OutOfMemory>
    requires few { over ≤ most_split_over }
    requires small { HaveSmallAmounts amounts.now }
    requires known { (k t : ℕ) → slice_get from.now k ≡ Some t → t < length amounts.now }
    ensures { IfOk result (λ made. made.items ≡ map (λ t. times_amounts over (amounts_at amounts.now t)) from.now) }
{
    let mut made = Vec::new(alloc);
    for t in from {
        made.push(times_amounts(over, amounts, *t))?;
    }
    Ok(made)
}

/// Whether a set has a trade.
fn has_trade(set: &CountSet, trade: u32) -> bool
    ensures { result ≡ holds set.now trade }
{
    set.members.contains(&trade)
}

/// The parts of the trades of a set.
fn split_members(alloc: Global, set: &CountSet, from: &[u32]) -> Result<Vec<u32>, OutOfMemory>
    requires { length from.now ≤ most_wide_trades }
    ensures { IfOk result (λ members. (k : ℕ) → list_any (λ j. j == k) members.items
        ≡ (nat_lt k (length from.now) && holds set.now (get_or from.now k 0))) }
{
    let mut members = Vec::new(alloc);
    for k in 0..from.len() as u32 {
        if has_trade(set, from[k as usize]) {
            members.push(k)?;
        }
    }
    Ok(members)
}

/// A step whose number is counted so often.
fn times_step(over: u32, step: &Step) -> Step
    requires few { over ≤ most_split_over }
    requires small { IsAtMost step.now.each most_unit_amount }
    ensures { result ≡ times_step over step.now }
{
    Step {
        units: step.units,
        each: times(over, step.each),
    }
}

/// Steps whose numbers are counted so often.
fn times_steps(alloc: Global, over: u32, steps: &[Step]) -> Result<Vec<Step>, OutOfMemory>
    requires few { over ≤ most_split_over }
    requires small { AddAtMost most_unit_amount steps.now }
    ensures { IfOk result (λ made. made.items ≡ map (times_step over) steps.now) }
{
    let mut made = Vec::new(alloc);
    for step in steps {
        made.push(times_step(over, step))?;
    }
    Ok(made)
}

/// A set of the split network.
fn split_set(
    alloc: Global,
    set: &CountSet,
    over: u32,
    from: &[u32],
) -> Result<CountSet, OutOfMemory>
    requires few { over ≤ most_split_over }
    requires set { (firms : ℕ) × IsCountSet firms set.now }
    requires size { length from.now ≤ most_wide_trades }
    ensures { IfOk result (IsSplitSet over from.now set.now) }
{
    let members = split_members(alloc, set, from)?;
    let steps = times_steps(alloc, over, &set.steps)?;
    Ok(CountSet {
        firm: set.firm,
        members,
        constant: times(over, set.constant),
        back: set.back,
        steps,
    })
}

/// The sets of the split network.
fn split_sets(
    alloc: Global,
    sets: &[CountSet],
    over: u32,
    from: &[u32],
) -> Result<Vec<CountSet>, OutOfMemory>
    requires few { over ≤ most_split_over }
    requires sets { (i : ℕ) (set : CountSet) → slice_get sets.now i ≡ Some set → (firms : ℕ) × IsCountSet firms set }
    requires size { length from.now ≤ most_wide_trades }
    ensures { IfOk result (λ splits. AreSplitSets over from.now sets.now splits.items) }
{
    let mut splits = Vec::new(alloc);
    for i in 0..sets.len() {
        splits.push(split_set(alloc, &sets[i], over, from)?)?;
    }
    Ok(splits)
}

/// The split network of an outcome, of which so many unsigned units may go.
pub(crate) fn split_market(
    alloc: Global,
    market: &UnitMarket,
    over: u32,
    contracts: &[UnitContract],
    free: &[u32],
) -> Result<UnitMarket, OutOfMemory>
    requires market { IsUnitMarket market.now }
    requires over { over ≤ most_split_over }
    requires few { length contracts.now ≤ most_unit_trades }
    requires known { (k : ℕ) (contract : UnitContract) → slice_get contracts.now k ≡ Some contract
        → contract.trade < length market.now.trades.items }
    requires free { length free.now ≡ length market.now.trades.items }
    ensures { IfOk result (IsSplitMarket market.now over contracts.now (count_in free.now)) }
{
    let from = origins_of(alloc, market.trades.len() as u32, contracts)?;
    let trades = all_parts(alloc, &market.trades, contracts, free)?;
    let amounts = split_amounts(alloc, &market.amounts, over, &from)?;
    let sets = split_sets(alloc, &market.sets, over, &from)?;
    Ok(UnitMarket {
        firms: market.firms,
        trades,
        amounts,
        sets,
    })
}
