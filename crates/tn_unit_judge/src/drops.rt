//! The first firm that would drop some of its units.

ghost use Rattle.std.specs.Prelude.{◌≡◌, ◌==◌, if◌then◌else◌, ℕ, ◌<◌, ◌≤◌, pos, true, false, length, map, slice_get, Some, IfOk};
ghost use Rattle.std.specs.List.{range_with_len};
ghost use Rattle.tn_base.specs.Arcs.{IsAtMost};
ghost use Rattle.tn_counts.specs.Laminar.{firms_of};
ghost use Rattle.tn_counts.specs.Markets.{IsUnitMarket};
ghost use Rattle.tn_counts.specs.Outcomes.{AreUnitContracts};
ghost use Rattle.tn_counts.specs.Widths.{most_unit_firms, most_unit_price, most_unit_trades, most_wide_trades};
ghost use Rattle.tn_counts.specs.declared.contract.UnitContract.{UnitContract};
ghost use Rattle.tn_unit_judge.specs.Verdict.{FindsDropByCounts, FindsGain, kept_at};

use crate::lists::{counts_of, prices_of};
use crate::split::split_market;
use std::alloc::Global;
use tn_base::OutOfMemory;
use tn_counts::{UnitContract, UnitMarket, UnitTrade};
use tn_tree::{BestCounts, FirmCount, hold_wide};

/// A firm that would drop some of its units.
#[derive(Drop)]
pub struct UnitDrop {
    pub firm: u32,
    /// How many units of each contract it keeps: a best choice.
    pub keeps: Vec<u32>,
    /// What it gains, over the outcome's denominator, None where what is signed is impossible for it.
    pub gain: Option<i128>,
}

/// Whether a firm gains nothing.
fn is_content(firm: &FirmCount) -> bool
    ensures yes { result ≡ true → firm.now.gain ≡ Some (pos 0) }
    ensures no { result ≡ false → firm.now.gain ≡ Some (pos 0) → ⊥ }
{
    match firm.gain {
        Some(gain) => gain == 0,
        None => false,
    }
}

/// The first firm that gains something.
fn first_gainer(firms: &[FirmCount]) -> Option<u32>
    requires { length firms.now ≤ most_unit_firms }
    ensures { FindsGain firms.now result }
{
    for f in 0..firms.len() as u32 {
        if !is_content(&firms[f as usize]) {
            return Some(f);
        }
    }
    None
}

/// How many units of a trade a firm keeps.
fn kept_of(trade: UnitTrade, firm: u32, sold: u32, bought: u32) -> u32
    ensures { result ≡ (if firm == trade.seller then sold else if firm == trade.buyer then bought else 0) }
{
    if firm == trade.seller {
        sold
    } else if firm == trade.buyer {
        bought
    } else {
        0
    }
}

/// How many units of each contract a firm keeps.
fn keeps_of(
    alloc: Global,
    trades: &[UnitTrade],
    best: &BestCounts,
    contracts: u32,
    firm: u32,
) -> Result<Vec<u32>, OutOfMemory>
    requires few { contracts ≤ length trades.now }
    requires sold { length best.now.sold.items ≡ length trades.now }
    requires bought { length best.now.bought.items ≡ length trades.now }
    ensures { IfOk result (λ keeps. keeps.items
        ≡ map (kept_at trades.now best.now.sold.items best.now.bought.items firm) (range_with_len 0 contracts)) }
{
    let mut keeps = Vec::new(alloc);
    for k in 0..contracts {
        let at = k as usize;
        keeps.push(kept_of(trades[at], firm, best.sold[at], best.bought[at]))?;
    }
    Ok(keeps)
}

/// So many zeros.
fn none_of(alloc: Global, count: u32) -> Result<Vec<u32>, OutOfMemory>
    ensures { IfOk result (λ numbers. numbers.items ≡ map (λ t. 0) (range_with_len 0 count)) }
{
    let mut numbers = Vec::new(alloc);
    for _ in 0..count {
        numbers.push(0)?;
    }
    Ok(numbers)
}

/// The first firm for which all that is signed isn't best among the counts that have at most the units of each contract and
/// no unsigned one, with how many units of each contract it keeps and what it gains; None where the outcome is rational by
/// counts. There are at most 4,096 contracts, at prices of at most 2 * 10^11 in size, over a denominator from 1 to 100. It
/// fails only where memory runs out (individual rationality of choices: Hatfield, Kominers, Nichifor, Ostrovsky and
/// Westkamp, 2013).
pub fn first_drop(
    alloc: Global,
    market: &UnitMarket,
    over: u32,
    contracts: &[UnitContract],
) -> Result<Option<UnitDrop>, OutOfMemory>
    requires market { IsUnitMarket market.now }
    requires over { over ≤ 100 }
    requires few { length contracts.now ≤ most_unit_trades }
    requires contracts { AreUnitContracts market.now.trades.items contracts.now }
    requires small { (k : ℕ) (contract : UnitContract) → slice_get contracts.now k ≡ Some contract
        → IsAtMost contract.price most_unit_price }
    ensures { IfOk result (FindsDropByCounts (firms_of market.now) market.now.trades.items (pos over) contracts.now) }
{
    let trades = market.trades.len() as u32;
    let free = none_of(alloc, trades)?;
    let split = split_market(alloc, market, over, contracts, &free)?;
    let counts = counts_of(alloc, trades, contracts)?;
    let prices = prices_of(alloc, trades, contracts)?;
    let held = hold_wide(alloc, &split, &counts, &prices)?;
    match first_gainer(&held.firms) {
        Some(firm) => {
            let gain = held.firms[firm as usize].gain;
            let keeps = keeps_of(
                alloc,
                &split.trades,
                &held.best,
                contracts.len() as u32,
                firm,
            )?;
            Ok(Some(UnitDrop { firm, keeps, gain }))
        }
        None => Ok(None),
    }
}
