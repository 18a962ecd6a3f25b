//! The verdict on an outcome, in three steps.

ghost use Rattle.std.specs.Prelude.{◌≡◌, ◌≤◌, IfOk, length, pos, ◌*ℤ◌, ◌≤ℤ◌};
ghost use Rattle.tn_chain.specs.Limits.{most_judged_trades};
ghost use Rattle.tn_model.specs.Limits.{most_over};
ghost use Rattle.tn_chain.specs.Search.{chain_scale};
ghost use Rattle.tn_judge.specs.Judges.{JudgesContracts};
ghost use Rattle.tn_market.specs.Limits.{IsOutcomeOf, IsWithinLimits};
ghost use Rattle.tn_market.specs.NetworkOf.{network_of};

use crate::completing::completion;
use crate::drops::first_drop;
use std::alloc::Global;
use tn_base::{Bundle, OutOfMemory, Steps};
use tn_chain::{chain_of, chain_scale};
use tn_market::{Contracts, Market, Oracle, Outcome, Prices, Valuation};

/// The verdict on an outcome.
#[derive(Drop)]
pub enum Judged {
    /// The outcome isn't individually rational.
    Drops {
        /// The first firm that wouldn't choose all its contracts.
        firm: u32,
        /// One of its choices from its contracts.
        keeps: Bundle,
        /// The utility of that choice less that of its contracts, None where these are an impossible bundle.
        gain: Option<i128>,
    },
    /// The outcome is individually rational, and prices complete it.
    Completes {
        /// A price for each trade, over the outcome's denominator.
        prices: Prices,
    },
    /// The outcome is individually rational, no prices complete it, and contracts block it.
    Blocks {
        /// The contracts, which are a chain in this order.
        contracts: Contracts,
        /// Their denominator: the outcome's, times twice the number of unsigned trades and one.
        over: i128,
    },
}

/// The denominator of the contracts that block.
fn blocking_over(outcome: &Outcome, count: u32) -> i128
    requires few { count ≤ most_judged_trades }
    requires from_one { pos 1 ≤ℤ outcome.now.over }
    requires small { outcome.now.over ≤ℤ pos most_over }
    ensures { result ≡ outcome.now.over *ℤ chain_scale count outcome.now.contracts }
{
    outcome.over * chain_scale(&outcome.contracts, count)
}

/// Judges an outcome: prices that complete it, exactly where there are any; or else the first firm that would drop
/// contracts; or else a chain of contracts that blocks it. It fails only where memory runs out (Hatfield, Kominers,
/// Nichifor, Ostrovsky and Westkamp, 2013, on stable outcomes and equilibria, and 2021 on chains). The limits of firms
/// and outcomes hold: at most 1,024 firms and 1,024 trades, 60 own trades and worths of at most 1.24 * 10^11 in size, or
/// 1.24 * 10^9 where there are more than 128 trades; the outcome's denominator is 1 to 100, and its numerators are at
/// most 10^11 in size.
pub fn judge<V: Oracle>(
    alloc: Global,
    market: &Market<V>,
    outcome: &Outcome,
    steps: &mut Steps<V::Mark>,
) -> Result<Judged, OutOfMemory>
    requires limits { IsWithinLimits V.firm V.limit market.now }
    requires few { length market.now.trades ≤ most_judged_trades }
    requires outcome { IsOutcomeOf market.now.trades outcome.now.over outcome.now.contracts }
    ensures { IfOk result (network_of V.firm market.now JudgesContracts outcome.now.over outcome.now.contracts) }
{
    let trades = market.trades();
    if let Some(prices) = completion(alloc, market, outcome, steps)? {
        return Ok(Judged::Completes { prices });
    }
    if let Some((firm, drop)) = first_drop(market, outcome) {
        return Ok(Judged::Drops {
            firm,
            keeps: drop.keeps,
            gain: drop.gain,
        });
    }
    let contracts = chain_of(alloc, market, outcome, steps)?;
    let over = blocking_over(outcome, trades);
    Ok(Judged::Blocks { contracts, over })
}
