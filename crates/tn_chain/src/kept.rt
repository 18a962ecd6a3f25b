//! What firms keep where they have no unsigned trade.

ghost use Rattle.std.specs.Prelude.{◌≡◌, ◌<◌, IfOk, Some, length, slice_get};
ghost use Rattle.tn_chain.specs.Kept.{AreKept, IsKept};
ghost use Rattle.tn_market.specs.Limits.{IsOutcomeOf, IsWithinLimits};
ghost use Rattle.tn_market.specs.Reduced.{reduced};
ghost use Rattle.tn_market.specs.NetworkOf.{network_of};
ghost use Rattle.tn_residual.specs.Held.{HoldsSigned};

use std::alloc::Global;
use tn_base::{Bundle, OutOfMemory};
use tn_market::{Market, Oracle, Outcome, Valuation};
use tn_residual::{Held, reduced_best_beside, signed_by};

/// What a firm has signed, and its reduced worth of no unsigned trade.
#[derive(Drop)]
pub struct Kept {
    pub held: Held,
    pub worth: Option<i128>,
}

/// The reduced worth of no unsigned trade of firm `f`, by what it has signed.
fn kept_worth<V: Oracle>(market: &Market<V>, outcome: &Outcome, f: u32, held: &Held) -> Option<i128>
    requires limits { IsWithinLimits V.firm V.limit market.now }
    requires outcome { IsOutcomeOf market.now.trades outcome.now.over outcome.now.contracts }
    requires firm { f < length market.now.firms }
    requires held { (v : V) → slice_get market.now.firms f ≡ Some v → HoldsSigned market.now.trades
        outcome.now.contracts f (V.firm v).count held.now.signed held.now.prices }
    ensures worth { (v : V) → slice_get market.now.firms f ≡ Some v
        → result ≡ (reduced market.now.trades outcome.now.over outcome.now.contracts f (V.firm v)).worth 0 }
{
    let (_, worth) = reduced_best_beside(market, f, outcome, held, Bundle::empty())?;
    Some(worth)
}

/// What firm `f` keeps.
fn kept_by<V: Oracle>(market: &Market<V>, outcome: &Outcome, f: u32) -> Kept
    requires limits { IsWithinLimits V.firm V.limit market.now }
    requires outcome { IsOutcomeOf market.now.trades outcome.now.over outcome.now.contracts }
    requires firm { f < length market.now.firms }
    ensures { (v : V) → slice_get market.now.firms f ≡ Some v
        → IsKept market.now.trades outcome.now.over outcome.now.contracts f (V.firm v) result }
{
    let held = signed_by(market, f, outcome);
    let worth = kept_worth(market, outcome, f, &held);
    Kept { held, worth }
}

/// What each firm keeps. It fails only where memory runs out.
pub fn all_kept<V: Oracle>(
    alloc: Global,
    market: &Market<V>,
    outcome: &Outcome,
) -> Result<Vec<Kept>, OutOfMemory>
    requires limits { IsWithinLimits V.firm V.limit market.now }
    requires outcome { IsOutcomeOf market.now.trades outcome.now.over outcome.now.contracts }
    ensures { IfOk result (λ kept. network_of V.firm market.now AreKept outcome.now.over outcome.now.contracts
        kept.items) }
{
    let mut kept = Vec::with_capacity(alloc, market.firms() as usize)?;
    for f in 0..market.firms() {
        kept.push(kept_by(market, outcome, f))?;
    }
    Ok(kept)
}

/// What firm `f` of them keeps.
pub fn kept_of(kept: &[Kept], f: u32) -> &Kept
    requires { f < length kept.now }
    ensures { slice_get kept.now f ≡ Some result.now }
{
    &kept[f as usize]
}
