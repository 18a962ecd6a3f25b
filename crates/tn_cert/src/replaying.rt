//! The replay of claims.

ghost use Rattle.std.specs.Prelude.{◌≤◌, All, IfOk, length, map};
ghost use Rattle.tn_firm.specs.Raw.{CanBeTested, raw_firm_of};
ghost use Rattle.tn_said.specs.Claim.{on_market, on_firms};
ghost use Rattle.tn_said.specs.ClaimLimits.{IsClaimWithin};
ghost use Rattle.tn_market.specs.Limits.{IsWithinLimits};
ghost use Rattle.tn_cert.specs.Limits.{most_claimed_trades};
ghost use Rattle.tn_model.specs.Limits.{most_firms};
ghost use Rattle.tn_model.specs.Network.{IsNetwork};
ghost use Rattle.tn_cert.specs.Replays.{HasSmallSurplus, Replays, in_trades};
ghost use Rattle.tn_market.specs.NetworkOf.{network_of};

use crate::blocking::replay_blocks;
use crate::completing::replay_completes;
use crate::cycles::replay_cycle;
use crate::dropping::replay_drops;
use crate::equilibria::{replay_equilibrium, replay_supported};
use crate::exchange::{replay_accepted, replay_failure};
use crate::plans::replay_plan;
use crate::replayed::Replayed;
use crate::utilities::{replay_better, replay_impossible};
use std::alloc::Global;
use tn_base::{OutOfMemory, Steps};
use tn_firm::RawFirm;
use tn_market::{Market, Oracle};
use tn_model::Ends;
use tn_said::{FirmClaim, MarketClaim};

/// Replays a claim on a market: it is valid exactly where no condition of it fails, and otherwise this is the first
/// that does. It fails only where memory runs out. The claim is within the limits of claims, and the market within the
/// limits of firms, so that it has at most 1,024 trades.
pub fn replay<V: Oracle>(
    alloc: Global,
    market: &Market<V>,
    claim: &MarketClaim,
    steps: &mut Steps<V::Mark>,
) -> Result<Replayed, OutOfMemory>
    requires limits { IsWithinLimits V.firm V.limit market.now }
    requires few_trades { length market.now.trades ≤ most_claimed_trades }
    requires within { network_of V.firm market.now IsClaimWithin (on_market claim.now) }
    ensures { IfOk result (network_of V.firm market.now Replays (on_market claim.now)) }
{
    match claim {
        MarketClaim::Equilibrium { at, surplus } | MarketClaim::Solved { at, surplus } => {
            replay_equilibrium(alloc, market, at, *surplus)
        }
        MarketClaim::Supported { on, prices } => replay_supported(alloc, market, on, prices),
        MarketClaim::Better {
            at,
            firm,
            bundle,
            gain,
        } => Ok(replay_better(market, at, *firm, *bundle, *gain)),
        MarketClaim::Impossible { on, firm } => Ok(replay_impossible(market, on, *firm, steps)),
        MarketClaim::Cycle { on, nodes, cost } => replay_cycle(
            alloc, market, on, nodes, *cost, steps,
        ),
        MarketClaim::Drops {
            outcome,
            firm,
            keeps,
            gain,
            over,
        } => Ok(replay_drops(market, outcome, *firm, *keeps, *gain, *over)),
        MarketClaim::Blocks {
            outcome,
            contracts,
            over,
        } => replay_blocks(alloc, market, outcome, contracts, *over),
        MarketClaim::Completes {
            outcome,
            prices,
            over,
        } => replay_completes(alloc, market, outcome, prices, *over),
    }
}

/// Replays a claim on firms that aren't tested yet, of which a table of more than 10 trades has every bundle: of their
/// exchange property, or that there are no prices. Trades of a triple in its reason are positions of the firm. It fails
/// only where memory runs out. There are at most 1,024 firms, which fit together with the trades, and the claim is
/// within the limits of claims: where it is a plan, there are at most 20 trades.
pub fn replay_raw(
    alloc: Global,
    firms: &[RawFirm],
    ends: &[Ends],
    claim: &FirmClaim,
) -> Result<Replayed, OutOfMemory>
    requires few_firms { length firms.now ≤ most_firms }
    requires testable { All CanBeTested firms.now }
    requires network { IsNetwork (map raw_firm_of firms.now) ends.now }
    requires within { IsClaimWithin (map raw_firm_of firms.now) ends.now (on_firms claim.now) }
    ensures replays { IfOk result (λ replayed. Replays (map raw_firm_of firms.now) ends.now (on_firms claim.now)
        (in_trades ends.now replayed)) }
    ensures small { IfOk result HasSmallSurplus }
{
    match claim {
        FirmClaim::Accepted => replay_accepted(alloc, firms),
        FirmClaim::ExchangeFails { firm, x, y, at } => {
            Ok(replay_failure(firms, *firm, *x, *y, *at))
        }
        FirmClaim::NoPrices { plan, over } => replay_plan(alloc, firms, ends, plan, *over),
    }
}
