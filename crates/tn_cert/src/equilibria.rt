//! Claims that each firm has a best bundle.

ghost use Rattle.std.specs.Prelude.{◌≡◌, ◌<◌, ◌≤◌, pos, ◌≤ℤ◌, All, IfOk, length};
ghost use Rattle.tn_base.specs.Arcs.{IsAtMost};
ghost use Rattle.tn_model.specs.Prices.{price_at};
ghost use Rattle.tn_market.specs.Limits.{IsWithinLimits};
ghost use Rattle.tn_said.specs.Claim.{on_market};
ghost use Rattle.tn_cert.specs.Limits.{most_claimed_trades};
ghost use Rattle.tn_model.specs.Limits.{most_claimed_over, most_number};
ghost use Rattle.tn_cert.specs.Replays.{FindsLack, Replays, Weighs};
ghost use Rattle.tn_market.specs.NetworkOf.{network_of};

use crate::replayed::Replayed;
use std::alloc::Global;
use tn_base::{OutOfMemory, TradeSet};
use tn_market::{Arrangement, Market, Oracle, Prices};
use tn_price::{Check, judge_at, trades_in};
use tn_said::{MarketClaim, Reason};

/// The surplus of an equilibrium at a scale, or the first firm without a best bundle, as the reason against one. It
/// fails only where memory runs out.
fn weigh<V: Oracle>(
    alloc: Global,
    market: &Market<V>,
    scale: i128,
    on: &TradeSet<16>,
    prices: &Prices,
) -> Result<Result<i128, Reason>, OutOfMemory>
    requires limits { IsWithinLimits V.firm V.limit market.now }
    requires few_trades { length market.now.trades ≤ most_claimed_trades }
    requires priced { length prices.now ≡ length market.now.trades }
    requires small_prices { All (λ p. IsAtMost p most_number) prices.now }
    requires from_one { pos 1 ≤ℤ scale }
    requires small_scale { scale ≤ℤ pos most_claimed_over }
    ensures { IfOk result (network_of V.firm market.now Weighs scale on.now (price_at prices.now)) }
{
    match judge_at(market, on, prices, scale) {
        Check::Equilibrium { surplus } => Ok(Ok(surplus)),
        Check::Impossible { firm } => Ok(Err(Reason::Impossible { firm })),
        Check::Better { firm, bundle, .. } => {
            let bundle = trades_in(alloc, market, firm, bundle)?;
            Ok(Err(Reason::Better { firm, bundle }))
        }
    }
}

/// The first firm without a best bundle at a scale, as the reason against an equilibrium, or None where the trades with
/// these prices are one. It fails only where memory runs out.
pub(crate) fn first_lack<V: Oracle>(
    alloc: Global,
    market: &Market<V>,
    scale: i128,
    on: &TradeSet<16>,
    prices: &Prices,
) -> Result<Option<Reason>, OutOfMemory>
    requires limits { IsWithinLimits V.firm V.limit market.now }
    requires few_trades { length market.now.trades ≤ most_claimed_trades }
    requires priced { length prices.now ≡ length market.now.trades }
    requires small_prices { All (λ p. IsAtMost p most_number) prices.now }
    requires from_one { pos 1 ≤ℤ scale }
    requires small_scale { scale ≤ℤ pos most_claimed_over }
    ensures { IfOk result (network_of V.firm market.now FindsLack scale on.now (price_at prices.now)) }
{
    match weigh(alloc, market, scale, on, prices)? {
        Ok(_) => Ok(None),
        Err(reason) => Ok(Some(reason)),
    }
}

/// Whether an arrangement is an equilibrium with this surplus, or the first condition that fails.
pub(crate) fn replay_equilibrium<V: Oracle>(
    alloc: Global,
    market: &Market<V>,
    at: &Arrangement<16>,
    surplus: i128,
) -> Result<Replayed, OutOfMemory>
    requires limits { IsWithinLimits V.firm V.limit market.now }
    requires few_trades { length market.now.trades ≤ most_claimed_trades }
    requires priced { length at.now.prices ≡ length market.now.trades }
    requires small_prices { All (λ p. IsAtMost p most_number) at.now.prices }
    ensures { IfOk result (network_of V.firm market.now Replays (on_market (MarketClaim.Equilibrium at.now surplus))) }
{
    match weigh(alloc, market, 1, &at.on, &at.prices)? {
        Ok(actual) => {
            if actual == surplus {
                Ok(Replayed::Valid)
            } else {
                Ok(Replayed::Invalid(Reason::Surplus { surplus: actual }))
            }
        }
        Err(reason) => Ok(Replayed::Invalid(reason)),
    }
}

/// Whether prices support a set of trades, or the first condition that fails.
pub(crate) fn replay_supported<V: Oracle>(
    alloc: Global,
    market: &Market<V>,
    on: &TradeSet<16>,
    prices: &Prices,
) -> Result<Replayed, OutOfMemory>
    requires limits { IsWithinLimits V.firm V.limit market.now }
    requires few_trades { length market.now.trades ≤ most_claimed_trades }
    requires priced { length prices.now ≡ length market.now.trades }
    requires small_prices { All (λ p. IsAtMost p most_number) prices.now }
    ensures { IfOk result (network_of V.firm market.now Replays (on_market (MarketClaim.Supported on.now prices.now))) }
{
    match first_lack(alloc, market, 1, on, prices)? {
        None => Ok(Replayed::Valid),
        Some(reason) => Ok(Replayed::Invalid(reason)),
    }
}
