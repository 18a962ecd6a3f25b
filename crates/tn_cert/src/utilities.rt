//! Claims on what a firm gains by another bundle, and on a bundle that it can't have.

ghost use Rattle.std.specs.Prelude.{◌≡◌, ◌^◌, ◌<◌, ◌≤◌, All, length, map};
ghost use Rattle.tn_base.specs.Arcs.{IsAtMost};
ghost use Rattle.tn_model.specs.Prices.{price_at};
ghost use Rattle.tn_said.specs.Claim.{on_market};
ghost use Rattle.tn_said.specs.ClaimLimits.{IsFirmWith};
ghost use Rattle.tn_market.specs.Limits.{IsWithinLimits};
ghost use Rattle.tn_cert.specs.Limits.{most_claimed_trades};
ghost use Rattle.tn_model.specs.Limits.{most_price};
ghost use Rattle.tn_cert.specs.Replays.{Replays, TellsGain};
ghost use Rattle.tn_market.specs.NetworkOf.{network_of};

use crate::replayed::Replayed;
use tn_base::{Bundle, Steps, TradeSet};
use tn_market::{Arrangement, Market, Oracle, Valuation, utility_of};
use tn_price::{own_prices, worth_at};
use tn_said::{MarketClaim, Reason};

/// What firm `f` gains at an arrangement where it has another bundle in place of its own, None where one of the two is
/// impossible.
fn gain_by<V: Oracle>(
    market: &Market<V>,
    at: &Arrangement<16>,
    f: u32,
    other: Bundle,
) -> Option<i128>
    requires limits { IsWithinLimits V.firm V.limit market.now }
    requires few_trades { length market.now.trades ≤ most_claimed_trades }
    requires priced { length at.now.prices ≡ length market.now.trades }
    requires small_prices { All (λ p. IsAtMost p most_price) at.now.prices }
    requires own { IsFirmWith (map V.firm market.now.firms) f (λ firm. other < 2 ^ firm.count) }
    ensures { network_of V.firm market.now TellsGain at.now.on (price_at at.now.prices) f other result }
{
    let firm = market.firm(f);
    let n = firm.trades();
    let prices = own_prices(market, &at.prices, f, n);
    let held = market.bundle_of(f, &at.on);
    let value = utility_of(firm, held, 1, &prices[..n as usize])?;
    let other_value = utility_of(firm, other, 1, &prices[..n as usize])?;
    Some(other_value - value)
}

/// Whether the firm gains so much by another bundle, and that is more than nothing, or the first condition that fails.
pub(crate) fn replay_better<V: Oracle>(
    market: &Market<V>,
    at: &Arrangement<16>,
    firm: u32,
    bundle: Bundle,
    gain: i128,
) -> Replayed
    requires limits { IsWithinLimits V.firm V.limit market.now }
    requires few_trades { length market.now.trades ≤ most_claimed_trades }
    requires priced { length at.now.prices ≡ length market.now.trades }
    requires small_prices { All (λ p. IsAtMost p most_price) at.now.prices }
    requires own { IsFirmWith (map V.firm market.now.firms) firm (λ it. bundle < 2 ^ it.count) }
    ensures { network_of V.firm market.now Replays (on_market (MarketClaim.Better at.now firm bundle gain)) result }
{
    match gain_by(market, at, firm, bundle) {
        None => Replayed::Invalid(Reason::Impossible { firm }),
        Some(actual) => {
            if actual > 0 && actual == gain {
                Replayed::Valid
            } else {
                Replayed::Invalid(Reason::Gain {
                    firm,
                    gain: Some(actual),
                })
            }
        }
    }
}

/// Whether the firm's bundle of a set of trades is impossible, or that it isn't.
pub(crate) fn replay_impossible<V: Valuation>(
    market: &Market<V>,
    on: &TradeSet<16>,
    firm: u32,
    steps: &mut Steps<V::Mark>,
) -> Replayed
    requires few_trades { length market.now.trades ≤ most_claimed_trades }
    requires known { firm < length market.now.firms }
    ensures { network_of V.firm market.now Replays (on_market (MarketClaim.Impossible on.now firm)) result }
{
    match worth_at(market, on, firm, steps) {
        None => Replayed::Valid,
        Some(_) => Replayed::Invalid(Reason::Possible { firm }),
    }
}
