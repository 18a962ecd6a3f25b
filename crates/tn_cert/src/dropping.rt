//! Claims that a firm would drop contracts.

ghost use Rattle.std.specs.Prelude.{◌≡◌, ◌^◌, ◌<◌, ◌&&◌, not, length, slice_get, IfSome, Some};
ghost use Rattle.tn_base.specs.Arcs.{IsAtMost};
ghost use Rattle.tn_base.specs.Sets.{has};
ghost use Rattle.tn_cert.specs.Outcomes.{FindsUnsigned};
ghost use Rattle.tn_cert.specs.Replays.{Replays};
ghost use Rattle.tn_said.specs.Claim.{on_market};
ghost use Rattle.tn_said.specs.declared.claim.MarketClaim.TheVariants.{Drops};
ghost use Rattle.tn_market.specs.Limits.{IsOutcomeOf, IsWithinLimits};
ghost use Rattle.tn_market.specs.Signed.{contract_utility, is_signed};
ghost use Rattle.tn_market.specs.Widths.{most_utility};
ghost use Rattle.tn_residual.specs.Held.{HoldsSigned};
ghost use Rattle.tn_market.specs.NetworkOf.{network_of};

use crate::gains::{gain_over, judge_gain};
use crate::least::earlier;
use crate::replayed::Replayed;
use tn_base::Bundle;
use tn_market::{Contracts, Market, Oracle, Outcome, Valuation, utility_of};
use tn_residual::{Held, contract_price, signed_by};
use tn_said::Reason;

/// Whether position `k`, at which trade `t` stands, is kept without a contract.
fn is_unsigned(contracts: &Contracts, keeps: Bundle, k: u32, t: u32) -> bool
    requires { k < 64 }
    ensures { result ≡ (has keeps k && not (is_signed contracts.now t)) }
{
    keeps.has(k) && contract_price(contracts, t).is_none()
}

/// The first trade of a bundle of firm `f` that has no contract.
fn first_unsigned<V: Valuation>(
    market: &Market<V>,
    outcome: &Outcome,
    f: u32,
    keeps: Bundle,
) -> Option<u32>
    requires limits { IsWithinLimits V.firm V.limit market.now }
    requires firm { f < length market.now.firms }
    requires own { (v : V) → slice_get market.now.firms f ≡ Some v → keeps < 2 ^ (V.firm v).count }
    ensures { FindsUnsigned market.now.trades outcome.now f keeps result }
{
    let mut first = None;
    for k in 0..market.firm(f).trades() {
        let trade = market.own(f, k);
        if is_unsigned(&outcome.contracts, keeps, k, trade) {
            first = Some(earlier(first, trade));
        }
    }
    first
}

/// The utility of a bundle of firm `f` at the prices of its contracts, None where it is impossible.
fn utility_held<V: Oracle>(
    market: &Market<V>,
    outcome: &Outcome,
    f: u32,
    held: &Held,
    x: Bundle,
) -> Option<i128>
    requires limits { IsWithinLimits V.firm V.limit market.now }
    requires outcome { IsOutcomeOf market.now.trades outcome.now.over outcome.now.contracts }
    requires firm { f < length market.now.firms }
    requires held { (v : V) → slice_get market.now.firms f ≡ Some v
        → HoldsSigned market.now.trades outcome.now.contracts f (V.firm v).count held.now.signed held.now.prices }
    requires own { (v : V) → slice_get market.now.firms f ≡ Some v → x < 2 ^ (V.firm v).count }
    ensures value { (v : V) → slice_get market.now.firms f ≡ Some v
        → result ≡ contract_utility market.now.trades outcome.now.over outcome.now.contracts f (V.firm v) x }
    ensures small { IfSome result (λ value. IsAtMost value most_utility) }
{
    let firm = market.firm(f);
    let prices = &held.prices[..firm.trades() as usize];
    utility_of(firm, x, outcome.over, prices)
}

/// Decides a claim that firm `firm` gains by keeping some of its contracts and dropping the others. It fails only where
/// memory runs out.
pub(crate) fn replay_drops<V: Oracle>(
    market: &Market<V>,
    outcome: &Outcome,
    firm: u32,
    keeps: Bundle,
    gain: Option<i128>,
    over: i128,
) -> Replayed
    requires limits { IsWithinLimits V.firm V.limit market.now }
    requires outcome { IsOutcomeOf market.now.trades outcome.now.over outcome.now.contracts }
    requires firm { firm < length market.now.firms }
    requires own { (v : V) → slice_get market.now.firms firm ≡ Some v → keeps < 2 ^ (V.firm v).count }
    ensures { network_of V.firm market.now Replays (on_market (Drops outcome.now firm keeps gain over)) result }
{
    if over != outcome.over {
        let over = outcome.over;
        return Replayed::Invalid(Reason::Over { over });
    }
    if let Some(trade) = first_unsigned(market, outcome, firm, keeps) {
        return Replayed::Invalid(Reason::Contract { trade });
    }
    let held = signed_by(market, firm, outcome);
    let Some(value) = utility_held(market, outcome, firm, &held, keeps) else {
        return Replayed::Invalid(Reason::Impossible { firm });
    };
    let other = utility_held(market, outcome, firm, &held, held.signed);
    judge_gain(firm, gain_over(value, other), gain)
}
