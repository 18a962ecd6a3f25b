//! Claims that prices complete an outcome.

ghost use Rattle.std.specs.Prelude.{◌≡◌, ◌<◌, ◌≤◌, length, All, IfOk};
ghost use Rattle.tn_base.specs.Arcs.{IsAtMost};
ghost use Rattle.tn_cert.specs.Outcomes.{FindsMispriced};
ghost use Rattle.tn_cert.specs.Replays.{Replays};
ghost use Rattle.tn_said.specs.Claim.{on_market};
ghost use Rattle.tn_said.specs.declared.claim.MarketClaim.TheVariants.{Completes};
ghost use Rattle.tn_model.specs.Prices.{price_at};
ghost use Rattle.tn_said.specs.ClaimLimits.{IsOverWithin};
ghost use Rattle.tn_market.specs.Limits.{IsOutcomeOf, IsWithinLimits};
ghost use Rattle.tn_cert.specs.Limits.{most_claimed_trades};
ghost use Rattle.tn_model.specs.Limits.{most_number};
ghost use Rattle.tn_market.specs.Signed.{signed};
ghost use Rattle.tn_market.specs.NetworkOf.{network_of};

use crate::equilibria::first_lack;
use crate::replayed::Replayed;
use std::alloc::Global;
use tn_base::{OutOfMemory, TradeSet};
use tn_market::{Contracts, Market, Oracle, Outcome, Prices};
use tn_residual::contract_price;
use tn_said::Reason;

/// The first contract whose trade has another price, by its trade.
fn first_mispriced(contracts: &Contracts, prices: &Prices) -> Option<u32>
    requires { All (λ contract. contract.trade < length prices.now) contracts.now }
    ensures { FindsMispriced contracts.now (price_at prices.now) result }
{
    for k in 0..contracts.len() {
        let contract = contracts.at(k);
        if prices.at(contract.trade as usize) != contract.price {
            return Some(contract.trade);
        }
    }
    None
}

/// Which of the first `count` trades have contracts.
#[tactic(auto, unfolding(tn_base::specs::Sets::set_of))]
fn signed_trades(contracts: &Contracts, count: u32) -> TradeSet<16>
    requires { count ≤ most_claimed_trades }
    ensures { result ≡ signed count contracts.now }
{
    let mut on = TradeSet::empty();
    for t in 0..count {
        if contract_price(contracts, t).is_some() {
            on.toggle(t);
        }
    }
    on
}

/// Decides a claim that prices over a denominator complete an outcome. It fails only where memory runs out.
pub(crate) fn replay_completes<V: Oracle>(
    alloc: Global,
    market: &Market<V>,
    outcome: &Outcome,
    prices: &Prices,
    over: i128,
) -> Result<Replayed, OutOfMemory>
    requires limits { IsWithinLimits V.firm V.limit market.now }
    requires few_trades { length market.now.trades ≤ most_claimed_trades }
    requires outcome { IsOutcomeOf market.now.trades outcome.now.over outcome.now.contracts }
    requires priced { length prices.now ≡ length market.now.trades }
    requires small_prices { All (λ p. IsAtMost p most_number) prices.now }
    requires over { IsOverWithin over }
    ensures { IfOk result (network_of V.firm market.now Replays (on_market (Completes outcome.now prices.now over))) }
{
    if over != outcome.over {
        let over = outcome.over;
        return Ok(Replayed::Invalid(Reason::Over { over }));
    }
    if let Some(trade) = first_mispriced(&outcome.contracts, prices) {
        return Ok(Replayed::Invalid(Reason::Price { trade }));
    }
    let on = signed_trades(&outcome.contracts, market.trades());
    match first_lack(alloc, market, over, &on, prices)? {
        Some(reason) => Ok(Replayed::Invalid(reason)),
        None => Ok(Replayed::Valid),
    }
}
