//! Claims that contracts block an outcome.

ghost use Rattle.std.specs.Prelude.{◌≡◌, ◌<◌, ◌≤◌, pos, ◌*ℤ◌, ◌≤ℤ◌, All, IfOk};
ghost use Rattle.tn_base.specs.Arcs.{IsAtMost};
ghost use Rattle.tn_cert.specs.Greatest.{DecidesContract, DecidesEqual, FindsLeaver, FindsSigned, HaveTradesOnce};
ghost use Rattle.tn_cert.specs.Replays.{Replays};
ghost use Rattle.tn_model.specs.Choices.{together};
ghost use Rattle.tn_said.specs.Claim.{on_market};
ghost use Rattle.tn_said.specs.declared.claim.MarketClaim.TheVariants.{Blocks};
ghost use Rattle.tn_said.specs.ClaimLimits.{AreOffersWithin, IsOverWithin};
ghost use Rattle.tn_market.specs.Limits.{IsOutcomeOf, IsWithinLimits};
ghost use Rattle.tn_model.specs.Limits.{most_claimed_over, most_number, most_numerator, most_over};
ghost use Rattle.tn_market.specs.Widths.{most_scale};
ghost use Rattle.tn_market.specs.NetworkOf.{network_of};

use crate::choosing::first_left;
use crate::least::earlier;
use crate::pool::together;
use crate::replayed::Replayed;
use std::alloc::Global;
use tn_base::OutOfMemory;
use tn_market::{Contract, Contracts, Market, Oracle, Outcome};
use tn_residual::contract_price;
use tn_said::Reason;

/// Whether two products are equal.
fn are_equal(a: i128, b: i128, c: i128, d: i128) -> bool
    requires small_a { IsAtMost a most_number }
    requires small_b { IsAtMost b most_claimed_over }
    requires small_c { IsAtMost c most_number }
    requires small_d { IsAtMost d most_claimed_over }
    ensures { DecidesEqual (a *ℤ b) (c *ℤ d) result }
{
    a * b == c * d
}

/// Whether an offer is one of the outcome's contracts.
fn is_contract(outcome: &Outcome, over: i128, offer: Contract) -> bool
    requires outcome_least { pos 1 ≤ℤ outcome.now.over }
    requires outcome_most { outcome.now.over ≤ℤ pos most_over }
    requires small_outcome { All (λ contract. IsAtMost contract.price most_numerator) outcome.now.contracts }
    requires once { HaveTradesOnce outcome.now.contracts }
    requires over { IsOverWithin over }
    requires small { IsAtMost offer.price most_number }
    ensures { DecidesContract outcome.now over offer result }
{
    match contract_price(&outcome.contracts, offer.trade) {
        Some(price) => are_equal(offer.price, outcome.over, price, over),
        None => false,
    }
}

/// The first trade of the offers that are the outcome's contracts.
fn first_signed(outcome: &Outcome, over: i128, offers: &Contracts) -> Option<u32>
    requires outcome_least { pos 1 ≤ℤ outcome.now.over }
    requires outcome_most { outcome.now.over ≤ℤ pos most_over }
    requires small_outcome { All (λ contract. IsAtMost contract.price most_numerator) outcome.now.contracts }
    requires once { HaveTradesOnce outcome.now.contracts }
    requires over { IsOverWithin over }
    requires small { All (λ contract. IsAtMost contract.price most_number) offers.now }
    ensures { FindsSigned outcome.now over offers.now result }
{
    let mut first = None;
    for k in 0..offers.len() {
        if is_contract(outcome, over, offers.at(k)) {
            first = Some(earlier(first, offers.at(k).trade));
        }
    }
    first
}

/// The product of the denominators of an outcome and of offers.
fn common(outcome_over: i128, over: i128) -> i128
    requires outcome_least { pos 1 ≤ℤ outcome_over }
    requires outcome_most { outcome_over ≤ℤ pos most_over }
    requires over { IsOverWithin over }
    ensures product { result ≡ outcome_over *ℤ over }
    ensures least { pos 1 ≤ℤ result }
    ensures most { result ≤ℤ pos most_scale }
{
    outcome_over * over
}

/// The first firm with an own offer that some choice of it from offers and outcome, together in a pool, lacks, and the
/// first trade of these offers.
fn first_of_pool<V: Oracle>(
    market: &Market<V>,
    outcome: &Outcome,
    over: i128,
    offers: &Contracts,
    pool: &Contracts,
) -> Option<(u32, u32)>
    requires limits { IsWithinLimits V.firm V.limit market.now }
    requires outcome { IsOutcomeOf market.now.trades outcome.now.over outcome.now.contracts }
    requires offers { AreOffersWithin market.now.trades offers.now }
    requires over { IsOverWithin over }
    requires pool { pool.now ≡ together over offers.now outcome.now.over outcome.now.contracts }
    ensures { network_of V.firm market.now FindsLeaver outcome.now over offers.now result }
{
    let scale = common(outcome.over, over);
    for f in 0..market.firms() {
        if let Some(trade) = first_left(market, pool, scale, offers.len(), f) {
            return Some((f, trade));
        }
    }
    None
}

/// The same, of the pool that it makes. It fails only where memory runs out.
fn first_to_leave<V: Oracle>(
    alloc: Global,
    market: &Market<V>,
    outcome: &Outcome,
    over: i128,
    offers: &Contracts,
) -> Result<Option<(u32, u32)>, OutOfMemory>
    requires limits { IsWithinLimits V.firm V.limit market.now }
    requires outcome { IsOutcomeOf market.now.trades outcome.now.over outcome.now.contracts }
    requires offers { AreOffersWithin market.now.trades offers.now }
    requires over { IsOverWithin over }
    ensures { IfOk result (network_of V.firm market.now FindsLeaver outcome.now over offers.now) }
{
    let pool = together(alloc, over, offers, outcome)?;
    Ok(first_of_pool(market, outcome, over, offers, &pool))
}

/// Decides a claim that contracts over a denominator block an outcome. It fails only where memory runs out.
pub(crate) fn replay_blocks<V: Oracle>(
    alloc: Global,
    market: &Market<V>,
    outcome: &Outcome,
    offers: &Contracts,
    over: i128,
) -> Result<Replayed, OutOfMemory>
    requires limits { IsWithinLimits V.firm V.limit market.now }
    requires outcome { IsOutcomeOf market.now.trades outcome.now.over outcome.now.contracts }
    requires offers { AreOffersWithin market.now.trades offers.now }
    requires over { IsOverWithin over }
    ensures { IfOk result (network_of V.firm market.now Replays (on_market (Blocks outcome.now offers.now over))) }
{
    if offers.len() == 0 {
        return Ok(Replayed::Invalid(Reason::Empty));
    }
    if let Some(trade) = first_signed(outcome, over, offers) {
        return Ok(Replayed::Invalid(Reason::Signed { trade }));
    }
    match first_to_leave(alloc, market, outcome, over, offers)? {
        Some((firm, trade)) => Ok(Replayed::Invalid(Reason::Choice { firm, trade })),
        None => Ok(Replayed::Valid),
    }
}
