//! The claims of each kind. The part of the document that a claim speaks of is read first, then its members.

ghost use Rattle.std.specs.Prelude.{ℕ, ◌<◌, ◌≤◌, length};
ghost use Rattle.serde_json.specs.View.{view};
ghost use Rattle.tn_model.specs.Limits.{most_own_trades};
ghost use Rattle.tn_read_shapes.specs.Reading.{Gives};
ghost use Rattle.tn_read_references.specs.Ordered.{sides_of};
ghost use Rattle.tn_read_claims.specs.Claimed.{accepted_of, better_of, blocks_of, completes_of, cycle_of, drops_of, equilibrium_of, failure_of, frame_of, impossible_of, no_prices_of, solved_of, supported_of};

use crate::contracts::contracts_of;
use crate::members::{
    bundle_of, firm_of, gain_or_null, number_of, on_of, over_of, own_or_null, prices_of,
};
use crate::nodes::nodes_of;
use crate::plan::plan_of;
use serde_json::Value;
use std::alloc::Global;
use tn_model::Arrangement;
use tn_read_parts::{read_arrangement, read_outcome, read_trades_on};
use tn_read_references::Head;
use tn_read_shapes::ClaimKind::{OnFirms, OnMarket};
use tn_read_shapes::{
    ClaimKind, FirmClaimKind, MarketClaimKind, ObjectKind, ReadError, member, object_of, require,
};
use tn_said::PlaceStep::Key;
use tn_said::{FaultKind, FirmClaim, MarketClaim, Word};

/// The most trades of a document whose claim is a plan: it is held against every set of them.
const MOST_PLANNED_TRADES: usize = 20;

/// Whether a claim of a kind has the members of its answer alone.
fn check_frame(alloc: Global, kind: ClaimKind, claim: &Value) -> Result<(), ReadError>
    ensures { Gives (λ _. tt) result (frame_of kind (view claim.now)) }
{
    object_of(
        alloc,
        ObjectKind::Claim(kind),
        Some(claim),
        &[Key(Word::Claim)],
    )
}

/// The claim that the document's arrangement is an equilibrium.
#[tactic(auto, unfolding(crate::specs::Claimed::equilibrium_of))]
pub(crate) fn equilibrium(
    alloc: Global,
    head: &Head,
    top: &Value,
    claim: &Value,
) -> Result<MarketClaim, ReadError>
    ensures { Gives (λ c. c) result (equilibrium_of head.now (view top.now) (view claim.now)) }
{
    let at = read_arrangement(alloc, head, top)?;
    check_frame(alloc, OnMarket(MarketClaimKind::Equilibrium), claim)?;
    let surplus = number_of(alloc, head, Word::Surplus, member(claim, Word::Surplus))?;
    Ok(MarketClaim::Equilibrium { at, surplus })
}

/// The claim that a firm has more by another bundle.
#[tactic(auto, unfolding(crate::specs::Claimed::better_of))]
pub(crate) fn better(
    alloc: Global,
    head: &Head,
    top: &Value,
    claim: &Value,
) -> Result<MarketClaim, ReadError>
    requires few { (f : ℕ) → f < length head.now.names.firms → length (sides_of head.now.ends f) ≤ most_own_trades }
    ensures { Gives (λ c. c) result (better_of head.now (view top.now) (view claim.now)) }
{
    let at = read_arrangement(alloc, head, top)?;
    check_frame(alloc, OnMarket(MarketClaimKind::Better), claim)?;
    let firm = firm_of(alloc, head, claim)?;
    let bundle = bundle_of(alloc, head, firm, Word::Bundle, member(claim, Word::Bundle))?;
    let gain = number_of(alloc, head, Word::Gain, member(claim, Word::Gain))?;
    Ok(MarketClaim::Better {
        at,
        firm,
        bundle,
        gain,
    })
}

/// The claim that a firm's bundle is impossible.
#[tactic(auto, unfolding(crate::specs::Claimed::impossible_of))]
pub(crate) fn impossible(
    alloc: Global,
    head: &Head,
    top: &Value,
    claim: &Value,
) -> Result<MarketClaim, ReadError>
    ensures { Gives (λ c. c) result (impossible_of head.now (view top.now) (view claim.now)) }
{
    let on = read_trades_on(alloc, head, top)?;
    check_frame(alloc, OnMarket(MarketClaimKind::Impossible), claim)?;
    let firm = firm_of(alloc, head, claim)?;
    Ok(MarketClaim::Impossible { on, firm })
}

/// The claim that every firm meets exchange.
#[tactic(auto, unfolding(crate::specs::Claimed::accepted_of))]
pub(crate) fn accepted(alloc: Global, claim: &Value) -> Result<FirmClaim, ReadError>
    ensures { Gives (λ c. c) result (accepted_of (view claim.now)) }
{
    check_frame(alloc, OnFirms(FirmClaimKind::Accepted), claim)?;
    Ok(FirmClaim::Accepted)
}

/// The claim that a firm doesn't meet exchange.
#[tactic(auto, unfolding(crate::specs::Claimed::failure_of))]
pub(crate) fn failure(alloc: Global, head: &Head, claim: &Value) -> Result<FirmClaim, ReadError>
    requires few { (f : ℕ) → f < length head.now.names.firms → length (sides_of head.now.ends f) ≤ most_own_trades }
    ensures { Gives (λ c. c) result (failure_of head.now (view claim.now)) }
{
    check_frame(alloc, OnFirms(FirmClaimKind::ExchangeFails), claim)?;
    let firm = firm_of(alloc, head, claim)?;
    let at = own_or_null(
        alloc,
        head,
        firm,
        member(claim, Word::At),
        &[Key(Word::Claim), Key(Word::At)],
    )?;
    let x = bundle_of(alloc, head, firm, Word::X, member(claim, Word::X))?;
    let y = bundle_of(alloc, head, firm, Word::Y, member(claim, Word::Y))?;
    Ok(FirmClaim::ExchangeFails { firm, x, y, at })
}

/// The claim that prices support a set of trades.
#[tactic(auto, unfolding(crate::specs::Claimed::supported_of))]
pub(crate) fn supported(
    alloc: Global,
    head: &Head,
    top: &Value,
    claim: &Value,
) -> Result<MarketClaim, ReadError>
    ensures { Gives (λ c. c) result (supported_of head.now (view top.now) (view claim.now)) }
{
    let on = read_trades_on(alloc, head, top)?;
    check_frame(alloc, OnMarket(MarketClaimKind::Supported), claim)?;
    let prices = prices_of(alloc, head, claim)?;
    Ok(MarketClaim::Supported { on, prices })
}

/// The claim that a cycle of the exchange graph has a negative cost.
#[tactic(auto, unfolding(crate::specs::Claimed::cycle_of))]
pub(crate) fn cycle(
    alloc: Global,
    head: &Head,
    top: &Value,
    claim: &Value,
) -> Result<MarketClaim, ReadError>
    ensures { Gives (λ c. c) result (cycle_of head.now (view top.now) (view claim.now)) }
{
    let on = read_trades_on(alloc, head, top)?;
    check_frame(alloc, OnMarket(MarketClaimKind::Cycle), claim)?;
    let cost = number_of(alloc, head, Word::Cost, member(claim, Word::Cost))?;
    let nodes = nodes_of(alloc, head, claim)?;
    Ok(MarketClaim::Cycle { on, nodes, cost })
}

/// The claim that its own arrangement is an equilibrium.
#[tactic(auto, unfolding(crate::specs::Claimed::solved_of))]
pub(crate) fn solved(alloc: Global, head: &Head, claim: &Value) -> Result<MarketClaim, ReadError>
    ensures { Gives (λ c. c) result (solved_of head.now (view claim.now)) }
{
    check_frame(alloc, OnMarket(MarketClaimKind::Solved), claim)?;
    let on = on_of(alloc, head, claim)?;
    let prices = prices_of(alloc, head, claim)?;
    let surplus = number_of(alloc, head, Word::Surplus, member(claim, Word::Surplus))?;
    let at = Arrangement { on, prices };
    Ok(MarketClaim::Solved { at, surplus })
}

/// The claim that a firm has more where it drops some of its contracts.
#[tactic(auto, unfolding(crate::specs::Claimed::drops_of))]
pub(crate) fn drops(
    alloc: Global,
    head: &Head,
    top: &Value,
    claim: &Value,
) -> Result<MarketClaim, ReadError>
    requires few { (f : ℕ) → f < length head.now.names.firms → length (sides_of head.now.ends f) ≤ most_own_trades }
    ensures { Gives (λ c. c) result (drops_of head.now (view top.now) (view claim.now)) }
{
    let outcome = read_outcome(alloc, head, top)?;
    check_frame(alloc, OnMarket(MarketClaimKind::Drops), claim)?;
    let firm = firm_of(alloc, head, claim)?;
    let gain = gain_or_null(alloc, head, member(claim, Word::Gain))?;
    let keeps = bundle_of(alloc, head, firm, Word::Keeps, member(claim, Word::Keeps))?;
    let over = over_of(alloc, head, claim)?;
    Ok(MarketClaim::Drops {
        outcome,
        firm,
        keeps,
        gain,
        over,
    })
}

/// The claim that prices complete the document's outcome.
#[tactic(auto, unfolding(crate::specs::Claimed::completes_of))]
pub(crate) fn completes(
    alloc: Global,
    head: &Head,
    top: &Value,
    claim: &Value,
) -> Result<MarketClaim, ReadError>
    ensures { Gives (λ c. c) result (completes_of head.now (view top.now) (view claim.now)) }
{
    let outcome = read_outcome(alloc, head, top)?;
    check_frame(alloc, OnMarket(MarketClaimKind::Completes), claim)?;
    let over = over_of(alloc, head, claim)?;
    let prices = prices_of(alloc, head, claim)?;
    Ok(MarketClaim::Completes {
        outcome,
        prices,
        over,
    })
}

/// The claim that contracts block the document's outcome.
#[tactic(auto, unfolding(crate::specs::Claimed::blocks_of))]
pub(crate) fn blocks(
    alloc: Global,
    head: &Head,
    top: &Value,
    claim: &Value,
) -> Result<MarketClaim, ReadError>
    ensures { Gives (λ c. c) result (blocks_of head.now (view top.now) (view claim.now)) }
{
    let outcome = read_outcome(alloc, head, top)?;
    check_frame(alloc, OnMarket(MarketClaimKind::Blocks), claim)?;
    let contracts = contracts_of(alloc, head, claim)?;
    let over = over_of(alloc, head, claim)?;
    Ok(MarketClaim::Blocks {
        outcome,
        contracts,
        over,
    })
}

/// The claim that no prices make any set of trades an equilibrium, by a plan in parts. A document of more than 20
/// trades is refused before the claim's members are read.
#[tactic(auto, unfolding(crate::specs::Claimed::no_prices_of))]
pub(crate) fn no_prices(alloc: Global, head: &Head, claim: &Value) -> Result<FirmClaim, ReadError>
    requires few { (f : ℕ) → f < length head.now.names.firms → length (sides_of head.now.ends f) ≤ most_own_trades }
    ensures { Gives (λ c. c) result (no_prices_of head.now (view claim.now)) }
{
    let few = head.ends().len() <= MOST_PLANNED_TRADES;
    require(alloc, few, FaultKind::Limit, &[Key(Word::Claim)])?;
    check_frame(alloc, OnFirms(FirmClaimKind::NoPrices), claim)?;
    let over = over_of(alloc, head, claim)?;
    let plan = plan_of(alloc, head, claim)?;
    Ok(FirmClaim::NoPrices { plan, over })
}
