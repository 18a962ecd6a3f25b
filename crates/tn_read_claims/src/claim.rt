//! Reads a claim, by its kind.

ghost use Rattle.std.specs.Prelude.{ℕ, ◌<◌, ◌≤◌, length};
ghost use Rattle.serde_json.specs.View.{view};
ghost use Rattle.tn_model.specs.Limits.{most_own_trades};
ghost use Rattle.tn_read_shapes.specs.Reading.{Gives};
ghost use Rattle.tn_read_references.specs.Ordered.{sides_of};
ghost use Rattle.tn_read_claims.specs.Claimed.{firm_claim_by, kind_of, market_claim_by, named_claim};

use crate::kinds::{
    accepted, better, blocks, completes, cycle, drops, equilibrium, failure, impossible, no_prices,
    solved, supported,
};
use serde_json::Value;
use std::alloc::Global;
use tn_read_references::Head;
use tn_read_shapes::{
    ClaimKind, FirmClaimKind, MarketClaimKind, ReadError, claim_named, found, member, object,
    present, text,
};
use tn_said::PlaceStep::Key;
use tn_said::{FaultKind, FirmClaim, MarketClaim, Word};

/// The claim of a document, with its kind. It is an object, whose answer names a kind.
#[tactic(auto, unfolding(crate::specs::Claimed::named_claim))]
pub fn named_claim(alloc: Global, top: &Value) -> Result<(ClaimKind, &Value), ReadError>
    ensures { Gives (λ named. (named.0, view named.1.now)) result (named_claim (view top.now)) }
{
    let claim = present(alloc, member(top, Word::Claim), &[Key(Word::Claim)])?;
    object(alloc, claim, &[Key(Word::Claim)])?;
    let kind = kind_of(alloc, claim)?;
    Ok((kind, claim))
}

/// The kind of a claim, by its answer.
#[tactic(auto, unfolding(crate::specs::Claimed::kind_of))]
fn kind_of(alloc: Global, claim: &Value) -> Result<ClaimKind, ReadError>
    ensures { Gives (λ kind. kind) result (kind_of (view claim.now)) }
{
    let place = [Key(Word::Claim), Key(Word::Answer)];
    let answer = text(alloc, member(claim, Word::Answer), &place)?;
    found(alloc, claim_named(answer), FaultKind::Shape, &place)
}

/// The claim of a kind on the market of a document whose network is listed. No firm has more than 60 own trades.
pub fn read_market_claim(
    alloc: Global,
    head: &Head,
    kind: MarketClaimKind,
    top: &Value,
    claim: &Value,
) -> Result<MarketClaim, ReadError>
    requires few { (f : ℕ) → f < length head.now.names.firms → length (sides_of head.now.ends f) ≤ most_own_trades }
    ensures { Gives (λ c. c) result
        (market_claim_by head.now kind (view top.now) (view claim.now)) }
{
    match kind {
        MarketClaimKind::Equilibrium => equilibrium(alloc, head, top, claim),
        MarketClaimKind::Better => better(alloc, head, top, claim),
        MarketClaimKind::Impossible => impossible(alloc, head, top, claim),
        MarketClaimKind::Supported => supported(alloc, head, top, claim),
        MarketClaimKind::Cycle => cycle(alloc, head, top, claim),
        MarketClaimKind::Solved => solved(alloc, head, claim),
        MarketClaimKind::Drops => drops(alloc, head, top, claim),
        MarketClaimKind::Completes => completes(alloc, head, top, claim),
        MarketClaimKind::Blocks => blocks(alloc, head, top, claim),
    }
}

/// The claim of a kind on the firms of a document whose network is listed. No firm has more than 60 own trades.
pub fn read_firm_claim(
    alloc: Global,
    head: &Head,
    kind: FirmClaimKind,
    claim: &Value,
) -> Result<FirmClaim, ReadError>
    requires few { (f : ℕ) → f < length head.now.names.firms → length (sides_of head.now.ends f) ≤ most_own_trades }
    ensures { Gives (λ c. c) result (firm_claim_by head.now kind (view claim.now)) }
{
    match kind {
        FirmClaimKind::Accepted => accepted(alloc, claim),
        FirmClaimKind::ExchangeFails => failure(alloc, head, claim),
        FirmClaimKind::NoPrices => no_prices(alloc, head, claim),
    }
}
