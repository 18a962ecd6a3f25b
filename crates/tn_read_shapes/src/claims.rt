//! The kinds of claims: the word of each, and the members that it may have.

ghost use Rattle.std.specs.Prelude.{◌≡◌};
ghost use Rattle.tn_read_shapes.specs.Claims.{allows_in_claim, claim_named};

use crate::words::{is_one_of, value_of_word};
use tn_said::Word;

/// The kinds of claims.
#[derive(Clone, Copy)]
pub enum ClaimKind {
    /// A claim on a market, whose firms meet the exchange property.
    OnMarket(MarketClaimKind),
    /// A claim on firms as they are listed, whether they meet it or not.
    OnFirms(FirmClaimKind),
}

/// The kinds of claims on a market: one for each answer that can be claimed of one.
#[derive(Clone, Copy)]
pub enum MarketClaimKind {
    /// An arrangement is an equilibrium.
    Equilibrium,
    /// A firm has more by another bundle.
    Better,
    /// A firm's bundle is impossible.
    Impossible,
    /// Prices support a set of trades.
    Supported,
    /// A cycle shows that no prices do.
    Cycle,
    /// The claim's own arrangement is an equilibrium.
    Solved,
    /// A firm has more where it drops contracts.
    Drops,
    /// Prices complete an outcome.
    Completes,
    /// Contracts block an outcome.
    Blocks,
}

/// The kinds of claims on firms as they are listed: one for each answer about the exchange property, and one that no
/// command answers.
#[derive(Clone, Copy)]
pub enum FirmClaimKind {
    /// Every firm meets the exchange property.
    Accepted,
    /// A firm doesn't.
    ExchangeFails,
    /// A plan in parts shows that no prices make any trades an equilibrium.
    NoPrices,
}

/// The kind of claim that a text names.
pub fn claim_named(text: &str) -> Option<ClaimKind>
    ensures { result ≡ claim_named text.now }
{
    value_of_word(
        text,
        &[
            (
                "equilibrium",
                ClaimKind::OnMarket(MarketClaimKind::Equilibrium),
            ),
            ("better", ClaimKind::OnMarket(MarketClaimKind::Better)),
            (
                "impossible",
                ClaimKind::OnMarket(MarketClaimKind::Impossible),
            ),
            ("accepted", ClaimKind::OnFirms(FirmClaimKind::Accepted)),
            (
                "exchange_fails",
                ClaimKind::OnFirms(FirmClaimKind::ExchangeFails),
            ),
            ("prices", ClaimKind::OnMarket(MarketClaimKind::Supported)),
            ("cycle", ClaimKind::OnMarket(MarketClaimKind::Cycle)),
            ("solved", ClaimKind::OnMarket(MarketClaimKind::Solved)),
            ("drops", ClaimKind::OnMarket(MarketClaimKind::Drops)),
            ("completes", ClaimKind::OnMarket(MarketClaimKind::Completes)),
            ("blocks", ClaimKind::OnMarket(MarketClaimKind::Blocks)),
            ("none", ClaimKind::OnFirms(FirmClaimKind::NoPrices)),
        ],
    )
}

/// Whether a claim of a kind may have a member of this name.
#[tactic(auto, unfolding(crate::specs::Claims::allows_in_claim))]
pub(crate) fn allows_in_claim(kind: ClaimKind, key: &str) -> bool
    ensures { result ≡ allows_in_claim kind key.now }
{
    match kind {
        ClaimKind::OnMarket(MarketClaimKind::Equilibrium) => is_one_of(
            key,
            &[Word::Answer, Word::Surplus],
        ),
        ClaimKind::OnMarket(MarketClaimKind::Better) => is_one_of(
            key,
            &[Word::Answer, Word::Bundle, Word::Firm, Word::Gain],
        ),
        ClaimKind::OnMarket(MarketClaimKind::Impossible) => is_one_of(
            key,
            &[Word::Answer, Word::Firm],
        ),
        ClaimKind::OnFirms(FirmClaimKind::Accepted) => is_one_of(key, &[Word::Answer]),
        ClaimKind::OnFirms(FirmClaimKind::ExchangeFails) => is_one_of(
            key,
            &[Word::Answer, Word::At, Word::Firm, Word::X, Word::Y],
        ),
        ClaimKind::OnMarket(MarketClaimKind::Supported) => is_one_of(
            key,
            &[Word::Answer, Word::Prices],
        ),
        ClaimKind::OnMarket(MarketClaimKind::Cycle) => is_one_of(
            key,
            &[Word::Answer, Word::Cost, Word::Nodes],
        ),
        ClaimKind::OnMarket(MarketClaimKind::Solved) => is_one_of(
            key,
            &[Word::Answer, Word::On, Word::Prices, Word::Surplus],
        ),
        ClaimKind::OnMarket(MarketClaimKind::Drops) => is_one_of(
            key,
            &[
                Word::Answer,
                Word::Firm,
                Word::Gain,
                Word::Keeps,
                Word::Over,
            ],
        ),
        ClaimKind::OnMarket(MarketClaimKind::Completes) => is_one_of(
            key,
            &[Word::Answer, Word::Over, Word::Prices],
        ),
        ClaimKind::OnMarket(MarketClaimKind::Blocks) => is_one_of(
            key,
            &[Word::Answer, Word::Contracts, Word::Over],
        ),
        ClaimKind::OnFirms(FirmClaimKind::NoPrices) => is_one_of(
            key,
            &[Word::Answer, Word::Over, Word::Plan],
        ),
    }
}
