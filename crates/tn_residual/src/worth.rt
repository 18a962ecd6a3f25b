//! The reduced worth of a firm's unsigned trades.

ghost use Rattle.std.specs.Prelude.{◌≡◌, ◌^◌, ◌<◌, length, slice_get, Some, option_map};
ghost use Rattle.tn_base.specs.Sets.{meet, minus};
ghost use Rattle.tn_market.specs.Limits.{IsOutcomeOf, IsWithinLimits};
ghost use Rattle.tn_market.specs.Reduced.{reduced};
ghost use Rattle.tn_market.specs.Signed.{contract_utility, signed_bundle};
ghost use Rattle.tn_residual.specs.Held.{GivesPart, HoldsSigned};

use crate::signed::{Held, signed_by};
use tn_base::Bundle;
use tn_market::{Market, Oracle, Outcome};

/// The reduced worth of a firm's unsigned trades `x`: the greatest utility, over the outcome's denominator, of `x` with
/// a part of the firm's contracts, at their prices and without prices for `x`; and a part that reaches it. None exactly
/// where `x` is impossible with each part. It takes no memory. The limits of firms and outcomes hold, and `x` has own
/// unsigned trades alone.
pub fn reduced_best<V: Oracle>(
    market: &Market<V>,
    firm: u32,
    outcome: &Outcome,
    x: Bundle,
) -> Option<(Bundle, i128)>
    requires limits { IsWithinLimits V.firm V.limit market.now }
    requires outcome { IsOutcomeOf market.now.trades outcome.now.over outcome.now.contracts }
    requires firm { firm < length market.now.firms }
    requires own { (v : V) → slice_get market.now.firms firm ≡ Some v → x < 2 ^ (V.firm v).count }
    requires unsigned { (v : V) → slice_get market.now.firms firm ≡ Some v
        → meet x (signed_bundle market.now.trades outcome.now.contracts firm (V.firm v)) ≡ 0 }
    ensures part { (v : V) → slice_get market.now.firms firm ≡ Some v
        → GivesPart x (signed_bundle market.now.trades outcome.now.contracts firm (V.firm v))
        (contract_utility market.now.trades outcome.now.over outcome.now.contracts firm (V.firm v)) result }
    ensures worth { (v : V) → slice_get market.now.firms firm ≡ Some v
        → option_map (λ found. found.1) result
        ≡ (reduced market.now.trades outcome.now.over outcome.now.contracts firm (V.firm v)).worth x }
{
    let held = signed_by(market, firm, outcome);
    reduced_best_beside(market, firm, outcome, &held, x)
}

/// The same by what the firm has signed, for who asks for several of them.
pub fn reduced_best_beside<V: Oracle>(
    market: &Market<V>,
    firm: u32,
    outcome: &Outcome,
    held: &Held,
    x: Bundle,
) -> Option<(Bundle, i128)>
    requires limits { IsWithinLimits V.firm V.limit market.now }
    requires outcome { IsOutcomeOf market.now.trades outcome.now.over outcome.now.contracts }
    requires firm { firm < length market.now.firms }
    requires held { (v : V) → slice_get market.now.firms firm ≡ Some v → HoldsSigned market.now.trades
        outcome.now.contracts firm (V.firm v).count held.now.signed held.now.prices }
    requires own { (v : V) → slice_get market.now.firms firm ≡ Some v → x < 2 ^ (V.firm v).count }
    requires unsigned { (v : V) → slice_get market.now.firms firm ≡ Some v
        → meet x (signed_bundle market.now.trades outcome.now.contracts firm (V.firm v)) ≡ 0 }
    ensures part { (v : V) → slice_get market.now.firms firm ≡ Some v
        → GivesPart x (signed_bundle market.now.trades outcome.now.contracts firm (V.firm v))
        (contract_utility market.now.trades outcome.now.over outcome.now.contracts firm (V.firm v)) result }
    ensures worth { (v : V) → slice_get market.now.firms firm ≡ Some v
        → option_map (λ found. found.1) result
        ≡ (reduced market.now.trades outcome.now.over outcome.now.contracts firm (V.firm v)).worth x }
{
    let firm = market.firm(firm);
    let prices = &held.prices[..firm.trades() as usize];
    without(firm.best(x, held.signed, outcome.over, prices), x)
}

/// What a bundle has beside `x`, with its utility.
fn without(found: Option<(Bundle, i128)>, x: Bundle) -> Option<(Bundle, i128)>
    ensures { result ≡ option_map (λ found. (minus found.0 x, found.1)) found }
{
    match found {
        Some((bundle, utility)) => Some((bundle.minus(x), utility)),
        None => None,
    }
}
