//! The first firm that would drop contracts.

ghost use Rattle.std.specs.Prelude.{◌≡◌, ◌<◌, length, map, slice_get, IfSome, Some};
ghost use Rattle.tn_base.specs.Arcs.{IsAtMost};
ghost use Rattle.tn_base.specs.Firm.{Firm};
ghost use Rattle.tn_judge.specs.Drops.{FindsDrop, FindsFirst, TellsDrop};
ghost use Rattle.tn_market.specs.Best.{IsBestBetween};
ghost use Rattle.tn_market.specs.Limits.{IsOutcomeOf, IsWithinLimits};
ghost use Rattle.tn_market.specs.Widths.{most_utility};
ghost use Rattle.tn_model.specs.Network.{IsNetwork};
ghost use Rattle.tn_market.specs.Signed.{contract_utility, signed_bundle};
ghost use Rattle.tn_market.specs.NetworkOf.{network_of};

use tn_base::Bundle;
use tn_market::{Market, Oracle, Outcome, Valuation, utility_of};
use tn_residual::signed_by;

/// What a firm would keep, and what it gains by that: None where its contracts are an impossible bundle.
#[derive(Clone, Copy)]
pub struct Kept {
    pub keeps: Bundle,
    pub gain: Option<i128>,
}

/// The utility of the contracts of firm `f`, None where they are an impossible bundle.
fn own_utility<V: Oracle>(market: &Market<V>, f: u32, outcome: &Outcome) -> Option<i128>
    requires limits { IsWithinLimits V.firm V.limit market.now }
    requires outcome { IsOutcomeOf market.now.trades outcome.now.over outcome.now.contracts }
    requires firm { f < length market.now.firms }
    ensures value { (v : V) → slice_get market.now.firms f ≡ Some v
        → result ≡ contract_utility market.now.trades outcome.now.over outcome.now.contracts f (V.firm v)
        (signed_bundle market.now.trades outcome.now.contracts f (V.firm v)) }
    ensures small { IfSome result (λ value. IsAtMost value most_utility) }
{
    let held = signed_by(market, f, outcome);
    let firm = market.firm(f);
    let prices = &held.prices[..firm.trades() as usize];
    utility_of(firm, held.signed, outcome.over, prices)
}

/// A choice of firm `f` from its contracts, with its utility. The search begins at all of them.
fn best_kept<V: Oracle>(market: &Market<V>, f: u32, outcome: &Outcome) -> (Bundle, i128)
    requires limits { IsWithinLimits V.firm V.limit market.now }
    requires outcome { IsOutcomeOf market.now.trades outcome.now.over outcome.now.contracts }
    requires firm { f < length market.now.firms }
    ensures best { (v : V) → slice_get market.now.firms f ≡ Some v
        → IsBestBetween 0 (signed_bundle market.now.trades outcome.now.contracts f (V.firm v))
        (contract_utility market.now.trades outcome.now.over outcome.now.contracts f (V.firm v)) result.0 result.1 }
    ensures small { IsAtMost result.1 most_utility }
{
    let held = signed_by(market, f, outcome);
    let firm = market.firm(f);
    let prices = &held.prices[..firm.trades() as usize];
    firm.best_from(held.signed, held.signed, outcome.over, prices)
}

/// A choice's utility less that of all contracts, if it is more; `own` is None where they are an impossible bundle.
fn drop_from(keeps: Bundle, value: i128, own: Option<i128>) -> Option<Kept>
    requires value { IsAtMost value most_utility }
    requires own { IfSome own (λ z. IsAtMost z most_utility) }
    ensures { TellsDrop keeps value own result }
{
    match own {
        None => Some(Kept { keeps, gain: None }),
        Some(own) => {
            if own < value {
                let gain = Some(value - own);
                Some(Kept { keeps, gain })
            } else {
                None
            }
        }
    }
}

/// What firm `f` would drop.
fn drop_at<V: Oracle>(market: &Market<V>, f: u32, outcome: &Outcome) -> Option<Kept>
    requires limits { IsWithinLimits V.firm V.limit market.now }
    requires outcome { IsOutcomeOf market.now.trades outcome.now.over outcome.now.contracts }
    requires network { network_of V.firm market.now IsNetwork }
    requires firm { f < length market.now.firms }
    ensures { (firm : Firm) → slice_get (map V.firm market.now.firms) f ≡ Some firm
        → FindsDrop market.now.trades outcome.now.over outcome.now.contracts f firm result }
{
    let (keeps, value) = best_kept(market, f, outcome);
    drop_from(keeps, value, own_utility(market, f, outcome))
}

/// The first firm that would drop contracts, and what it would keep. The limits of firms and outcomes hold.
pub fn first_drop<V: Oracle>(market: &Market<V>, outcome: &Outcome) -> Option<(u32, Kept)>
    requires limits { IsWithinLimits V.firm V.limit market.now }
    requires outcome { IsOutcomeOf market.now.trades outcome.now.over outcome.now.contracts }
    ensures { network_of V.firm market.now FindsFirst outcome.now.over outcome.now.contracts result }
{
    for f in 0..market.firms() {
        if let Some(drop) = drop_at(market, f, outcome) {
            return Some((f, drop));
        }
    }
    None
}
