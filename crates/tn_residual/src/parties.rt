//! The firms of a residual market.

ghost use Rattle.std.specs.Prelude.{◌≡◌, ℕ, ◌++◌, ◌*◌, ◌+◌, ◌<◌, ◌≤◌, All, IfOk, pos, ◌≤ℤ◌, ◌*ℤ◌, length, map, slice_get, unsigned_abs, Some};
ghost use Rattle.tn_base.specs.Arcs.{IsAtMost};
ghost use Rattle.tn_market.specs.Levied.{levied_limit};
ghost use Rattle.tn_market.specs.Limits.{IsOutcomeOf, IsWithinLimits};
ghost use Rattle.tn_model.specs.Limits.{most_claimed_over, most_numerator, most_worth_among};
ghost use Rattle.tn_model.specs.Network.{part};
ghost use Rattle.tn_residual.specs.Residual.{levied_from, outsides, residual_limit, residual_of, unsigned};
ghost use Rattle.tn_market.specs.NetworkOf.{network_of};

use crate::signed::contract_price;
use std::alloc::Global;
use tn_base::{Bundle, OutOfMemory};
use tn_market::{Levied, MOST_WORTH, Market, Outcome, Outside, Party, Valuation};

/// A market of at most so many trades may have greater worths than one of more.
const FEW_TRADES: u32 = 128;

/// No worth of a firm is above this in size in a market of more trades.
const MOST_WORTH_AMONG_MANY: i128 = 1_240_000_000;

/// A bound on the size of each worth of a market's firms, by how many trades it has.
#[tactic(auto, unfolding(tn_model::specs::Limits::most_worth_among))]
fn most_worth_among(trades: u32) -> i128
    ensures { result ≡ pos (most_worth_among trades) }
{
    if trades <= FEW_TRADES {
        MOST_WORTH
    } else {
        MOST_WORTH_AMONG_MANY
    }
}

/// The unsigned positions of firm `f`.
fn unsigned_of<V: Valuation>(market: &Market<V>, f: u32, outcome: &Outcome) -> Bundle
    requires firm { f < length market.now.firms }
    ensures { (v : V) → slice_get market.now.firms f ≡ Some v
        → result ≡ part market.now.trades f (V.firm v).count
        (unsigned (length market.now.trades) outcome.now.contracts) }
{
    let mut unsigned = Bundle::empty();
    for k in 0..market.firm(f).trades() {
        if contract_price(&outcome.contracts, market.own(f, k)).is_none() {
            unsigned = unsigned.toggle(k);
        }
    }
    unsigned
}

/// The firms of the market, their worths counted `scale` times, with a tax on each unsigned trade. Their bounds are
/// those that hold for as many trades as the market has, which may be smaller than their own. It fails only where memory
/// runs out.
fn members<'a, V: Valuation>(
    alloc: Global,
    market: &'a Market<V>,
    outcome: &Outcome,
    scale: i128,
    tax: i128,
) -> Result<Vec<Party<'a, V>>, OutOfMemory>
    requires limits { IsWithinLimits V.firm V.limit market.now }
    requires scaled { pos 1 ≤ℤ scale }
    requires small_scale { scale ≤ℤ pos most_claimed_over }
    requires taxed { pos 0 ≤ℤ tax }
    requires small_tax { tax ≤ℤ pos 1 }
    ensures firms { IfOk result (λ parties. map ⟦<Party<'a, V> as Valuation>⟧.firm parties.items
        ≡ levied_from market.now.trades outcome.now.contracts scale tax 0 (map V.firm market.now.firms)) }
    ensures limits { IfOk result
        (λ parties. All (λ party. ⟦<Party<'a, V> as Valuation>⟧.limit party
        ≤ levied_limit scale tax (most_worth_among (length market.now.trades))) parties.items) }
{
    let worth = most_worth_among(market.trades());
    let mut parties = Vec::with_capacity(alloc, market.firms() as usize)?;
    for f in 0..market.firms() {
        let taxed = unsigned_of(market, f, outcome);
        parties.push(Party::Firm(Levied::within(market.firm(f), worth, scale, taxed, tax)))?;
    }
    Ok(parties)
}

/// A price counted `scale` times.
fn scaled_price(scale: i128, price: i128) -> i128
    requires from_one { pos 1 ≤ℤ scale }
    requires small_scale { scale ≤ℤ pos most_claimed_over }
    requires small { IsAtMost price most_numerator }
    ensures value { result ≡ scale *ℤ price }
    ensures small { IsAtMost result (most_claimed_over * most_numerator) }
{
    scale * price
}

/// Adds a firm outside the market for each contract. It fails only where memory runs out.
fn add_outsides<'a, V: Valuation>(
    parties: &mut Vec<Party<'a, V>>,
    outcome: &Outcome,
    scale: i128,
) -> Result<(), OutOfMemory>
    requires from_one { pos 1 ≤ℤ scale }
    requires small_scale { scale ≤ℤ pos most_claimed_over }
    requires small { All (λ contract. IsAtMost contract.price most_numerator) outcome.now.contracts }
    ensures firms { IfOk result (λ done. map ⟦<Party<'a, V> as Valuation>⟧.firm parties.new.items
        ≡ map ⟦<Party<'a, V> as Valuation>⟧.firm parties.old.items ++ outsides scale outcome.now.contracts) }
    ensures limits { IfOk result (λ done. (limit : ℕ) → unsigned_abs scale * most_numerator ≤ limit
        → All (λ party. ⟦<Party<'a, V> as Valuation>⟧.limit party ≤ limit) parties.old.items
        → All (λ party. ⟦<Party<'a, V> as Valuation>⟧.limit party ≤ limit) parties.new.items) }
{
    for c in 0..outcome.contracts.len() {
        let price = scaled_price(scale, outcome.contracts.at(c).price);
        parties.push(Party::Outside(Outside::new(price)))?;
    }
    Ok(())
}

/// The firms of the residual market: the market's under a levy, and then one outside for each contract. It fails only
/// where memory runs out.
pub fn all_parties<'a, V: Valuation>(
    alloc: Global,
    market: &'a Market<V>,
    outcome: &Outcome,
    scale: i128,
    tax: i128,
) -> Result<Vec<Party<'a, V>>, OutOfMemory>
    requires limits { IsWithinLimits V.firm V.limit market.now }
    requires outcome { IsOutcomeOf market.now.trades outcome.now.over outcome.now.contracts }
    requires scaled { pos 1 ≤ℤ (outcome.now.over *ℤ scale) }
    requires small_scale { (outcome.now.over *ℤ scale) ≤ℤ pos most_claimed_over }
    requires taxed { pos 0 ≤ℤ tax }
    requires small_tax { tax ≤ℤ pos 1 }
    ensures firms { IfOk result (λ parties. map ⟦<Party<'a, V> as Valuation>⟧.firm parties.items
        ≡ network_of V.firm market.now residual_of outcome.now.over outcome.now.contracts scale tax) }
    ensures limits { IfOk result
        (λ parties. All (λ party. ⟦<Party<'a, V> as Valuation>⟧.limit party
        ≤ residual_limit (length market.now.trades) outcome.now.over scale) parties.items) }
{
    let mut parties = members(alloc, market, outcome, outcome.over * scale, tax)?;
    add_outsides(&mut parties, outcome, scale)?;
    Ok(parties)
}
