//! Whether an arrangement is an equilibrium, by few worths.

ghost use Rattle.std.specs.Prelude.{◌≡◌, ℕ, ◌+◌, ◌*◌, ◌<◌, ◌≤◌, ◌↔◌, Some, pos, length, map, slice_get, All, IsTrue};
ghost use Rattle.tn_base.specs.Arcs.{IsAtMost};
ghost use Rattle.tn_base.specs.Firm.{Firm};
ghost use Rattle.tn_model.specs.Prices.{price_at};
ghost use Rattle.tn_model.specs.Limits.{most_number};
ghost use Rattle.tn_market.specs.Equilibrium.{HasBest, IsEquilibrium};
ghost use Rattle.tn_market.specs.Graph.{graph_worths};
ghost use Rattle.tn_market.specs.Widths.{most_own, most_worth};
ghost use Rattle.tn_market.specs.NetworkOf.{network_of};

use crate::judge::own_prices;
use tn_base::{Steps, TradeSet};
use tn_market::{Arrangement, Market, Prices, Valuation, is_best_by_step};

/// Whether firm `f` has a best bundle of a set of trades. It asks for at most a worth for each two places of the firm.
fn is_content<V: Valuation, const W: usize>(
    market: &Market<V>,
    on: &TradeSet<W>,
    prices: &Prices,
    f: u32,
    steps: &mut Steps<V::Mark>,
) -> bool
    requires wide { length market.now.trades ≤ 64 * W }
    requires priced { length prices.now ≡ length market.now.trades }
    requires small_prices { All (λ p. IsAtMost p most_number) prices.now }
    requires firm { f < length market.now.firms }
    requires few_own { (v : V) → slice_get market.now.firms f ≡ Some v → (V.firm v).count ≤ most_own }
    requires small_worths { (v : V) → slice_get market.now.firms f ≡ Some v → V.limit v ≤ most_worth }
    ensures content { (firm : Firm) → slice_get (map V.firm market.now.firms) f ≡ Some firm
        → IsTrue result ↔ HasBest market.now.trades (pos 1) on.now (price_at prices.now) f firm }
    ensures asked { (firm : Firm) → slice_get (map V.firm market.now.firms) f ≡ Some firm
        → steps.new ≤ steps.old + (firm.count + 1) * (firm.count + 1) }
{
    let firm = market.firm(f);
    let n = firm.trades();
    let own_prices = own_prices(market, prices, f, n);
    let own = market.bundle_of(f, on);
    is_best_by_step(firm, own, 1, &own_prices[..n as usize], steps)
}

/// Whether an arrangement is an equilibrium at scale 1. It asks for at most a worth for each two places of each firm,
/// and of no firm after the first whose bundle isn't best; it takes no memory. There is one price for each trade, at
/// most 10^18 in size; the market has at most `64 * W` trades, and each firm at most 60 own trades and no worth above
/// 1.24 * 10^11.
pub fn is_equilibrium<V: Valuation, const W: usize>(
    market: &Market<V>,
    at: &Arrangement<W>,
    steps: &mut Steps<V::Mark>,
) -> bool
    requires wide { length market.now.trades ≤ 64 * W }
    requires priced { length at.now.prices ≡ length market.now.trades }
    requires small_prices { All (λ p. IsAtMost p most_number) at.now.prices }
    requires few_own { (f : ℕ) (v : V) → slice_get market.now.firms f ≡ Some v → (V.firm v).count ≤ most_own }
    requires small_worths { (f : ℕ) (v : V) → slice_get market.now.firms f ≡ Some v → V.limit v ≤ most_worth }
    ensures equilibrium { IsTrue result
        ↔ network_of V.firm market.now IsEquilibrium (pos 1) at.now.on (price_at at.now.prices) }
    ensures asked { steps.new ≤ steps.old + graph_worths (map V.firm market.now.firms) }
{
    for f in 0..market.firms() {
        if !is_content(market, &at.on, &at.prices, f, steps) {
            return false;
        }
    }
    true
}
