//! The surplus of a set of trades.

ghost use Rattle.std.specs.Prelude.{◌≡◌, ◌+◌, ◌*◌, ◌<◌, ◌≤◌, Some, length, map, slice_get, IfSome};
ghost use Rattle.tn_base.specs.Arcs.{IsAtMost};
ghost use Rattle.tn_base.specs.Firm.{Firm};
ghost use Rattle.tn_market.specs.Equilibrium.{surplus_of};
ghost use Rattle.tn_market.specs.Widths.{most_limit};
ghost use Rattle.tn_model.specs.Network.{part};
ghost use Rattle.tn_market.specs.NetworkOf.{network_of};

use tn_base::{Steps, TradeSet};
use tn_market::{Market, Valuation};

/// The worth of the bundle that firm `f` has of a set of trades, None where it is impossible. The market has at most
/// `64 * W` trades.
pub fn worth_at<V: Valuation, const W: usize>(
    market: &Market<V>,
    on: &TradeSet<W>,
    f: u32,
    steps: &mut Steps<V::Mark>,
) -> Option<i128>
    requires wide { length market.now.trades ≤ 64 * W }
    requires firm { f < length market.now.firms }
    ensures worth { (firm : Firm) → slice_get (map V.firm market.now.firms) f ≡ Some firm
        → result ≡ firm.worth (part market.now.trades f firm.count on.now) }
    ensures small { IfSome result (λ worth. IsAtMost worth most_limit) }
    ensures asked { steps.new ≡ steps.old + 1 }
{
    let bundle = market.bundle_of(f, on);
    market.firm(f).value(bundle, steps)
}

/// The surplus of a set of trades: the sum of the firms' worths, None where the bundle of a firm is impossible. It asks
/// each firm for one worth at most, and takes no memory. The market has at most `64 * W` trades.
pub fn surplus_of<V: Valuation, const W: usize>(
    market: &Market<V>,
    on: &TradeSet<W>,
    steps: &mut Steps<V::Mark>,
) -> Option<i128>
    requires wide { length market.now.trades ≤ 64 * W }
    ensures surplus { result ≡ network_of V.firm market.now surplus_of on.now }
    ensures asked { steps.new ≤ steps.old + length market.now.firms }
{
    let mut surplus = 0;
    for f in 0..market.firms() {
        match worth_at(market, on, f, steps) {
            Some(worth) => surplus += worth,
            None => return None,
        }
    }
    Some(surplus)
}
