//! Prices for a set of trades.

ghost use Rattle.std.specs.Prelude.{◌≡◌, ℕ, ◌+◌, ◌*◌, ◌≤◌, ◌<◌, ◌-ℤ◌, length, map, slice_get, Some, IfOk, is_none};
ghost use Rattle.tn_base.specs.Arcs.{IsAtMost};
ghost use Rattle.tn_base.specs.Firm.{Firm};
ghost use Rattle.tn_base.specs.Widths.{most_cost};
ghost use Rattle.tn_cycle.specs.Answers.{label_in};
ghost use Rattle.tn_cycle.specs.Widths.{most_read};
ghost use Rattle.tn_model.specs.Prices.{price_at};
ghost use Rattle.tn_market.specs.Limits.{AreWorthsWithin};
ghost use Rattle.tn_market.specs.Graph.{graph_worths, ArePossible};
ghost use Rattle.tn_market.specs.Widths.{most_market_trades};
ghost use Rattle.tn_model.specs.Network.{part};
ghost use Rattle.tn_price.specs.Supports.{Supports, FindsUnable, IsPricedWithin};
ghost use Rattle.tn_market.specs.NetworkOf.{network_of};

use crate::supported::Support;
use crate::surplus::worth_at;
use std::alloc::Global;
use tn_base::{OutOfMemory, Steps, TradeSet};
use tn_cycle::{Finder, Labels, write_differences};
use tn_graph::Graph;
use tn_market::{Market, Prices, Valuation, said_nodes};

/// Whether firm `f` can't have its bundle of the set. It asks for one worth.
fn is_unable<V: Valuation, const W: usize>(
    market: &Market<V>,
    on: &TradeSet<W>,
    f: u32,
    steps: &mut Steps<V::Mark>,
) -> bool
    requires wide { length market.now.trades ≤ 64 * W }
    requires firm { f < length market.now.firms }
    ensures found { (firm : Firm) → slice_get (map V.firm market.now.firms) f ≡ Some firm
        → result ≡ is_none (firm.worth (part market.now.trades f firm.count on.now)) }
    ensures asked { steps.new ≡ steps.old + 1 }
{
    worth_at(market, on, f, steps).is_none()
}

/// The first firm whose bundle of the set is impossible, if there is one. It asks each firm for one worth at most. The
/// market has at most `64 * W` trades.
pub fn first_unable<V: Valuation, const W: usize>(
    market: &Market<V>,
    on: &TradeSet<W>,
    steps: &mut Steps<V::Mark>,
) -> Option<u32>
    requires wide { length market.now.trades ≤ 64 * W }
    ensures found { network_of V.firm market.now FindsUnable on.now result }
    ensures asked { steps.new ≤ steps.old + length market.now.firms }
{
    for f in 0..market.firms() {
        if is_unable(market, on, f, steps) {
            return Some(f);
        }
    }
    None
}

/// The prices that the labels of a finder are. It fails only where memory runs out.
fn prices_from(alloc: Global, finder: &Finder, trades: u32) -> Result<Prices, OutOfMemory>
    requires few { trades ≤ most_market_trades }
    requires labelled { length finder.now.labels ≡ trades + 1 }
    requires small { (v : ℕ) → v < length finder.now.labels → IsAtMost (label_in finder.now.labels v) most_read }
    ensures one_each { IfOk result (λ prices. length prices ≡ trades) }
    ensures each { IfOk result (λ prices. (t : ℕ) → t < trades
        → price_at prices t ≡ label_in finder.now.labels t -ℤ label_in finder.now.labels trades) }
{
    let mut prices = vec![in alloc; 0; trades as usize]?;
    write_differences(finder, &mut prices, trades);
    Ok(Prices::from_vec(prices))
}

/// What the labels of the exchange graph say, where all bundles are possible.
fn support_by_labels<V: Valuation, const W: usize>(
    alloc: Global,
    market: &Market<V>,
    on: &TradeSet<W>,
    steps: &mut Steps<V::Mark>,
) -> Result<Support, OutOfMemory>
    requires wide { length market.now.trades ≤ 64 * W }
    requires small { (f : ℕ) (v : V) → slice_get market.now.firms f ≡ Some v → 2 * V.limit v ≤ most_cost }
    requires possible { network_of V.firm market.now ArePossible on.now }
    ensures answer { IfOk result (network_of V.firm market.now Supports on.now) }
    ensures prices { (bound : ℕ) → AreWorthsWithin bound (map V.firm market.now.firms)
        → IfOk result (IsPricedWithin (2 * bound * length market.now.trades)) }
    ensures asked { steps.new ≤ steps.old + graph_worths (map V.firm market.now.firms) }
{
    let trades = market.trades();
    let mut graph = Graph::new(alloc, trades + 1)?;
    let mut finder = Finder::new(alloc, trades + 1)?;
    graph.fill(market, on, steps);
    match finder.labels(&graph) {
        Labels::Feasible => Ok(Support::Supported {
            prices: prices_from(alloc, &finder, trades)?,
        }),
        Labels::Negative { cost, .. } => Ok(Support::Cycle {
            nodes: said_nodes(alloc, finder.listed(), trades)?,
            cost,
        }),
    }
}

/// Prices that support a set of trades, exactly where there are any: with them each firm's bundle of the set is best.
/// Otherwise the first firm whose bundle is impossible; or, where all are possible, a cycle of the exchange graph of
/// negative cost (Candogan, Epitropou and Vohra, 2021). It asks for at most two worths for each two places of each
/// firm, and fails only where memory runs out. The market has at most `64 * W` trades, and twice the bound of each firm
/// is at most 10^18.
pub fn support<V: Valuation, const W: usize>(
    alloc: Global,
    market: &Market<V>,
    on: &TradeSet<W>,
    steps: &mut Steps<V::Mark>,
) -> Result<Support, OutOfMemory>
    requires wide { length market.now.trades ≤ 64 * W }
    requires small { (f : ℕ) (v : V) → slice_get market.now.firms f ≡ Some v → 2 * V.limit v ≤ most_cost }
    ensures answer { IfOk result (network_of V.firm market.now Supports on.now) }
    ensures prices { (bound : ℕ) → AreWorthsWithin bound (map V.firm market.now.firms)
        → IfOk result (IsPricedWithin (2 * bound * length market.now.trades)) }
    ensures asked { steps.new ≤ steps.old + 2 * graph_worths (map V.firm market.now.firms) }
{
    match first_unable(market, on, steps) {
        Some(firm) => Ok(Support::Impossible { firm }),
        None => support_by_labels(alloc, market, on, steps),
    }
}
