//! The exchange graph of the reduced worths, where no unsigned trade is on.

ghost use Rattle.std.specs.Prelude.{◌≡◌, ◌+◌, ◌^◌, ◌≤◌, ◌<◌, IfOk, IfSome, Some, length, map, slice_get};
ghost use Rattle.tn_base.specs.Arcs.{AreSmall};
ghost use Rattle.tn_base.specs.Sets.{has};
ghost use Rattle.tn_chain.specs.Limits.{most_reduced_cost};
ghost use Rattle.tn_chain.specs.Kept.{AreKept, IsKept};
ghost use Rattle.tn_chain.specs.Moves.{AreWritten, move_between};
ghost use Rattle.tn_graph.specs.Blocks.{arcs_of};
ghost use Rattle.tn_graph.specs.Layout.{IsLaidOut};
ghost use Rattle.tn_graph.specs.Reading.{IsExchangeGraph};
ghost use Rattle.tn_market.specs.Limits.{IsOutcomeOf, IsWithinLimits};
ghost use Rattle.tn_market.specs.Graph.{loss};
ghost use Rattle.tn_model.specs.Network.{IsNetwork};
ghost use Rattle.tn_market.specs.Reduced.{reduced, reduced_arc, reduced_firms};
ghost use Rattle.tn_market.specs.NetworkOf.{network_of};

use crate::kept::{Kept, all_kept, kept_of};
use std::alloc::Global;
use tn_base::{Bundle, Costs, OutOfMemory, TradeSet};
use tn_graph::Graph;
use tn_market::{Ends, Market, Oracle, Outcome, Valuation};
use tn_residual::reduced_best_beside;

/// The ends of a node, None for the null node.
fn ends_of<V: Valuation>(market: &Market<V>, node: u32) -> Option<Ends>
    ensures ends { result ≡ slice_get market.now.trades node }
    ensures positions { IfSome result (λ ends. (ends.at_seller < 64) × (ends.at_buyer < 64)) }
{
    if node < market.trades() {
        Some(market.ends(node))
    } else {
        None
    }
}

/// The firm that buys the one trade and sells the other, with the bundle of the two; either may be null.
fn move_between(bought: Option<Ends>, sold: Option<Ends>) -> Option<(u32, Bundle)>
    requires bought { IfSome bought (λ ends. ends.at_buyer < 64) }
    requires sold { IfSome sold (λ ends. ends.at_seller < 64) }
    ensures { result ≡ move_between bought sold }
{
    match (bought, sold) {
        (Some(bought), Some(sold)) => {
            if bought.buyer == sold.seller {
                let bundle = Bundle::empty().toggle(bought.at_buyer);
                Some((bought.buyer, bundle.toggle(sold.at_seller)))
            } else {
                None
            }
        }
        (Some(bought), None) => Some((bought.buyer, Bundle::empty().toggle(bought.at_buyer))),
        (None, Some(sold)) => Some((sold.seller, Bundle::empty().toggle(sold.at_seller))),
        (None, None) => None,
    }
}

/// What firm `f` loses of its reduced worth where it has a bundle in place of none, by what it keeps: None where the
/// bundle has signed trades or is impossible.
fn reduced_loss<V: Oracle>(
    market: &Market<V>,
    outcome: &Outcome,
    kept: &Kept,
    f: u32,
    bundle: Bundle,
) -> Option<i128>
    requires limits { IsWithinLimits V.firm V.limit market.now }
    requires outcome { IsOutcomeOf market.now.trades outcome.now.over outcome.now.contracts }
    requires firm { f < length market.now.firms }
    requires own { (v : V) → slice_get market.now.firms f ≡ Some v → bundle < 2 ^ (V.firm v).count }
    requires kept { (v : V) → slice_get market.now.firms f ≡ Some v
        → IsKept market.now.trades outcome.now.over outcome.now.contracts f (V.firm v) kept.now }
    ensures loss { (v : V) → slice_get market.now.firms f ≡ Some v
        → result ≡ loss (reduced market.now.trades outcome.now.over outcome.now.contracts f (V.firm v)) 0 bundle }
{
    if bundle.meet(kept.held.signed) != Bundle::empty() {
        return None;
    }
    let before = kept.worth?;
    let (_, after) = reduced_best_beside(market, f, outcome, &kept.held, bundle)?;
    Some(before - after)
}

/// The cost of the arc from node `u` to node `v`, by what firms keep.
fn reduced_cost<V: Oracle>(
    market: &Market<V>,
    outcome: &Outcome,
    kept: &[Kept],
    u: u32,
    v: u32,
) -> Option<i128>
    requires network { network_of V.firm market.now IsNetwork }
    requires limits { IsWithinLimits V.firm V.limit market.now }
    requires outcome { IsOutcomeOf market.now.trades outcome.now.over outcome.now.contracts }
    requires kept { network_of V.firm market.now AreKept outcome.now.over outcome.now.contracts kept.now }
    requires from { u ≤ length market.now.trades }
    requires to { v ≤ length market.now.trades }
    ensures cost { result ≡ network_of V.firm market.now reduced_arc outcome.now.over outcome.now.contracts u v }
{
    match move_between(ends_of(market, u), ends_of(market, v)) {
        Some(moved) => {
            let before = kept_of(kept, moved.0);
            reduced_loss(market, outcome, before, moved.0, moved.1)
        }
        None => None,
    }
}

/// Writes the costs of the arcs from node `u`, which lead to nodes of one firm's block alone.
fn write_row<V: Oracle>(
    graph: &mut Graph,
    market: &Market<V>,
    outcome: &Outcome,
    kept: &[Kept],
    u: u32,
)
    requires network { network_of V.firm market.now IsNetwork }
    requires limits { IsWithinLimits V.firm V.limit market.now }
    requires outcome { IsOutcomeOf market.now.trades outcome.now.over outcome.now.contracts }
    requires kept { network_of V.firm market.now AreKept outcome.now.over outcome.now.contracts kept.now }
    requires from { u ≤ length market.now.trades }
    requires laid_out { IsLaidOut market.now.trades (has 0) graph.old.places }
    requires written { AreWritten (network_of V.firm market.now reduced_arc outcome.now.over outcome.now.contracts)
        (length market.now.trades + 1) u graph.old }
    ensures laid_out { IsLaidOut market.now.trades (has 0) graph.new.places }
    ensures written { AreWritten (network_of V.firm market.now reduced_arc outcome.now.over outcome.now.contracts)
        (length market.now.trades + 1) (u + 1) graph.new }
{
    for k in 0..graph.successors(u) {
        let v = graph.successor(u, k);
        let cost = reduced_cost(market, outcome, kept, u, v);
        graph.set(u, v, cost);
    }
}

/// The exchange graph of an outcome's reduced worths, where no unsigned trade is on: trade t is node t, and the null
/// node is the last one. No cost is above 3.68 * 10^13 in size. It fails only where memory runs out. The limits of
/// firms and outcomes hold.
pub fn reduced_graph<V: Oracle>(
    alloc: Global,
    market: &Market<V>,
    outcome: &Outcome,
) -> Result<Graph, OutOfMemory>
    requires limits { IsWithinLimits V.firm V.limit market.now }
    requires outcome { IsOutcomeOf market.now.trades outcome.now.over outcome.now.contracts }
    ensures graph { IfOk result
        (IsExchangeGraph (reduced_firms market.now.trades outcome.now.over outcome.now.contracts
        (map V.firm market.now.firms)) market.now.trades 0) }
    ensures small { IfOk result (λ graph. AreSmall (arcs_of graph) most_reduced_cost) }
{
    let nodes = market.trades() + 1;
    let mut graph = Graph::new(alloc, nodes)?;
    graph.lay_out(market, &TradeSet::<32>::empty());
    let kept = all_kept(alloc, market, outcome)?;
    for u in 0..nodes {
        write_row(&mut graph, market, outcome, &kept, u);
    }
    Ok(graph)
}
