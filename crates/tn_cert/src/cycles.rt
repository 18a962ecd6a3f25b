//! Claims that nodes go round on arcs of the exchange graph.

ghost use Rattle.std.specs.Prelude.{◌≡◌, ◌+◌, ◌<◌, ◌≤◌, IfOk, length, map};
ghost use Rattle.tn_said.specs.Claim.{on_market};
ghost use Rattle.tn_said.specs.ClaimLimits.{AreNodesWithin};
ghost use Rattle.tn_market.specs.Limits.{IsWithinLimits};
ghost use Rattle.tn_cert.specs.Limits.{most_claimed_trades};
ghost use Rattle.tn_cert.specs.Claims.{node_of};
ghost use Rattle.tn_cert.specs.Reasons.{arc_after};
ghost use Rattle.tn_cert.specs.Replays.{Replays, Rounds};
ghost use Rattle.tn_market.specs.NetworkOf.{network_of};

use crate::replayed::Replayed;
use std::alloc::Global;
use tn_base::{Costs, OutOfMemory, Steps, TradeSet};
use tn_graph::Graph;
use tn_market::{Market, Nodes, Oracle};
use tn_price::first_unable;
use tn_said::{MarketClaim, Reason};

/// The number of a node: null is the node after all trades.
fn node_of(node: Option<u32>, null: u32) -> u32
    ensures { result ≡ node_of null node }
{
    match node {
        Some(t) => t,
        None => null,
    }
}

/// The cost of the arc from the `k`-th of the nodes to the one after it, and from the last one to the first. None where
/// there is no arc.
fn arc_after<C: Costs>(costs: &C, nodes: &Nodes, null: u32, k: usize) -> Option<i128>
    requires last { C.node_count costs.now ≡ null + 1 }
    requires nodes { AreNodesWithin null nodes.now }
    requires within { k < length nodes.now }
    ensures { result ≡ arc_after (C.arc costs.now) (map (node_of null) nodes.now) k }
{
    let next = if k + 1 == nodes.len() { 0 } else { k + 1 };
    costs.cost(node_of(nodes.at(k), null), node_of(nodes.at(next), null))
}

/// What it costs to go through the nodes and back to the first, or else the index of the first node without an arc to
/// the one after it.
fn go_round<C: Costs>(costs: &C, nodes: &Nodes, null: u32) -> Result<i128, u32>
    requires last { C.node_count costs.now ≡ null + 1 }
    requires nodes { AreNodesWithin null nodes.now }
    ensures { Rounds (C.arc costs.now) (map (node_of null) nodes.now) result }
{
    let mut total = 0;
    for k in 0..nodes.len() {
        match arc_after(costs, nodes, null, k) {
            Some(cost) => total += cost,
            None => return Err(k as u32),
        }
    }
    Ok(total)
}

/// Whether the nodes go round at this cost, and that is below 0, or the first condition that fails.
pub(crate) fn replay_cycle<V: Oracle>(
    alloc: Global,
    market: &Market<V>,
    on: &TradeSet<16>,
    nodes: &Nodes,
    cost: i128,
    steps: &mut Steps<V::Mark>,
) -> Result<Replayed, OutOfMemory>
    requires limits { IsWithinLimits V.firm V.limit market.now }
    requires few_trades { length market.now.trades ≤ most_claimed_trades }
    requires nodes { AreNodesWithin (length market.now.trades) nodes.now }
    ensures { IfOk result (network_of V.firm market.now Replays (on_market (MarketClaim.Cycle on.now nodes.now cost))) }
{
    if let Some(firm) = first_unable(market, on, steps) {
        return Ok(Replayed::Invalid(Reason::Impossible { firm }));
    }
    let null = market.trades();
    let mut graph = Graph::new(alloc, null + 1)?;
    graph.fill(market, on, steps);
    match go_round(&graph, nodes, null) {
        Err(index) => Ok(Replayed::Invalid(Reason::Arc { index })),
        Ok(actual) => {
            if actual < 0 && actual == cost {
                Ok(Replayed::Valid)
            } else {
                Ok(Replayed::Invalid(Reason::Cost { cost: actual }))
            }
        }
    }
}
