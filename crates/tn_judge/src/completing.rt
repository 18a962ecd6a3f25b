//! Prices that complete an outcome.

ghost use Rattle.std.specs.Prelude.{◌≡◌, ℕ, ◌+◌, ◌≤◌, ◌<◌, ◌-ℤ◌, if◌then◌else◌, true, length, map, IfOk};
ghost use Rattle.tn_base.specs.Arcs.{IsAtMost};
ghost use Rattle.tn_chain.specs.Limits.{most_judged_trades};
ghost use Rattle.tn_cycle.specs.Answers.{label_in};
ghost use Rattle.tn_graph.specs.Reading.{IsExchangeGraph};
ghost use Rattle.tn_judge.specs.Completion.{AnswersCompletion, ArePricesTo};
ghost use Rattle.tn_judge.specs.Fixing.{ArePriced};
ghost use Rattle.tn_judge.specs.Limits.{most_fixed_label};
ghost use Rattle.tn_market.specs.Graph.{ArePossible, graph_worths};
ghost use Rattle.tn_market.specs.Limits.{IsOutcomeOf, IsWithinLimits};
ghost use Rattle.tn_market.specs.Signed.{is_signed, signed, signed_price};
ghost use Rattle.tn_market.specs.NetworkOf.{network_of};

use crate::fixed::Fixed;
use std::alloc::Global;
use tn_base::{OutOfMemory, Steps, TradeSet};
use tn_cycle::{Finder, Labels};
use tn_graph::Graph;
use tn_market::{Contracts, Market, Oracle, Outcome, Prices, Valuation};
use tn_price::first_unable;
use tn_residual::{contract_price, signed_trades};

/// The difference of two labels.
fn difference(label: i128, null: i128) -> i128
    requires label { IsAtMost label most_fixed_label }
    requires null { IsAtMost null most_fixed_label }
    ensures { result ≡ label -ℤ null }
{
    label - null
}

/// The price of a trade: that of its contract, and for an unsigned trade its label less null's.
fn completing_price(finder: &Finder, contracts: &Contracts, t: u32, null: u32) -> i128
    requires node { t < length finder.now.labels }
    requires last { null < length finder.now.labels }
    requires small { (v : ℕ) → v < length finder.now.labels → IsAtMost (label_in finder.now.labels v) most_fixed_label }
    ensures { result ≡ (if is_signed contracts.now t then signed_price contracts.now t
        else label_in finder.now.labels t -ℤ label_in finder.now.labels null) }
{
    match contract_price(contracts, t) {
        Some(price) => price,
        None => difference(finder.label(t), finder.label(null)),
    }
}

/// The prices of the first `count` trades, which null follows. It fails only where memory runs out.
fn completing_prices(
    alloc: Global,
    finder: &Finder,
    contracts: &Contracts,
    count: u32,
) -> Result<Prices, OutOfMemory>
    requires labelled { length finder.now.labels ≡ count + 1 }
    requires small { (v : ℕ) → v < length finder.now.labels → IsAtMost (label_in finder.now.labels v) most_fixed_label }
    ensures { IfOk result (ArePricesTo contracts.now finder.now.labels count count) }
{
    let mut prices = Vec::with_capacity(alloc, count as usize)?;
    for t in 0..count {
        prices.push(completing_price(finder, contracts, t, count))?;
    }
    Ok(Prices::from_vec(prices))
}

/// The price of each of the first `nodes` nodes: that of its contract, None where there is none. It fails only where
/// memory runs out.
fn node_prices(
    alloc: Global,
    contracts: &Contracts,
    nodes: u32,
) -> Result<Vec<Option<i128>>, OutOfMemory>
    requires known { (t : ℕ) → is_signed contracts.now t ≡ true → t < nodes }
    ensures { IfOk result (λ prices. ArePriced contracts.now nodes prices.items) }
{
    let mut prices = Vec::with_capacity(alloc, nodes as usize)?;
    for v in 0..nodes {
        prices.push(contract_price(contracts, v))?;
    }
    Ok(prices)
}

/// Prices that complete an outcome, None exactly where there are none, by labels of the exchange graph at its signed
/// trades with their prices fixed. It fails only where memory runs out.
fn completion_by_labels<V: Oracle>(
    alloc: Global,
    market: &Market<V>,
    outcome: &Outcome,
    graph: &Graph,
) -> Result<Option<Prices>, OutOfMemory>
    requires limits { IsWithinLimits V.firm V.limit market.now }
    requires outcome { IsOutcomeOf market.now.trades outcome.now.over outcome.now.contracts }
    requires possible { network_of V.firm market.now ArePossible
        (signed (length market.now.trades) outcome.now.contracts) }
    requires graph { network_of V.firm market.now IsExchangeGraph
        (signed (length market.now.trades) outcome.now.contracts) graph.now }
    ensures { IfOk result (network_of V.firm market.now AnswersCompletion outcome.now.over outcome.now.contracts) }
{
    let null = market.trades();
    let prices = node_prices(alloc, &outcome.contracts, null + 1)?;
    let fixed = Fixed {
        graph,
        over: outcome.over,
        null,
        prices: &prices,
    };
    let mut finder = Finder::new(alloc, null + 1)?;
    match finder.labels(&fixed) {
        Labels::Feasible => {
            let prices = completing_prices(alloc, &finder, &outcome.contracts, null)?;
            Ok(Some(prices))
        }
        Labels::Negative { .. } => Ok(None),
    }
}

/// Prices that complete an outcome, None exactly where there are none. It asks for no best bundle, and for at most
/// a worth of each firm and one for each two of its places; it fails only where memory runs out. The limits of
/// firms and outcomes hold, so there are at most 1,024 trades.
pub fn completion<V: Oracle>(
    alloc: Global,
    market: &Market<V>,
    outcome: &Outcome,
    steps: &mut Steps<V::Mark>,
) -> Result<Option<Prices>, OutOfMemory>
    requires limits { IsWithinLimits V.firm V.limit market.now }
    requires few { length market.now.trades ≤ most_judged_trades }
    requires outcome { IsOutcomeOf market.now.trades outcome.now.over outcome.now.contracts }
    ensures answer { IfOk result (network_of V.firm market.now AnswersCompletion outcome.now.over
        outcome.now.contracts) }
    ensures asked { steps.new ≤ steps.old + length market.now.firms + graph_worths (map V.firm market.now.firms) }
{
    let trades = market.trades();
    let signed: TradeSet<16> = signed_trades(&outcome.contracts, trades);
    match first_unable(market, &signed, steps) {
        Some(_) => Ok(None),
        None => {
            let mut graph = Graph::new(alloc, trades + 1)?;
            graph.fill(market, &signed, steps);
            completion_by_labels(alloc, market, outcome, &graph)
        }
    }
}
