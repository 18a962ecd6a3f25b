//! A chain of contracts that blocks an outcome.

ghost use Rattle.std.specs.Prelude.{◌≡◌, ℕ, ◌+◌, ◌*◌, ◌-◌, ◌≤◌, ◌<◌, ℤ, length, map, IfOk};
ghost use Rattle.tn_base.specs.Sets.{size};
ghost use Rattle.tn_base.specs.Walks.{KeepsArcs, arcs_among, is_admitted};
ghost use Rattle.tn_chain.specs.Limits.{most_judged_trades};
ghost use Rattle.tn_chain.specs.Search.{HasCycle, IsBlockingChain, IsResidual, IsSolvedAmong, chain_scale};
ghost use Rattle.tn_cycle.specs.Answers.{IsNegative};
ghost use Rattle.tn_graph.specs.Blocks.{arcs_of};
ghost use Rattle.tn_graph.specs.Reading.{IsExchangeGraph};
ghost use Rattle.tn_model.specs.Choices.{IsIndividuallyRational};
ghost use Rattle.tn_market.specs.Limits.{IsOutcomeOf, IsWithinLimits};
ghost use Rattle.tn_model.specs.Network.{IsNetwork};
ghost use Rattle.tn_market.specs.Reduced.{reduced_firms};
ghost use Rattle.tn_market.specs.Signed.{Completes};
ghost use Rattle.tn_outcome_laws.specs.Rational.{IsRationalOutcome};
ghost use Rattle.tn_residual.specs.Residual.{unsigned};
ghost use Rattle.tn_market.specs.NetworkOf.{network_of};

use crate::cycle::{contracts_at, first_trade, listed_trades};
use crate::graph::reduced_graph;
use crate::numbers::{add_numbers, numbers_of, trades_numbered, unsigned_trades};
use std::alloc::Global;
use tn_base::{OutOfMemory, Steps, TradeSet};
use tn_cycle::{Admitted, Finder, Labels};
use tn_flow::Solver;
use tn_graph::Graph;
use tn_market::{Contracts, Market, Oracle, Outcome, Party, Valuation};
use tn_residual::residual;

/// Lists a negative cycle of the reduced graph on some trades, and answers how many nodes it has.
fn find_cycle(finder: &mut Finder, graph: &Graph, null: u32, left: &TradeSet<16>) -> u32
    requires few { null ≤ most_judged_trades }
    requires graph_sized { graph.now.nodes ≡ null + 1 }
    requires finder_sized { finder.old.nodes ≡ null + 1 }
    requires broken { (label : ℕ → ℤ) → KeepsArcs (arcs_among (is_admitted null left.now) (arcs_of graph.now)) label
        → ⊥ }
    ensures cycle { (cost : ℤ)
        × IsNegative (null + 1) (arcs_among (is_admitted null left.now) (arcs_of graph.now)) finder.new.listed cost
        result }
    ensures sized { finder.new.nodes ≡ null + 1 }
{
    let among = Admitted {
        costs: graph,
        null,
        admitted: left,
    };
    match finder.labels(&among) {
        Labels::Negative { length, .. } => length,
        Labels::Feasible => unreachable!(),
    }
}

/// Solves the residual market with some unsigned trades and all halves admitted.
fn solve_among<'a, V: Oracle>(
    market: &Market<V>,
    outcome: &Outcome,
    residual: &Market<Party<'a, V>>,
    free: u32,
    allowed: &TradeSet<16>,
    solver: &mut Solver<32>,
    steps: &mut Steps<V::Mark>,
)
    requires limits { IsWithinLimits V.firm V.limit market.now }
    requires few { length market.now.trades ≤ most_judged_trades }
    requires outcome { IsOutcomeOf market.now.trades outcome.now.over outcome.now.contracts }
    requires network { network_of V.firm market.now IsNetwork }
    requires residual { network_of V.firm market.now
        (IsResidual ⟦<Party<'a, V> as Valuation>⟧.firm ⟦<Party<'a, V> as Valuation>⟧.limit)
        outcome.now.over outcome.now.contracts residual.now }
    requires free { free ≡ size (unsigned (length market.now.trades) outcome.now.contracts) }
    requires made_for { length solver.old.prices ≡ length residual.now.trades }
    ensures solved { network_of V.firm market.now IsSolvedAmong outcome.now.over outcome.now.contracts allowed.now
        solver.new }
{
    let count = market.trades();
    let mut numbers = numbers_of(&outcome.contracts, count, allowed);
    add_numbers(&mut numbers, free, residual.trades());
    solver.solve_among(residual, &numbers, steps);
}

/// Searches for a chain that blocks, among the unsigned trades: takes a negative cycle of the reduced graph, and solves
/// the residual market on its trades. Where all of them are on, they are the chain. Otherwise those that are on have a
/// negative cycle again, and are fewer. It fails only where memory runs out.
fn search<'a, V: Oracle>(
    alloc: Global,
    market: &Market<V>,
    outcome: &Outcome,
    residual: &Market<Party<'a, V>>,
    graph: &Graph,
    finder: &mut Finder,
    solver: &mut Solver<32>,
    steps: &mut Steps<V::Mark>,
) -> Result<Contracts, OutOfMemory>
    requires limits { IsWithinLimits V.firm V.limit market.now }
    requires few { length market.now.trades ≤ most_judged_trades }
    requires outcome { IsOutcomeOf market.now.trades outcome.now.over outcome.now.contracts }
    requires rational { network_of V.firm market.now IsRationalOutcome outcome.now.over outcome.now.contracts }
    requires residual { network_of V.firm market.now
        (IsResidual ⟦<Party<'a, V> as Valuation>⟧.firm ⟦<Party<'a, V> as Valuation>⟧.limit)
        outcome.now.over outcome.now.contracts residual.now }
    requires graph { IsExchangeGraph (reduced_firms market.now.trades outcome.now.over outcome.now.contracts
        (map V.firm market.now.firms)) market.now.trades 0 graph.now }
    requires finder_sized { finder.old.nodes ≡ length market.now.trades + 1 }
    requires made_for { length solver.old.prices ≡ length residual.now.trades }
    requires broken { network_of V.firm market.now HasCycle outcome.now.over outcome.now.contracts
        (unsigned (length market.now.trades) outcome.now.contracts) }
    ensures { IfOk result (network_of V.firm market.now IsBlockingChain outcome.now.over outcome.now.contracts) }
{
    let null = market.trades();
    let mut left = unsigned_trades(&outcome.contracts, null);
    let free = left.count();
    // Each turn but the last leaves fewer trades: so this ends.
    loop {
        let count = find_cycle(finder, graph, null, &left);
        let cycle = listed_trades(finder, count, null);
        solve_among(market, outcome, residual, free, &cycle, solver, steps);
        let on = trades_numbered(&outcome.contracts, null, solver.on());
        if on == cycle {
            let first = first_trade(finder, null);
            return contracts_at(alloc, finder, first, count, solver, &outcome.contracts);
        }
        left = on;
    }
}

/// Makes room for that search, of the residual market and the reduced graph, and searches. It fails only where memory
/// runs out.
fn search_in_room<'a, V: Oracle>(
    alloc: Global,
    market: &Market<V>,
    outcome: &Outcome,
    residual: &Market<Party<'a, V>>,
    graph: &Graph,
    steps: &mut Steps<V::Mark>,
) -> Result<Contracts, OutOfMemory>
    requires limits { IsWithinLimits V.firm V.limit market.now }
    requires few { length market.now.trades ≤ most_judged_trades }
    requires outcome { IsOutcomeOf market.now.trades outcome.now.over outcome.now.contracts }
    requires rational { network_of V.firm market.now IsIndividuallyRational outcome.now.over outcome.now.contracts }
    requires residual { network_of V.firm market.now
        (IsResidual ⟦<Party<'a, V> as Valuation>⟧.firm ⟦<Party<'a, V> as Valuation>⟧.limit)
        outcome.now.over outcome.now.contracts residual.now }
    requires graph { IsExchangeGraph (reduced_firms market.now.trades outcome.now.over outcome.now.contracts
        (map V.firm market.now.firms)) market.now.trades 0 graph.now }
    requires incomplete { (prices : ℕ → ℤ)
        → network_of V.firm market.now Completes outcome.now.over outcome.now.contracts prices → ⊥ }
    ensures { IfOk result (network_of V.firm market.now IsBlockingChain outcome.now.over outcome.now.contracts) }
{
    let mut finder = Finder::new(alloc, market.trades() + 1)?;
    let mut solver = Solver::with_room(alloc, residual)?;
    search(
        alloc,
        market,
        outcome,
        residual,
        graph,
        &mut finder,
        &mut solver,
        steps,
    )
}

/// Twice the number of unsigned trades, and one: the scale at which the taxes on a chain are less than a whole number.
/// It takes no memory.
pub fn chain_scale(contracts: &Contracts, count: u32) -> i128
    requires few { count ≤ most_judged_trades }
    ensures { result ≡ chain_scale count contracts.now }
{
    let free = unsigned_trades(contracts, count).count();
    i128::from(2 * free + 1)
}

/// The residual market of an outcome at that scale with a tax of 1. It fails only where memory runs out.
fn taxed_residual<'a, V: Oracle>(
    alloc: Global,
    market: &'a Market<V>,
    outcome: &Outcome,
) -> Result<Market<Party<'a, V>>, OutOfMemory>
    requires limits { IsWithinLimits V.firm V.limit market.now }
    requires few { length market.now.trades ≤ most_judged_trades }
    requires outcome { IsOutcomeOf market.now.trades outcome.now.over outcome.now.contracts }
    ensures { IfOk result
        (network_of V.firm market.now
        (IsResidual ⟦<Party<'a, V> as Valuation>⟧.firm ⟦<Party<'a, V> as Valuation>⟧.limit)
        outcome.now.over outcome.now.contracts) }
{
    let scale = chain_scale(&outcome.contracts, market.trades());
    residual(alloc, market, outcome, scale, 1)
}

/// A chain of contracts that blocks an individually rational outcome which no prices complete: contracts on unsigned
/// trades, over the outcome's denominator times twice the number of unsigned trades and one, each of whose buyers is
/// the seller of the next. Each price is below 10^18 in size. It fails only where memory runs out (Hatfield, Kominers,
/// Nichifor, Ostrovsky and Westkamp, "Chain stability in trading networks", 2021). The limits of firms and outcomes
/// hold, so there are at most 1,024 trades.
pub fn chain_of<V: Oracle>(
    alloc: Global,
    market: &Market<V>,
    outcome: &Outcome,
    steps: &mut Steps<V::Mark>,
) -> Result<Contracts, OutOfMemory>
    requires limits { IsWithinLimits V.firm V.limit market.now }
    requires few { length market.now.trades ≤ most_judged_trades }
    requires outcome { IsOutcomeOf market.now.trades outcome.now.over outcome.now.contracts }
    requires rational { network_of V.firm market.now IsIndividuallyRational outcome.now.over outcome.now.contracts }
    requires incomplete { (prices : ℕ → ℤ)
        → network_of V.firm market.now Completes outcome.now.over outcome.now.contracts prices → ⊥ }
    ensures { IfOk result (network_of V.firm market.now IsBlockingChain outcome.now.over outcome.now.contracts) }
{
    let residual = taxed_residual(alloc, market, outcome)?;
    let graph = reduced_graph(alloc, market, outcome)?;
    search_in_room(alloc, market, outcome, &residual, &graph, steps)
}
