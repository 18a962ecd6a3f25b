//! The solver.

ghost use Rattle.std.specs.Prelude.{◌≡◌, ℕ, ◌+◌, ◌-◌, ◌*◌, ◌≤◌, ◌<◌, pos, true, Some, length, map, slice_get, IfOk};
ghost use Rattle.tn_base.specs.Sets.{has, set_of};
ghost use Rattle.tn_base.specs.Widths.{most_cost, most_limbs};
ghost use Rattle.tn_model.specs.Prices.{price_at};
ghost use Rattle.tn_market.specs.Equilibrium.{IsEquilibrium};
ghost use Rattle.tn_market.specs.Graph.{graph_worths};
ghost use Rattle.tn_market.specs.Limits.{AreWorthsWithin};
ghost use Rattle.tn_flow.specs.Solved.{AreSmallPrices, IsSolution, IsUnsolved};
ghost use Rattle.tn_market.specs.NetworkOf.{network_of};

use crate::rounds::Rounds;
use std::alloc::Global;
use std::marker::Model;
use tn_base::{OutOfMemory, Steps, TradeSet};
use tn_cycle::write_differences;
use tn_market::{Market, Valuation};

/// Finds an equilibrium, by admitting one trade after another. All memory is taken in `with_room`.
///
/// Contracts see how many trades there is room for, the trades that are on, and a price for each trade.
#[derive(Drop)]
pub struct Solver<const W: usize> {
    rounds: Rounds<W>,
    prices: Vec<i128>,
}

impl<const W: usize> Model for Solver<W> {
    ghost use Rattle.tn_flow.specs.Solved.{Solution, IsReady};

    ghost Value = { Solution };

    ghost view = { λ solver. record { on = solver.rounds.on; prices = solver.prices.items } };

    ghost invariant = { λ solver. IsReady W solver.rounds.graph.nodes solver.rounds.finder.nodes solver.prices.items };
}

/// The set of the first trades.
#[tactic(auto, unfolding(tn_base::specs::Sets::set_of))]
fn first_trades<const W: usize>(count: u32) -> TradeSet<W>
    requires width { W ≤ most_limbs }
    requires wide { count ≤ 64 * W }
    ensures { result ≡ set_of (λ t. true) count }
{
    let mut first = TradeSet::empty();
    for t in 0..count {
        first.toggle(t);
    }
    first
}

impl<const W: usize> Solver<W> {
    /// A solver for markets of as many trades as this one has. Nothing is on, and each price is 0. It fails only where
    /// memory runs out. There are at most `64 * W`.
    pub fn with_room<V: Valuation>(
        alloc: Global,
        market: &Market<V>,
    ) -> Result<Solver<W>, OutOfMemory>
        requires width { W ≤ most_limbs }
        requires wide { length market.now.trades ≤ 64 * W }
        ensures { IfOk result (IsUnsolved (length market.now.trades)) }
    {
        let trades = market.trades();
        Ok(Solver {
            rounds: Rounds::with_room(alloc, trades)?,
            prices: vec![in alloc; 0; trades as usize]?,
        })
    }

    /// The trades that are on.
    pub fn on(&self) -> &TradeSet<W>
        ensures { result.now ≡ self.now.on }
    {
        &self.rounds.on
    }

    /// The price of trade `t`. It is one of the market that the solver was made for.
    pub fn price(&self, t: u32) -> i128
        requires { t < length self.now.prices }
        ensures { result ≡ price_at self.now.prices t }
    {
        self.prices[t as usize]
    }

    /// The set of all trades of the market that the solver was made for.
    fn all_trades(&self) -> TradeSet<W>
        requires { length self.now.prices ≤ 64 * W }
        ensures { result ≡ set_of (λ t. true) (length self.now.prices) }
    {
        first_trades(self.prices.len() as u32)
    }

    /// Finds an equilibrium of the market that the given trades admit: trades among these, and prices of all trades, at
    /// which each firm's bundle is best among its bundles within the admitted trades. It has no refusal, takes no
    /// memory, and asks for at most a worth for each two places of each firm, once for each trade (existence: Hatfield,
    /// Kominers, Nichifor, Ostrovsky and Westkamp, 2013). The market has at most `64 * W` trades, as many as the solver
    /// was made for; twice the bound of each firm, times one more than the number of trades, is at most 10^18. The
    /// admitted trades are of the market.
    pub fn solve_among<V: Valuation>(
        &mut self,
        market: &Market<V>,
        admitted: &TradeSet<W>,
        steps: &mut Steps<V::Mark>,
    )
        requires wide { length market.now.trades ≤ 64 * W }
        requires made_for { length self.old.prices ≡ length market.now.trades }
        requires inside { (t : ℕ) → has admitted.now t ≡ true → t < length market.now.trades }
        requires small { (f : ℕ) (v : V) → slice_get market.now.firms f ≡ Some v
            → 2 * V.limit v * (length market.now.trades + 1) ≤ most_cost }
        ensures solution { network_of V.firm market.now IsSolution admitted.now self.new }
        ensures prices { (bound : ℕ) → AreWorthsWithin bound (map V.firm market.now.firms)
            → AreSmallPrices (2 * bound * length market.now.trades) self.new.prices }
        ensures asked { steps.new ≤ steps.old + length market.now.trades * graph_worths
            (map V.firm market.now.firms) }
    {
        self.rounds.admit_all(market, admitted, steps);
        self.rounds.settle(market);
        write_differences(&self.rounds.finder, &mut self.prices, market.trades());
    }

    /// Finds an equilibrium of the market, at scale 1, within the bounds of `solve_among`. The market has at most `64 *
    /// W` trades, as many as the solver was made for; twice the bound of each firm, times one more than the number of
    /// trades, is at most 10^18.
    pub fn solve_in<V: Valuation>(&mut self, market: &Market<V>, steps: &mut Steps<V::Mark>)
        requires wide { length market.now.trades ≤ 64 * W }
        requires made_for { length self.old.prices ≡ length market.now.trades }
        requires small { (f : ℕ) (v : V) → slice_get market.now.firms f ≡ Some v
            → 2 * V.limit v * (length market.now.trades + 1) ≤ most_cost }
        ensures one_each { length self.new.prices ≡ length market.now.trades }
        ensures equilibrium { network_of V.firm market.now IsEquilibrium (pos 1) self.new.on
            (price_at self.new.prices) }
        ensures inside { (t : ℕ) → has self.new.on t ≡ true → t < length market.now.trades }
        ensures prices { (bound : ℕ) → AreWorthsWithin bound (map V.firm market.now.firms)
            → AreSmallPrices (2 * bound * length market.now.trades) self.new.prices }
        ensures asked { steps.new ≤ steps.old + length market.now.trades * graph_worths
            (map V.firm market.now.firms) }
    {
        let _trades = market.trades();
        let all = self.all_trades();
        self.solve_among(market, &all, steps);
    }
}
