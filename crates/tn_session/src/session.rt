//! Sessions: trades are admitted and barred one after another.

ghost use Rattle.std.specs.Prelude.{◌≡◌, ℕ, ◌+◌, ◌*◌, ◌≤◌, ◌<◌, ◌==◌, ◌&&◌, ◌||◌, not, true, false, length, map, IfOk};
ghost use Rattle.tn_base.specs.Sets.{has};
ghost use Rattle.tn_base.specs.Widths.{most_limbs};
ghost use Rattle.tn_model.specs.Prices.{price_at};
ghost use Rattle.tn_cycle.specs.Answers.{AreNear};
ghost use Rattle.tn_cycle.specs.Widths.{label_step, most_label};
ghost use Rattle.tn_market.specs.Graph.{graph_worths};
ghost use Rattle.tn_flow.specs.Underway.{AreUnderWay};
ghost use Rattle.tn_session.specs.Standing.{AreFirmsSmall, HasSmallPrices, HoldsEquilibrium, IsSession, standing_of};
ghost use Rattle.tn_session.specs.Widths.{most_path};
ghost use Rattle.tn_market.specs.NetworkOf.{network_of};

use crate::barring::switch_off;
use crate::moving::move_all;
use std::alloc::Global;
use std::marker::Model;
use tn_base::{OutOfMemory, Steps, TradeSet};
use tn_cycle::label_less;
use tn_flow::Rounds;
use tn_market::{Market, Valuation};

/// A market in which trades are admitted and barred one after another. Between calls the trades that are on and the
/// prices are an equilibrium, at scale 1, of the market that the admitted trades make: each firm's bundle is best among
/// its bundles within them. No price is above twice the greatest bound of the firms' worths for each trade. All memory
/// is taken in `begin`.
///
/// Contracts see the market, the admitted trades, those that are on, and a price for each trade.
#[derive(Drop)]
pub struct Session<'a, V: Valuation, const W: usize> {
    market: &'a Market<V>,
    rounds: Rounds<W>,
}

impl<'a, V: Valuation, const W: usize> Model for Session<'a, V, W> {
    ghost use Rattle.tn_session.specs.Standing.{IsSession, Standing, standing_of};

    ghost Value = { Standing V };

    ghost view = { λ session. standing_of session.market.now session.rounds.allowed session.rounds.on
        session.rounds.finder.labels };

    ghost invariant = { λ session. IsSession V.firm V.limit W session.market.now session.rounds.graph
        session.rounds.finder session.rounds.allowed session.rounds.on };
}

/// Settles rounds that are under way: then a session may hold them.
fn settle_all<V: Valuation, const W: usize>(rounds: &mut Rounds<W>, market: &Market<V>)
    requires wide { length market.now.trades ≤ 64 * W }
    requires small { AreFirmsSmall V.limit market.now }
    requires under_way { network_of V.firm market.now AreUnderWay rounds.old.graph rounds.old.finder rounds.old.allowed
        rounds.old.on }
    requires near { AreNear most_label rounds.old.finder.labels }
    ensures settled { IsSession V.firm V.limit W market.now rounds.new.graph rounds.new.finder rounds.new.allowed
        rounds.new.on }
    ensures equilibrium { HoldsEquilibrium V.firm (standing_of market.now rounds.new.allowed rounds.new.on
        rounds.new.finder.labels) }
    ensures prices { HasSmallPrices V.firm (standing_of market.now rounds.new.allowed rounds.new.on
        rounds.new.finder.labels) }
    ensures admitted { rounds.new.allowed ≡ rounds.old.allowed }
    ensures on { rounds.new.on ≡ rounds.old.on }
{
    let _trades = market.trades();
    rounds.settle(market);
}

/// Settles rounds that are under way, at most one round since they were settled last.
fn settle<V: Valuation, const W: usize>(rounds: &mut Rounds<W>, market: &Market<V>)
    requires wide { length market.now.trades ≤ 64 * W }
    requires small { AreFirmsSmall V.limit market.now }
    requires under_way { network_of V.firm market.now AreUnderWay rounds.old.graph rounds.old.finder rounds.old.allowed
        rounds.old.on }
    requires near { AreNear (most_path + label_step (length market.now.trades + 1)) rounds.old.finder.labels }
    ensures settled { IsSession V.firm V.limit W market.now rounds.new.graph rounds.new.finder rounds.new.allowed
        rounds.new.on }
    ensures equilibrium { HoldsEquilibrium V.firm (standing_of market.now rounds.new.allowed rounds.new.on
        rounds.new.finder.labels) }
    ensures prices { HasSmallPrices V.firm (standing_of market.now rounds.new.allowed rounds.new.on
        rounds.new.finder.labels) }
    ensures admitted { rounds.new.allowed ≡ rounds.old.allowed }
    ensures on { rounds.new.on ≡ rounds.old.on }
{
    let _trades = market.trades();
    settle_all(rounds, market);
}

impl<'a, V: Valuation, const W: usize> Session<'a, V, W> {
    /// A session on a market: no trade is admitted, and none is on. It asks for no worth, so the counter, which every
    /// call of a session is handed, stays as it is. It fails only where memory runs out. The market has at most
    /// `64 * W` trades; twice the bound of each firm, times one more than the number of trades, is at most 10^17.
    pub fn begin(
        alloc: Global,
        market: &'a Market<V>,
        steps: &mut Steps<V::Mark>,
    ) -> Result<Session<'a, V, W>, OutOfMemory>
        requires width { W ≤ most_limbs }
        requires wide { length market.now.trades ≤ 64 * W }
        requires small { AreFirmsSmall V.limit market.now }
        ensures market { IfOk result (λ session. session.market ≡ market.now) }
        ensures none_admitted { IfOk result (λ session. session.admitted ≡ 0) }
        ensures none_on { IfOk result (λ session. session.solution.on ≡ 0) }
        ensures equilibrium { IfOk result (HoldsEquilibrium V.firm) }
        ensures prices { IfOk result (HasSmallPrices V.firm) }
        ensures asked { steps.new ≡ steps.old }
    {
        let mut rounds = Rounds::with_room(alloc, market.trades())?;
        rounds.begin(market);
        settle(&mut rounds, market);
        Ok(Session { market, rounds })
    }

    /// Admits a trade, and answers true, where it isn't admitted; otherwise it answers false, changes nothing and asks
    /// for no worth. It asks for at most a worth for each two places of each firm, and takes no memory. The trade is
    /// one of the market.
    pub fn admit(&mut self, t: u32, steps: &mut Steps<V::Mark>) -> bool
        requires trade { t < length self.old.market.trades }
        ensures answer { result ≡ not (has self.old.admitted t) }
        ensures admitted { (k : ℕ) → has self.new.admitted k ≡ (k == t || has self.old.admitted k) }
        ensures unchanged { result ≡ false → (self.new ≡ self.old) × (steps.new ≡ steps.old) }
        ensures market { self.new.market ≡ self.old.market }
        ensures equilibrium { HoldsEquilibrium V.firm self.new }
        ensures prices { HasSmallPrices V.firm self.new }
        ensures asked { steps.new ≤ steps.old + graph_worths (map V.firm self.old.market.firms) }
    {
        if self.rounds.allowed.has(t) {
            return false;
        }
        self.rounds.admit(self.market, t, steps);
        settle(&mut self.rounds, self.market);
        true
    }

    /// Bars a trade, and answers true, where it is admitted; otherwise it answers false, changes nothing and asks for
    /// no worth. Where the trade is off, what is on and the prices stay; where it is on, trades are toggled along one
    /// cycle. It asks for at most a worth for each two places of each firm, and takes no memory. The trade is one of
    /// the market.
    pub fn bar(&mut self, t: u32, steps: &mut Steps<V::Mark>) -> bool
        requires trade { t < length self.old.market.trades }
        ensures answer { result ≡ has self.old.admitted t }
        ensures admitted { (k : ℕ) → has self.new.admitted k ≡ (not (k == t) && has self.old.admitted k) }
        ensures unchanged { result ≡ false → (self.new ≡ self.old) × (steps.new ≡ steps.old) }
        ensures unmoved { has self.old.solution.on t ≡ false → self.new.solution ≡ self.old.solution }
        ensures market { self.new.market ≡ self.old.market }
        ensures equilibrium { HoldsEquilibrium V.firm self.new }
        ensures prices { HasSmallPrices V.firm self.new }
        ensures asked { steps.new ≤ steps.old + graph_worths (map V.firm self.old.market.firms) }
    {
        if !self.rounds.allowed.has(t) {
            return false;
        }
        if self.rounds.on.has(t) {
            switch_off(&mut self.rounds, self.market, t, steps);
            settle(&mut self.rounds, self.market);
        } else {
            self.rounds.allowed.toggle(t);
        }
        true
    }

    /// Admits the trades of a set that aren't admitted and bars all others, one after another, and makes the prices what
    /// they are for these once, at the end: so where several sets are efficient, another one may be on than after as many
    /// single edits. It asks for at most a worth for each two places of each firm, once for each trade, and takes no
    /// memory.
    pub fn admit_only(&mut self, wanted: &TradeSet<W>, steps: &mut Steps<V::Mark>)
        ensures admitted { (t : ℕ) → t < length self.old.market.trades → has self.new.admitted t ≡ has wanted.now t }
        ensures market { self.new.market ≡ self.old.market }
        ensures equilibrium { HoldsEquilibrium V.firm self.new }
        ensures prices { HasSmallPrices V.firm self.new }
        ensures asked { steps.new ≤ steps.old + length self.old.market.trades * graph_worths
            (map V.firm self.old.market.firms) }
    {
        move_all(&mut self.rounds, self.market, wanted, steps);
        settle_all(&mut self.rounds, self.market);
    }

    /// The trades that are admitted.
    pub fn admitted(&self) -> &TradeSet<W>
        ensures { result.now ≡ self.now.admitted }
    {
        &self.rounds.allowed
    }

    /// The trades that are on.
    pub fn on(&self) -> &TradeSet<W>
        ensures { result.now ≡ self.now.solution.on }
    {
        &self.rounds.on
    }

    /// The price of trade `t`, which is one of the equilibrium where the trade is admitted. The trade is one of the
    /// market.
    pub fn price(&self, t: u32) -> i128
        requires { t < length self.now.market.trades }
        ensures { result ≡ price_at self.now.solution.prices t }
    {
        label_less(&self.rounds.finder, t, self.market.trades())
    }
}
