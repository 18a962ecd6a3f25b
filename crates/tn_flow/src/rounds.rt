//! The rounds of a solver: trades are admitted one after another, and after each the set that is on is an
//! equilibrium's.
//!
//! Labels are kept beside the set: numbers of the admitted trades and null that keep the arcs among them. They say most
//! new trades' prices at once, and where they don't, the search for a cycle goes by them.

ghost use Rattle.std.specs.Prelude.{◌≡◌, ℕ, ◌+◌, ◌*◌, ◌≤◌, ◌<◌, ltb, true, false, if◌then◌else◌, length, map, slice_get, IfOk};
ghost use Rattle.tn_base.specs.Sets.{has, toggle};
ghost use Rattle.tn_base.specs.Walks.{arcs_among, is_admitted};
ghost use Rattle.tn_base.specs.Widths.{most_cost, most_limbs};
ghost use Rattle.tn_cycle.specs.Answers.{AreLabels, AreNear};
ghost use Rattle.tn_cycle.specs.Widths.{label_step, most_label};
ghost use Rattle.tn_graph.specs.Reading.{IsExchangeAmong};
ghost use Rattle.tn_market.specs.Graph.{exchange_arc, graph_worths};
ghost use Rattle.tn_market.specs.Widths.{most_market_trades};
ghost use Rattle.tn_network_laws.specs.Along.{along};
ghost use Rattle.tn_network_laws.specs.Laws.{MeetExchange};
ghost use Rattle.tn_model.specs.Network.{IsNetwork};
ghost use Rattle.tn_network_laws.specs.Kept.{IsKept};
ghost use Rattle.tn_flow.specs.Underway.{HaveRoom, AreUnderWay, IsNext};
ghost use Rattle.tn_market.specs.NetworkOf.{network_of};

use std::alloc::Global;
use tn_base::{OutOfMemory, Steps, TradeSet};
use tn_cycle::{Finder, Path};
use tn_graph::Graph;
use tn_market::{Market, Valuation};

/// The rounds of a solver over one market: which trades are admitted, which are on, and the exchange graph at these
/// among those.
#[derive(Drop)]
pub struct Rounds<const W: usize> {
    /// The exchange graph at the trades that are on, among the admitted ones and null.
    pub graph: Graph,
    /// What searches it, with a label for each trade and null.
    pub finder: Finder,
    /// The trades that are admitted so far.
    pub allowed: TradeSet<W>,
    /// The trades among these that are on.
    pub on: TradeSet<W>,
}

/// What is known of every market: its firms meet exchange, and without any trade their bundles are possible.
fn know<V: Valuation>(market: &Market<V>)
    ensures network { network_of V.firm market.now IsNetwork }
    ensures meet { MeetExchange (map V.firm market.now.firms) }
    ensures start { network_of V.firm market.now IsKept 0 0 }
{
    let _trades = market.trades();
}

/// Toggles a node that is a trade.
fn toggle_node<const W: usize>(on: &mut TradeSet<W>, node: u32, null: u32)
    requires wide { null ≤ 64 * W }
    ensures { on.new ≡ (if ltb node null then toggle on.old node else on.old) }
{
    if node < null {
        on.toggle(node);
    }
}

impl<const W: usize> Rounds<W> {
    /// Takes all memory that the rounds over a market of so many trades need. No trade is admitted. It fails only where
    /// memory runs out. There are at most 2,048 trades.
    pub fn with_room(alloc: Global, trades: u32) -> Result<Rounds<W>, OutOfMemory>
        requires width { W ≤ most_limbs }
        requires few { trades ≤ most_market_trades }
        ensures room { IfOk result (λ rounds. HaveRoom trades rounds.graph rounds.finder) }
        ensures none_admitted { IfOk result (λ rounds. rounds.allowed ≡ 0) }
        ensures none_on { IfOk result (λ rounds. rounds.on ≡ 0) }
    {
        Ok(Rounds {
            graph: Graph::new(alloc, trades + 1)?,
            finder: Finder::new(alloc, trades + 1)?,
            allowed: TradeSet::empty(),
            on: TradeSet::empty(),
        })
    }

    /// Begins anew on a market: no trade is admitted, none is on, and each label is 0. It asks for no worth. The market
    /// has at most `64 * W` trades, as many as the rounds were made for.
    pub fn begin<V: Valuation>(&mut self, market: &Market<V>)
        requires width { W ≤ most_limbs }
        requires wide { length market.now.trades ≤ 64 * W }
        requires room { HaveRoom (length market.now.trades) self.old.graph self.old.finder }
        ensures under_way { network_of V.firm market.now AreUnderWay self.new.graph self.new.finder self.new.allowed
            self.new.on }
        ensures none_admitted { self.new.allowed ≡ 0 }
        ensures none_on { self.new.on ≡ 0 }
        ensures near { AreNear 0 self.new.finder.labels }
    {
        know(market);
        self.allowed = TradeSet::empty();
        self.on = TradeSet::empty();
        self.finder.label_all();
        self.graph.lay_out(market, &self.on);
    }

    /// Toggles the trades among the nodes of the cycle that the finder found last.
    pub fn toggle_nodes(&mut self, count: u32, null: u32)
        requires wide { null ≤ 64 * W }
        requires counted { count ≡ length self.old.finder.listed }
        ensures along { self.new ≡ record self.old { on = along null self.old.on self.old.finder.listed } }
    {
        for k in 0..count {
            let node = self.finder.at(k);
            toggle_node(&mut self.on, node, null);
        }
    }

    /// Looks for a cycle through a trade that is negative, over it, the admitted trades and null, where the trade's
    /// arcs are read. The labels that it leaves keep the arcs once the trade is admitted.
    fn find<V: Valuation>(&mut self, market: &Market<V>, t: u32) -> Path
        requires wide { length market.now.trades ≤ 64 * W }
        requires under_way { network_of V.firm market.now AreUnderWay self.old.graph self.old.finder self.old.allowed
            self.old.on }
        requires trade { t < length market.now.trades }
        requires out { has self.old.allowed t ≡ false }
        requires joined { network_of V.firm market.now IsExchangeAmong self.old.on (toggle self.old.allowed t)
            self.old.graph }
        requires near { AreNear most_label self.old.finder.labels }
        ensures rest { self.new ≡ record self.old { finder = self.new.finder } }
        ensures sized { self.new.finder.nodes ≡ self.old.finder.nodes }
        ensures next { network_of V.firm market.now IsNext self.old.allowed self.old.on t self.new.finder result }
        ensures near { (reach : ℕ) → AreNear reach self.old.finder.labels
            → AreNear (reach + label_step (length market.now.trades + 1)) self.new.finder.labels }
    {
        know(market);
        self.finder.through(&self.graph, t, &self.allowed)
    }

    /// Admits a trade: one round of the solver. Its arcs are read first. Where a cycle of the exchange graph through it
    /// is negative, the trades are toggled along one of least cost and then of least arcs, and the arcs of the firms
    /// whose bundles change are read anew; where none is, only labels change. It asks for at most a worth for each two
    /// places of each firm, and takes no memory. The rounds are under way on this market, the trade is one of it that
    /// isn't admitted, and the labels are at most 10^26 in size.
    pub fn admit<V: Valuation>(&mut self, market: &Market<V>, t: u32, steps: &mut Steps<V::Mark>)
        requires wide { length market.now.trades ≤ 64 * W }
        requires small { (f : ℕ) (v : V) → slice_get market.now.firms f ≡ Some v → 2 * V.limit v ≤ most_cost }
        requires under_way { network_of V.firm market.now AreUnderWay self.old.graph self.old.finder self.old.allowed
            self.old.on }
        requires trade { t < length market.now.trades }
        requires out { has self.old.allowed t ≡ false }
        requires near { AreNear most_label self.old.finder.labels }
        ensures under_way { network_of V.firm market.now AreUnderWay self.new.graph self.new.finder self.new.allowed
            self.new.on }
        ensures near { (reach : ℕ) → AreNear reach self.old.finder.labels
            → AreNear (reach + label_step (length market.now.trades + 1)) self.new.finder.labels }
        ensures admitted { self.new.allowed ≡ toggle self.old.allowed t }
        ensures asked { steps.new ≤ steps.old + graph_worths (map V.firm market.now.firms) }
    {
        know(market);
        let before = self.on;
        let mut joined = self.allowed;
        joined.toggle(t);
        self.graph.admit(market, t, &before, &joined, steps);
        let found = self.find(market, t);
        self.allowed = joined;
        if let Path::Cycle { length, .. } = found {
            self.toggle_nodes(length, market.trades());
            let on = self.on;
            self.graph.refresh(market, &before, &on, &joined, steps);
        }
    }

    /// Admits a trade where it is wanted.
    fn admit_if<V: Valuation>(
        &mut self,
        market: &Market<V>,
        t: u32,
        wanted: bool,
        steps: &mut Steps<V::Mark>,
    )
        requires wide { length market.now.trades ≤ 64 * W }
        requires small { (f : ℕ) (v : V) → slice_get market.now.firms f ≡ Some v → 2 * V.limit v ≤ most_cost }
        requires under_way { network_of V.firm market.now AreUnderWay self.old.graph self.old.finder self.old.allowed
            self.old.on }
        requires trade { t < length market.now.trades }
        requires out { has self.old.allowed t ≡ false }
        requires near { AreNear most_label self.old.finder.labels }
        ensures under_way { network_of V.firm market.now AreUnderWay self.new.graph self.new.finder self.new.allowed
            self.new.on }
        ensures near { (reach : ℕ) → AreNear reach self.old.finder.labels
            → AreNear (reach + label_step (length market.now.trades + 1)) self.new.finder.labels }
        ensures admitted { self.new.allowed ≡ (if wanted then toggle self.old.allowed t else self.old.allowed) }
        ensures asked { steps.new ≤ steps.old + graph_worths (map V.firm market.now.firms) }
    {
        if wanted {
            self.admit(market, t, steps);
        }
    }

    /// Begins anew on a market, and admits some of its trades, one after another. It asks for at most a worth for each
    /// two places of each firm, once for each trade. The market has at most `64 * W` trades, as many as
    /// the rounds were made for, and twice the bound of each firm is at most 10^18.
    pub fn admit_all<V: Valuation>(
        &mut self,
        market: &Market<V>,
        admitted: &TradeSet<W>,
        steps: &mut Steps<V::Mark>,
    )
        requires width { W ≤ most_limbs }
        requires wide { length market.now.trades ≤ 64 * W }
        requires room { HaveRoom (length market.now.trades) self.old.graph self.old.finder }
        requires small { (f : ℕ) (v : V) → slice_get market.now.firms f ≡ Some v → 2 * V.limit v ≤ most_cost }
        requires inside { (t : ℕ) → has admitted.now t ≡ true → t < length market.now.trades }
        ensures under_way { network_of V.firm market.now AreUnderWay self.new.graph self.new.finder self.new.allowed
            self.new.on }
        ensures near { AreNear most_label self.new.finder.labels }
        ensures admitted { self.new.allowed ≡ admitted.now }
        ensures asked { steps.new ≤ steps.old + length market.now.trades * graph_worths
            (map V.firm market.now.firms) }
    {
        self.begin(market);
        for t in 0..market.trades() {
            self.admit_if(market, t, admitted.has(t), steps);
        }
    }

    /// Makes the labels what a search from nothing would find: no more than 0, and no further below it than a path may
    /// cost. The labels less null's are prices at which what is on is an equilibrium of the market that the admitted
    /// trades make. The rounds are under way on this market, and the labels are at most 10^26 in size.
    pub fn settle<V: Valuation>(&mut self, market: &Market<V>)
        requires wide { length market.now.trades ≤ 64 * W }
        requires under_way { network_of V.firm market.now AreUnderWay self.old.graph self.old.finder self.old.allowed
            self.old.on }
        requires near { AreNear most_label self.old.finder.labels }
        ensures under_way { network_of V.firm market.now AreUnderWay self.new.graph self.new.finder self.new.allowed
            self.new.on }
        ensures admitted { self.new.allowed ≡ self.old.allowed }
        ensures on { self.new.on ≡ self.old.on }
        ensures labels { AreLabels (length market.now.trades + 1)
            (arcs_among (is_admitted (length market.now.trades) self.old.allowed)
            (network_of V.firm market.now exchange_arc self.old.on)) self.new.finder.labels }
    {
        self.finder.relabel(&self.graph, &self.allowed);
    }
}
