//! The reading of costs from worths: arc by arc, firm by firm, and the whole graph.

ghost use Rattle.std.specs.Prelude.{◌≡◌, ℕ, ◌+◌, ◌*◌, ◌^◌, ◌≤◌, ◌<◌, ◌==◌, nat_lt, true, false, if◌then◌else◌, Some, length, map, slice_get, not};
ghost use Rattle.tn_base.specs.Sets.{has, set_of, size, toggle};
ghost use Rattle.tn_base.specs.Widths.{most_cost};
ghost use Rattle.tn_firm_laws.specs.Places.{level, toggle_at, move};
ghost use Rattle.tn_model.specs.declared.ends.Ends.{Ends};
ghost use Rattle.tn_model.specs.Network.{IsNetwork, part};
ghost use Rattle.tn_market.specs.ArcPlaces.{node_at, AreArcPlaces};
ghost use Rattle.tn_market.specs.Graph.{exchange_arc, graph_worths, ArePossible};
ghost use Rattle.tn_market.specs.NetworkOf.{network_of};
ghost use Rattle.tn_market.specs.Valued.{HasToggledWorths};
ghost use Rattle.tn_graph.specs.Blocks.{arcs_of};
ghost use Rattle.tn_graph.specs.Layout.{IsLaidOut, IsTurned};
ghost use Rattle.tn_graph.specs.Reading.{AreForgotten, CanMove, HasArcsAmong, HasLine, Improves, IsAskedPosition, IsCut, IsExchangeAmong, IsExchangeGraph, IsLineRead, IsStand, admitted_count, block_worths, changed_worths, is_toggled, line_worths, lowered_place, partners, raised_place};

use crate::graph::Graph;
use crate::stand::Stand;
use tn_base::{Bundle, Steps, TradeSet};
use tn_market::{Market, Valuation};

/// A firm has at most so many own trades.
const MOST_TRADES: usize = 64;

/// The places of the arc between place `k` and another one: the one that is raised, and the one that is lowered.
fn ends_of(rises: bool, k: u32, other: u32) -> (u32, u32)
    ensures raised { result.0 ≡ raised_place rises k other }
    ensures lowered { result.1 ≡ lowered_place rises k other }
{
    if rises { (k, other) } else { (other, k) }
}

impl<V: Valuation, const W: usize> Stand<'_, V, W> {
    /// Writes what the arc from place `i` to place `j` costs, by the worth of the bundle moved at them.
    fn write_arc(&self, graph: &mut Graph, i: u32, j: u32, worth: Option<i128>)
        requires stand { network_of V.firm self.now.market.now IsStand self.now.on.now self.now.f self.now.count
            (V.firm self.now.firm.now) (V.limit self.now.firm.now) self.now.bundle self.now.worth }
        requires sized { graph.old.nodes ≡ length self.now.market.now.trades + 1 }
        requires laid_out { IsLaidOut self.now.market.now.trades (has self.now.on.now) graph.old.places }
        requires places { AreArcPlaces (V.firm self.now.firm.now) self.now.bundle i j }
        requires worth { worth ≡ (V.firm self.now.firm.now).worth (move self.now.count self.now.bundle i j) }
        ensures improved { Improves (network_of V.firm self.now.market.now exchange_arc self.now.on.now) graph.old
            graph.new }
        ensures arc { arcs_of graph.new (node_at self.now.market.now.trades self.now.f self.now.count i)
            (node_at self.now.market.now.trades self.now.f self.now.count j)
            ≡ network_of V.firm self.now.market.now exchange_arc self.now.on.now
            (node_at self.now.market.now.trades self.now.f self.now.count i)
            (node_at self.now.market.now.trades self.now.f self.now.count j) }
    {
        graph.set(self.node(i), self.node(j), self.loss(worth));
    }

    /// Writes what the arcs between place `k` and some other positions cost, by a row of worths: those from the place
    /// where it rises, else those to it.
    fn write_line(
        &self,
        graph: &mut Graph,
        rises: bool,
        k: u32,
        others: Bundle,
        worths: &[Option<i128>],
    )
        requires stand { network_of V.firm self.now.market.now IsStand self.now.on.now self.now.f self.now.count
            (V.firm self.now.firm.now) (V.limit self.now.firm.now) self.now.bundle self.now.worth }
        requires sized { graph.old.nodes ≡ length self.now.market.now.trades + 1 }
        requires laid_out { IsLaidOut self.now.market.now.trades (has self.now.on.now) graph.old.places }
        requires places { (other : ℕ) → other < self.now.count → has others other ≡ true
            → AreArcPlaces (V.firm self.now.firm.now) self.now.bundle (raised_place rises k other)
            (lowered_place rises k other) }
        requires room { self.now.count ≤ length worths.now }
        requires worths { HasToggledWorths (V.firm self.now.firm.now).worth (toggle_at self.now.count self.now.bundle k)
            others worths.now }
        ensures { network_of V.firm self.now.market.now IsLineRead self.now.on.now self.now.f self.now.count rises k
            others graph.old self.now.count graph.new }
    {
        for other in 0..self.count {
            if others.has(other) {
                let (i, j) = ends_of(rises, k, other);
                self.write_arc(graph, i, j, worths[other as usize]);
            }
        }
    }

    /// Writes what the arcs between place `k` and others cost, those from the place where it rises, else those to it:
    /// to positions by one row of worths, for which the slice has room, and to null.
    fn read_line(
        &self,
        graph: &mut Graph,
        rises: bool,
        k: u32,
        others: Bundle,
        worths: &mut [Option<i128>],
        steps: &mut Steps<V::Mark>,
    )
        requires stand { network_of V.firm self.now.market.now IsStand self.now.on.now self.now.f self.now.count
            (V.firm self.now.firm.now) (V.limit self.now.firm.now) self.now.bundle self.now.worth }
        requires sized { graph.old.nodes ≡ length self.now.market.now.trades + 1 }
        requires laid_out { IsLaidOut self.now.market.now.trades (has self.now.on.now) graph.old.places }
        requires place { k ≤ self.now.count }
        requires moves { CanMove rises self.now.count
            (level self.now.count (V.firm self.now.firm.now).buys self.now.bundle) k }
        requires others { others ≡ partners (V.firm self.now.firm.now).buys self.now.bundle self.now.asked rises
            self.now.count }
        requires room { self.now.count ≤ length worths.old }
        ensures improved { Improves (network_of V.firm self.now.market.now exchange_arc self.now.on.now) graph.old
            graph.new }
        ensures line { network_of V.firm self.now.market.now HasLine self.now.on.now self.now.f self.now.count
            (V.firm self.now.firm.now) self.now.bundle self.now.asked rises k graph.new }
        ensures asked { steps.new ≡ steps.old + size others + (if nat_lt k self.now.count then 1 else 0) }
    {
        let toggled = self.toggled_at(k);
        self.firm.row(toggled, others, worths, steps);
        self.write_line(graph, rises, k, others, worths);
        if k < self.count {
            let worth = self.firm.value(toggled, steps);
            let (i, j) = ends_of(rises, k, self.count);
            self.write_arc(graph, i, j, worth);
        }
    }

    /// Writes what the arcs of the firm cost between positions that are asked for, and null.
    pub fn read_arcs(&self, graph: &mut Graph, steps: &mut Steps<V::Mark>)
        requires stand { network_of V.firm self.now.market.now IsStand self.now.on.now self.now.f self.now.count
            (V.firm self.now.firm.now) (V.limit self.now.firm.now) self.now.bundle self.now.worth }
        requires sized { graph.old.nodes ≡ length self.now.market.now.trades + 1 }
        requires laid_out { IsLaidOut self.now.market.now.trades (has self.now.on.now) graph.old.places }
        requires own { self.now.asked < 2 ^ self.now.count }
        ensures improved { Improves (network_of V.firm self.now.market.now exchange_arc self.now.on.now) graph.old
            graph.new }
        ensures arcs { network_of V.firm self.now.market.now HasArcsAmong self.now.on.now self.now.f self.now.count
            (V.firm self.now.firm.now) self.now.bundle self.now.asked graph.new }
        ensures asked { steps.new ≤ steps.old + size self.now.asked * size self.now.asked }
    {
        let lowered = self.partners(true);
        let mut worths = [None; MOST_TRADES];
        for k in 0..self.count {
            if self.is_partner(k, false) {
                self.read_line(graph, true, k, lowered, &mut worths, steps);
            }
        }
        self.read_line(graph, true, self.count, lowered, &mut worths, steps);
    }
}

/// Whether the bundles of firm `f` of two sets differ.
fn has_changed<V: Valuation, const W: usize>(
    market: &Market<V>,
    f: u32,
    before: &TradeSet<W>,
    on: &TradeSet<W>,
) -> bool
    requires wide { length market.now.trades ≤ 64 * W }
    requires firm { f < length market.now.firms }
    ensures { (v : V) → slice_get market.now.firms f ≡ Some v
        → result ≡ not (part market.now.trades f (V.firm v).count before.now
        == part market.now.trades f (V.firm v).count on.now) }
{
    market.bundle_of(f, before) != market.bundle_of(f, on)
}

/// Every position of a firm that has so many own trades.
fn all_positions(count: u32) -> Bundle
    requires { count ≤ 64 }
    ensures { result ≡ set_of (λ k. true) count }
{
    let mut all = Bundle::empty();
    for k in 0..count {
        all = all.toggle(k);
    }
    all
}

impl Graph {
    /// Writes what the arcs of firm `f` cost between positions that are asked for, and null.
    fn read<V: Valuation, const W: usize>(
        &mut self,
        market: &Market<V>,
        f: u32,
        on: &TradeSet<W>,
        asked: Bundle,
        steps: &mut Steps<V::Mark>,
    )
        requires wide { length market.now.trades ≤ 64 * W }
        requires network { network_of V.firm market.now IsNetwork }
        requires sized { self.old.nodes ≡ length market.now.trades + 1 }
        requires laid_out { IsLaidOut market.now.trades (has on.now) self.old.places }
        requires firm { f < length market.now.firms }
        requires own { (v : V) → slice_get market.now.firms f ≡ Some v → asked < 2 ^ (V.firm v).count }
        requires possible { network_of V.firm market.now ArePossible on.now }
        requires small { (g : ℕ) (v : V) → slice_get market.now.firms g ≡ Some v → 2 * V.limit v ≤ most_cost }
        ensures improved { Improves (network_of V.firm market.now exchange_arc on.now) self.old self.new }
        ensures arcs { (v : V) → slice_get market.now.firms f ≡ Some v
            → network_of V.firm market.now HasArcsAmong on.now f (V.firm v).count (V.firm v)
            (part market.now.trades f (V.firm v).count on.now) asked self.new }
        ensures asked { steps.new ≤ steps.old + block_worths (size asked) }
    {
        let stand = Stand::new(market, f, on, asked, steps);
        stand.read_arcs(self, steps);
    }

    /// Makes it the exchange graph of a market at a set of trades (Candogan, Epitropou and Vohra, 2021): trade t is
    /// node t, and the null node is the last one. It asks for a worth for each two places of a firm at most, and takes
    /// no memory. The graph has one node more than the market has trades, of which there are at most `64 * W`; each
    /// firm's bundle of the set is possible, and twice no worth is above 10^18.
    pub fn fill<V: Valuation, const W: usize>(
        &mut self,
        market: &Market<V>,
        on: &TradeSet<W>,
        steps: &mut Steps<V::Mark>,
    )
        requires wide { length market.now.trades ≤ 64 * W }
        requires sized { self.old.nodes ≡ length market.now.trades + 1 }
        requires possible { network_of V.firm market.now ArePossible on.now }
        requires small { (f : ℕ) (v : V) → slice_get market.now.firms f ≡ Some v → 2 * V.limit v ≤ most_cost }
        ensures graph { network_of V.firm market.now IsExchangeGraph on.now self.new }
        ensures asked { steps.new ≤ steps.old + graph_worths (map V.firm market.now.firms) }
    {
        self.lay_out(market, on);
        for f in 0..market.firms() {
            let asked = all_positions(market.firm(f).trades());
            self.read(market, f, on, asked, steps);
        }
    }

    /// Writes what the arcs between a place, given by its firm and position, and the admitted trades and null cost:
    /// those from it where it rises, else those to it.
    fn read_beside<V: Valuation, const W: usize>(
        &mut self,
        market: &Market<V>,
        place: (u32, u32),
        rises: bool,
        on: &TradeSet<W>,
        admitted: &TradeSet<W>,
        steps: &mut Steps<V::Mark>,
    )
        requires wide { length market.now.trades ≤ 64 * W }
        requires network { network_of V.firm market.now IsNetwork }
        requires sized { self.old.nodes ≡ length market.now.trades + 1 }
        requires laid_out { IsLaidOut market.now.trades (has on.now) self.old.places }
        requires firm { place.0 < length market.now.firms }
        requires position { (v : V) → slice_get market.now.firms place.0 ≡ Some v
            → IsAskedPosition market.now.trades place.0 (V.firm v) on.now admitted.now rises place.1 }
        requires possible { network_of V.firm market.now ArePossible on.now }
        requires small { (g : ℕ) (v : V) → slice_get market.now.firms g ≡ Some v → 2 * V.limit v ≤ most_cost }
        ensures improved { Improves (network_of V.firm market.now exchange_arc on.now) self.old self.new }
        ensures line { (v : V) → slice_get market.now.firms place.0 ≡ Some v
            → network_of V.firm market.now HasLine on.now place.0 (V.firm v).count (V.firm v)
            (part market.now.trades place.0 (V.firm v).count on.now)
            (part market.now.trades place.0 (V.firm v).count admitted.now) rises place.1 self.new }
        ensures asked { (v : V) → slice_get market.now.firms place.0 ≡ Some v
            → steps.new ≤ steps.old + line_worths (admitted_count market.now.trades admitted.now place.0 (V.firm v)) }
    {
        let asked = market.bundle_of(place.0, admitted);
        let stand = Stand::new(market, place.0, on, asked, steps);
        let others = stand.partners(rises);
        let mut worths = [None; MOST_TRADES];
        stand.read_line(self, rises, place.1, others, &mut worths, steps);
    }

    /// Reads the arcs between a trade that is admitted as the last one and the admitted trades and null, at its two
    /// firms, where the others are read. It asks for a worth for each of the firm's admitted trades and one more at
    /// most, and takes no memory. The trade is one of the market and off; the market has at most `64 * W` trades; each
    /// firm's bundle of the trades that are on is possible, and twice no worth is above 10^18.
    pub fn admit<V: Valuation, const W: usize>(
        &mut self,
        market: &Market<V>,
        t: u32,
        on: &TradeSet<W>,
        admitted: &TradeSet<W>,
        steps: &mut Steps<V::Mark>,
    )
        requires wide { length market.now.trades ≤ 64 * W }
        requires graph { network_of V.firm market.now IsExchangeAmong on.now (toggle admitted.now t) self.old }
        requires trade { t < length market.now.trades }
        requires admitted { has admitted.now t ≡ true }
        requires off { has on.now t ≡ false }
        requires possible { network_of V.firm market.now ArePossible on.now }
        requires small { (f : ℕ) (v : V) → slice_get market.now.firms f ≡ Some v → 2 * V.limit v ≤ most_cost }
        ensures graph { network_of V.firm market.now IsExchangeAmong on.now admitted.now self.new }
        ensures asked { (trade : Ends) (seller buyer : V) → slice_get market.now.trades t ≡ Some trade
            → slice_get market.now.firms trade.seller ≡ Some seller
            → slice_get market.now.firms trade.buyer ≡ Some buyer
            → steps.new ≤ steps.old
            + line_worths (admitted_count market.now.trades admitted.now trade.seller (V.firm seller))
            + line_worths (admitted_count market.now.trades admitted.now trade.buyer (V.firm buyer)) }
    {
        let _trades = market.trades();
        let ends = market.ends(t);
        let sold = (ends.seller, ends.at_seller);
        self.read_beside(market, sold, false, on, admitted, steps);
        let bought = (ends.buyer, ends.at_buyer);
        self.read_beside(market, bought, true, on, admitted, steps);
    }

    /// Takes the arcs from a node away, or those to it.
    fn cut(&mut self, rises: bool, t: u32)
        requires { t < self.old.nodes }
        ensures { IsCut rises t self.old self.new }
    {
        for k in 0..self.listed(rises, t) {
            let u = self.listed_at(rises, t, k);
            if rises {
                self.set(t, u, None);
            } else {
                self.set(u, t, None);
            }
        }
    }

    /// Lets a trade change its two firms, without arcs from and to it.
    fn detach(&mut self, t: u32)
        requires { t < self.old.nodes }
        ensures forgotten { AreForgotten (λ k. k == t) self.old self.new }
        ensures turned { IsTurned t self.old.places self.new.places }
    {
        self.turn(t);
        self.cut(true, t);
        self.cut(false, t);
    }

    /// Detaches each trade that is in one of the two sets alone.
    fn forget<V: Valuation, const W: usize>(
        &mut self,
        market: &Market<V>,
        before: &TradeSet<W>,
        on: &TradeSet<W>,
    )
        requires wide { length market.now.trades ≤ 64 * W }
        requires sized { self.old.nodes ≡ length market.now.trades + 1 }
        requires laid_out { IsLaidOut market.now.trades (has before.now) self.old.places }
        ensures forgotten { AreForgotten (is_toggled (length market.now.trades) before.now on.now) self.old self.new }
        ensures laid_out { IsLaidOut market.now.trades (has on.now) self.new.places }
    {
        for t in 0..market.trades() {
            if before.has(t) != on.has(t) {
                self.detach(t);
            }
        }
    }

    /// Turns the exchange graph at the set `before`, among the admitted trades and null, into the one at the set `on`.
    /// It asks, of the firms whose bundles differ, for a worth for each two admitted trades and one more at most, and
    /// takes no memory. The market has at most `64 * W` trades; each firm's bundle of the set `on` is possible, and
    /// twice no worth is above 10^18.
    pub fn refresh<V: Valuation, const W: usize>(
        &mut self,
        market: &Market<V>,
        before: &TradeSet<W>,
        on: &TradeSet<W>,
        admitted: &TradeSet<W>,
        steps: &mut Steps<V::Mark>,
    )
        requires wide { length market.now.trades ≤ 64 * W }
        requires graph { network_of V.firm market.now IsExchangeAmong before.now admitted.now self.old }
        requires possible { network_of V.firm market.now ArePossible on.now }
        requires small { (f : ℕ) (v : V) → slice_get market.now.firms f ≡ Some v → 2 * V.limit v ≤ most_cost }
        ensures graph { network_of V.firm market.now IsExchangeAmong on.now admitted.now self.new }
        ensures asked { steps.new ≤ steps.old
            + network_of V.firm market.now changed_worths before.now on.now admitted.now }
    {
        self.forget(market, before, on);
        for f in 0..market.firms() {
            if has_changed(market, f, before, on) {
                let asked = market.bundle_of(f, admitted);
                self.read(market, f, on, asked, steps);
            }
        }
    }
}
