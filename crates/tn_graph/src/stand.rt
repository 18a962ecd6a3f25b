//! How a firm stands at a set of trades, and what its arcs cost.

ghost use Rattle.std.specs.Prelude.{◌≡◌, ℕ, ◌+◌, ◌*◌, ◌^◌, ◌≤◌, ◌<◌, ◌==◌, ◌&&◌, Some, IfSome, length, slice_get};
ghost use Rattle.tn_base.specs.Arcs.{IsAtMost};
ghost use Rattle.tn_base.specs.Widths.{most_cost};
ghost use Rattle.tn_base.specs.Sets.{has};
ghost use Rattle.tn_firm_laws.specs.Places.{trade_level, toggle_at};
ghost use Rattle.tn_market.specs.ArcPlaces.{node_at};
ghost use Rattle.tn_market.specs.Graph.{loss, ArePossible};
ghost use Rattle.tn_model.specs.Network.{IsNetwork};
ghost use Rattle.tn_market.specs.NetworkOf.{network_of};
ghost use Rattle.tn_graph.specs.Reading.{IsStand, has_level, partners};

use tn_base::{Bundle, Side, Steps, TradeSet};
use tn_market::{Market, Valuation};

/// A firm with its bundle of a set of trades, and what that is worth. The firm's places are its positions and, after
/// them, null.
#[derive(Drop)]
pub struct Stand<'a, V: Valuation, const W: usize> {
    pub market: &'a Market<V>,
    pub on: &'a TradeSet<W>,
    /// The number of the firm.
    pub f: u32,
    pub firm: &'a V,
    /// How many trades are its own.
    pub count: u32,
    pub bundle: Bundle,
    pub worth: i128,
    /// The positions whose arcs are asked for.
    pub asked: Bundle,
}

/// A bundle of at most 64 positions toggled at a place: at null it stays.
#[tactic(auto, unfolding(tn_firm_laws::specs::Places::toggle_at))]
fn toggled(x: Bundle, count: u32, k: u32) -> Bundle
    requires { count ≤ 64 }
    ensures { result ≡ toggle_at count x k }
{
    if k < count { x.toggle(k) } else { x }
}

impl<'a, V: Valuation, const W: usize> Stand<'a, V, W> {
    /// How firm `f` stands. It asks for one worth.
    pub fn new(
        market: &'a Market<V>,
        f: u32,
        on: &'a TradeSet<W>,
        asked: Bundle,
        steps: &mut Steps<V::Mark>,
    ) -> Stand<'a, V, W>
        requires wide { length market.now.trades ≤ 64 * W }
        requires network { network_of V.firm market.now IsNetwork }
        requires firm { f < length market.now.firms }
        requires possible { network_of V.firm market.now ArePossible on.now }
        requires small { (g : ℕ) (v : V) → slice_get market.now.firms g ≡ Some v → 2 * V.limit v ≤ most_cost }
        ensures market { result.market.now ≡ market.now }
        ensures on { result.on.now ≡ on.now }
        ensures number { result.f ≡ f }
        ensures firm { slice_get market.now.firms f ≡ Some result.firm.now }
        ensures asked_for { result.asked ≡ asked }
        ensures stand { network_of V.firm market.now IsStand on.now f result.count (V.firm result.firm.now)
            (V.limit result.firm.now) result.bundle result.worth }
        ensures asked { steps.new ≡ steps.old + 1 }
    {
        let firm = market.firm(f);
        let bundle = market.bundle_of(f, on);
        Stand {
            market,
            on,
            f,
            firm,
            count: firm.trades(),
            bundle,
            worth: firm.value(bundle, steps).unwrap(),
            asked,
        }
    }

    /// The node of a place.
    pub fn node(&self, k: u32) -> u32
        requires stand { network_of V.firm self.now.market.now IsStand self.now.on.now self.now.f self.now.count
            (V.firm self.now.firm.now) (V.limit self.now.firm.now) self.now.bundle self.now.worth }
        ensures { result ≡ node_at self.now.market.now.trades self.now.f self.now.count k }
    {
        if k < self.count {
            self.market.own(self.f, k)
        } else {
            self.market.trades()
        }
    }

    /// Whether a position has level 1.
    #[tactic(auto, unfolding(tn_firm_laws::specs::Places::trade_level))]
    fn is_high(&self, k: u32) -> bool
        requires stand { network_of V.firm self.now.market.now IsStand self.now.on.now self.now.f self.now.count
            (V.firm self.now.firm.now) (V.limit self.now.firm.now) self.now.bundle self.now.worth }
        requires own { k < self.now.count }
        ensures { result ≡ (trade_level (V.firm self.now.firm.now).buys self.now.bundle k == 1) }
    {
        match self.firm.side(k) {
            Side::Buy => self.bundle.has(k),
            Side::Sell => !self.bundle.has(k),
        }
    }

    /// Whether a position is asked for and has level 1, or hasn't.
    pub fn is_partner(&self, k: u32, high: bool) -> bool
        requires stand { network_of V.firm self.now.market.now IsStand self.now.on.now self.now.f self.now.count
            (V.firm self.now.firm.now) (V.limit self.now.firm.now) self.now.bundle self.now.worth }
        requires own { k < self.now.count }
        ensures { result
            ≡ (has self.now.asked k && has_level (V.firm self.now.firm.now).buys self.now.bundle high k) }
    {
        self.asked.has(k) && self.is_high(k) == high
    }

    /// The positions that are asked for and can be lowered, or raised.
    pub fn partners(&self, high: bool) -> Bundle
        requires stand { network_of V.firm self.now.market.now IsStand self.now.on.now self.now.f self.now.count
            (V.firm self.now.firm.now) (V.limit self.now.firm.now) self.now.bundle self.now.worth }
        ensures { result ≡ partners (V.firm self.now.firm.now).buys self.now.bundle self.now.asked high
            self.now.count }
    {
        let mut found = Bundle::empty();
        for k in 0..self.count {
            if self.is_partner(k, high) {
                found = found.toggle(k);
            }
        }
        found
    }

    /// The bundle toggled at a place.
    pub fn toggled_at(&self, k: u32) -> Bundle
        requires stand { network_of V.firm self.now.market.now IsStand self.now.on.now self.now.f self.now.count
            (V.firm self.now.firm.now) (V.limit self.now.firm.now) self.now.bundle self.now.worth }
        ensures toggled { result ≡ toggle_at self.now.count self.now.bundle k }
        ensures own { result < 2 ^ (V.firm self.now.firm.now).count }
    {
        toggled(self.bundle, self.count, k)
    }

    /// What the firm loses by a bundle of this worth, None where it is impossible.
    pub fn loss(&self, worth: Option<i128>) -> Option<i128>
        requires stand { network_of V.firm self.now.market.now IsStand self.now.on.now self.now.f self.now.count
            (V.firm self.now.firm.now) (V.limit self.now.firm.now) self.now.bundle self.now.worth }
        requires small { IfSome worth (λ a. IsAtMost a (V.limit self.now.firm.now)) }
        ensures loss { (y : ℕ) → worth ≡ (V.firm self.now.firm.now).worth y
            → result ≡ loss (V.firm self.now.firm.now) self.now.bundle y }
        ensures small { IfSome result (λ c. IsAtMost c most_cost) }
    {
        let worth = worth?;
        Some(self.worth - worth)
    }
}
