//! Where the trades of a market stand in the blocks of its firms.

ghost use Rattle.std.specs.Prelude.{◌≡◌, ◌+◌, ◌*◌, ◌<◌, ◌≤◌, not, if◌then◌else◌, Some, length, map, slice_get};
ghost use Rattle.tn_base.specs.Sets.{has};
ghost use Rattle.tn_model.specs.Network.{IsNetwork};
ghost use Rattle.tn_market.specs.NetworkOf.{network_of};
ghost use Rattle.tn_market.specs.Widths.{most_market_trades};
ghost use Rattle.tn_graph.specs.Layout.{spot_for, IsLaidTo};

use crate::spot::Spot;
use tn_base::{Side, TradeSet};
use tn_market::{Market, Valuation};

/// The place of each trade in the block of the firm that it raises and of the one that it lowers, and the own trades of
/// the firms, one firm after another.
#[derive(Drop)]
pub struct Places {
    pub raised: Vec<Spot>,
    pub lowered: Vec<Spot>,
    pub own: Vec<u32>,
}

/// Whether the trade at position `k` of a firm raises it, while it is on or not.
#[tactic(auto, unfolding(tn_market::specs::Valued::side_at))]
fn rises<V: Valuation>(firm: &V, k: u32, is_on: bool) -> bool
    requires { k < (V.firm firm.now).count }
    ensures { result ≡ (if has (V.firm firm.now).buys k then not is_on else is_on) }
{
    match firm.side(k) {
        Side::Buy => !is_on,
        Side::Sell => is_on,
    }
}

impl Places {
    /// Writes the place of the trade at a position of firm `f`.
    fn lay_trade<V: Valuation, const W: usize>(
        &mut self,
        market: &Market<V>,
        on: &TradeSet<W>,
        f: u32,
        spot: Spot,
    )
        requires wide { length market.now.trades ≤ 64 * W }
        requires network { network_of V.firm market.now IsNetwork }
        requires firm { f < length market.now.firms }
        requires position { (v : V) → slice_get market.now.firms f ≡ Some v → spot.position < (V.firm v).count }
        requires spot { (v : V) → slice_get market.now.firms f ≡ Some v
            → spot ≡ spot_for (map V.firm market.now.firms) f (V.firm v).count spot.position }
        requires laid { network_of V.firm market.now IsLaidTo on.now f spot.position self.old.raised.items
            self.old.lowered.items self.old.own.items }
        ensures { network_of V.firm market.now IsLaidTo on.now f (spot.position + 1) self.new.raised.items
            self.new.lowered.items self.new.own.items }
    {
        let firm = market.firm(f);
        let t = market.own(f, spot.position);
        self.own[spot.own as usize + spot.position as usize] = t;
        if rises(firm, spot.position, on.has(t)) {
            self.raised[t as usize] = spot;
        } else {
            self.lowered[t as usize] = spot;
        }
    }

    /// Writes the places of the own trades of firm `f`, whose block is given by its first place.
    fn lay_firm<V: Valuation, const W: usize>(
        &mut self,
        market: &Market<V>,
        on: &TradeSet<W>,
        f: u32,
        first: Spot,
    )
        requires wide { length market.now.trades ≤ 64 * W }
        requires network { network_of V.firm market.now IsNetwork }
        requires firm { f < length market.now.firms }
        requires first { (v : V) → slice_get market.now.firms f ≡ Some v
            → first ≡ spot_for (map V.firm market.now.firms) f (V.firm v).count 0 }
        requires laid { network_of V.firm market.now IsLaidTo on.now f 0 self.old.raised.items
            self.old.lowered.items self.old.own.items }
        ensures { network_of V.firm market.now IsLaidTo on.now f first.count self.new.raised.items
            self.new.lowered.items self.new.own.items }
    {
        for position in 0..first.count {
            self.lay_trade(market, on, f, Spot { position, ..first });
        }
    }

    /// Writes the places of all trades, where those of a set are on: block after block.
    pub fn lay_out<V: Valuation, const W: usize>(&mut self, market: &Market<V>, on: &TradeSet<W>)
        requires wide { length market.now.trades ≤ 64 * W }
        requires few { length market.now.trades ≤ most_market_trades }
        requires raised { length self.old.raised.items ≡ length market.now.trades + 1 }
        requires lowered { length self.old.lowered.items ≡ length market.now.trades + 1 }
        requires own { length self.old.own.items ≡ 2 * (length market.now.trades + 1) }
        ensures { network_of V.firm market.now IsLaidTo on.now (length market.now.firms) 0 self.new.raised.items
            self.new.lowered.items self.new.own.items }
    {
        let mut start = 0;
        let mut own = 0;
        for f in 0..market.firms() {
            let count = market.firm(f).trades();
            let first = Spot {
                start,
                count,
                own,
                position: 0,
            };
            self.lay_firm(market, on, f, first);
            start += count * (count + 2);
            own += count;
        }
    }
}
