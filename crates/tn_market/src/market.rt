//! Markets: firms, and the trades between them.

ghost use Rattle.std.specs.Prelude.{◌≡◌, ◌*◌, ◌<◌, ◌≤◌, Some, All, IfOk, length, map, slice_get, get_or};
ghost use Rattle.tn_base.specs.Sets.{has, set_of};
ghost use Rattle.tn_model.specs.Network.{own, part, IsNetwork};
ghost use Rattle.tn_market.specs.NetworkOf.{network_of};
ghost use Rattle.tn_market.specs.Traded.{AreOwn, HasOnePlace, placed};
ghost use Rattle.tn_market.specs.Widths.{most_market_firms, most_market_trades};

use crate::valuation::Valuation;
use std::alloc::Global;
use std::marker::Model;
use tn_base::{Bundle, OutOfMemory, TradeSet};
use tn_model::Ends;

/// Firms and the trades between them, which fit together: at most 2,048 of each.
///
/// Contracts see the list of the firms and the list of the ends of the trades. That they are a network is a clause of
/// `firms` and of `trades`.
#[derive(Drop)]
pub struct Market<V: Valuation> {
    firms: Vec<V>,
    trades: Vec<Ends>,
    /// The trades of each firm, in the order of its positions.
    own: Vec<Vec<u32>>,
}

impl<V: Valuation> Model for Market<V> {
    ghost use Rattle.std.specs.Prelude.{map};
    ghost use Rattle.tn_market.specs.Traded.{Traded, IsMarket};

    ghost Value = { Traded V };

    ghost view = { λ market. record { firms = market.firms.items; trades = market.trades.items } };

    ghost invariant = { λ market. IsMarket (map V.firm market.firms.items) market.trades.items
        (map (λ list. list.items) market.own.items) };
}

impl<V: Valuation> Market<V> {
    /// How many firms there are.
    pub fn firms(&self) -> u32
        ensures count { result ≡ length self.now.firms }
        ensures few { result ≤ most_market_firms }
        ensures network { network_of V.firm self.now IsNetwork }
    {
        self.firms.len() as u32
    }

    /// How many trades there are.
    pub fn trades(&self) -> u32
        ensures count { result ≡ length self.now.trades }
        ensures few { result ≤ most_market_trades }
        ensures network { network_of V.firm self.now IsNetwork }
    {
        self.trades.len() as u32
    }

    /// The ends of trade `t`. It is one of the market.
    pub fn ends(&self, t: u32) -> Ends
        requires { t < length self.now.trades }
        ensures { slice_get self.now.trades t ≡ Some result }
    {
        self.trades[t as usize]
    }

    /// Firm `f`. It is one of the market.
    pub fn firm(&self, f: u32) -> &V
        requires { f < length self.now.firms }
        ensures { slice_get self.now.firms f ≡ Some result.now }
    {
        &self.firms[f as usize]
    }

    /// The trade at position `k` of firm `f`. Both are there.
    pub fn own(&self, f: u32, k: u32) -> u32
        requires firm { f < length self.now.firms }
        requires position { (v : V) → slice_get self.now.firms f ≡ Some v → k < (V.firm v).count }
        ensures trade { result ≡ own self.now.trades f k }
        ensures inside { result < length self.now.trades }
    {
        let own = &self.own[f as usize];
        own[k as usize]
    }

    /// The bundle that firm `f` has of a set of trades. The market has at most `64 * W` trades, and the firm is one of
    /// it.
    pub fn bundle_of<const W: usize>(&self, f: u32, on: &TradeSet<W>) -> Bundle
        requires wide { length self.now.trades ≤ 64 * W }
        requires firm { f < length self.now.firms }
        ensures { (v : V) → slice_get self.now.firms f ≡ Some v
            → result ≡ part self.now.trades f (V.firm v).count on.now }
    {
        positions_in(&self.own[f as usize], on)
    }
}

/// The positions of the trades that are in the set.
#[tactic(auto, unfolding(tn_base::specs::Sets::set_of))]
fn positions_in<const W: usize>(own: &[u32], on: &TradeSet<W>) -> Bundle
    requires few { length own.now ≤ 64 }
    requires inside { All (λ t. t < 64 * W) own.now }
    ensures { result ≡ set_of (λ k. has on.now (get_or own.now k 0)) (length own.now) }
{
    let mut bundle = Bundle::empty();
    for (k, trade) in own.iter().enumerate() {
        if on.has(*trade) {
            bundle = bundle.toggle(k as u32);
        }
    }
    bundle
}

/// The trades of firm `f`, in the order of its `n` positions. It fails only where memory runs out.
fn own_trades(alloc: Global, trades: &[Ends], f: u32, n: u32) -> Result<Vec<u32>, OutOfMemory>
    requires few { length trades.now ≤ most_market_trades }
    requires placed { HasOnePlace trades.now f n }
    ensures { IfOk result (λ own. AreOwn trades.now f n own.items) }
{
    let mut own = vec![in alloc; 0; n as usize]?;
    for (t, trade) in trades.iter().enumerate() {
        place(&mut own, f, t as u32, *trade);
    }
    Ok(own)
}

/// Writes the number of a trade where the trade stands at firm `f`, if it stands there.
fn place(own: &mut [u32], f: u32, t: u32, trade: Ends)
    requires sold { trade.seller ≡ f → trade.at_seller < length own.old }
    requires bought { trade.buyer ≡ f → trade.at_buyer < length own.old }
    ensures { own.new ≡ placed trade f t own.old }
{
    if trade.seller == f {
        own[trade.at_seller as usize] = t;
    }
    if trade.buyer == f {
        own[trade.at_buyer as usize] = t;
    }
}

impl<V: Valuation + Drop> Market<V> {
    /// The market of these firms and trades. It fails only where memory runs out. There are at most 2,048 firms and
    /// 2,048 trades, which fit together: the two ends of a trade are different firms of the list, and each firm has as
    /// many own trades as ends, on the sides that the ends say.
    pub fn new(alloc: Global, firms: Vec<V>, trades: Vec<Ends>) -> Result<Market<V>, OutOfMemory>
        requires few_firms { length firms.items ≤ most_market_firms }
        requires few_trades { length trades.items ≤ most_market_trades }
        requires network { IsNetwork (map V.firm firms.items) trades.items }
        ensures { IfOk result (λ market. market ≡ record { firms = firms.items; trades = trades.items }) }
    {
        let mut own = Vec::with_capacity(alloc, firms.len())?;
        for (f, firm) in firms.iter().enumerate() {
            own.push(own_trades(alloc, &trades, f as u32, firm.trades())?)?;
        }
        Ok(Market { firms, trades, own })
    }
}
