//! The trades at the positions of a firm.

ghost use Rattle.std.specs.Prelude.{◌≡◌, ℕ, ◌*◌, ◌<◌, ◌≤◌, length, IfOk};
ghost use Rattle.tn_model.specs.Network.{own, part, stands_at, trades_of};
ghost use Rattle.tn_model.specs.Limits.{most_trades};

use crate::ends::Ends;
use std::alloc::Global;
use tn_base::{Bundle, OutOfMemory, TradeSet};

/// The trade at position `k` of firm `f`. There are at most 1,024 trades.
pub fn own(ends: &[Ends], f: u32, k: u32) -> u32
    requires { length ends.now ≤ most_trades }
    ensures { result ≡ own ends.now f k }
{
    let mut t = 0;
    for trade in ends {
        if stands_at(trade, f, k) {
            return t;
        }
        t += 1;
    }
    t
}

fn stands_at(trade: &Ends, f: u32, k: u32) -> bool
    ensures { result ≡ stands_at trade.now f k }
{
    (trade.seller == f && trade.at_seller == k) || (trade.buyer == f && trade.at_buyer == k)
}

/// The bundle that firm `f`, which has `count` trades, has of a set of trades. There are at most 1,024 trades, and at most
/// `64 * W`.
#[tactic(auto, unfolding(tn_base::specs::Sets::set_of))]
pub fn bundle_of<const W: usize>(ends: &[Ends], on: &TradeSet<W>, f: u32, count: u32) -> Bundle
    requires few { length ends.now ≤ most_trades }
    requires wide { length ends.now ≤ 64 * W }
    requires count { count ≤ 64 }
    requires placed { (k : ℕ) → k < count → own ends.now f k < length ends.now }
    ensures { result ≡ part ends.now f count on.now }
{
    let mut bundle = Bundle::empty();
    for k in 0..count {
        if on.has(own(ends, f, k)) {
            bundle = bundle.toggle(k);
        }
    }
    bundle
}

/// The trades of firm `f` in a bundle, ascending.
pub fn trades_of(
    alloc: Global,
    ends: &[Ends],
    f: u32,
    count: u32,
    bundle: Bundle,
) -> Result<Vec<u32>, OutOfMemory>
    requires few { length ends.now ≤ most_trades }
    requires count { count ≤ 64 }
    ensures { IfOk result (λ trades. trades.items ≡ trades_of ends.now f count bundle) }
{
    let mut trades = Vec::new(alloc);
    for k in 0..count {
        if bundle.has(k) {
            trades.push(own(ends, f, k))?;
        }
    }
    Ok(trades)
}
