//! The trades of a firm's bundle.

ghost use Rattle.std.specs.Prelude.{◌≡◌, ◌<◌, IfOk, Some, length, slice_get};
ghost use Rattle.tn_model.specs.Network.{trades_of};

use std::alloc::Global;
use tn_base::{Bundle, OutOfMemory};
use tn_market::{Market, Trades, Valuation};

/// The trades of firm `f` in a bundle, in the order of their positions. It fails only where memory runs out.
pub fn trades_in<V: Valuation>(
    alloc: Global,
    market: &Market<V>,
    f: u32,
    bundle: Bundle,
) -> Result<Trades, OutOfMemory>
    requires { f < length market.now.firms }
    ensures { IfOk result (λ trades. (v : V) → slice_get market.now.firms f ≡ Some v
        → trades ≡ trades_of market.now.trades f (V.firm v).count bundle) }
{
    let mut trades = Vec::new(alloc);
    for k in 0..market.firm(f).trades() {
        if bundle.has(k) {
            trades.push(market.own(f, k))?;
        }
    }
    Ok(Trades::from_vec(trades))
}
