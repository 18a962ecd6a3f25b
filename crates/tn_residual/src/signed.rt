//! Contracts by their trades.

ghost use Rattle.std.specs.Prelude.{◌≡◌, ◌*◌, ◌<◌, ◌≤◌, length, slice_get, Some};
ghost use Rattle.tn_base.specs.Widths.{most_limbs};
ghost use Rattle.tn_market.specs.Limits.{IsOutcomeOf, IsWithinLimits};
ghost use Rattle.tn_market.specs.Signed.{signed};
ghost use Rattle.tn_residual.specs.Held.{contract_price, HoldsSigned};

use tn_base::{Bundle, TradeSet};
use tn_market::{Contracts, MOST_OWN, Market, Outcome, Valuation};

/// The price of the contract on trade `t`, None exactly where the trade isn't signed.
pub fn contract_price(contracts: &Contracts, t: u32) -> Option<i128>
    ensures { result ≡ contract_price contracts.now t }
{
    for k in 0..contracts.len() {
        let contract = contracts.at(k);
        if contract.trade == t {
            return Some(contract.price);
        }
    }
    None
}

/// Which of the first `count` trades are signed. There are at most `64 * W` of them.
#[tactic(auto, unfolding(tn_base::specs::Sets::set_of))]
pub fn signed_trades<const W: usize>(contracts: &Contracts, count: u32) -> TradeSet<W>
    requires width { W ≤ most_limbs }
    requires wide { count ≤ 64 * W }
    ensures { result ≡ signed count contracts.now }
{
    let mut on = TradeSet::empty();
    for t in 0..count {
        if contract_price(contracts, t).is_some() {
            on.toggle(t);
        }
    }
    on
}

/// The signed positions of a firm, and the prices of all its positions: those of unsigned ones are 0.
#[derive(Drop)]
pub struct Held {
    pub signed: Bundle,
    pub prices: [i128; MOST_OWN],
}

/// What firm `f` has signed.
pub fn signed_by<V: Valuation>(market: &Market<V>, f: u32, outcome: &Outcome) -> Held
    requires limits { IsWithinLimits V.firm V.limit market.now }
    requires outcome { IsOutcomeOf market.now.trades outcome.now.over outcome.now.contracts }
    requires firm { f < length market.now.firms }
    ensures { (v : V) → slice_get market.now.firms f ≡ Some v
        → HoldsSigned market.now.trades outcome.now.contracts f (V.firm v).count result.signed result.prices }
{
    let mut signed = Bundle::empty();
    let mut prices = [0; MOST_OWN];
    for k in 0..market.firm(f).trades() {
        if let Some(price) = contract_price(&outcome.contracts, market.own(f, k)) {
            signed = signed.toggle(k);
            prices[k as usize] = price;
        }
    }
    Held { signed, prices }
}
