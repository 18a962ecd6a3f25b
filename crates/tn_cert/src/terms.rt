//! The best prices at which a firm can have its trades from a list of contracts.

ghost use Rattle.std.specs.Prelude.{◌≡◌, ◌<◌, length, slice_get, All, Some};
ghost use Rattle.tn_base.specs.Arcs.{IsAtMost};
ghost use Rattle.tn_cert.specs.Terms.{better, FindsTerm, HasTerms};
ghost use Rattle.tn_market.specs.Limits.{IsWithinLimits};
ghost use Rattle.tn_market.specs.Widths.{most_asked_price};

use tn_base::Bundle;
use tn_market::{Contracts, MOST_OWN, Market, Valuation};

/// The better of a price that was found and one more: the lower one for a buyer, the higher one for a seller.
fn better(buys: bool, best: Option<i128>, price: i128) -> i128
    ensures { result ≡ better buys best price }
{
    match best {
        Some(best) if buys => best.min(price),
        Some(best) => best.max(price),
        None => price,
    }
}

/// The best price for trade `t` among contracts without the one that is left out, None exactly where none is on it.
fn best_term(contracts: &Contracts, left_out: Option<usize>, t: u32, buys: bool) -> Option<i128>
    ensures { FindsTerm contracts.now left_out t buys (length contracts.now) result }
{
    let mut best = None;
    for k in 0..contracts.len() {
        let contract = contracts.at(k);
        if contract.trade == t && left_out != Some(k) {
            best = Some(better(buys, best, contract.price));
        }
    }
    best
}

/// The positions of a firm at which a contract is offered, and the best prices there: those of other positions are 0.
#[derive(Drop)]
pub(crate) struct Terms {
    pub(crate) free: Bundle,
    pub(crate) prices: [i128; MOST_OWN],
}

/// The terms that firm `f` can have from contracts without the one that is left out.
pub(crate) fn terms_of<V: Valuation>(
    market: &Market<V>,
    contracts: &Contracts,
    left_out: Option<usize>,
    f: u32,
) -> Terms
    requires limits { IsWithinLimits V.firm V.limit market.now }
    requires firm { f < length market.now.firms }
    requires small { All (λ contract. IsAtMost contract.price most_asked_price) contracts.now }
    ensures { (v : V) → slice_get market.now.firms f ≡ Some v
        → HasTerms market.now.trades contracts.now left_out f (V.firm v).count result.free result.prices }
{
    let mut free = Bundle::empty();
    let mut prices = [0; MOST_OWN];
    for k in 0..market.firm(f).trades() {
        let t = market.own(f, k);
        let buys = market.ends(t).buyer == f;
        if let Some(price) = best_term(contracts, left_out, t, buys) {
            free = free.toggle(k);
            prices[k as usize] = price;
        }
    }
    Terms { free, prices }
}
