//! The contracts that a firm takes whatever it chooses.

ghost use Rattle.std.specs.Prelude.{◌≡◌, ◌<◌, ◌≤◌, pos, ◌≤ℤ◌, length, slice_get, All, Some, None};
ghost use Rattle.tn_base.specs.Arcs.{IsAtMost};
ghost use Rattle.tn_cert.specs.Greatest.{DecidesLeave, DecidesOwn, FindsLeft, IsGreatest};
ghost use Rattle.tn_model.specs.Choices.{is_end};
ghost use Rattle.tn_market.specs.Limits.{IsWithinLimits};
ghost use Rattle.tn_market.specs.Widths.{most_asked_price, most_scale, most_utility};
ghost use Rattle.tn_model.specs.Network.{IsNetwork};
ghost use Rattle.tn_market.specs.NetworkOf.{network_of};

use crate::least::earlier;
use crate::terms::terms_of;
use tn_market::{Contracts, Ends, Market, Oracle};

/// The greatest utility that firm `f` has by a part of the contracts without the one that is left out. The search
/// begins at all of these. It takes no memory.
fn greatest_utility<V: Oracle>(
    market: &Market<V>,
    contracts: &Contracts,
    scale: i128,
    left_out: Option<usize>,
    f: u32,
) -> i128
    requires limits { IsWithinLimits V.firm V.limit market.now }
    requires network { network_of V.firm market.now IsNetwork }
    requires firm { f < length market.now.firms }
    requires small { All (λ contract. IsAtMost contract.price most_asked_price) contracts.now }
    requires from_one { pos 1 ≤ℤ scale }
    requires small_scale { scale ≤ℤ pos most_scale }
    ensures greatest { (v : V) → slice_get market.now.firms f ≡ Some v
        → IsGreatest market.now.trades scale f (V.firm v) contracts.now left_out result }
    ensures size { IsAtMost result most_utility }
{
    let terms = terms_of(market, contracts, left_out, f);
    let firm = market.firm(f);
    let prices = &terms.prices[..firm.trades() as usize];
    let best = firm.best_from(terms.free, terms.free, scale, prices);
    best.1
}

/// Whether some choice of firm `f` lacks the contract with index `k`. It takes no memory.
fn may_leave<V: Oracle>(
    market: &Market<V>,
    contracts: &Contracts,
    scale: i128,
    k: usize,
    f: u32,
) -> bool
    requires limits { IsWithinLimits V.firm V.limit market.now }
    requires network { network_of V.firm market.now IsNetwork }
    requires firm { f < length market.now.firms }
    requires small { All (λ contract. IsAtMost contract.price most_asked_price) contracts.now }
    requires from_one { pos 1 ≤ℤ scale }
    requires small_scale { scale ≤ℤ pos most_scale }
    ensures { (v : V) → slice_get market.now.firms f ≡ Some v
        → DecidesLeave market.now.trades scale f (V.firm v) contracts.now k result }
{
    let best = greatest_utility(market, contracts, scale, None, f);
    best == greatest_utility(market, contracts, scale, Some(k), f)
}

/// Whether firm `f` is one of the two ends.
fn is_end(f: u32, trade: Ends) -> bool
    ensures { result ≡ is_end f trade }
{
    trade.seller == f || trade.buyer == f
}

/// Whether the contract with index `k` is one of firm `f` that some choice of it lacks. It takes no memory.
fn leaves<V: Oracle>(
    market: &Market<V>,
    contracts: &Contracts,
    scale: i128,
    k: usize,
    f: u32,
) -> bool
    requires limits { IsWithinLimits V.firm V.limit market.now }
    requires network { network_of V.firm market.now IsNetwork }
    requires firm { f < length market.now.firms }
    requires known { All (λ contract. contract.trade < length market.now.trades) contracts.now }
    requires small { All (λ contract. IsAtMost contract.price most_asked_price) contracts.now }
    requires inside { k < length contracts.now }
    requires from_one { pos 1 ≤ℤ scale }
    requires small_scale { scale ≤ℤ pos most_scale }
    ensures { (v : V) → slice_get market.now.firms f ≡ Some v
        → DecidesOwn market.now.trades scale f (V.firm v) contracts.now k result }
{
    let trade = contracts.at(k).trade;
    is_end(f, market.ends(trade)) && may_leave(market, contracts, scale, k, f)
}

/// The first trade of those of the first `n` contracts that are contracts of firm `f` and that some choice of it lacks.
/// It takes no memory.
pub(crate) fn first_left<V: Oracle>(
    market: &Market<V>,
    contracts: &Contracts,
    scale: i128,
    n: usize,
    f: u32,
) -> Option<u32>
    requires limits { IsWithinLimits V.firm V.limit market.now }
    requires network { network_of V.firm market.now IsNetwork }
    requires firm { f < length market.now.firms }
    requires known { All (λ contract. contract.trade < length market.now.trades) contracts.now }
    requires small { All (λ contract. IsAtMost contract.price most_asked_price) contracts.now }
    requires first { n ≤ length contracts.now }
    requires from_one { pos 1 ≤ℤ scale }
    requires small_scale { scale ≤ℤ pos most_scale }
    ensures { (v : V) → slice_get market.now.firms f ≡ Some v
        → FindsLeft market.now.trades scale f (V.firm v) contracts.now n result }
{
    let mut first = None;
    for k in 0..n {
        if leaves(market, contracts, scale, k, f) {
            first = Some(earlier(first, contracts.at(k).trade));
        }
    }
    first
}
