//! The best bundle of a table, of which every bundle is tried: a table that doesn't meet exchange may have a bundle
//! that is better than all close ones, and is not best.

ghost use Rattle.std.specs.Prelude.{◌≡◌, Some, ◌*◌, ◌^◌, ◌<◌, ◌≤◌, pos, All, IfSome, if◌then◌else◌, length};
ghost use Rattle.tn_base.specs.Arcs.{IsAtMost};
ghost use Rattle.tn_base.specs.Firm.{IsBest, payments, utility};
ghost use Rattle.tn_base.specs.Sets.{has, sum_over};
ghost use Rattle.tn_exchange.specs.Rows.{firm_of_table};
ghost use Rattle.tn_raw_answers.specs.Stands.{Tries};
ghost use Rattle.tn_market.specs.Widths.{most_asked_price, most_own, most_utility};
ghost use Rattle.tn_model.specs.Prices.{price_at};

use crate::found::Found;
use tn_base::Bundle;
use tn_exchange::RawTable;

/// What position `k` brings in a bundle: a sale its price, a purchase less its price.
fn payment(buys: Bundle, x: Bundle, prices: &[i128], k: usize) -> i128
    requires position { k < length prices.now }
    requires few { length prices.now ≤ most_own }
    requires small { All (λ p. IsAtMost p most_asked_price) prices.now }
    ensures term { result ≡ (if has x k then payments buys (price_at prices.now) k else pos 0) }
    ensures small { IsAtMost result most_asked_price }
{
    if !x.has(k as u32) {
        0
    } else if buys.has(k as u32) {
        -prices[k]
    } else {
        prices[k]
    }
}

/// What the positions of a bundle bring at their prices.
#[tactic(auto, unfolding(tn_base::specs::Sets::sum_over))]
fn paid(buys: Bundle, x: Bundle, prices: &[i128]) -> i128
    requires few { length prices.now ≤ most_own }
    requires small { All (λ p. IsAtMost p most_asked_price) prices.now }
    ensures sum { result ≡ sum_over (payments buys (price_at prices.now)) (length prices.now) x }
    ensures small { IsAtMost result (most_own * most_asked_price) }
{
    let mut total = 0;
    for k in 0..prices.len() {
        total += payment(buys, x, prices, k);
    }
    total
}

/// The utility of a bundle of a table at the prices of its positions, none where it is impossible.
pub fn table_utility(table: &RawTable, x: Bundle, prices: &[i128]) -> Option<i128>
    requires own { x < 2 ^ length table.now.sides }
    requires priced { length prices.now ≡ length table.now.sides }
    requires small { All (λ p. IsAtMost p most_asked_price) prices.now }
    ensures value { result ≡ utility (pos 1) (price_at prices.now) (firm_of_table table.now) x }
    ensures small { IfSome result (λ value. IsAtMost value most_utility) }
{
    let _count = table.trades();
    match table.worth(x) {
        Some(worth) => Some(worth + paid(table.buys(), x, prices)),
        None => None,
    }
}

/// The better of a bundle found so far and another one: the other only where it is possible and has more.
fn better(table: &RawTable, prices: &[i128], best: Found, x: Bundle) -> Found
    requires own { x < 2 ^ length table.now.sides }
    requires priced { length prices.now ≡ length table.now.sides }
    requires small { All (λ p. IsAtMost p most_asked_price) prices.now }
    ensures { Tries (utility (pos 1) (price_at prices.now) (firm_of_table table.now)) x best result }
{
    match table_utility(table, x, prices) {
        Some(value) if value > best.value => Found { bundle: x, value },
        _ => best,
    }
}

/// The empty bundle, which is always possible.
fn start(table: &RawTable, prices: &[i128]) -> Found
    requires priced { length prices.now ≡ length table.now.sides }
    requires small { All (λ p. IsAtMost p most_asked_price) prices.now }
    ensures { utility (pos 1) (price_at prices.now) (firm_of_table table.now) result.bundle ≡ Some result.value }
{
    let bundle = Bundle::empty();
    Found {
        bundle,
        value: table_utility(table, bundle, prices).unwrap(),
    }
}

/// A best bundle of a table with its utility: every bundle is tried. It takes no memory.
pub fn best_of_table(table: &RawTable, prices: &[i128]) -> Found
    requires priced { length prices.now ≡ length table.now.sides }
    requires small { All (λ p. IsAtMost p most_asked_price) prices.now }
    ensures { IsBest (utility (pos 1) (price_at prices.now) (firm_of_table table.now)) result.bundle result.value }
{
    let mut best = start(table, prices);
    for bits in 0..table.bundles() {
        best = better(table, prices, best, Bundle::from_bits(bits));
    }
    best
}
