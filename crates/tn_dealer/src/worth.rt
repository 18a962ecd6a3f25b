//! What a bundle is worth. The search hands over a certificate, which is tested; where it shows nothing, the definition
//! is followed pair by pair (certifying algorithms: McConnell, Mehlhorn, Näher and Schweitzer, 2011).

ghost use Rattle.std.specs.Prelude.{◌≡◌, ◌+◌, ◌*◌, ◌^◌, ◌<◌, ◌≤◌, ◌<ℤ◌, ◌+ℤ◌, ◌-ℤ◌, ◌↔◌, IsTrue, true, false, pos, neg_ℤ, if◌then◌else◌, length, drop, option_map, IfSome};
ghost use Rattle.tn_base.specs.Arcs.{IsAtMost};
ghost use Rattle.tn_base.specs.Sets.{has, sum_over};
ghost use Rattle.tn_market.specs.Reduced.{greater};
ghost use Rattle.tn_dealer.specs.Pairs.{matched_worth};
ghost use Rattle.tn_dealer.specs.Certificates.{KeepsAt, KeepsBeside, KeepsPairs, MayTake};
ghost use Rattle.tn_market.specs.OwnNumbers.{own_number};
ghost use Rattle.tn_dealer.specs.Costs.{far};
ghost use Rattle.tn_firm_laws.specs.Worths.{IsWorth};
ghost use Rattle.tn_base.specs.Widths.{most_amount};
ghost use Rattle.tn_market.specs.Widths.{most_worth, most_own};

use crate::costs::{CELLS, POSITIONS, UNLISTED, place};
use crate::dealer::Dealer;
use crate::search::{Certificate, Mates, search};
use tn_base::Bundle;

impl Dealer {
    /// Whether a bundle has as many purchases as sales: any other is impossible.
    pub(crate) fn is_even(&self, x: Bundle) -> bool
        ensures { result ≡ false → None ≡ matched_worth self.now.pairs.items x }
    {
        x.net(self.buys) == 0
    }

    /// What a bundle of own trades is worth, None where it is impossible.
    pub(crate) fn worth(&self, x: Bundle) -> Option<i128>
        ensures { result ≡ matched_worth self.now.pairs.items x }
    {
        if !self.is_even(x) {
            return None;
        }
        match self.shown(x, &search(&self.costs, self.trades as usize, x, self.buys)) {
            Some(worth) => worth,
            None => self.worth_from(0, x),
        }
    }

    /// The worth that what was found shows, None where it shows nothing.
    fn shown(&self, x: Bundle, found: &Certificate) -> Option<Option<i128>>
        ensures { IfSome result (λ worth. worth ≡ matched_worth self.now.pairs.items x) }
    {
        let sum = sum(x, self.trades as usize, &found.numbers);
        if !found.matched {
            return if 0 < sum && self.keeps(x, &found.numbers, false) {
                Some(None)
            } else {
                None
            };
        }
        let (bundle, cost) = self.taken(&found.mates);
        if bundle == x && cost == sum && self.keeps(x, &found.numbers, true) {
            Some(Some(-cost))
        } else {
            None
        }
    }

    /// Whether the numbers of no pair within the bundle sum to more than its cost, or than 0 where costs don't count.
    pub(crate) fn keeps(&self, x: Bundle, numbers: &[i64; POSITIONS], priced: bool) -> bool
        ensures { result ≡ true → KeepsPairs priced (own_number numbers.now) x self.now.pairs.items }
    {
        let purchases = x.meet(self.buys);
        let sales = x.minus(self.buys);
        let trades = self.trades as usize;
        for buy in 0..trades {
            if !keeps_beside(&self.costs, trades, buy, purchases, sales, numbers, priced) {
                return false;
            }
        }
        true
    }

    /// The bundle that the mates match by listed pairs, and what these cost together.
    pub(crate) fn taken(&self, mates: &Mates) -> (Bundle, i128)
        ensures worth { IsWorth (matched_worth self.now.pairs.items) result.0 (neg_ℤ result.1) }
        ensures small { IsAtMost result.1 (most_own * most_amount) }
    {
        let mut bundle = Bundle::empty();
        let mut cost = 0;
        for k in 0..self.trades as usize {
            (bundle, cost) = take_in(&self.costs, mates.pair_at(k), bundle, cost);
        }
        (bundle, cost)
    }

    /// What the bundle is worth by the pairs from a place on.
    fn worth_from(&self, from: usize, x: Bundle) -> Option<i128>
        requires { from ≤ length self.now.pairs.items }
        ensures worth { result ≡ matched_worth (drop from self.now.pairs.items) x }
        ensures small { IfSome result (λ a. IsAtMost a most_worth) }
    {
        if from == self.pairs.len() {
            return if x == Bundle::empty() { Some(0) } else { None };
        }
        let pair = self.pairs[from];
        let without = self.worth_from(from + 1, x);
        if x.has(pair.buy) && x.has(pair.sell) {
            let rest = self.worth_from(from + 1, x.toggle(pair.buy).toggle(pair.sell));
            greater(without, less(rest, pair.cost))
        } else {
            without
        }
    }
}

/// The sum of the numbers of a bundle's positions, of so many trades.
fn sum(x: Bundle, trades: usize, numbers: &[i64; POSITIONS]) -> i128
    requires few { trades ≤ most_own }
    ensures sum { result ≡ sum_over (own_number numbers.now) trades x }
    ensures small { IsAtMost result (most_own * 2 ^ 63) }
{
    let mut total = 0;
    for k in 0..trades {
        total += number_in(x, numbers, k);
    }
    total
}

/// The number of a position that is in the bundle, else 0.
fn number_in(x: Bundle, numbers: &[i64; POSITIONS], k: usize) -> i128
    requires { k < most_own }
    ensures term { result ≡ (if has x k then own_number numbers.now k else pos 0) }
    ensures small { IsAtMost result (2 ^ 63) }
{
    if x.has(k as u32) {
        i128::from(numbers[k])
    } else {
        0
    }
}

/// Whether the numbers of a purchase and of each of these sales, all among so many trades, sum to at most the cost of
/// their pair, or to at most 0 where costs don't count, if the purchase is one of these and the pair is listed.
fn keeps_beside(
    costs: &[i32; CELLS],
    trades: usize,
    buy: usize,
    purchases: Bundle,
    sales: Bundle,
    numbers: &[i64; POSITIONS],
    priced: bool,
) -> bool
    requires few { trades ≤ most_own }
    requires own { buy < trades }
    ensures { result ≡ true → has purchases buy ≡ true
        → KeepsBeside priced costs.now (own_number numbers.now) sales buy trades }
{
    if !purchases.has(buy as u32) {
        return true;
    }
    for sell in 0..trades {
        if breaks(costs, buy, sell, sales, numbers, priced) {
            return false;
        }
    }
    true
}

/// Whether a purchase and a sale are a listed pair, the sale is one of these, and their numbers sum to more than its
/// cost, or than 0 where costs don't count.
fn breaks(
    costs: &[i32; CELLS],
    buy: usize,
    sell: usize,
    sales: Bundle,
    numbers: &[i64; POSITIONS],
    priced: bool,
) -> bool
    requires buy { buy < most_own }
    requires sell { sell < most_own }
    ensures { result ≡ false → KeepsAt priced costs.now (own_number numbers.now) sales buy sell }
{
    if !sales.has(sell as u32) {
        return false;
    }
    let cost = costs[place(buy, sell)];
    is_listed(cost) && exceed(numbers[buy], numbers[sell], bound(cost, priced))
}

/// Whether a cost is that of a listed pair.
fn is_listed(cost: i32) -> bool
    ensures { IsTrue result ↔ cost <ℤ far }
{
    cost < UNLISTED
}

/// Whether two numbers sum to more.
fn exceed(first: i64, second: i64, most: i128) -> bool
    ensures { IsTrue result ↔ most <ℤ (first +ℤ second) }
{
    most < i128::from(first) + i128::from(second)
}

/// What the numbers of a pair's trades may sum to.
fn bound(cost: i32, priced: bool) -> i128
    ensures { result ≡ (if priced then cost else pos 0) }
{
    if priced { i128::from(cost) } else { 0 }
}

/// The bundle and the cost with a pair taken in, where it is listed and neither of its trades is there yet.
fn take_in(costs: &[i32; CELLS], pair: (usize, usize), bundle: Bundle, cost: i128) -> (Bundle, i128)
    requires { IsAtMost cost (most_own * most_amount) }
    ensures { MayTake costs.now bundle cost result.0 result.1 }
{
    let (buy, sell) = pair;
    if buy >= POSITIONS || sell >= POSITIONS {
        return (bundle, cost);
    }
    let more = costs[place(buy, sell)];
    if is_listed(more) && !bundle.has(buy as u32) && !bundle.has(sell as u32) {
        let bundle = bundle.toggle(buy as u32).toggle(sell as u32);
        return (bundle, cost + i128::from(more));
    }
    (bundle, cost)
}

/// A worth less a cost.
fn less(worth: Option<i128>, cost: i128) -> Option<i128>
    requires small { IfSome worth (λ a. IsAtMost a most_worth) }
    requires small_cost { IsAtMost cost most_amount }
    ensures { result ≡ option_map (λ a. a -ℤ cost) worth }
{
    Some(worth? - cost)
}

/// The greater of two worths, None where both are none.
fn greater(first: Option<i128>, second: Option<i128>) -> Option<i128>
    ensures { result ≡ greater first second }
{
    match (first, second) {
        (None, _) => second,
        (Some(_), None) => first,
        (Some(a), Some(b)) => Some(if a < b { b } else { a }),
    }
}
