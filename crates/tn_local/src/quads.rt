//! The test by two and by three trades at a time.

ghost use Rattle.std.specs.Prelude.{◌≡◌, ℕ, ◌^◌, ◌<◌, ◌+ℤ◌, ◌≤ℤ◌, ◌↔◌, IsTrue, length};
ghost use Rattle.tn_base.specs.Arcs.{IsAtMost};
ghost use Rattle.tn_base.specs.Sets.{toggle};
ghost use Rattle.tn_base.specs.Table.{buys_of};
ghost use Rattle.tn_firm_laws.specs.Quads.{value, QuadsExchange, QuadsExchangeAt};
ghost use Rattle.tn_exchange.specs.Rows.{firm_of_table};
ghost use Rattle.tn_local.specs.Quads.{IsNotAboveBoth, StandsTwice, PairExchanges, ThreeExchange, ThirdsExchange, TwoExchange, OneExchanges, AreLowTrades};
ghost use Rattle.tn_base.specs.Widths.{most_amount};

use tn_base::Bundle;
use tn_exchange::RawTable;

/// What a bundle is worth toggled at the first of two trades, at the second, and at both.
#[derive(Clone, Copy)]
pub(crate) struct Worths {
    pub(crate) first: i128,
    pub(crate) second: i128,
    pub(crate) both: i128,
}

/// Whether, of each bundle and each four places that are free in it, the greatest of the three sums that part them two
/// and two stands at least twice. Four places of which null is one decide it, as null may be any of them. It takes no
/// memory.
pub(crate) fn quads_exchange(table: &RawTable) -> bool
    ensures { IsTrue result ↔ QuadsExchange (firm_of_table table.now) }
{
    let buys = table.buys();
    for bits in 0..table.bundles() {
        if !exchange_at(table, buys, Bundle::from_bits(bits)) {
            return false;
        }
    }
    true
}

/// The same of one bundle.
fn exchange_at(table: &RawTable, buys: Bundle, z: Bundle) -> bool
    requires bought { buys ≡ buys_of table.now.sides }
    requires own { z < 2 ^ length table.now.sides }
    ensures { IsTrue result ↔ QuadsExchangeAt (firm_of_table table.now) z }
{
    let low = low_trades(buys, z);
    for a in 0..table.trades() {
        if low.has(a) && !one_exchanges(table, z, low, a) {
            return false;
        }
    }
    true
}

/// The positions at level 0.
fn low_trades(buys: Bundle, z: Bundle) -> Bundle
    ensures { (n : ℕ) → AreLowTrades n buys z result }
{
    buys.minus(z).union(z.minus(buys))
}

/// The same of one bundle, a trade and any one or two above it, with null.
fn one_exchanges(table: &RawTable, z: Bundle, low: Bundle, a: u32) -> bool
    requires own { z < 2 ^ length table.now.sides }
    requires low { AreLowTrades (length table.now.sides) (buys_of table.now.sides) z low }
    requires place { a < length table.now.sides }
    ensures { IsTrue result ↔ OneExchanges (firm_of_table table.now) z a }
{
    let end = table.trades();
    for b in a + 1..end {
        if low.has(b) && !two_exchange(table, z, low, a, b) {
            return false;
        }
    }
    true
}

/// The same of one bundle and two trades, with null twice, or with null and any trade above them.
fn two_exchange(table: &RawTable, z: Bundle, low: Bundle, a: u32, b: u32) -> bool
    requires own { z < 2 ^ length table.now.sides }
    requires low { AreLowTrades (length table.now.sides) (buys_of table.now.sides) z low }
    requires first { a < length table.now.sides }
    requires second { b < length table.now.sides }
    ensures { IsTrue result ↔ TwoExchange (firm_of_table table.now) z a b }
{
    let worths = worths_of(table, z, a, b);
    if !pair_exchanges(table, z, a, b, worths) {
        return false;
    }
    thirds_exchange(table, z, low, a, b, worths)
}

/// What a bundle is worth toggled at either of two trades and at both.
fn worths_of(table: &RawTable, z: Bundle, a: u32, b: u32) -> Worths
    requires own { z < 2 ^ length table.now.sides }
    requires first { a < length table.now.sides }
    requires second { b < length table.now.sides }
    ensures first { result.first ≡ value (firm_of_table table.now) (toggle z a) }
    ensures second { result.second ≡ value (firm_of_table table.now) (toggle z b) }
    ensures both { result.both ≡ value (firm_of_table table.now) (toggle (toggle z a) b) }
    ensures first_small { IsAtMost result.first most_amount }
    ensures second_small { IsAtMost result.second most_amount }
    ensures both_small { IsAtMost result.both most_amount }
{
    let toggled_first = toggled(table, z, a);
    Worths {
        first: worth_of(table, toggled_first),
        second: worth_of(table, toggled(table, z, b)),
        both: worth_of(table, toggled(table, toggled_first, b)),
    }
}

/// The same of one bundle and two trades, with null twice.
fn pair_exchanges(table: &RawTable, z: Bundle, a: u32, b: u32, worths: Worths) -> bool
    requires own { z < 2 ^ length table.now.sides }
    requires first { worths.first ≡ value (firm_of_table table.now) (toggle z a) }
    requires second { worths.second ≡ value (firm_of_table table.now) (toggle z b) }
    requires both { worths.both ≡ value (firm_of_table table.now) (toggle (toggle z a) b) }
    requires first_small { IsAtMost worths.first most_amount }
    requires second_small { IsAtMost worths.second most_amount }
    requires both_small { IsAtMost worths.both most_amount }
    ensures { IsTrue result ↔ PairExchanges (firm_of_table table.now) z a b }
{
    let neither = worth_of(table, z);
    is_at_most(
        together(worths.both, neither),
        together(worths.first, worths.second),
    )
}

/// The same of one bundle and two trades, with null and any trade above them.
fn thirds_exchange(table: &RawTable, z: Bundle, low: Bundle, a: u32, b: u32, worths: Worths) -> bool
    requires own { z < 2 ^ length table.now.sides }
    requires low { AreLowTrades (length table.now.sides) (buys_of table.now.sides) z low }
    requires first_place { a < length table.now.sides }
    requires second_place { b < length table.now.sides }
    requires first { worths.first ≡ value (firm_of_table table.now) (toggle z a) }
    requires second { worths.second ≡ value (firm_of_table table.now) (toggle z b) }
    requires both { worths.both ≡ value (firm_of_table table.now) (toggle (toggle z a) b) }
    requires first_small { IsAtMost worths.first most_amount }
    requires second_small { IsAtMost worths.second most_amount }
    requires both_small { IsAtMost worths.both most_amount }
    ensures { IsTrue result ↔ ThirdsExchange (firm_of_table table.now) z a b }
{
    let end = table.trades();
    for c in b + 1..end {
        if low.has(c) && !three_exchange(table, z, a, b, c, worths) {
            return false;
        }
    }
    true
}

/// The same of one bundle and three trades, with null.
fn three_exchange(table: &RawTable, z: Bundle, a: u32, b: u32, c: u32, worths: Worths) -> bool
    requires own { z < 2 ^ length table.now.sides }
    requires first_place { a < length table.now.sides }
    requires second_place { b < length table.now.sides }
    requires third_place { c < length table.now.sides }
    requires first { worths.first ≡ value (firm_of_table table.now) (toggle z a) }
    requires second { worths.second ≡ value (firm_of_table table.now) (toggle z b) }
    requires both { worths.both ≡ value (firm_of_table table.now) (toggle (toggle z a) b) }
    requires first_small { IsAtMost worths.first most_amount }
    requires second_small { IsAtMost worths.second most_amount }
    requires both_small { IsAtMost worths.both most_amount }
    ensures { IsTrue result ↔ ThreeExchange (firm_of_table table.now) z a b c }
{
    let third = worth_of(table, toggled(table, z, c));
    let with_first = worth_of(table, toggled(table, toggled(table, z, a), c));
    let with_second = worth_of(table, toggled(table, toggled(table, z, b), c));
    stands_twice(
        together(worths.both, third),
        together(with_first, worths.second),
        together(with_second, worths.first),
    )
}

/// The sum of two worths.
fn together(a: i128, b: i128) -> i128
    requires first { IsAtMost a most_amount }
    requires second { IsAtMost b most_amount }
    ensures { result ≡ a +ℤ b }
{
    a + b
}

/// Whether a number is at most another.
fn is_at_most(a: i128, b: i128) -> bool
    ensures { IsTrue result ↔ (a ≤ℤ b) }
{
    a <= b
}

/// A bundle of own positions with one moved in or out.
fn toggled(table: &RawTable, x: Bundle, k: u32) -> Bundle
    requires own { x < 2 ^ length table.now.sides }
    requires place { k < length table.now.sides }
    ensures toggled { result ≡ toggle x k }
    ensures own { result < 2 ^ length table.now.sides }
{
    let _trades = table.trades();
    x.toggle(k)
}

/// What a bundle is worth, and 0 where it is impossible.
fn worth_of(table: &RawTable, x: Bundle) -> i128
    requires { x < 2 ^ length table.now.sides }
    ensures worth { result ≡ value (firm_of_table table.now) x }
    ensures small { IsAtMost result most_amount }
{
    match table.worth(x) {
        Some(amount) => amount,
        None => 0,
    }
}

/// Whether none of three numbers is above both others.
fn stands_twice(a: i128, b: i128, c: i128) -> bool
    ensures { IsTrue result ↔ StandsTwice a b c }
{
    if !is_not_above_both(a, b, c) {
        return false;
    }
    if !is_not_above_both(b, a, c) {
        return false;
    }
    is_not_above_both(c, a, b)
}

/// Whether a number is not above both of two others.
fn is_not_above_both(a: i128, b: i128, c: i128) -> bool
    ensures { IsTrue result ↔ IsNotAboveBoth a b c }
{
    a <= b || a <= c
}
