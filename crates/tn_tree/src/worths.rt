//! What firms have by counts.

ghost use Rattle.std.specs.Prelude.{◌≡◌, ℕ, suc, ◌+◌, ◌<◌, ◌≤◌, ℤ, pos, negsuc, ◌+ℤ◌, ◌-ℤ◌, ◌*ℤ◌, length, map, get_or, slice_get, set, Some, None, IfOk};
ghost use Rattle.std.specs.List.{range_with_len};
ghost use Rattle.tn_base.specs.Arcs.{IsAtMost};
ghost use Rattle.tn_base.specs.Options.{both};
ghost use Rattle.tn_links.specs.Widths.{most_rise};
ghost use Rattle.tn_counts.specs.Counts.{AreCounts};
ghost use Rattle.tn_counts.specs.Laminar.{added_at, amount_sum, firm_of};
ghost use Rattle.tn_counts.specs.Markets.{IsSetWithin, IsWideMarket};
ghost use Rattle.tn_counts.specs.Tree.{null_node};
ghost use Rattle.tn_counts.specs.Widths.{most_market_units, most_set_units, most_wide_amount};
ghost use Rattle.tn_counts.specs.declared.trade.UnitAmounts.{UnitAmounts};
ghost use Rattle.tn_tree.specs.Lists.{count_in, own_counts};
ghost use Rattle.tn_tree.specs.Nets.{HaveTree, most_count_worth, most_set_number, most_sum};

use crate::nets::{add_at, nets_of, zeros};
use std::alloc::Global;
use tn_base::OutOfMemory;
use tn_counts::{CountSet, UnitAmounts, UnitMarket};
use tn_links::{Links, rise, room};

/// What so many units add.
fn times(each: i64, units: u32) -> i128
    requires { IsAtMost each most_wide_amount }
    ensures { result ≡ each *ℤ pos units }
{
    i128::from(each) * i128::from(units)
}

/// Adds so many units at an amount to the number at a place.
fn add_units(numbers: &mut Vec<i128>, place: u32, each: i64, units: u32)
    requires inside { place < length numbers.old.items }
    requires before { IsAtMost (get_or numbers.old.items place (pos 0)) most_sum }
    requires small { IsAtMost each most_wide_amount }
    ensures { numbers.new.items
        ≡ set numbers.old.items place (get_or numbers.old.items place (pos 0) +ℤ each *ℤ pos units) }
{
    add_at(numbers, place, times(each, units));
}

/// What amounts of units add for each firm, by what each sells and buys.
pub(crate) fn amount_sums(
    alloc: Global,
    market: &UnitMarket,
    amounts: &[UnitAmounts],
    sold: &[u32],
    bought: &[u32],
) -> Result<Vec<i128>, OutOfMemory>
    requires market { IsWideMarket market.now }
    requires as_many { length amounts.now ≡ length market.now.trades.items }
    requires small { (t : ℕ) (each : UnitAmounts) → slice_get amounts.now t ≡ Some each
        → IsAtMost each.seller most_wide_amount × IsAtMost each.buyer most_wide_amount }
    requires sold_all { length sold.now ≡ length market.now.trades.items }
    requires bought_all { length bought.now ≡ length market.now.trades.items }
    requires sold { AreCounts market.now.trades.items (count_in sold.now) }
    requires bought { AreCounts market.now.trades.items (count_in bought.now) }
    ensures sized { IfOk result (λ sums. length sums.items ≡ market.now.firms) }
    ensures sums { IfOk result (λ sums. (f : ℕ) → get_or sums.items f (pos 0) ≡ amount_sum market.now.trades.items
        amounts.now f (own_counts market.now.trades.items sold.now bought.now f)) }
{
    let mut sums = zeros(alloc, market.firms)?;
    for t in 0..market.trades.len() {
        let trade = market.trades[t];
        let each = amounts[t];
        add_units(&mut sums, trade.seller, each.seller, sold[t]);
        add_units(&mut sums, trade.buyer, each.buyer, bought[t]);
    }
    Ok(sums)
}

/// The level at a net count, None where that is below the fewest units.
fn level_from(net: i128, back: u32) -> Option<u32>
    requires net { IsAtMost net most_market_units }
    requires back { back ≤ most_set_units }
    ensures some { (level : ℕ) → result ≡ Some level → net +ℤ pos back ≡ pos level }
    ensures none { result ≡ None → (k : ℕ) × (net +ℤ pos back ≡ negsuc k) }
{
    let level = net + i128::from(back);
    if level < 0 {
        None
    } else {
        Some(level.unsigned_abs() as u32)
    }
}

/// A constant, and what a gain has risen by.
fn risen(constant: i64, after: i128, before: i128) -> i128
    requires constant { IsAtMost constant most_wide_amount }
    requires after { IsAtMost after most_rise }
    requires before { IsAtMost before most_rise }
    ensures { result ≡ constant +ℤ (after -ℤ before) }
{
    i128::from(constant) + (after - before)
}

/// What a set adds at a net count, None where that lies beyond its steps.
fn number_at(set: &CountSet, net: i128) -> Option<i128>
    requires set { (firms : ℕ) × IsSetWithin most_wide_amount firms set.now }
    requires small { IsAtMost net most_market_units }
    ensures number { result ≡ added_at set.now (net +ℤ pos set.now.back) }
    ensures small { (value : ℤ) → result ≡ Some value → IsAtMost value most_set_number }
{
    let level = level_from(net, set.back)?;
    if room(&set.steps) < level {
        return None;
    }
    Some(risen(
        set.constant,
        rise(&set.steps, level),
        rise(&set.steps, set.back),
    ))
}

/// The sum of two numbers.
pub(crate) fn sum(first: i128, second: i128) -> i128
    requires first { IsAtMost first most_sum }
    requires second { IsAtMost second most_sum }
    ensures { result ≡ first +ℤ second }
{
    first + second
}

/// The sum of two numbers, None where one of them is none.
fn sum_of(first: Option<i128>, second: Option<i128>) -> Option<i128>
    requires first { (value : ℤ) → first ≡ Some value → IsAtMost value most_sum }
    requires second { (value : ℤ) → second ≡ Some value → IsAtMost value most_sum }
    ensures { result ≡ both first second }
{
    Some(sum(first?, second?))
}

/// Numbers, none of which is none.
fn some_of(alloc: Global, numbers: &[i128]) -> Result<Vec<Option<i128>>, OutOfMemory>
    requires { (v : ℕ) → IsAtMost (get_or numbers.now v (pos 0)) most_sum }
    ensures { IfOk result (λ some. some.items ≡ map Some numbers.now) }
{
    let mut some = Vec::new(alloc);
    for number in numbers {
        some.push(Some(*number))?;
    }
    Ok(some)
}

/// Adds to the number at a place, which may be none.
fn add_number(worths: &mut Vec<Option<i128>>, firm: u32, number: Option<i128>)
    requires inside { firm < length worths.old.items }
    requires before { (value : ℤ) → get_or worths.old.items firm None ≡ Some value → IsAtMost value most_sum }
    requires number { (value : ℤ) → number ≡ Some value → IsAtMost value most_sum }
    ensures { worths.new.items ≡ set worths.old.items firm (both (get_or worths.old.items firm None) number) }
{
    worths[firm as usize] = sum_of(worths[firm as usize], number);
}

/// What each firm has by counts of what it sells and buys, None where they are impossible.
pub(crate) fn worths_by(
    alloc: Global,
    market: &UnitMarket,
    links: &Links,
    sold: &[u32],
    bought: &[u32],
) -> Result<Vec<Option<i128>>, OutOfMemory>
    requires market { IsWideMarket market.now }
    requires tree { HaveTree market.now links.now.links.items }
    requires nodes { links.now.nodes ≡ suc (null_node market.now) }
    requires sold_all { length sold.now ≡ length market.now.trades.items }
    requires bought_all { length bought.now ≡ length market.now.trades.items }
    requires sold { AreCounts market.now.trades.items (count_in sold.now) }
    requires bought { AreCounts market.now.trades.items (count_in bought.now) }
    ensures sized { IfOk result (λ worths. length worths.items ≡ market.now.firms) }
    ensures worths { IfOk result (λ worths. (f : ℕ) → f < market.now.firms → get_or worths.items f None
        ≡ (firm_of market.now f).worth (own_counts market.now.trades.items sold.now bought.now f)) }
    ensures small { IfOk result (λ worths. (f : ℕ) (worth : ℤ) → get_or worths.items f None ≡ Some worth
        → IsAtMost worth most_count_worth) }
{
    let nets = nets_of(alloc, market, links, sold, bought)?;
    let amounts = amount_sums(alloc, market, &market.amounts, sold, bought)?;
    let mut worths = some_of(alloc, &amounts)?;
    for i in 0..market.sets.len() as u32 {
        let set = &market.sets[i as usize];
        add_number(&mut worths, set.firm, number_at(set, nets[i as usize]));
    }
    Ok(worths)
}
