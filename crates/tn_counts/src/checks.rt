//! Whether a market is one that is served.

ghost use Rattle.std.specs.Prelude.{◌≡◌, ℕ, ◌+◌, ◌<◌, ◌≤◌, length, sum_by, slice_get, true, false, Some};
ghost use Rattle.tn_base.specs.Arcs.{IsAtMost};
ghost use Rattle.tn_counts.specs.declared.set.CountSet.{CountSet};
ghost use Rattle.tn_counts.specs.Laminar.{holds};
ghost use Rattle.tn_counts.specs.Markets.{AreBetween, AreCountSets, AreLaminar, AreSmallAmounts, HaveSmallAmounts, HasRoom, HaveSmallSteps, IsBetween, IsCountSet, IsNested, IsUnitMarket};
ghost use Rattle.tn_counts.specs.Widths.{most_count_sets, most_market_units, most_unit_amount};

use crate::market::UnitMarket;
use crate::set::CountSet;
use crate::trade::{UnitAmounts, UnitTrade};
use tn_links::{Step, has_steps, room};

/// There are at most so many firms.
const MOST_FIRMS: u32 = 1_024;

/// There are at most so many trades.
const MOST_TRADES: usize = 4_096;

/// All firms have at most so many sets.
const MOST_SETS: usize = 4_096;

/// All trades have at most so many units.
const MOST_UNITS: u32 = 1_048_576;

/// The steps of a set have at most so many units.
const MOST_SET_UNITS: u32 = 2_097_152;

/// An amount, what a step adds and a constant are at most so much, in size.
const MOST_AMOUNT: i64 = 20_000_000;

/// Whether a number is small.
fn is_small(number: i64) -> bool
    ensures yes { result ≡ true → IsAtMost number most_unit_amount }
    ensures no { result ≡ false → IsAtMost number most_unit_amount → ⊥ }
{
    -MOST_AMOUNT <= number && number <= MOST_AMOUNT
}

/// Whether a trade is between two different firms of so many.
fn is_between(trade: &UnitTrade, firms: u32) -> bool
    ensures yes { result ≡ true → IsBetween firms trade.now }
    ensures no { result ≡ false → IsBetween firms trade.now → ⊥ }
{
    trade.seller < firms && trade.buyer < firms && trade.seller != trade.buyer
}

/// Whether all trades are.
fn are_between(trades: &[UnitTrade], firms: u32) -> bool
    ensures yes { result ≡ true → AreBetween firms trades.now }
    ensures no { result ≡ false → AreBetween firms trades.now → ⊥ }
{
    for trade in trades {
        if !is_between(trade, firms) {
            return false;
        }
    }
    true
}

/// Whether all trades together have few units.
fn have_few_units(trades: &[UnitTrade]) -> bool
    ensures yes { result ≡ true → sum_by (λ trade. trade.units) trades.now ≤ most_market_units }
    ensures no { result ≡ false → most_market_units < sum_by (λ trade. trade.units) trades.now }
{
    let mut units = 0;
    for trade in trades {
        if MOST_UNITS - units < trade.units {
            return false;
        }
        units += trade.units;
    }
    true
}

/// Whether the amounts of a trade are small.
fn are_small_amounts(amounts: &UnitAmounts) -> bool
    ensures yes { result ≡ true → AreSmallAmounts amounts.now }
    ensures no { result ≡ false → AreSmallAmounts amounts.now → ⊥ }
{
    is_small(amounts.seller) && is_small(amounts.buyer)
}

/// Whether those of all trades are.
fn have_small_amounts(amounts: &[UnitAmounts]) -> bool
    ensures yes { result ≡ true → HaveSmallAmounts amounts.now }
    ensures no { result ≡ false → HaveSmallAmounts amounts.now → ⊥ }
{
    for each in amounts {
        if !are_small_amounts(each) {
            return false;
        }
    }
    true
}

/// Whether what a step adds is small.
fn is_small_step(step: &Step) -> bool
    ensures yes { result ≡ true → IsAtMost step.now.each most_unit_amount }
    ensures no { result ≡ false → IsAtMost step.now.each most_unit_amount → ⊥ }
{
    is_small(step.each)
}

/// Whether what each step adds is.
fn have_small_steps(steps: &[Step]) -> bool
    ensures yes { result ≡ true → HaveSmallSteps steps.now }
    ensures no { result ≡ false → HaveSmallSteps steps.now → ⊥ }
{
    for step in steps {
        if !is_small_step(step) {
            return false;
        }
    }
    true
}

/// Whether a set is one of so many firms, with a concave function on net counts around 0.
fn is_count_set(set: &CountSet, firms: u32) -> bool
    ensures yes { result ≡ true → IsCountSet firms set.now }
    ensures no { result ≡ false → IsCountSet firms set.now → ⊥ }
{
    if firms <= set.firm || !has_steps(set.back, &set.steps) {
        return false;
    }
    if MOST_SET_UNITS < room(&set.steps) {
        return false;
    }
    if !have_small_steps(&set.steps) {
        return false;
    }
    is_small(set.constant)
}

/// Whether all sets are.
fn are_count_sets(sets: &[CountSet], firms: u32) -> bool
    ensures yes { result ≡ true → AreCountSets firms sets.now }
    ensures no { result ≡ false → AreCountSets firms sets.now → ⊥ }
{
    for set in sets {
        if !is_count_set(set, firms) {
            return false;
        }
    }
    true
}

/// Whether a set has a trade.
fn has_trade(set: &CountSet, trade: u32) -> bool
    ensures { result ≡ holds set.now trade }
{
    set.members.contains(&trade)
}

/// Whether two sets have a trade in common.
fn do_meet(one: &CountSet, other: &CountSet) -> bool
    ensures yes { result ≡ true → (t : ℕ) × (holds one.now t ≡ true) × (holds other.now t ≡ true) }
    ensures no { result ≡ false → (t : ℕ) → holds one.now t ≡ true → holds other.now t ≡ true → ⊥ }
{
    for trade in &one.members {
        if has_trade(other, *trade) {
            return true;
        }
    }
    false
}

/// Whether a set lies within another one.
fn lies_within(inner: &CountSet, outer: &CountSet) -> bool
    ensures yes { result ≡ true → (t : ℕ) → holds inner.now t ≡ true → holds outer.now t ≡ true }
    ensures no { result ≡ false → (t : ℕ) × (holds inner.now t ≡ true) × (holds outer.now t ≡ false) }
{
    for trade in &inner.members {
        if !has_trade(outer, *trade) {
            return false;
        }
    }
    true
}

/// Whether two sets of different firms, or without a common trade, or of which the first lies within the second.
fn are_nested(inner: &CountSet, outer: &CountSet) -> bool
    ensures yes { result ≡ true → IsNested inner.now outer.now }
    ensures no { result ≡ false → IsNested inner.now outer.now → ⊥ }
{
    inner.firm != outer.firm || !do_meet(inner, outer) || lies_within(inner, outer)
}

/// Whether each set before one is nested in it.
fn are_nested_in(sets: &[CountSet], k: u32) -> bool
    requires inside { k < length sets.now }
    requires few { length sets.now ≤ most_count_sets }
    ensures yes { result ≡ true → (i : ℕ) (inner outer : CountSet) → i < k → slice_get sets.now i ≡ Some inner
        → slice_get sets.now k ≡ Some outer → IsNested inner outer }
    ensures no { result ≡ false → ((i : ℕ) (inner outer : CountSet) → i < k → slice_get sets.now i ≡ Some inner
        → slice_get sets.now k ≡ Some outer → IsNested inner outer) → ⊥ }
{
    for i in 0..k {
        if !are_nested(&sets[i as usize], &sets[k as usize]) {
            return false;
        }
    }
    true
}

/// Whether each set is nested in each later one of its firm.
fn are_laminar(sets: &[CountSet]) -> bool
    requires { length sets.now ≤ most_count_sets }
    ensures yes { result ≡ true → AreLaminar sets.now }
    ensures no { result ≡ false → AreLaminar sets.now → ⊥ }
{
    for k in 0..sets.len() as u32 {
        if !are_nested_in(sets, k) {
            return false;
        }
    }
    true
}

/// Whether a market has few firms, trades and sets, and as many amounts as trades.
fn has_room(market: &UnitMarket) -> bool
    ensures yes { result ≡ true → HasRoom market.now }
    ensures no { result ≡ false → HasRoom market.now → ⊥ }
{
    market.firms <= MOST_FIRMS
        && market.trades.len() <= MOST_TRADES
        && market.sets.len() <= MOST_SETS
        && market.amounts.len() == market.trades.len()
}

/// Whether a market keeps to the limits and its sets are laminar, so that the calls of `tn_tree` take it. It looks at each
/// pair of sets.
pub fn is_unit_market(market: &UnitMarket) -> bool
    ensures yes { result ≡ true → IsUnitMarket market.now }
    ensures no { result ≡ false → IsUnitMarket market.now → ⊥ }
{
    if !has_room(market) || !have_few_units(&market.trades) {
        return false;
    }
    if !are_between(&market.trades, market.firms) {
        return false;
    }
    if !have_small_amounts(&market.amounts) {
        return false;
    }
    if !are_count_sets(&market.sets, market.firms) {
        return false;
    }
    are_laminar(&market.sets)
}
