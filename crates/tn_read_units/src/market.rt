//! Makes the market of a document whose trades have units.

ghost use Rattle.std.specs.Prelude.{◌≡◌, ℕ, ◌<◌, ◌≤◌, ◌++◌, length, map, reverse, slice_get, Some, None, IfOk, OnOk};
ghost use Rattle.std.specs.List.Sorted.{IsNonDecreasingBy, IsPermutation};
ghost use Rattle.tn_base.specs.Arcs.{IsAtMost};
ghost use Rattle.tn_links.specs.Links.{room};
ghost use Rattle.tn_counts.specs.Counts.{AreCounts, CountFirm, trade_at};
ghost use Rattle.tn_counts.specs.Laminar.{amounts_at, firm_of};
ghost use Rattle.tn_counts.specs.Markets.{IsUnitMarket};
ghost use Rattle.tn_counts.specs.Widths.{most_market_units, most_unit_firms, most_unit_trades};
ghost use Rattle.tn_read_units.specs.Checks.{steps_after};
ghost use Rattle.tn_read_units.specs.Documents.{turned};
ghost use Rattle.tn_read_units.specs.Limits.{most_number};
ghost use Rattle.tn_read_units.specs.Placed.{all_placed, amounts_for, as_placed, entries_of, first_amount, first_units, number_at_none, placed, placed_back, placed_steps};
ghost use Rattle.tn_read_units.specs.Steps.{AreSteps};
ghost use Rattle.tn_read_units.specs.Worths.{written_firms};

use crate::amounts::Amount;
use crate::checks::steps_between;
use crate::firms::{UnitDocument, WrittenFirm};
use crate::sets::{SetNumbers, WrittenSet};
use std::alloc::Global;
use tn_base::OutOfMemory;
use tn_counts::{CountSet, UnitAmounts, UnitMarket, UnitTrade};
use tn_links::Step;

/// All trades have at most so many units.
const MOST_UNITS: u32 = 1 << 20;

/// The market of a document. Of counts of the trades' units its firms have the worths that the document says, so that
/// its equilibria are those of the document. Steps of units beyond those of all trades are left out.
pub fn market_of(alloc: Global, document: &UnitDocument) -> Result<UnitMarket, OutOfMemory>
    ensures market { IfOk result IsUnitMarket }
    ensures firms { IfOk result (λ market. market.firms ≡ length document.now.head.names.firms) }
    ensures trades { IfOk result (λ market. market.trades.items ≡ document.now.head.trades) }
    ensures worths { IfOk result (λ market. (f : ℕ) (firm : CountFirm) → slice_get (written_firms document.now) f ≡ Some firm
        → (counts : ℕ → ℕ) → AreCounts document.now.head.trades counts
        → (firm_of market f).worth counts ≡ firm.worth counts) }
{
    let firms = document.firms();
    let listed = document.trades();
    let trades = Vec::from_slice(alloc, listed)?;
    let amounts = amounts_by_trade(alloc, firms, listed)?;
    let sets = sets_in_order(alloc, firms)?;
    Ok(UnitMarket {
        firms: firms.len() as u32,
        trades,
        amounts,
        sets,
    })
}

/// The amount of a trade, 0 where none of the amounts is for it.
fn first_amount(amounts: &[Amount], t: u32) -> i64
    ensures { result ≡ first_amount amounts.now t }
{
    for amount in amounts {
        if amount.trade == t {
            return amount.number;
        }
    }
    0
}

/// The amounts of trade `t` to its two firms.
fn amounts_for(firms: &[WrittenFirm], t: u32, trade: UnitTrade) -> UnitAmounts
    ensures { result ≡ amounts_for firms.now t trade }
{
    UnitAmounts {
        seller: amount_to(firms, trade.seller, t),
        buyer: amount_to(firms, trade.buyer, t),
    }
}

/// The amount of a trade to firm `f`.
fn amount_to(firms: &[WrittenFirm], f: u32, t: u32) -> i64
    ensures { result ≡ first_amount (entries_of firms.now f) t }
{
    match firms.get(f as usize) {
        Some(firm) => first_amount(firm.amounts(), t),
        None => 0,
    }
}

/// The amounts of each trade.
fn amounts_by_trade(
    alloc: Global,
    firms: &[WrittenFirm],
    trades: &[UnitTrade],
) -> Result<Vec<UnitAmounts>, OutOfMemory>
    requires few { length trades.now ≤ most_unit_trades }
    ensures count { IfOk result (λ amounts. length amounts.items ≡ length trades.now) }
    ensures each { IfOk result (λ amounts. (t : ℕ) → t < length trades.now
        → amounts_at amounts.items t ≡ amounts_for firms.now t (trade_at trades.now t)) }
{
    let mut amounts = Vec::new(alloc);
    for t in 0..trades.len() {
        amounts.push(amounts_for(firms, t as u32, trades[t]))?;
    }
    Ok(amounts)
}

/// The sets of all firms, smaller ones first, so that of two sets of a firm that share a trade the later one has all
/// trades of the earlier.
fn sets_in_order(alloc: Global, firms: &[WrittenFirm]) -> Result<Vec<CountSet>, OutOfMemory>
    requires few { length firms.now ≤ most_unit_firms }
    ensures permutation { IfOk result (λ sets. IsPermutation (all_placed 0 firms.now) (map as_placed sets.items)) }
    ensures sorted { IfOk result (λ sets. IsNonDecreasingBy (λ set. length set.members.items) sets.items) }
{
    let mut sets = sets_of_all(alloc, firms)?;
    sets.sort_by_key(|set| set.members.len())?;
    Ok(sets)
}

/// The sets of all firms, in the document's order.
fn sets_of_all(alloc: Global, firms: &[WrittenFirm]) -> Result<Vec<CountSet>, OutOfMemory>
    requires few { length firms.now ≤ most_unit_firms }
    ensures { IfOk result (λ sets. map as_placed sets.items ≡ all_placed 0 firms.now) }
{
    let mut sets = Vec::new(alloc);
    for f in 0..firms.len() {
        add_sets(alloc, &mut sets, f as u32, firms[f].sets())?;
    }
    Ok(sets)
}

/// Puts the sets of firm `f` to the sets.
fn add_sets(
    alloc: Global,
    sets: &mut Vec<CountSet>,
    f: u32,
    written: &[WrittenSet],
) -> Result<(), OutOfMemory>
    ensures { OnOk result (map as_placed sets.new.items ≡ map as_placed sets.old.items ++ map (placed f) written.now) }
{
    for set in written {
        let next = count_set(alloc, f, set)?;
        sets.push(next)?;
    }
    Ok(())
}

/// A set of firm `f` as a market has it.
fn count_set(alloc: Global, f: u32, set: &WrittenSet) -> Result<CountSet, OutOfMemory>
    ensures { IfOk result (λ next. as_placed next ≡ placed f set.now) }
{
    let members = Vec::from_slice(alloc, set.members.trades())?;
    let steps = set_steps(alloc, set)?;
    Ok(CountSet {
        firm: f,
        members,
        constant: number_at_none(&set.numbers),
        back: back_of(set),
        steps,
    })
}

/// What further net units add, from the fewest on.
fn set_steps(alloc: Global, set: &WrittenSet) -> Result<Vec<Step>, OutOfMemory>
    ensures { IfOk result (λ steps. steps.items ≡ placed_steps set.now.numbers set.now.bought set.now.sold) }
{
    match &set.numbers {
        Some(numbers) => number_steps(alloc, numbers),
        None => joined(alloc, set.bought(), set.sold()),
    }
}

/// What each unit adds by the numbers of a set.
fn number_steps(alloc: Global, set: &SetNumbers) -> Result<Vec<Step>, OutOfMemory>
    ensures { IfOk result (λ steps. steps.items ≡ steps_after None set.now.numbers) }
{
    match steps_between(alloc, set.numbers()) {
        Ok(steps) => Ok(steps),
        Err(_) => Err(OutOfMemory),
    }
}

/// The steps of units sold, turned round, and then those of units bought.
fn joined(alloc: Global, bought: &[Step], sold: &[Step]) -> Result<Vec<Step>, OutOfMemory>
    requires { AreSteps sold.now }
    ensures { IfOk result (λ steps. steps.items ≡ reverse (map turned (first_units most_market_units sold.now))
        ++ first_units most_market_units bought.now) }
{
    let mut steps = all_turned(alloc, sold)?;
    steps.reverse();
    add_first(&mut steps, bought)?;
    Ok(steps)
}

/// Puts the first units of some steps to others.
fn add_first(steps: &mut Vec<Step>, more: &[Step]) -> Result<(), OutOfMemory>
    ensures { OnOk result (steps.new.items ≡ steps.old.items ++ first_units most_market_units more.now) }
{
    let mut left = MOST_UNITS;
    for step in more {
        let units = step.units.min(left);
        steps.push(Step {
            units,
            each: step.each,
        })?;
        left -= units;
    }
    Ok(())
}

/// The first units of steps of units sold, as steps of units less sold.
fn all_turned(alloc: Global, sold: &[Step]) -> Result<Vec<Step>, OutOfMemory>
    requires { AreSteps sold.now }
    ensures { IfOk result (λ steps. steps.items ≡ map turned (first_units most_market_units sold.now)) }
{
    let mut steps = Vec::new(alloc);
    let mut left = MOST_UNITS;
    for step in sold {
        let units = step.units.min(left);
        steps.push(turned(*step, units))?;
        left -= units;
    }
    Ok(steps)
}

/// So many units of a step of units sold, as a step of units less sold.
fn turned(step: Step, units: u32) -> Step
    requires { IsAtMost step.each most_number }
    ensures { result ≡ turned (record { units = units; each = step.each }) }
{
    Step {
        units,
        each: -step.each,
    }
}

/// How many units the fewest net count of a set is below 0.
#[tactic(auto, using(crate::proofs::LoopLemmas::first_room))]
fn back_of(set: &WrittenSet) -> u32
    ensures { result ≡ placed_back set.now.numbers set.now.sold }
{
    match &set.numbers {
        Some(numbers) => numbers.low.unsigned_abs(),
        None => units_of(set.sold()).min(MOST_UNITS),
    }
}

/// How many units steps have.
fn units_of(steps: &[Step]) -> u32
    requires { AreSteps steps.now }
    ensures { result ≡ room steps.now }
{
    let mut units = 0;
    for step in steps {
        units += step.units;
    }
    units
}

/// What a set adds at a net count of 0.
fn number_at_none(numbers: &Option<SetNumbers>) -> i64
    ensures { result ≡ number_at_none numbers.now }
{
    match numbers {
        Some(set) => {
            let place = set.low.unsigned_abs() as usize;
            set.numbers().get(place).copied().unwrap_or(0)
        }
        None => 0,
    }
}
