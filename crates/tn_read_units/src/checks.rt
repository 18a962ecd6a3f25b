//! What is tested of the sets of a firm once all are read.

ghost use Rattle.std.specs.Prelude.{◌≡◌, ◌+◌, ◌<◌, ◌≤◌, ◌++◌, [], ◌∷◌, nat_lt, Some, None, length, All, IfOk, IfErr, IfSome, OnOk};
ghost use Rattle.std.specs.List.{list_all, list_any};
ghost use Rattle.tn_base.specs.Arcs.{IsAtMost};
ghost use Rattle.tn_counts.specs.Widths.{most_count_sets, most_unit_trades};
ghost use Rattle.tn_read_shapes.specs.declared.error.ReadError.TheVariants.{OutOfMemory};
ghost use Rattle.tn_read_shapes.specs.Reading.{Gives};
ghost use Rattle.tn_read_units.specs.Checks.{between, check_form, check_numbers, check_set, check_sets, check_steps, crosses, first_rise, has_none, holding, rises, rises_at_none, steps_after, unless_bent, unless_rising};
ghost use Rattle.tn_read_units.specs.Limits.{most_holding_sets, most_number, most_values};

use crate::sets::{SetNumbers, WrittenSet};
use crate::steps::SetAt;
use std::alloc::Global;
use tn_base::TradeSet;
use tn_links::Step;
use tn_read_shapes::{ReadError, fault, require};
use tn_said::{FaultKind, Word};

/// A trade is in at most so many sets of a firm.
const MOST_HOLDING_SETS: usize = 16;

/// Tests each set of firm `f`, beside those before it.
pub(crate) fn check_sets(alloc: Global, f: u32, sets: &[WrittenSet]) -> Result<(), ReadError>
    requires few { length sets.now ≤ most_count_sets }
    ensures { Gives (λ _. tt) result (check_sets f [] sets.now) }
{
    for k in 0..sets.len() {
        let at = SetAt {
            firm: f,
            set: k as u32,
        };
        check_set(alloc, at, &sets[..k], &sets[k])?;
    }
    Ok(())
}

/// Tests a set beside earlier ones: further units never add more, it crosses none of them, and none of its trades is in
/// too many sets.
#[tactic(auto, unfolding(crate::specs::Checks::check_set))]
fn check_set(
    alloc: Global,
    at: SetAt,
    earlier: &[WrittenSet],
    set: &WrittenSet,
) -> Result<(), ReadError>
    ensures { Gives (λ _. tt) result (check_set at earlier.now set.now) }
{
    check_form(alloc, at, set)?;
    let nested = !crosses_any(set, earlier);
    require(alloc, nested, FaultKind::NotLaminar, &at.place())?;
    let few = are_held_by_few(set, earlier);
    require(alloc, few, FaultKind::Limit, &at.place())
}

/// Tests the numbers or the steps of a set.
fn check_form(alloc: Global, at: SetAt, set: &WrittenSet) -> Result<(), ReadError>
    ensures { Gives (λ _. tt) result (check_form at set.now set.now.numbers) }
{
    match &set.numbers {
        Some(numbers) => check_numbers(alloc, at, numbers),
        None => check_steps(alloc, at, set),
    }
}

/// Tests that further units never add more, from a net count of 0 on to either side.
#[tactic(auto, unfolding(crate::specs::Checks::check_steps))]
fn check_steps(alloc: Global, at: SetAt, set: &WrittenSet) -> Result<(), ReadError>
    ensures { Gives (λ _. tt) result (check_steps at set.now) }
{
    unless_rising(alloc, at, Word::Bought, first_rise(set.bought()))?;
    unless_rising(alloc, at, Word::Sold, first_rise(set.sold()))?;
    let falls = !rises_at_none(set.bought(), set.sold());
    require(
        alloc,
        falls,
        FaultKind::NotConcave,
        &at.added(Word::Sold, 0),
    )
}

/// Whether a step adds more than the one before it.
fn rises(before: Option<Step>, step: Step) -> bool
    ensures { result ≡ rises before step }
{
    match before {
        Some(before) => before.each < step.each,
        None => false,
    }
}

/// The first step that adds more than the one before it.
fn first_rise(steps: &[Step]) -> Option<u32>
    requires { length steps.now ≤ 1024 }
    ensures { result ≡ first_rise 0 None steps.now }
{
    let mut before = None;
    let mut k = 0;
    for step in steps {
        if rises(before, *step) {
            return Some(k);
        }
        before = Some(*step);
        k += 1;
    }
    None
}

/// A fault at the step that adds more than the one before it, where there is one.
fn unless_rising(alloc: Global, at: SetAt, word: Word, rise: Option<u32>) -> Result<(), ReadError>
    ensures { Gives (λ _. tt) result (unless_rising at word rise) }
{
    match rise {
        Some(k) => Err(fault(alloc, FaultKind::NotConcave, &at.added(word, k))),
        None => Ok(()),
    }
}

/// Whether the first unit bought and the first unit sold add more than nothing together.
fn rises_at_none(bought: &[Step], sold: &[Step]) -> bool
    ensures { result ≡ rises_at_none bought.now sold.now }
{
    match (bought, sold) {
        ([bought, ..], [sold, ..]) => 0 < i128::from(bought.each) + i128::from(sold.each),
        _ => false,
    }
}

/// Tests that a set has a number for the net count 0, and that further units never add more.
#[tactic(auto, unfolding(crate::specs::Checks::check_numbers))]
fn check_numbers(alloc: Global, at: SetAt, set: &SetNumbers) -> Result<(), ReadError>
    ensures { Gives (λ _. tt) result (check_numbers at set.now) }
{
    require(alloc, has_none(set), FaultKind::NoEmpty, &at.place())?;
    let steps = steps_between(alloc, set.numbers())?;
    unless_bent(alloc, at, first_rise(&steps))
}

/// Whether one of the numbers is for the net count 0.
fn has_none(set: &SetNumbers) -> bool
    ensures { result ≡ has_none set.now }
{
    set.low <= 0 && -i64::from(set.low) < set.numbers.len() as i64
}

/// What each unit adds by a list of numbers.
pub(crate) fn steps_between(alloc: Global, numbers: &[i64]) -> Result<Vec<Step>, ReadError>
    requires few { length numbers.now ≤ most_values }
    requires small { All (λ number. IsAtMost number most_number) numbers.now }
    ensures gives { IfOk result (λ steps. steps.items ≡ steps_after None numbers.now) }
    ensures few { IfOk result (λ steps. length steps.items ≤ most_values) }
    ensures memory { IfErr result (λ e. e ≡ OutOfMemory) }
{
    let mut steps = Vec::new(alloc);
    let mut before = None;
    for number in numbers {
        add_between(&mut steps, before, *number)?;
        before = Some(*number);
    }
    Ok(steps)
}

/// Puts what the unit between two numbers adds to the steps, where there is a number before.
fn add_between(steps: &mut Vec<Step>, before: Option<i64>, number: i64) -> Result<(), ReadError>
    requires small_before { IfSome before (λ number. IsAtMost number most_number) }
    requires small { IsAtMost number most_number }
    ensures gives { OnOk result (steps.new.items ≡ steps.old.items ++ between before number) }
    ensures memory { IfErr result (λ e. e ≡ OutOfMemory) }
{
    if let Some(before) = before {
        steps.push(Step {
            units: 1,
            each: number - before,
        })?;
    }
    Ok(())
}

/// A fault at the number between two units of which the second adds more, where there is one.
fn unless_bent(alloc: Global, at: SetAt, rise: Option<u32>) -> Result<(), ReadError>
    ensures { Gives (λ _. tt) result (unless_bent at rise) }
{
    match rise {
        Some(k) => {
            let place = at.item(Word::Values, k);
            Err(fault(alloc, FaultKind::NotConcave, &place))
        }
        None => Ok(()),
    }
}

/// Whether two sets have a trade in common, and neither contains the other.
fn crosses(set: &WrittenSet, other: &WrittenSet) -> bool
    ensures { result ≡ crosses set.now other.now }
{
    let (set, other) = (&set.members.named, &other.members.named);
    set.meet(other) != TradeSet::empty()
        && other.minus(set) != TradeSet::empty()
        && set.minus(other) != TradeSet::empty()
}

/// Whether a set crosses one of earlier ones.
fn crosses_any(set: &WrittenSet, earlier: &[WrittenSet]) -> bool
    ensures { result ≡ list_any (crosses set.now) earlier.now }
{
    for other in earlier {
        if crosses(set, other) {
            return true;
        }
    }
    false
}

/// How many of some sets have a trade.
fn holding(sets: &[WrittenSet], t: u32) -> usize
    requires { t < most_unit_trades }
    ensures { result ≡ holding sets.now t }
{
    let mut count = 0;
    for set in sets {
        if set.members.named.has(t) {
            count += 1;
        }
    }
    count
}

/// Whether each trade of a set is in few of earlier ones.
fn are_held_by_few(set: &WrittenSet, earlier: &[WrittenSet]) -> bool
    ensures { result ≡ list_all (λ t. nat_lt (holding earlier.now t) most_holding_sets) set.now.members.trades }
{
    for t in set.members.trades() {
        if holding(earlier, *t) >= MOST_HOLDING_SETS {
            return false;
        }
    }
    true
}
