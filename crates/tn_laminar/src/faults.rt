//! What is wrong with the sets of a laminar firm.

ghost use Rattle.std.specs.Prelude.{◌<◌, ◌≤◌, ◌↔◌, length, All, IsTrue, Some, pos, ◌*ℤ◌, ◌+ℤ◌, ◌<ℤ◌};
ghost use Rattle.tn_base.specs.Arcs.{IsAtMost};
ghost use Rattle.tn_firm_laws.specs.Nested.{Cross};
ghost use Rattle.tn_laminar.specs.Faults.{CrossesEarlier, IsBend, GivesFirstBend, GivesFault, GivesFirstFault};
ghost use Rattle.tn_laminar.specs.Sum.{HasNumbersWithin};
ghost use Rattle.tn_model.specs.Limits.{most_sets, most_values};
ghost use Rattle.tn_base.specs.Widths.{most_amount};

use crate::refusal::LaminarRefusal;
use crate::set::LaminarSet;
use tn_base::Bundle;
use tn_market::Amounts;

/// The first fault of the sets, None where they make a laminar firm.
pub fn first_fault(sets: &[LaminarSet]) -> Option<LaminarRefusal>
    requires few { length sets.now ≤ most_sets }
    requires within { All HasNumbersWithin sets.now }
    ensures { GivesFirstFault sets.now result }
{
    for k in 0..sets.len() as u32 {
        if let Some(fault) = fault(sets, k) {
            return Some(fault);
        }
    }
    None
}

/// The first test that the set at a place fails, None where it passes all of them.
fn fault(sets: &[LaminarSet], k: u32) -> Option<LaminarRefusal>
    requires few { length sets.now ≤ most_sets }
    requires within { All HasNumbersWithin sets.now }
    requires place { k < length sets.now }
    ensures { GivesFault sets.now k result }
{
    let set = &sets[k as usize];
    if set.number_at(0).is_none() {
        return Some(LaminarRefusal::NoEmpty { set: k });
    }
    if let Some(place) = first_bend(&set.numbers) {
        return Some(LaminarRefusal::NotConcave { set: k, place });
    }
    if crosses_earlier(sets, k as usize) {
        return Some(LaminarRefusal::NotLaminar { set: k });
    }
    None
}

/// The first place whose number is below the middle of its two neighbours.
fn first_bend(numbers: &Amounts) -> Option<u32>
    requires few { length numbers.now ≤ most_values }
    requires small { All (λ a. IsAtMost a most_amount) numbers.now }
    ensures { GivesFirstBend numbers.now result }
{
    for place in 1..numbers.len() {
        if bends_at(numbers, place) {
            return Some(place as u32);
        }
    }
    None
}

/// Whether the number at a place after the first is below the middle of its two neighbours.
fn bends_at(numbers: &Amounts, place: usize) -> bool
    requires few { length numbers.now ≤ most_values }
    requires small { All (λ a. IsAtMost a most_amount) numbers.now }
    requires after_first { 1 ≤ place }
    requires inside { place < length numbers.now }
    ensures { IsTrue result ↔ IsBend numbers.now place }
{
    place + 1 < numbers.len()
        && bends(
            numbers.at(place - 1),
            numbers.at(place),
            numbers.at(place + 1),
        )
}

/// Whether a number is below the middle of its two neighbours.
fn bends(before: i128, number: i128, after: i128) -> bool
    requires small_before { IsAtMost before most_amount }
    requires small { IsAtMost number most_amount }
    requires small_after { IsAtMost after most_amount }
    ensures { IsTrue result ↔ (pos 2 *ℤ number) <ℤ (before +ℤ after) }
{
    2 * number < before + after
}

/// Whether a set crosses one that stands before its place.
fn crosses_earlier(sets: &[LaminarSet], k: usize) -> bool
    requires { k < length sets.now }
    ensures { IsTrue result ↔ CrossesEarlier sets.now k }
{
    for j in 0..k {
        if cross(sets[j].members, sets[k].members) {
            return true;
        }
    }
    false
}

/// Whether two sets have a member in common, and neither contains the other.
fn cross(first: Bundle, second: Bundle) -> bool
    ensures { IsTrue result ↔ Cross first second }
{
    first.meet(second) != Bundle::empty()
        && first.minus(second) != Bundle::empty()
        && second.minus(first) != Bundle::empty()
}
