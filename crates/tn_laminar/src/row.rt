//! A row of worths from one walk over the sets: a toggle changes the numbers of those sets alone that hold the
//! position, each by its step up or down at the present net count.

ghost use Rattle.std.specs.Prelude.{◌≡◌, ◌≢◌, ◌+◌, ◌*◌, ◌^◌, ◌<◌, ◌≤◌, length, slice_get, Some, true};
ghost use Rattle.tn_base.specs.Arcs.{IsAtMost};
ghost use Rattle.tn_base.specs.Sets.{has, sum_over, toggle};
ghost use Rattle.tn_base.specs.Widths.{most_amount};
ghost use Rattle.tn_firm_laws.specs.Nested.{listed_from};
ghost use Rattle.tn_market.specs.Widths.{most_own};
ghost use Rattle.tn_model.specs.Limits.{most_sets};
ghost use Rattle.tn_laminar.specs.Firms.{firm_of};
ghost use Rattle.tn_laminar.specs.Rows.{AreChanges, IsSlope, counted_or_unlisted, counted_sum, listed_sum, most_counted, step_of};
ghost use Rattle.tn_laminar.specs.Sum.{HasNumbersWithin, set_number};
ghost use Rattle.tn_market.specs.OwnNumbers.{own_number};

use crate::laminar::Laminar;
use crate::set::LaminarSet;
use tn_base::Bundle;
use tn_market::MOST_OWN;

/// What a number that isn't listed counts in a sum.
const UNLISTED: i128 = -1_000_000_000_000;

/// No sum of listed numbers is below this, and each sum is in which one isn't listed.
const LEAST_LISTED: i128 = -100_000_000_000;

/// What a number counts in a sum.
#[tactic(auto, unfolding(crate::specs::Rows::counted_or_unlisted))]
fn counted_or_unlisted(number: Option<i128>) -> i128
    ensures { result ≡ counted_or_unlisted number }
{
    match number {
        Some(number) => number,
        None => UNLISTED,
    }
}

/// The sum that was counted, None where a number wasn't listed.
#[tactic(auto, unfolding(crate::specs::Rows::listed_sum))]
fn listed_sum(total: i128) -> Option<i128>
    ensures { result ≡ listed_sum total }
{
    if LEAST_LISTED <= total {
        Some(total)
    } else {
        None
    }
}

/// The least position of a bundle, which isn't empty.
#[tactic(auto, unfolding(tn_base::specs::Sets::has))]
fn lowest(x: Bundle) -> u32
    requires { x ≢ 0 }
    ensures member { has x result ≡ true }
    ensures small { result < 64 }
{
    x.bits().trailing_zeros()
}

/// How much more a set's number counts where the net count within the set is one more, and where it is one less.
#[derive(Clone, Copy)]
pub struct Slope {
    pub up: i128,
    pub down: i128,
}

impl LaminarSet {
    /// What the number at a net count counts in a sum.
    fn counted_at(&self, count: i32) -> i128
        requires numbered { HasNumbersWithin self.now }
        requires count { IsAtMost count 65 }
        ensures number { result ≡ counted_or_unlisted (listed_from self.now.low self.now.numbers count) }
        ensures small { IsAtMost result most_counted }
    {
        counted_or_unlisted(self.number_at(count))
    }
}

impl Laminar {
    /// What the number of the set at place `k` counts at a bundle.
    fn counted_number(&self, x: Bundle, k: usize) -> i128
        requires { k < length self.now.sets.items }
        ensures number { result ≡ counted_or_unlisted (set_number self.now.buys x (slice_get self.now.sets.items k)) }
        ensures small { IsAtMost result most_counted }
    {
        counted_or_unlisted(self.number(x, k))
    }

    /// What the sets' numbers count at a bundle.
    pub(crate) fn counted_numbers(&self, x: Bundle) -> i128
        ensures sum { result ≡ counted_sum self.now.buys self.now.sets.items (length self.now.sets.items) x }
        ensures small { IsAtMost result (most_sets * most_counted) }
    {
        let mut total = 0;
        for k in 0..self.sets.len() {
            total += self.counted_number(x, k);
        }
        total
    }

    /// The slope of the set at place `k` at a bundle.
    fn slope(&self, x: Bundle, k: usize) -> Slope
        requires { k < length self.now.sets.items }
        ensures slope { (set : LaminarSet) → slice_get self.now.sets.items k ≡ Some set
            → IsSlope self.now.buys x set result }
        ensures up { IsAtMost result.up (2 * most_counted) }
        ensures down { IsAtMost result.down (2 * most_counted) }
    {
        let set = &self.sets[k];
        let count = self.masks[k].net(x);
        let here = set.counted_at(count);
        Slope {
            up: set.counted_at(count + 1) - here,
            down: set.counted_at(count - 1) - here,
        }
    }

    /// The step of a slope where position `j` is toggled.
    fn step(&self, x: Bundle, slope: Slope, j: u32) -> i128
        requires { j < 64 }
        ensures { result ≡ step_of self.now.buys x slope j }
    {
        if self.buys.has(j) == x.has(j) {
            slope.down
        } else {
            slope.up
        }
    }

    /// Adds to the change of each wanted position what its toggle changes of the number of the set at place `k`.
    fn add_changes(&self, x: Bundle, wanted: Bundle, k: usize, changes: &mut [i128])
        requires place { k < length self.now.sets.items }
        requires room { self.now.trades ≤ length changes.old }
        requires so_far { AreChanges self.now.buys self.now.sets.items k x wanted changes.old }
        ensures { AreChanges self.now.buys self.now.sets.items (k + 1) x wanted changes.new }
    {
        let slope = self.slope(x, k);
        let mut rest = self.sets[k].members.meet(wanted);
        // Each turn takes a member out: so this ends.
        while rest != Bundle::empty() {
            let j = lowest(rest);
            changes[j as usize] += self.step(x, slope, j);
            rest = rest.toggle(j);
        }
    }

    /// For each wanted position, what its toggle changes of what the sets' numbers count.
    pub(crate) fn changes(&self, x: Bundle, wanted: Bundle) -> [i128; MOST_OWN]
        requires own { wanted < 2 ^ self.now.trades }
        ensures { AreChanges self.now.buys self.now.sets.items (length self.now.sets.items) x wanted result }
    {
        let mut changes = [0; MOST_OWN];
        for k in 0..self.sets.len() {
            self.add_changes(x, wanted, k, &mut changes);
        }
        changes
    }

    /// The sum of the amounts of a bundle's trades with position `k` toggled, by the sum without.
    fn toggled_amount(&self, x: Bundle, k: u32, amount: i128) -> i128
        requires position { k < self.now.trades }
        requires amount { amount ≡ sum_over (own_number self.now.amounts.items) self.now.trades x }
        ensures sum { result ≡ sum_over (own_number self.now.amounts.items) self.now.trades (toggle x k) }
        ensures small { IsAtMost result (most_own * most_amount) }
    {
        let own = self.amounts[k as usize];
        if x.has(k) { amount - own } else { amount + own }
    }

    /// The worth of a bundle with position `k` toggled, by its own amounts and by what the sets' numbers count then.
    pub(crate) fn toggled_worth(
        &self,
        x: Bundle,
        k: u32,
        amount: i128,
        numbers: i128,
    ) -> Option<i128>
        requires own { x < 2 ^ self.now.trades }
        requires position { k < self.now.trades }
        requires amount { amount ≡ sum_over (own_number self.now.amounts.items) self.now.trades x }
        requires numbers { numbers ≡ counted_sum self.now.buys self.now.sets.items (length self.now.sets.items)
            (toggle x k) }
        ensures { result ≡ (firm_of self.now).worth (toggle x k) }
    {
        let numbers = listed_sum(numbers)?;
        Some(self.toggled_amount(x, k, amount) + numbers)
    }
}
