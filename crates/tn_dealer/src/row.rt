//! A row of worths by one test. Its bundles are matched along paths from one matching, each with numbers of its own;
//! these are all made of two lists, so that what is tested of both holds for each of them.

ghost use Rattle.std.specs.Prelude.{◌≡◌, ◌*◌, ◌^◌, ◌<◌, ◌≤◌, if◌then◌else◌, not, true, false, pos, IfSome};
ghost use Rattle.tn_base.specs.Arcs.{IsAtMost};
ghost use Rattle.tn_base.specs.Sets.{has, sum_over, toggle};
ghost use Rattle.tn_dealer.specs.Pairs.{matched_worth};
ghost use Rattle.tn_dealer.specs.Paths.{number_to, own_number_to, KeepPaths};
ghost use Rattle.tn_market.specs.Widths.{most_own};

use crate::costs::POSITIONS;
use crate::dealer::Dealer;
use crate::search::{Path, Spare};
use tn_base::Bundle;
use tn_market::MOST_WORTH;

/// Numbers for the positions of some trades, however long the path is by which they are matched.
#[derive(Drop)]
pub struct PathNumbers {
    /// The trades.
    pub within: Bundle,
    /// A longer path raises the numbers of purchases and lowers those of sales, or the other way round.
    pub bought_rise: bool,
    /// The numbers for no path.
    pub near: [i64; POSITIONS],
    /// The numbers for a path that is longer than all others.
    pub far: [i64; POSITIONS],
}

/// A number that rises with a distance, up to another one.
fn raised(near: i64, far: i64, distance: i64) -> i128
    ensures number { result ≡ number_to true distance near far }
    ensures small { IsAtMost result (2 ^ 64) }
{
    let raised = i128::from(near) + i128::from(distance);
    let far = i128::from(far);
    if far < raised { far } else { raised }
}

/// A number that falls with a distance, down to another one.
fn lowered(near: i64, far: i64, distance: i64) -> i128
    ensures number { result ≡ number_to false distance near far }
    ensures small { IsAtMost result (2 ^ 64) }
{
    let lowered = i128::from(near) - i128::from(distance);
    let far = i128::from(far);
    if far < lowered { lowered } else { far }
}

impl PathNumbers {
    /// Whether the number of position `k` rises with the distance.
    fn rises(&self, buys: Bundle, k: usize) -> bool
        requires { k < most_own }
        ensures { result ≡ (if self.now.bought_rise then has buys k else not (has buys k)) }
    {
        if self.bought_rise {
            buys.has(k as u32)
        } else {
            !buys.has(k as u32)
        }
    }

    /// The number of position `k` for a path.
    fn number_to(&self, buys: Bundle, k: usize, path: &Path) -> i128
        requires { k < most_own }
        ensures number { result
            ≡ own_number_to self.now.bought_rise buys path.now.distance self.now.near self.now.far k }
        ensures small { IsAtMost result (2 ^ 64) }
    {
        if self.rises(buys, k) {
            raised(self.near[k], self.far[k], path.distance)
        } else {
            lowered(self.near[k], self.far[k], path.distance)
        }
    }

    /// The number of a position for a path where the position is in the bundle, else 0.
    fn number_in(&self, x: Bundle, buys: Bundle, k: usize, path: &Path) -> i128
        requires { k < most_own }
        ensures term { result ≡ (if has x k then own_number_to self.now.bought_rise buys path.now.distance
            self.now.near self.now.far k else pos 0) }
        ensures small { IsAtMost result (2 ^ 64) }
    {
        if x.has(k as u32) {
            self.number_to(buys, k, path)
        } else {
            0
        }
    }

    /// The sum of the numbers of a bundle's positions, of so many trades, for a path.
    fn sum_to(&self, x: Bundle, buys: Bundle, trades: usize, path: &Path) -> i128
        requires few { trades ≤ most_own }
        ensures sum { result ≡ sum_over (own_number_to self.now.bought_rise buys path.now.distance self.now.near
            self.now.far) trades x }
        ensures small { IsAtMost result (most_own * 2 ^ 64) }
    {
        let mut total = 0;
        for k in 0..trades {
            total += self.number_in(x, buys, k, path);
        }
        total
    }
}

impl Dealer {
    /// A matching of a bundle but one trade, from which a row is read off, where its numbers pass the test.
    pub(crate) fn spare(&self, x: Bundle, wanted: Bundle) -> Option<Spare<'_>>
        ensures { IfSome result (λ spare. KeepPaths self.now.pairs.items spare.numbers) }
    {
        if let Some(spare) = Spare::of(&self.costs, self.trades as usize, x, self.buys, wanted) {
            if self.keep_paths(&spare.numbers) {
                return Some(spare);
            }
        }
        None
    }

    /// Whether the numbers of no pair of these trades sum to more than its cost, however long the path is.
    fn keep_paths(&self, numbers: &PathNumbers) -> bool
        ensures { result ≡ true → KeepPaths self.now.pairs.items numbers.now }
    {
        self.keeps(numbers.within, &numbers.near, true)
            && self.keeps(numbers.within, &numbers.far, true)
    }

    /// What a bundle with position `k` toggled is worth, from a matching of the bundle where there is one.
    pub(crate) fn toggled_worth(&self, x: Bundle, k: u32, spare: &Option<Spare>) -> Option<i128>
        requires position { k < most_own }
        requires keep { IfSome spare.now (λ spare. KeepPaths self.now.pairs.items spare.numbers) }
        ensures { result ≡ matched_worth self.now.pairs.items (toggle x k) }
    {
        let toggled = x.toggle(k);
        if !self.is_even(toggled) {
            return None;
        }
        if let Some(spare) = spare {
            let path = spare.toggled(k as usize);
            if let Some(worth) = self.shown_along(toggled, &spare.numbers, &path) {
                return worth;
            }
        }
        self.worth(toggled)
    }

    /// The worth that a path shows, None where it shows nothing.
    fn shown_along(&self, x: Bundle, numbers: &PathNumbers, path: &Path) -> Option<Option<i128>>
        requires keep { KeepPaths self.now.pairs.items numbers.now }
        ensures { IfSome result (λ worth. worth ≡ matched_worth self.now.pairs.items x) }
    {
        if x.minus(numbers.within) != Bundle::empty() {
            return None;
        }
        let sum = numbers.sum_to(x, self.buys, self.trades as usize, path);
        if MOST_WORTH < sum {
            return Some(None);
        }
        let (bundle, cost) = self.taken(&path.mates);
        if bundle == x && cost == sum {
            Some(Some(-cost))
        } else {
            None
        }
    }
}
