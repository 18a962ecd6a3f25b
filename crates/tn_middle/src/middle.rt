//! A middleman, and what a bundle is worth to it.

ghost use Rattle.std.specs.Prelude.{◌≡◌, ◌<◌, ◌≤◌, ◌*◌, pos, length, All, if◌then◌else◌};
ghost use Rattle.std.specs.Option.{ForSome};
ghost use Rattle.tn_base.specs.Arcs.{IsAtMost};
ghost use Rattle.tn_base.specs.Sets.{has, meet, minus, size, sum_over};
ghost use Rattle.tn_base.specs.Firm.{payments};
ghost use Rattle.tn_middle.specs.Pairs.{IsMiddle, by_counts, middle_firm};
ghost use Rattle.tn_market.specs.OwnNumbers.{own_number};
ghost use Rattle.tn_market.specs.Widths.{most_own};
ghost use Rattle.tn_base.specs.Widths.{most_amount};

use tn_base::{Bundle, Side, purchases};

/// A firm that buys one good and sells it on, and may keep a good that it has bought where it is told what that is
/// worth. Nothing else is possible.
#[derive(Drop)]
pub struct Middle {
    pub(crate) trades: u32,
    pub(crate) buys: Bundle,
    pub(crate) numbers: Vec<i128>,
    pub(crate) keep: Option<i128>,
    ghost middle: { IsMiddle trades buys numbers.items keep },
}

impl Middle {
    ghost use Rattle.tn_middle.specs.Firms.{firm_of};

    /// The firm with these sides by position. Its numbers are the costs of its purchases and the gains of its sales;
    /// `keep` is what a purchase without a sale is worth before its cost, None where it isn't possible. There are at
    /// most 60 trades, and no number is above 10^9 in size. It takes no memory.
    pub fn new(sides: Vec<Side>, numbers: Vec<i128>, keep: Option<i128>) -> Middle
        requires few { length sides.items ≤ most_own }
        requires as_many { length numbers.items ≡ length sides.items }
        requires small { All (λ a. IsAtMost a most_amount) numbers.items }
        requires small_keep { ForSome keep (λ a. IsAtMost a most_amount) }
        ensures { firm_of result ≡ middle_firm sides.items numbers.items keep }
    {
        Middle {
            trades: sides.len() as u32,
            buys: purchases(&sides),
            numbers,
            keep,
        }
    }

    /// What position `k` adds to the balance of a bundle: the gain of a sale, less the cost of a purchase.
    fn balance_at(&self, x: Bundle, k: u32) -> i128
        requires { k < self.now.trades }
        ensures term { result ≡ (if has x k then payments self.now.buys (own_number self.now.numbers.items) k
            else pos 0) }
        ensures small { IsAtMost result most_amount }
    {
        let number = self.numbers[k as usize];
        match (x.has(k), self.buys.has(k)) {
            (false, _) => 0,
            (true, true) => -number,
            (true, false) => number,
        }
    }

    /// The gains of a bundle's sales, less the costs of its purchases.
    #[tactic(auto, unfolding(tn_base::specs::Sets::sum_over))]
    fn balance(&self, x: Bundle) -> i128
        ensures sum { result ≡ sum_over (payments self.now.buys (own_number self.now.numbers.items)) self.now.trades x }
        ensures small { IsAtMost result (most_own * most_amount) }
    {
        let mut total = 0;
        for k in 0..self.trades {
            total += self.balance_at(x, k);
        }
        total
    }

    /// What a bundle of own trades is worth, None where it is impossible.
    pub(crate) fn worth(&self, x: Bundle) -> Option<i128>
        ensures { result ≡ by_counts (size (meet x self.now.buys)) (size (minus x self.now.buys)) self.now.keep
            (sum_over (payments self.now.buys (own_number self.now.numbers.items)) self.now.trades x) }
    {
        match (x.meet(self.buys).count(), x.minus(self.buys).count()) {
            (0, 0) => Some(0),
            (1, 0) => Some(self.keep? + self.balance(x)),
            (1, 1) => Some(self.balance(x)),
            _ => None,
        }
    }
}
