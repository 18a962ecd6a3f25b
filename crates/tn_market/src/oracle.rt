//! Firms that can be asked for a best bundle.

ghost use Rattle.std.specs.Prelude.{◌≡◌, ◌^◌, ◌<◌, ◌≤◌, pos, ◌≤ℤ◌, length, All, IfSome};
ghost use Rattle.tn_base.specs.Arcs.{IsAtMost};
ghost use Rattle.tn_base.specs.Sets.{meet, union};
ghost use Rattle.tn_base.specs.Firm.{utility};
ghost use Rattle.tn_market.specs.Best.{GivesBest};
ghost use Rattle.tn_market.specs.BestFrom.{IsBestFrom};
ghost use Rattle.tn_model.specs.Prices.{price_at};
ghost use Rattle.tn_market.specs.Widths.{most_own, most_worth, most_asked_price, most_scale, most_utility};

use crate::aim::Aim;
use crate::ascent::{best_by_ascent, best_by_ascent_from, gains};
use crate::valuation::Valuation;
use tn_base::{Asked, Bundle, Steps};

/// How many own trades a firm may have that is asked for best bundles.
pub const MOST_OWN: usize = 60;

/// The greatest bound on worths that such a firm may have.
pub const MOST_WORTH: i128 = 124_000_000_000;

/// A firm that finds a best bundle at given prices: by the search that stands here, which asks for worths, or by one of
/// its own.
pub trait Oracle: Valuation<Mark = Asked> {
    /// A bundle of greatest utility among the possible ones that contain `need` and have beside it only positions of
    /// `free`, with that utility; where several are greatest, any of them. None exactly where no such bundle is
    /// possible. A worth counts `scale` times, and `prices` has a price for each position. It takes no memory.
    /// Positions in `need` and in `free` are own and differ. Prices are at most 10^20 in size and the scale is 1 to
    /// 100,000,000; the firm has at most 60 own trades and no worth above 1.24 * 10^11.
    fn best(
        &self,
        need: Bundle,
        free: Bundle,
        scale: i128,
        prices: &[i128],
    ) -> Option<(Bundle, i128)>
        requires apart { meet need free ≡ 0 }
        requires own { union need free < 2 ^ (Self.firm self.now).count }
        requires priced { length prices.now ≡ (Self.firm self.now).count }
        requires small_prices { All (λ p. IsAtMost p most_asked_price) prices.now }
        requires scaled { pos 1 ≤ℤ scale }
        requires small_scale { scale ≤ℤ pos most_scale }
        requires few_trades { (Self.firm self.now).count ≤ most_own }
        requires small_worths { Self.limit self.now ≤ most_worth }
        ensures { GivesBest need free (utility scale (price_at prices.now) (Self.firm self.now)) result }
    {
        best_by_ascent(self, need, free, scale, prices, &mut Steps::new(Asked))
    }

    /// A bundle of greatest utility among the possible ones within `allowed`, with that utility, found from a bundle at
    /// hand: that one wherever it is of greatest utility. The positions in `allowed` are own. Prices, scale and firm are
    /// within the limits of `best`. It takes no memory.
    fn best_from(
        &self,
        from: Bundle,
        allowed: Bundle,
        scale: i128,
        prices: &[i128],
    ) -> (Bundle, i128)
        requires own { allowed < 2 ^ (Self.firm self.now).count }
        requires priced { length prices.now ≡ (Self.firm self.now).count }
        requires small_prices { All (λ p. IsAtMost p most_asked_price) prices.now }
        requires scaled { pos 1 ≤ℤ scale }
        requires small_scale { scale ≤ℤ pos most_scale }
        requires few_trades { (Self.firm self.now).count ≤ most_own }
        requires small_worths { Self.limit self.now ≤ most_worth }
        ensures best { IsBestFrom from allowed (utility scale (price_at prices.now) (Self.firm self.now)) result }
        ensures small { IsAtMost result.1 most_utility }
    {
        best_by_ascent_from(self, from, allowed, scale, prices, &mut Steps::new(Asked))
    }
}

/// The utility of a bundle at a scale and at the prices of the positions, None where it is impossible. It takes no
/// memory. The bundle has own positions alone; prices, scale and firm are within the limits of `best`.
pub fn utility_of<V: Oracle>(firm: &V, x: Bundle, scale: i128, prices: &[i128]) -> Option<i128>
    requires own { x < 2 ^ (V.firm firm.now).count }
    requires priced { length prices.now ≡ (V.firm firm.now).count }
    requires small_prices { All (λ p. IsAtMost p most_asked_price) prices.now }
    requires scaled { pos 1 ≤ℤ scale }
    requires small_scale { scale ≤ℤ pos most_scale }
    requires few_trades { (V.firm firm.now).count ≤ most_own }
    requires small_worths { V.limit firm.now ≤ most_worth }
    ensures value { result ≡ utility scale (price_at prices.now) (V.firm firm.now) x }
    ensures small { IfSome result (λ value. IsAtMost value most_utility) }
{
    // Where nothing is wanted, a value of the search is a utility.
    let gains = gains(firm, Bundle::empty(), prices);
    let aim = Aim {
        firm,
        allowed: x,
        scale,
        gains: &gains,
    };
    aim.value(x, &mut Steps::new(Asked))
}

/// The worth of a bundle, None where it is impossible. It takes no memory. The bundle has own positions alone; the firm
/// has at most 60 own trades and no worth above 1.24 * 10^11.
pub fn worth_of<V: Oracle>(firm: &V, x: Bundle) -> Option<i128>
    requires own { x < 2 ^ (V.firm firm.now).count }
    requires few_trades { (V.firm firm.now).count ≤ most_own }
    requires small_worths { V.limit firm.now ≤ most_worth }
    ensures { result ≡ (V.firm firm.now).worth x }
{
    firm.value(x, &mut Steps::new(Asked))
}
