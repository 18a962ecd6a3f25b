//! The search for a best bundle among those that have all wanted positions and no forbidden one, and that from a bundle
//! at hand.

ghost use Rattle.std.specs.Prelude.{◌≡◌, ◌+◌, ◌^◌, ◌*◌, ◌<◌, ◌≤◌, ◌↔◌, ℤ, pos, ◌+ℤ◌, ◌≤ℤ◌, if◌then◌else◌, length, is_some, All, IsTrue, true};
ghost use Rattle.tn_base.specs.Arcs.{IsAtMost};
ghost use Rattle.tn_base.specs.Sets.{meet, set_of, union};
ghost use Rattle.tn_base.specs.Firm.{IsBest, utility};
ghost use Rattle.tn_market.specs.Ascent.{AreGains, aimed, payment_of};
ghost use Rattle.tn_market.specs.Best.{GivesBest, IsBestBetween};
ghost use Rattle.tn_market.specs.BestFrom.{IsBestFrom};
ghost use Rattle.tn_model.specs.Prices.{price_at};
ghost use Rattle.tn_market.specs.Widths.{most_own, most_worth, most_asked_price, most_scale, most_utility};

use crate::aim::Aim;
use crate::oracle::MOST_OWN;
use crate::valuation::Valuation;
use tn_base::{Bundle, Side, Steps};

/// What a wanted position is worth to the search: more than any two utilities are apart, which are at most 6.1 * 10^21
/// in size. So a bundle of greatest value has all wanted positions, if any possible bundle has them.
const BONUS: i128 = 20_000_000_000_000_000_000_000;

/// What the search counts for a position: what the firm gets for it, and the bonus if it is wanted.
fn gain(side: Side, price: i128, wanted: bool) -> i128
    requires { IsAtMost price most_asked_price }
    ensures value { result ≡ payment_of side price +ℤ (if wanted then pos most_utility else pos 0) }
    ensures small { IsAtMost result (2 * most_utility) }
{
    let payment = match side {
        Side::Buy => -price,
        Side::Sell => price,
    };
    if wanted { payment + BONUS } else { payment }
}

/// The bundle of the first positions.
#[tactic(auto, unfolding(tn_base::specs::Sets::set_of))]
pub fn all_positions(n: u32) -> Bundle
    requires { n ≤ most_own }
    ensures { result ≡ set_of (λ k. true) n }
{
    let mut all = Bundle::empty();
    for k in 0..n {
        all = all.toggle(k);
    }
    all
}

/// What the search counts for each position.
pub fn gains<V: Valuation>(firm: &V, need: Bundle, prices: &[i128]) -> [i128; MOST_OWN]
    requires priced { length prices.now ≡ (V.firm firm.now).count }
    requires few { (V.firm firm.now).count ≤ most_own }
    requires small { All (λ p. IsAtMost p most_asked_price) prices.now }
    ensures { AreGains (V.firm firm.now).buys need prices.now (V.firm firm.now).count result }
{
    let mut gains = [0; MOST_OWN];
    for k in 0..firm.trades() {
        gains[k as usize] = gain(firm.side(k), prices[k as usize], need.has(k));
    }
    gains
}

/// The bundle of all allowed positions where it is possible, and otherwise another one. It asks for one worth at most.
fn whole_or<V: Valuation>(aim: &Aim<'_, V>, other: Bundle, steps: &mut Steps<V::Mark>) -> Bundle
    ensures start { result ≡ (if is_some ((aimed aim.now.allowed aim.now.scale aim.now.gains.now
        (V.firm aim.now.firm.now)).worth aim.now.allowed) then aim.now.allowed else other) }
    ensures asked { steps.new ≤ steps.old + 1 }
{
    if aim.value(aim.allowed, steps).is_some() {
        aim.allowed
    } else {
        other
    }
}

/// A best bundle among the possible ones that contain `need` and have beside it only positions of `free`, with its
/// utility; None exactly where no such bundle is possible. Each worth that it asks counts on `steps`. It takes no
/// memory.
///
/// The search goes up by the best change of one or two positions, until none gains (steepest ascent: Murota, Discrete
/// Convex Analysis, 2003), from all of `need` and `free`, or where these together are impossible from `free` alone, or
/// the empty bundle. Positions in `need` and in `free` are own and differ. Prices are at most 10^20 in size and the
/// scale is 1 to 100,000,000; the firm has at most 60 own trades and no worth above 1.24 * 10^11. There is a price for
/// each position.
pub fn best_by_ascent<V: Valuation>(
    firm: &V,
    need: Bundle,
    free: Bundle,
    scale: i128,
    prices: &[i128],
    steps: &mut Steps<V::Mark>,
) -> Option<(Bundle, i128)>
    requires apart { meet need free ≡ 0 }
    requires own { union need free < 2 ^ (V.firm firm.now).count }
    requires priced { length prices.now ≡ (V.firm firm.now).count }
    requires small_prices { All (λ p. IsAtMost p most_asked_price) prices.now }
    requires scaled { pos 1 ≤ℤ scale }
    requires small_scale { scale ≤ℤ pos most_scale }
    requires few_trades { (V.firm firm.now).count ≤ most_own }
    requires small_worths { V.limit firm.now ≤ most_worth }
    ensures { GivesBest need free (utility scale (price_at prices.now) (V.firm firm.now)) result }
{
    let gains = gains(firm, need, prices);
    let aim = Aim {
        firm,
        allowed: need.union(free),
        scale,
        gains: &gains,
    };
    let start = whole_or(&aim, free, steps);
    let found = aim.climb(start, steps);
    if need.minus(found.bundle) != Bundle::empty() {
        return None;
    }
    let bonuses = BONUS * need.count() as i128;
    Some((found.bundle, found.value - bonuses))
}

/// A best bundle among the possible ones within `allowed`, with its utility, found from a bundle at hand: that one
/// wherever it is best. Each worth that it asks counts on `steps`. It takes no memory.
///
/// The search goes up from `from` as that of `best_by_ascent` does, and from the empty bundle where `from` is impossible
/// or not within `allowed`. So where `from` is best it asks for at most a worth for each two places,
/// where none is a place too. The positions in `allowed` are own; prices, scale and firm are within the limits of
/// `best_by_ascent`.
pub fn best_by_ascent_from<V: Valuation>(
    firm: &V,
    from: Bundle,
    allowed: Bundle,
    scale: i128,
    prices: &[i128],
    steps: &mut Steps<V::Mark>,
) -> (Bundle, i128)
    requires own { allowed < 2 ^ (V.firm firm.now).count }
    requires priced { length prices.now ≡ (V.firm firm.now).count }
    requires small_prices { All (λ p. IsAtMost p most_asked_price) prices.now }
    requires scaled { pos 1 ≤ℤ scale }
    requires small_scale { scale ≤ℤ pos most_scale }
    requires few_trades { (V.firm firm.now).count ≤ most_own }
    requires small_worths { V.limit firm.now ≤ most_worth }
    ensures best { IsBestFrom from allowed (utility scale (price_at prices.now) (V.firm firm.now)) result }
    ensures small { IsAtMost result.1 most_utility }
    ensures asked { (value : ℤ) → IsBestBetween 0 allowed (utility scale (price_at prices.now) (V.firm firm.now)) from
        value → steps.new ≤ steps.old + ((V.firm firm.now).count + 1) * ((V.firm firm.now).count + 1) }
{
    let gains = gains(firm, Bundle::empty(), prices);
    let aim = Aim {
        firm,
        allowed,
        scale,
        gains: &gains,
    };
    let found = aim.climb(from, steps);
    (found.bundle, found.value)
}

/// Whether a bundle is best at these prices, by one step of the ascent from it. Each worth that it asks counts on
/// `steps`: at most one for each two places, where none is a place too. It takes no memory. Prices, scale and firm are
/// within the limits of `best_by_ascent`.
pub fn is_best_by_step<V: Valuation>(
    firm: &V,
    own: Bundle,
    scale: i128,
    prices: &[i128],
    steps: &mut Steps<V::Mark>,
) -> bool
    requires priced { length prices.now ≡ (V.firm firm.now).count }
    requires small_prices { All (λ p. IsAtMost p most_asked_price) prices.now }
    requires scaled { pos 1 ≤ℤ scale }
    requires small_scale { scale ≤ℤ pos most_scale }
    requires few_trades { (V.firm firm.now).count ≤ most_own }
    requires small_worths { V.limit firm.now ≤ most_worth }
    ensures best { IsTrue result
        ↔ ((value : ℤ) × IsBest (utility scale (price_at prices.now) (V.firm firm.now)) own value) }
    ensures asked { steps.new ≤ steps.old + ((V.firm firm.now).count + 1) * ((V.firm firm.now).count + 1) }
{
    let gains = gains(firm, Bundle::empty(), prices);
    let aim = Aim {
        firm,
        allowed: all_positions(firm.trades()),
        scale,
        gains: &gains,
    };
    aim.is_best(own, steps)
}
