//! What a firm says of its bundles, asked through its oracle.

ghost use Rattle.std.specs.Prelude.{◌≡◌, ◌^◌, ◌<◌, ◌≤◌, ℤ, pos, ◌≤ℤ◌, length, All};
ghost use Rattle.tn_base.specs.Arcs.{IsAtMost};
ghost use Rattle.tn_base.specs.Firm.{utility, IsBest};
ghost use Rattle.tn_model.specs.Prices.{price_at};
ghost use Rattle.tn_market.specs.Widths.{most_asked_price, most_own, most_scale, most_utility, most_worth};
ghost use Rattle.tn_price.specs.Standings.{Stands};

use crate::firm_verdict::FirmVerdict;
use tn_base::Bundle;
use tn_market::{Oracle, all_positions, utility_of, worth_of};

/// A best bundle with its utility, found from a bundle at hand: that one wherever it is best. Prices, scale and firm
/// are within the limits of `best`.
fn greatest_from<V: Oracle>(firm: &V, from: Bundle, scale: i128, prices: &[i128]) -> (Bundle, i128)
    requires priced { length prices.now ≡ (V.firm firm.now).count }
    requires small_prices { All (λ p. IsAtMost p most_asked_price) prices.now }
    requires scaled { pos 1 ≤ℤ scale }
    requires small_scale { scale ≤ℤ pos most_scale }
    requires few_trades { (V.firm firm.now).count ≤ most_own }
    requires small_worths { V.limit firm.now ≤ most_worth }
    ensures best { IsBest (utility scale (price_at prices.now) (V.firm firm.now)) result.0 result.1 }
    ensures kept { (value : ℤ) → IsBest (utility scale (price_at prices.now) (V.firm firm.now)) from value
        → result.0 ≡ from }
    ensures small { IsAtMost result.1 most_utility }
{
    let all = all_positions(firm.trades());
    firm.best_from(from, all, scale, prices)
}

/// A best bundle with its utility. There is one, since the empty bundle is possible. Prices, scale and firm are within
/// the limits of `best`.
pub fn greatest<V: Oracle>(firm: &V, scale: i128, prices: &[i128]) -> (Bundle, i128)
    requires priced { length prices.now ≡ (V.firm firm.now).count }
    requires small_prices { All (λ p. IsAtMost p most_asked_price) prices.now }
    requires scaled { pos 1 ≤ℤ scale }
    requires small_scale { scale ≤ℤ pos most_scale }
    requires few_trades { (V.firm firm.now).count ≤ most_own }
    requires small_worths { V.limit firm.now ≤ most_worth }
    ensures best { IsBest (utility scale (price_at prices.now) (V.firm firm.now)) result.0 result.1 }
    ensures small { IsAtMost result.1 most_utility }
{
    greatest_from(firm, Bundle::empty(), scale, prices)
}

/// How a firm stands with its bundle at the prices of its positions. The search for a best bundle begins at its own,
/// and leaves that only for a better one.
pub fn standing<V: Oracle>(firm: &V, own: Bundle, scale: i128, prices: &[i128]) -> FirmVerdict
    requires own { own < 2 ^ (V.firm firm.now).count }
    requires priced { length prices.now ≡ (V.firm firm.now).count }
    requires small_prices { All (λ p. IsAtMost p most_asked_price) prices.now }
    requires scaled { pos 1 ≤ℤ scale }
    requires small_scale { scale ≤ℤ pos most_scale }
    requires few_trades { (V.firm firm.now).count ≤ most_own }
    requires small_worths { V.limit firm.now ≤ most_worth }
    ensures { Stands (V.firm firm.now).worth (utility scale (price_at prices.now) (V.firm firm.now)) own result }
{
    let Some(worth) = worth_of(firm, own) else {
        return FirmVerdict::Impossible;
    };
    let (bundle, most) = greatest_from(firm, own, scale, prices);
    if bundle == own {
        return FirmVerdict::Best(worth);
    }
    let value = utility_of(firm, own, scale, prices).unwrap();
    FirmVerdict::Bettered(bundle, most - value)
}
