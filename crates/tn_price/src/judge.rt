//! The verdict on an arrangement.

ghost use Rattle.std.specs.Prelude.{◌≡◌, ℕ, ◌*◌, ◌<◌, ◌≤◌, Some, pos, ◌≤ℤ◌, length, slice_get, All};
ghost use Rattle.tn_base.specs.Arcs.{IsAtMost};
ghost use Rattle.tn_model.specs.Prices.{price_at};
ghost use Rattle.tn_model.specs.Limits.{most_claimed_over, most_number};
ghost use Rattle.tn_market.specs.Widths.{most_own, most_worth};
ghost use Rattle.tn_price.specs.Checks.{Checks};
ghost use Rattle.tn_price.specs.Standings.{AreOwnPrices, StandsAt};
ghost use Rattle.tn_market.specs.NetworkOf.{network_of};

use crate::check::Check;
use crate::firm::standing;
use crate::firm_verdict::FirmVerdict;
use tn_base::TradeSet;
use tn_market::{Arrangement, MOST_OWN, Market, Oracle, Prices, Valuation};

/// The prices of the `n` trades of firm `f`, by position.
pub fn own_prices<V: Valuation>(
    market: &Market<V>,
    prices: &Prices,
    f: u32,
    n: u32,
) -> [i128; MOST_OWN]
    requires firm { f < length market.now.firms }
    requires own { (v : V) → slice_get market.now.firms f ≡ Some v → n ≡ (V.firm v).count }
    requires few { n ≤ most_own }
    requires priced { length prices.now ≡ length market.now.trades }
    requires small { All (λ p. IsAtMost p most_number) prices.now }
    ensures { AreOwnPrices market.now.trades (price_at prices.now) f n result }
{
    let mut own = [0; MOST_OWN];
    for k in 0..n {
        own[k as usize] = prices.at(market.own(f, k) as usize);
    }
    own
}

/// How firm `f` stands.
fn standing_of<V: Oracle, const W: usize>(
    market: &Market<V>,
    on: &TradeSet<W>,
    prices: &Prices,
    over: i128,
    f: u32,
) -> FirmVerdict
    requires wide { length market.now.trades ≤ 64 * W }
    requires priced { length prices.now ≡ length market.now.trades }
    requires small_prices { All (λ p. IsAtMost p most_number) prices.now }
    requires from_one { pos 1 ≤ℤ over }
    requires small_over { over ≤ℤ pos most_claimed_over }
    requires firm { f < length market.now.firms }
    requires few_own { (v : V) → slice_get market.now.firms f ≡ Some v → (V.firm v).count ≤ most_own }
    requires small_worths { (v : V) → slice_get market.now.firms f ≡ Some v → V.limit v ≤ most_worth }
    ensures { network_of V.firm market.now StandsAt over on.now (price_at prices.now) f result }
{
    let firm = market.firm(f);
    let n = firm.trades();
    let own_prices = own_prices(market, prices, f, n);
    let own = market.bundle_of(f, on);
    standing(firm, own, over, &own_prices[..n as usize])
}

/// Judges a set of trades with prices at scale `over`: the first firm whose bundle is impossible or not best, or that
/// they are an equilibrium. It takes no memory. There is one price for each trade, at most 10^18 in size, and `over` is
/// 1 to 1,000,000; the market has at most `64 * W` trades, and each firm at most 60 own trades and no worth above 1.24 *
/// 10^11.
pub fn judge_at<V: Oracle, const W: usize>(
    market: &Market<V>,
    on: &TradeSet<W>,
    prices: &Prices,
    over: i128,
) -> Check
    requires wide { length market.now.trades ≤ 64 * W }
    requires priced { length prices.now ≡ length market.now.trades }
    requires small_prices { All (λ p. IsAtMost p most_number) prices.now }
    requires from_one { pos 1 ≤ℤ over }
    requires small_over { over ≤ℤ pos most_claimed_over }
    requires few_own { (f : ℕ) (v : V) → slice_get market.now.firms f ≡ Some v → (V.firm v).count ≤ most_own }
    requires small_worths { (f : ℕ) (v : V) → slice_get market.now.firms f ≡ Some v → V.limit v ≤ most_worth }
    ensures { network_of V.firm market.now Checks over on.now (price_at prices.now) result }
{
    let mut surplus = 0;
    for f in 0..market.firms() {
        match standing_of(market, on, prices, over, f) {
            FirmVerdict::Best(worth) => surplus += worth,
            FirmVerdict::Impossible => return Check::Impossible { firm: f },
            FirmVerdict::Bettered(bundle, gain) => {
                return Check::Better {
                    firm: f,
                    bundle,
                    gain,
                };
            }
        }
    }
    Check::Equilibrium { surplus }
}

/// Judges an arrangement at scale `over`: the first firm whose bundle is impossible or not best, or that the
/// arrangement is an equilibrium. It takes no memory. There is one price for each trade, at most 10^18 in size, and
/// `over` is 1 to 1,000,000; the market has at most `64 * W` trades, and each firm at most 60 own trades and no worth
/// above 1.24 * 10^11.
pub fn judge_arrangement<V: Oracle, const W: usize>(
    market: &Market<V>,
    at: &Arrangement<W>,
    over: i128,
) -> Check
    requires wide { length market.now.trades ≤ 64 * W }
    requires priced { length at.now.prices ≡ length market.now.trades }
    requires small_prices { All (λ p. IsAtMost p most_number) at.now.prices }
    requires from_one { pos 1 ≤ℤ over }
    requires small_over { over ≤ℤ pos most_claimed_over }
    requires few_own { (f : ℕ) (v : V) → slice_get market.now.firms f ≡ Some v → (V.firm v).count ≤ most_own }
    requires small_worths { (f : ℕ) (v : V) → slice_get market.now.firms f ≡ Some v → V.limit v ≤ most_worth }
    ensures { network_of V.firm market.now Checks over at.now.on (price_at at.now.prices) result }
{
    judge_at(market, &at.on, &at.prices, over)
}
