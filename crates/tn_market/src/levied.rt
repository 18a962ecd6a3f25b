//! Firms under a levy.

ghost use Rattle.std.specs.Prelude.{◌≡◌, ◌^◌, ◌<◌, ◌≤◌, pos, ◌≤ℤ◌, ◌-ℤ◌, ◌*ℤ◌, unsigned_abs};
ghost use Rattle.tn_base.specs.Arcs.{IsAtMost};
ghost use Rattle.tn_market.specs.Levied.{levied, levied_limit, IsLevy};
ghost use Rattle.tn_market.specs.Valued.{IsWorthAtMost};
ghost use Rattle.tn_market.specs.Widths.{most_limit};

use crate::valuation::Valuation;
use tn_base::{Bundle, Side, Steps};

/// A firm under a levy: its worths count `scale` times, less a tax for each taxed position of a bundle.
#[derive(Drop)]
pub struct Levied<'a, V: Valuation> {
    inner: &'a V,
    /// A bound on the size of its worths.
    worth: i128,
    scale: i128,
    /// The bits of the bundle of the taxed positions.
    taxed: u64,
    tax: i128,
    ghost bound: { pos 0 ≤ℤ worth },
    ghost worths: { IsWorthAtMost (unsigned_abs worth) (V.firm inner.now) },
    ghost levy: { IsLevy scale tax (unsigned_abs worth) },
}

impl<'a, V: Valuation> Levied<'a, V> {
    /// The firm whose worths are those of `inner`, counted `scale` times, less `tax` for each position of `taxed`. The
    /// scale is at least 1 and the tax at least 0; the limit of its worths, `scale` times that of `inner` and 64 times
    /// the tax, is at most 10^18.
    pub fn new(inner: &'a V, scale: i128, taxed: Bundle, tax: i128) -> Levied<'a, V>
        requires scaled { pos 1 ≤ℤ scale }
        requires taxed { pos 0 ≤ℤ tax }
        requires small { levied_limit scale tax (V.limit inner.now) ≤ most_limit }
        ensures firm { ⟦<Levied<'a, V> as Valuation>⟧.firm result ≡ levied scale taxed tax (V.firm inner.now) }
        ensures limit { ⟦<Levied<'a, V> as Valuation>⟧.limit result ≡ levied_limit scale tax (V.limit inner.now) }
    {
        Levied::within(inner, inner.bound(), scale, taxed, tax)
    }

    /// The same where no worth of `inner` is above `worth` in size, which may be less than its own bound.
    pub fn within(inner: &'a V, worth: i128, scale: i128, taxed: Bundle, tax: i128) -> Levied<'a, V>
        requires bound { pos 0 ≤ℤ worth }
        requires worths { IsWorthAtMost (unsigned_abs worth) (V.firm inner.now) }
        requires scaled { pos 1 ≤ℤ scale }
        requires taxed { pos 0 ≤ℤ tax }
        requires small { levied_limit scale tax (unsigned_abs worth) ≤ most_limit }
        ensures firm { ⟦<Levied<'a, V> as Valuation>⟧.firm result ≡ levied scale taxed tax (V.firm inner.now) }
        ensures limit { ⟦<Levied<'a, V> as Valuation>⟧.limit result ≡ levied_limit scale tax (unsigned_abs worth) }
    {
        Levied {
            inner,
            worth,
            scale,
            taxed: taxed.bits(),
            tax,
        }
    }

    /// What an own bundle is worth under the levy, by what it is worth without.
    fn levied_worth(&self, x: Bundle, worth: Option<i128>) -> Option<i128>
        requires own { x < 2 ^ (V.firm self.now.inner.now).count }
        requires worth { worth ≡ (V.firm self.now.inner.now).worth x }
        ensures { result ≡ (levied self.now.scale self.now.taxed self.now.tax (V.firm self.now.inner.now)).worth x }
    {
        let taxed = x.meet(Bundle::from_bits(self.taxed));
        match worth {
            Some(worth) => Some(after_tax(self.scale, worth, self.tax, taxed.count())),
            None => None,
        }
    }
}

/// A worth counted `scale` times, less the tax for each of `count` positions.
fn after_tax(scale: i128, worth: i128, tax: i128, count: u32) -> i128
    requires worth { IsAtMost (scale *ℤ worth) most_limit }
    requires taxes { IsAtMost (tax *ℤ pos count) most_limit }
    ensures { result ≡ scale *ℤ worth -ℤ tax *ℤ pos count }
{
    scale * worth - tax * count as i128
}

impl<V: Valuation> Valuation for Levied<'_, V> {
    ghost use Rattle.tn_market.specs.LeviedLemmas.{levied_laws};

    type Mark = V::Mark;

    ghost firm = { λ v. levied v.scale v.taxed v.tax (V.firm v.inner.now) };

    ghost limit = { λ v. levied_limit v.scale v.tax (unsigned_abs v.worth) };

    fn trades(&self) -> u32 {
        self.inner.trades()
    }

    fn side(&self, k: u32) -> Side {
        self.inner.side(k)
    }

    fn bound(&self) -> i128 {
        self.scale * self.worth + 64 * self.tax
    }

    fn value(&self, x: Bundle, steps: &mut Steps<V::Mark>) -> Option<i128> {
        self.levied_worth(x, self.inner.value(x, steps))
    }

    fn row(
        &self,
        x: Bundle,
        wanted: Bundle,
        worths: &mut [Option<i128>],
        steps: &mut Steps<V::Mark>,
    ) {
        self.inner.row(x, wanted, worths, steps);
        for k in 0..self.inner.trades() {
            if wanted.has(k) {
                worths[k as usize] = self.levied_worth(x.toggle(k), worths[k as usize]);
            }
        }
    }

    ghost lawful = { λ v. levied_laws v.scale v.tax v.taxed (unsigned_abs v.worth) (V.limit v.inner.now)
        (V.firm v.inner.now) v.levy v.worths (V.lawful v.inner.now) };
}
