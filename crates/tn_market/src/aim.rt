//! Steepest ascent: from a possible bundle on, the search takes the change of one or two positions that gains most,
//! until none gains. For a firm that meets exchange it then stands at a best bundle, wherever it began (Murota,
//! Discrete Convex Analysis, 2003, on the maximisation of M-natural concave functions).

ghost use Rattle.std.specs.Prelude.{◌≡◌, ◌+◌, ◌*◌, ◌<◌, ◌≤◌, ◌↔◌, ℤ, ◌≤ℤ◌, ◌+ℤ◌, ◌*ℤ◌, pos, if◌then◌else◌, length, IfSome, IsTrue, Some, true, false};
ghost use Rattle.tn_base.specs.Arcs.{IsAtMost};
ghost use Rattle.tn_base.specs.Sets.{has, minus, size, sum_over, toggle};
ghost use Rattle.tn_base.specs.Firm.{IsBest};
ghost use Rattle.tn_market.specs.Ascent.{AsksFew, aimed, IsAim, IsGained, IsValued, StaysAt, TriesOne, TriesOthers, TriesNearby};
ghost use Rattle.tn_model.specs.Prices.{price_at};
ghost use Rattle.tn_market.specs.Widths.{most_worth, most_scale, most_own, most_utility, most_aimed};

use crate::bundle_gain::BundleGain;
use crate::bundle_value::BundleValue;
use crate::oracle::MOST_OWN;
use crate::valuation::Valuation;
use tn_base::{Bundle, Steps};

/// What a search is after: bundles within `allowed`, each worth `scale` times what the firm says, and a gain for each
/// of its positions beside it.
#[derive(Drop)]
pub struct Aim<'a, V: Valuation> {
    pub firm: &'a V,
    pub allowed: Bundle,
    pub scale: i128,
    pub gains: &'a [i128],
    ghost fits: { IsAim allowed scale gains.now (V.limit firm.now) (V.firm firm.now) },
}

/// A worth counted `scale` times, with a gain beside it.
fn valued(scale: i128, worth: i128, gain: i128) -> i128
    requires from_one { pos 1 ≤ℤ scale }
    requires small_scale { scale ≤ℤ pos most_scale }
    requires small_worth { IsAtMost worth most_worth }
    requires small_gain { IsAtMost gain (most_own * (2 * most_utility)) }
    ensures value { result ≡ scale *ℤ worth +ℤ gain }
    ensures small { IsAtMost result most_aimed }
{
    scale * worth + gain
}

impl<V: Valuation> Aim<'_, V> {
    /// What position `k` adds to the value of a bundle.
    fn gain_at(&self, x: Bundle, k: u32) -> i128
        requires { k < (V.firm self.now.firm.now).count }
        ensures term { result ≡ (if has x k then price_at self.now.gains.now k else pos 0) }
        ensures small { IsAtMost result (2 * most_utility) }
    {
        if x.has(k) { self.gains[k as usize] } else { 0 }
    }

    /// The sum of the gains of a bundle's positions.
    #[tactic(auto, unfolding(tn_base::specs::Sets::sum_over))]
    fn gain(&self, x: Bundle) -> i128
        ensures sum { result ≡ sum_over (price_at self.now.gains.now) (V.firm self.now.firm.now).count x }
        ensures small { IsAtMost result (most_own * (2 * most_utility)) }
    {
        let mut total = 0;
        for k in 0..self.firm.trades() {
            total += self.gain_at(x, k);
        }
        total
    }

    /// The sum of the gains of a bundle's positions with position `k` toggled, by the sum without.
    fn gain_toggled(&self, x: Bundle, k: u32, gain: i128) -> i128
        requires position { k < (V.firm self.now.firm.now).count }
        requires gain { gain ≡ sum_over (price_at self.now.gains.now) (V.firm self.now.firm.now).count x }
        ensures { result ≡ sum_over (price_at self.now.gains.now) (V.firm self.now.firm.now).count (toggle x k) }
    {
        let own = self.gains[k as usize];
        if x.has(k) { gain - own } else { gain + own }
    }

    /// A bundle with position `k` toggled, and its gain by that of the one without.
    fn toggled(&self, x: &BundleGain, k: u32) -> BundleGain
        requires position { k < (V.firm self.now.firm.now).count }
        requires gain { IsGained self.now.gains.now (V.firm self.now.firm.now).count x.now }
        ensures bundle { result.bundle ≡ toggle x.now.bundle k }
        ensures gain { IsGained self.now.gains.now (V.firm self.now.firm.now).count result }
    {
        BundleGain {
            bundle: x.bundle.toggle(k),
            gain: self.gain_toggled(x.bundle, k, x.gain),
        }
    }

    /// The value of a bundle within the allowed positions by its gain and its worth, None where it is impossible.
    fn value_by(&self, x: &BundleGain, worth: Option<i128>) -> Option<i128>
        requires within { minus x.now.bundle self.now.allowed ≡ 0 }
        requires gain { IsGained self.now.gains.now (V.firm self.now.firm.now).count x.now }
        requires worth { worth ≡ (V.firm self.now.firm.now).worth x.now.bundle }
        ensures value { result ≡ (aimed self.now.allowed self.now.scale self.now.gains.now
            (V.firm self.now.firm.now)).worth x.now.bundle }
        ensures small { IfSome result (λ value. IsAtMost value most_aimed) }
    {
        match worth {
            Some(worth) => Some(valued(self.scale, worth, x.gain)),
            None => None,
        }
    }

    /// The value of a bundle, None where it is impossible or not within the allowed positions. It asks for one worth at
    /// most.
    pub fn value(&self, x: Bundle, steps: &mut Steps<V::Mark>) -> Option<i128>
        ensures value { result
            ≡ (aimed self.now.allowed self.now.scale self.now.gains.now (V.firm self.now.firm.now)).worth x }
        ensures small { IfSome result (λ value. IsAtMost value most_aimed) }
        ensures asked { steps.new ≤ steps.old + 1 }
    {
        if x.minus(self.allowed) != Bundle::empty() {
            return None;
        }
        let gained = BundleGain {
            bundle: x,
            gain: self.gain(x),
        };
        self.value_by(&gained, self.firm.value(x, steps))
    }

    /// The better of a bundle found so far and another one within the allowed positions, by its gain and its worth: the
    /// other only where it is possible and has more.
    fn better(&self, best: BundleValue, other: &BundleGain, worth: Option<i128>) -> BundleValue
        requires within { minus other.now.bundle self.now.allowed ≡ 0 }
        requires gain { IsGained self.now.gains.now (V.firm self.now.firm.now).count other.now }
        requires worth { worth ≡ (V.firm self.now.firm.now).worth other.now.bundle }
        ensures { TriesOne (aimed self.now.allowed self.now.scale self.now.gains.now (V.firm self.now.firm.now)).worth
            other.now.bundle best result }
    {
        match self.value_by(other, worth) {
            Some(value) if value > best.value => BundleValue {
                bundle: other.bundle,
                value,
            },
            _ => best,
        }
    }

    /// The better of a bundle found so far and those that have one of the other positions toggled in the bundle `x`: by
    /// one row of worths, for which the slice has room.
    fn best_with(
        &self,
        best: BundleValue,
        x: &BundleGain,
        others: Bundle,
        worths: &mut [Option<i128>],
        steps: &mut Steps<V::Mark>,
    ) -> BundleValue
        requires within { minus x.now.bundle self.now.allowed ≡ 0 }
        requires gain { IsGained self.now.gains.now (V.firm self.now.firm.now).count x.now }
        requires others { minus others self.now.allowed ≡ 0 }
        requires room { (V.firm self.now.firm.now).count ≤ length worths.old }
        ensures tried { TriesOthers (aimed self.now.allowed self.now.scale self.now.gains.now
            (V.firm self.now.firm.now)).worth x.now.bundle others
            (V.firm self.now.firm.now).count best result }
        ensures room { length worths.new ≡ length worths.old }
        ensures asked { steps.new ≡ steps.old + size others }
    {
        self.firm.row(x.bundle, others, worths, steps);
        let mut best = best;
        for k in 0..self.firm.trades() {
            if others.has(k) {
                best = self.better(best, &self.toggled(x, k), worths[k as usize]);
            }
        }
        best
    }

    /// The best of a bundle and those with one or two of its positions toggled: by the row of the bundle, and by the
    /// row of each bundle with one toggled. It asks for at most a worth for each two positions, and one for each alone.
    fn step(&self, from: &BundleValue, steps: &mut Steps<V::Mark>) -> BundleValue
        requires within { minus from.now.bundle self.now.allowed ≡ 0 }
        ensures tried { TriesNearby (aimed self.now.allowed self.now.scale self.now.gains.now
            (V.firm self.now.firm.now)).worth
            from.now.bundle (V.firm self.now.firm.now).count from.now result }
        ensures asked { steps.new ≤ steps.old + (V.firm self.now.firm.now).count
            + (V.firm self.now.firm.now).count * (V.firm self.now.firm.now).count }
    {
        let mut singles = [None; MOST_OWN];
        self.firm
            .row(from.bundle, self.allowed, &mut singles, steps);
        let mut pairs = [None; MOST_OWN];
        let here = BundleGain {
            bundle: from.bundle,
            gain: self.gain(from.bundle),
        };
        let mut best = *from;
        let mut earlier = Bundle::empty();
        for i in 0..self.firm.trades() {
            if self.allowed.has(i) {
                let toggled = self.toggled(&here, i);
                best = self.better(best, &toggled, singles[i as usize]);
                best = self.best_with(best, &toggled, earlier, &mut pairs, steps);
                earlier = earlier.toggle(i);
            }
        }
        best
    }

    /// Whether a possible bundle with its value is best: whether one step from it gains nothing.
    fn gains_nothing_at(&self, own: &BundleValue, steps: &mut Steps<V::Mark>) -> bool
        requires valued { IsValued (aimed self.now.allowed self.now.scale self.now.gains.now
            (V.firm self.now.firm.now)).worth own.now }
        ensures best { result ≡ true → IsBest (aimed self.now.allowed self.now.scale self.now.gains.now
            (V.firm self.now.firm.now)).worth own.now.bundle own.now.value }
        ensures bettered { (value : ℤ) → result ≡ false → IsBest (aimed self.now.allowed self.now.scale
            self.now.gains.now (V.firm self.now.firm.now)).worth own.now.bundle value → ⊥ }
        ensures asked { steps.new ≤ steps.old + (V.firm self.now.firm.now).count
            + (V.firm self.now.firm.now).count * (V.firm self.now.firm.now).count }
    {
        self.step(own, steps).value <= own.value
    }

    /// Whether a bundle is best. It asks for at most a worth for each two places, where none is a place too.
    pub fn is_best(&self, x: Bundle, steps: &mut Steps<V::Mark>) -> bool
        ensures best { IsTrue result ↔ ((value : ℤ) × IsBest (aimed self.now.allowed self.now.scale self.now.gains.now
            (V.firm self.now.firm.now)).worth x value) }
        ensures asked { steps.new ≤ steps.old + ((V.firm self.now.firm.now).count + 1)
            * ((V.firm self.now.firm.now).count + 1) }
    {
        match self.value(x, steps) {
            Some(value) => self.gains_nothing_at(&BundleValue { bundle: x, value }, steps),
            None => false,
        }
    }

    /// A best bundle with its value, found from a bundle at hand: that one wherever it is best, by at most a worth for
    /// each two places, where none is a place too.
    pub fn climb(&self, from: Bundle, steps: &mut Steps<V::Mark>) -> BundleValue
        ensures best { IsBest (aimed self.now.allowed self.now.scale self.now.gains.now
            (V.firm self.now.firm.now)).worth result.bundle result.value }
        ensures kept { StaysAt (aimed self.now.allowed self.now.scale self.now.gains.now
            (V.firm self.now.firm.now)).worth from result.bundle }
        ensures asked { AsksFew (aimed self.now.allowed self.now.scale self.now.gains.now
            (V.firm self.now.firm.now)).worth from (((V.firm self.now.firm.now).count + 1)
            * ((V.firm self.now.firm.now).count + 1)) steps.old steps.new }
    {
        let mut found = self.start(from, steps);
        // Each turn but the last raises the value, which the limits of the firm and the gains bound: so this ends.
        loop {
            let next = self.step(&found, steps);
            if next.value <= found.value {
                return found;
            }
            found = next;
        }
    }

    /// The bundle at hand, or where that has no value the empty one, which always has.
    fn start(&self, from: Bundle, steps: &mut Steps<V::Mark>) -> BundleValue
        ensures valued { IsValued (aimed self.now.allowed self.now.scale self.now.gains.now
            (V.firm self.now.firm.now)).worth result }
        ensures kept { StaysAt (aimed self.now.allowed self.now.scale self.now.gains.now
            (V.firm self.now.firm.now)).worth from result.bundle }
        ensures asked { AsksFew (aimed self.now.allowed self.now.scale self.now.gains.now
            (V.firm self.now.firm.now)).worth from 1 steps.old steps.new }
    {
        if let Some(value) = self.value(from, steps) {
            return BundleValue {
                bundle: from,
                value,
            };
        }
        let bundle = Bundle::empty();
        BundleValue {
            bundle,
            value: self.value(bundle, steps).unwrap(),
        }
    }
}
