//! Firms that can be asked what bundles are worth.

ghost use Rattle.std.specs.Prelude.{◌≡◌, ℕ, ◌+◌, ◌^◌, ◌<◌, ◌≤◌, pos, length};
ghost use Rattle.tn_base.specs.Firm.{Firm};
ghost use Rattle.tn_base.specs.Sets.{size};
ghost use Rattle.tn_market.specs.Lawful.{IsLawful};
ghost use Rattle.tn_market.specs.Valued.{side_at, HasToggledWorths};
ghost use Rattle.tn_market.specs.Widths.{most_limit};

use tn_base::{Bundle, Side, Steps};

/// A firm that can be asked what bundles of its own trades are worth. Its trades have the positions 0, 1, 2 and so on.
///
/// Contracts see the firm as the definitions do: how many trades it has, which of them it buys, and the worth of each
/// bundle. Every implementation proves the laws of a firm that meets exchange (gross substitutes and complements, as in
/// Hatfield, Kominers, Nichifor, Ostrovsky and Westkamp, 2013).
pub trait Valuation {
    /// What the counter of worths asked is marked with.
    type Mark;

    /// The firm, as the definitions see it.
    ghost firm: { Self → Firm };

    /// A bound on the size of every worth.
    ghost limit: { Self → ℕ };

    /// How many own trades there are.
    fn trades(&self) -> u32
        ensures count { result ≡ (firm self.now).count }
        ensures few { result ≤ 64 };

    /// On which side of the trade at position `k` the firm stands. It is an own position.
    fn side(&self, k: u32) -> Side
        requires { k < (firm self.now).count }
        ensures { result ≡ side_at (firm self.now).buys k };

    /// A bound on the size of every worth.
    fn bound(&self) -> i128
        ensures size { result ≡ pos (limit self.now) }
        ensures small { limit self.now ≤ most_limit };

    /// The worth of a bundle, None where it is impossible. It counts as one step and takes no memory. The bundle has
    /// own positions alone.
    fn value(&self, x: Bundle, steps: &mut Steps<Self::Mark>) -> Option<i128>
        requires { x < 2 ^ (firm self.now).count }
        ensures worth { result ≡ (firm self.now).worth x }
        ensures asked { steps.new ≡ steps.old + 1 };

    /// Writes a row of worths: for each wanted position the worth of the bundle with this position toggled, at its
    /// place of the slice, None where it is impossible. It counts as one step for each wanted position and takes no
    /// memory; the other places are scratch. The bundle and the wanted positions are own, and there is a place for each
    /// own position.
    fn row(
        &self,
        x: Bundle,
        wanted: Bundle,
        worths: &mut [Option<i128>],
        steps: &mut Steps<Self::Mark>,
    )
        requires own { x < 2 ^ (firm self.now).count }
        requires own_wanted { wanted < 2 ^ (firm self.now).count }
        requires room { (firm self.now).count ≤ length worths.old }
        ensures worths { HasToggledWorths (firm self.now).worth x wanted worths.new }
        ensures asked { steps.new ≡ steps.old + size wanted }
    {
        for k in 0..self.trades() {
            if wanted.has(k) {
                worths[k as usize] = self.value(x.toggle(k), steps);
            }
        }
    }

    /// It has at most 64 own trades and buys none but these, only bundles of these are possible, the empty one among
    /// them, it meets exchange, and no worth is above the limit in size, which is at most 10^18.
    ghost lawful: { (v : Self) → IsLawful (limit v) (firm v) };
}
