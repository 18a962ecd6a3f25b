//! A set of own trades with its numbers.

ghost use Rattle.std.specs.Prelude.{◌≡◌};
ghost use Rattle.tn_base.specs.Arcs.{IsAtMost};
ghost use Rattle.tn_firm_laws.specs.Nested.{listed_from};
ghost use Rattle.tn_model.specs.Limits.{most_from};

use tn_base::Bundle;
use tn_market::Amounts;

/// A set of own trades, with a number for each net count of a bundle within it, the count of its purchases less the
/// count of its sales.
#[derive(Drop)]
pub struct LaminarSet {
    /// The positions of the trades.
    pub members: Bundle,
    /// The net count that the first number is for.
    pub low: i32,
    /// The numbers, at the net counts `low`, `low + 1` and so on.
    pub numbers: Amounts,
}

impl LaminarSet {
    /// The number at a net count, None where it isn't listed.
    pub(crate) fn number_at(&self, count: i32) -> Option<i128>
        requires low { IsAtMost self.now.low most_from }
        requires count { IsAtMost count 65 }
        ensures { result ≡ listed_from self.now.low self.now.numbers count }
    {
        let place = count - self.low;
        if place < 0 {
            return None;
        }
        let place = place as usize;
        if place < self.numbers.len() {
            Some(self.numbers.at(place))
        } else {
            None
        }
    }
}
