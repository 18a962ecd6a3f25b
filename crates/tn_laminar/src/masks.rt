//! The purchases and the sales of a set.

ghost use Rattle.std.specs.Prelude.{◌≡◌};
ghost use Rattle.tn_base.specs.Arcs.{IsAtMost};
ghost use Rattle.tn_laminar.specs.Masked.{masks_of, net_within};

use tn_base::Bundle;

/// The purchases and the sales of a set, so that a net count is two counts of binary digits.
#[derive(Clone, Copy)]
pub struct Masks {
    pub purchases: Bundle,
    pub sales: Bundle,
}

impl Masks {
    /// The masks of a set of trades, for a firm with these purchases.
    pub fn of(members: Bundle, buys: Bundle) -> Masks
        ensures { result ≡ masks_of buys members }
    {
        Masks {
            purchases: members.meet(buys),
            sales: members.minus(buys),
        }
    }

    /// How many purchases of a bundle are in the set, less how many sales.
    pub fn net(self, x: Bundle) -> i32
        ensures count { result ≡ net_within self x }
        ensures small { IsAtMost result 64 }
    {
        x.meet(self.purchases).count() as i32 - x.meet(self.sales).count() as i32
    }
}
