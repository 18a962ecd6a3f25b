//! Sides of a trade.

ghost use Rattle.std.specs.Prelude.{◌≡◌, ◌≤◌, length};
ghost use Rattle.tn_base.specs.Table.{buys_of};

use crate::bundle::Bundle;

/// On which side of a trade a firm stands.
#[derive(Clone, Copy, PartialEq, Eq)]
pub enum Side {
    /// The firm buys the trade.
    Buy,
    /// The firm sells the trade.
    Sell,
}

/// The positions that are bought, of at most 64 own trades with these sides by position.
pub fn purchases(sides: &[Side]) -> Bundle
    requires { length sides.now ≤ 64 }
    ensures { result ≡ buys_of sides.now }
{
    let mut buys = Bundle::empty();
    for k in 0..sides.len() {
        if let Side::Buy = sides[k] {
            buys = buys.toggle(k as u32);
        }
    }
    buys
}
