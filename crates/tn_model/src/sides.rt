//! The sides on which a firm stands in its own trades.

ghost use Rattle.std.specs.Prelude.{◌≡◌, ◌≤◌, length, IfOk};
ghost use Rattle.tn_model.specs.InOrder.{side_in, sides_of};
ghost use Rattle.tn_model.specs.Limits.{most_trades};

use crate::ends::Ends;
use std::alloc::Global;
use tn_base::{OutOfMemory, Side};

/// How many of the trades are the firm's own. There are at most 1,024 trades.
pub fn count_own(trades: &[Ends], f: u32) -> u32
    requires { length trades.now ≤ most_trades }
    ensures { result ≡ length (sides_of trades.now f) }
{
    let mut count = 0;
    for trade in trades {
        if side_in(trade, f).is_some() {
            count += 1;
        }
    }
    count
}

/// The side on which a firm stands in a trade, if it has a part in it.
fn side_in(trade: &Ends, f: u32) -> Option<Side>
    ensures { result ≡ side_in f trade.now }
{
    if trade.seller == f {
        Some(Side::Sell)
    } else if trade.buyer == f {
        Some(Side::Buy)
    } else {
        None
    }
}

/// The sides on which a firm stands in its own trades, by position.
pub fn sides_of(alloc: Global, trades: &[Ends], f: u32) -> Result<Vec<Side>, OutOfMemory>
    ensures { IfOk result (λ sides. sides.items ≡ sides_of trades.now f) }
{
    let mut sides = Vec::new(alloc);
    for trade in trades {
        if let Some(side) = side_in(trade, f) {
            sides.push(side)?;
        }
    }
    Ok(sides)
}
