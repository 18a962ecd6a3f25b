//! The answer of `support`.

ghost use Rattle.std.specs.Prelude.{◌≡◌, ◌≤◌, IfOk, length};
ghost use Rattle.tn_answer.specs.Kept.{IsWithinClaims};
ghost use Rattle.tn_firm.specs.Firms.{firm_of};
ghost use Rattle.tn_commands.specs.Support.{SupportsSet};
ghost use Rattle.tn_model.specs.Network.{trades_on};
ghost use Rattle.tn_commands.specs.Limits.{AreWorthsAnswered, most_answered_trades};
ghost use Rattle.tn_market.specs.NetworkOf.{network_of};

use crate::solve::{ends_of, trades_on};
use std::alloc::Global;
use tn_base::{Asked, OutOfMemory, Steps, TradeSet};
use tn_firm::FirmValue;
use tn_market::{Market, Prices};
use tn_price::{Support, support};
use tn_said::Said;

/// The answer that prices support a set of trades.
fn supported(
    alloc: Global,
    market: &Market<FirmValue>,
    on: &TradeSet<16>,
    prices: Prices,
) -> Result<Said, OutOfMemory>
    requires { length market.now.trades ≤ most_answered_trades }
    ensures { IfOk result (λ said. said ≡ Said.Supported (trades_on on.now (length market.now.trades)) prices
        market.now.trades) }
{
    let listed = trades_on(alloc, on, market.trades())?;
    let ends = ends_of(alloc, market)?;
    Ok(Said::Supported {
        on: listed,
        prices,
        ends,
    })
}

/// Prices that support a set of trades, or why there are none. There are at most 1,024 trades, and
/// worths are small enough for so many.
pub fn answer_support(
    alloc: Global,
    market: &Market<FirmValue>,
    on: &TradeSet<16>,
) -> Result<Said, OutOfMemory>
    requires wide { length market.now.trades ≤ most_answered_trades }
    requires worths { network_of firm_of market.now AreWorthsAnswered }
    ensures answer { IfOk result (network_of firm_of market.now SupportsSet on.now) }
    ensures within { IfOk result IsWithinClaims }
{
    let _count = market.trades();
    match support(alloc, market, on, &mut Steps::new(Asked))? {
        Support::Supported { prices } => supported(alloc, market, on, prices),
        Support::Impossible { firm } => Ok(Said::Impossible { firm }),
        Support::Cycle { nodes, cost } => Ok(Said::Cycle { nodes, cost }),
    }
}
