//! The answer of `range`.

ghost use Rattle.std.specs.Prelude.{◌≤◌, IfOk, length};
ghost use Rattle.tn_answer.specs.Kept.{IsWithinClaims};
ghost use Rattle.tn_commands.specs.Range.{TellsRanges};
ghost use Rattle.tn_commands.specs.Limits.{AreWorthsAnswered, most_answered_trades};
ghost use Rattle.tn_firm.specs.Firms.{firm_of};
ghost use Rattle.tn_market.specs.NetworkOf.{network_of};

use crate::solve::{ends_of, equilibrium, trades_on};
use std::alloc::Global;
use tn_base::{Asked, OutOfMemory, Steps};
use tn_firm::FirmValue;
use tn_market::Market;
use tn_range::range;
use tn_said::Said;

/// The lowest and the highest price of each trade over all equilibria of a market. There are at most 1,024 trades,
/// and worths are small enough for so many.
pub fn answer_range(alloc: Global, market: &Market<FirmValue>) -> Result<Said, OutOfMemory>
    requires wide { length market.now.trades ≤ most_answered_trades }
    requires worths { network_of firm_of market.now AreWorthsAnswered }
    ensures answer { IfOk result (network_of firm_of market.now TellsRanges) }
    ensures within { IfOk result IsWithinClaims }
{
    let at = equilibrium(alloc, market)?;
    let on = trades_on(alloc, &at.on, market.trades());
    let ranges = range(alloc, market, &at.on, &at.prices, &mut Steps::new(Asked));
    drop(at);
    Ok(Said::Ranges {
        on: on?,
        ranges: ranges?,
        ends: ends_of(alloc, market)?,
    })
}
