//! The answer of `drill`.

ghost use Rattle.std.specs.Prelude.{◌≤◌, IfOk};
ghost use Rattle.tn_answer.specs.Kept.{IsWithinClaims};
ghost use Rattle.tn_commands.specs.Drill.{TellsDrill};
ghost use Rattle.tn_drill.specs.Draws.{most_drilled, most_start};

use crate::solve::{equilibrium, surplus};
use std::alloc::Global;
use tn_base::OutOfMemory;
use tn_drill::drill;
use tn_said::Said;

/// The greatest surplus of the drill network of this many trades that is drawn from a number. There are 1 to 64 trades,
/// and the number is at most 2,147,483,647.
pub fn answer_drill(alloc: Global, size: u32, start: u32) -> Result<Said, OutOfMemory>
    requires some { 1 ≤ size }
    requires few { size ≤ most_drilled }
    requires start { start ≤ most_start }
    ensures answer { IfOk result (TellsDrill size start) }
    ensures within { IfOk result IsWithinClaims }
{
    let market = drill(alloc, size, start)?;
    let _count = market.trades();
    let at = equilibrium(alloc, &market)?;
    Ok(Said::Drill {
        size,
        start,
        firms: market.firms(),
        surplus: surplus(&market, &at.on),
    })
}
