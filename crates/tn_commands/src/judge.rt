//! The answer of `judge`.

ghost use Rattle.std.specs.Prelude.{◌≤◌, IfOk, length};
ghost use Rattle.tn_answer.specs.Kept.{IsWithinClaims};
ghost use Rattle.tn_commands.specs.Judge.{JudgesOutcome};
ghost use Rattle.tn_commands.specs.Limits.{AreWorthsAnswered, most_answered_trades};
ghost use Rattle.tn_model.specs.Limits.{most_firms};
ghost use Rattle.tn_firm.specs.Firms.{firm_of};
ghost use Rattle.tn_market.specs.Limits.{IsOutcomeOf};
ghost use Rattle.tn_market.specs.NetworkOf.{network_of};

use std::alloc::Global;
use tn_base::{Asked, OutOfMemory, Steps};
use tn_firm::FirmValue;
use tn_judge::{Judged, judge};
use tn_market::{Market, Outcome};
use tn_price::trades_in;
use tn_said::Said;

/// The verdict on an outcome: a firm that would drop contracts, prices that complete it, or a chain that blocks it.
/// There are at most 1,024 firms and 1,024 trades, worths are as small as so many trades want them, and the outcome is
/// within its limits.
pub fn answer_judge(
    alloc: Global,
    market: &Market<FirmValue>,
    outcome: &Outcome,
) -> Result<Said, OutOfMemory>
    requires few_firms { length market.now.firms ≤ most_firms }
    requires wide { length market.now.trades ≤ most_answered_trades }
    requires worths { network_of firm_of market.now AreWorthsAnswered }
    requires outcome { IsOutcomeOf market.now.trades outcome.now.over outcome.now.contracts }
    ensures answer { IfOk result (network_of firm_of market.now JudgesOutcome outcome.now.over outcome.now.contracts) }
    ensures within { IfOk result IsWithinClaims }
{
    let _count = market.trades();
    match judge(alloc, market, outcome, &mut Steps::new(Asked))? {
        Judged::Drops { firm, keeps, gain } => {
            let keeps = trades_in(alloc, market, firm, keeps)?;
            Ok(Said::Drops {
                firm,
                keeps,
                gain,
                over: outcome.over,
            })
        }
        Judged::Completes { prices } => Ok(Said::Completes {
            prices,
            over: outcome.over,
        }),
        Judged::Blocks { contracts, over } => Ok(Said::Blocks { contracts, over }),
    }
}
