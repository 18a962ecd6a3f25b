//! The answer of `replay` on a market.

ghost use Rattle.std.specs.Prelude.{◌≤◌, IfOk, length};
ghost use Rattle.tn_answer.specs.Kept.{IsWithinClaims};
ghost use Rattle.tn_commands.specs.Replay.{DecidesClaim};
ghost use Rattle.tn_commands.specs.Limits.{AreWorthsAnswered, most_answered_trades};
ghost use Rattle.tn_model.specs.Limits.{most_firms};
ghost use Rattle.tn_firm.specs.Firms.{firm_of};
ghost use Rattle.tn_said.specs.Claim.{on_market};
ghost use Rattle.tn_said.specs.ClaimLimits.{IsClaimWithin};
ghost use Rattle.tn_market.specs.NetworkOf.{network_of};

use std::alloc::Global;
use tn_base::{Asked, OutOfMemory, Steps};
use tn_cert::{Replayed, replay};
use tn_firm::FirmValue;
use tn_market::Market;
use tn_said::{MarketClaim, Said};

/// Whether a claim on a market holds, or else the first of its conditions that fails. There are at most 1,024 firms and
/// 1,024 trades, worths are as small as so many trades want them, and the claim is within the
/// limits of claims.
pub fn answer_replay(
    alloc: Global,
    market: &Market<FirmValue>,
    claim: &MarketClaim,
) -> Result<Said, OutOfMemory>
    requires few_firms { length market.now.firms ≤ most_firms }
    requires wide { length market.now.trades ≤ most_answered_trades }
    requires worths { network_of firm_of market.now AreWorthsAnswered }
    requires claim { network_of firm_of market.now IsClaimWithin (on_market claim.now) }
    ensures answer { IfOk result (network_of firm_of market.now DecidesClaim (on_market claim.now)) }
    ensures within { IfOk result IsWithinClaims }
{
    let _count = market.trades();
    match replay(alloc, market, claim, &mut Steps::new(Asked))? {
        Replayed::Valid => Ok(Said::Valid),
        Replayed::Invalid(reason) => Ok(Said::Invalid(reason)),
    }
}
