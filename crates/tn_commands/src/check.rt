//! The answer of `check`.

ghost use Rattle.std.specs.Prelude.{◌≡◌, ◌≤◌, pos, All, IfOk, length};
ghost use Rattle.tn_answer.specs.Kept.{IsWithinClaims};
ghost use Rattle.tn_base.specs.Arcs.{IsAtMost};
ghost use Rattle.tn_commands.specs.Limits.{most_answered_trades};
ghost use Rattle.tn_model.specs.Limits.{most_price};
ghost use Rattle.tn_firm.specs.Firms.{firm_of};
ghost use Rattle.tn_model.specs.Prices.{price_at};
ghost use Rattle.tn_commands.specs.Check.{ChecksArrangement};
ghost use Rattle.tn_market.specs.NetworkOf.{network_of};

use std::alloc::Global;
use tn_base::OutOfMemory;
use tn_firm::FirmValue;
use tn_market::{Arrangement, Market};
use tn_price::{Check, judge_arrangement, trades_in};
use tn_said::Said;

/// The verdict on an arrangement, at scale 1. There are at most 1,024 trades, with one price each of at most 10^14 in
/// size.
pub fn answer_check(
    alloc: Global,
    market: &Market<FirmValue>,
    at: &Arrangement<16>,
) -> Result<Said, OutOfMemory>
    requires wide { length market.now.trades ≤ most_answered_trades }
    requires priced { length at.now.prices ≡ length market.now.trades }
    requires small { All (λ p. IsAtMost p most_price) at.now.prices }
    ensures answer { IfOk result (network_of firm_of market.now ChecksArrangement (pos 1) at.now.on (price_at at.now.prices)) }
    ensures within { IfOk result IsWithinClaims }
{
    let _count = market.firms();
    match judge_arrangement(market, at, 1) {
        Check::Equilibrium { surplus } => Ok(Said::Equilibrium { surplus }),
        Check::Impossible { firm } => Ok(Said::Impossible { firm }),
        Check::Better { firm, bundle, gain } => {
            let bundle = trades_in(alloc, market, firm, bundle)?;
            Ok(Said::Better { firm, bundle, gain })
        }
    }
}
