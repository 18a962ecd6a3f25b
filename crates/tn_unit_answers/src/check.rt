//! The answer of `check` to a document whose trades have units.

ghost use Rattle.std.specs.Prelude.{◌≡◌, length, All, IfOk};
ghost use Rattle.tn_answer.specs.Kept.{IsWithinClaims};
ghost use Rattle.tn_base.specs.Arcs.{IsAtMost};
ghost use Rattle.tn_counts.specs.Widths.{most_unit_price};
ghost use Rattle.tn_read_unit_parts.specs.Arranged.{AreCountsOf};
ghost use Rattle.tn_unit_answers.specs.Check.{ChecksByCounts};

use crate::bundles::own_bundle;
use crate::judged::{Verdict, judge, verdict_of};
use std::alloc::Global;
use tn_base::OutOfMemory;
use tn_read_units::UnitDocument;
use tn_said::Said;

/// The verdict on counts of a document's trades, and a price of a unit of each: whether they are an equilibrium, or else
/// the first firm for which the counts aren't best, with a best bundle of it and what it gains by that, where they are
/// possible for it. The counts are within the units of each trade, and prices are at most 2 * 10^11 in size. It fails only
/// where memory runs out.
pub fn answer_unit_check(
    alloc: Global,
    document: &UnitDocument,
    counts: &[u32],
    prices: &[i128],
) -> Result<Said, OutOfMemory>
    requires counts { AreCountsOf document.now.head.trades counts.now }
    requires priced { length prices.now ≡ length document.now.head.trades }
    requires small { All (λ price. IsAtMost price most_unit_price) prices.now }
    ensures answer { IfOk result (ChecksByCounts document.now counts.now prices.now) }
    ensures within { IfOk result IsWithinClaims }
{
    let judged = judge(alloc, document, counts, prices)?;
    let trades = document.trades();
    match verdict_of(&judged.firms) {
        Verdict::Content => Ok(Said::Equilibrium {
            surplus: judged.surplus.unwrap_or(0),
        }),
        Verdict::Impossible { firm } => Ok(Said::Impossible { firm }),
        Verdict::Better { firm, gain } => {
            let bundle = own_bundle(alloc, trades, firm, &judged.best.sold, &judged.best.bought)?;
            Ok(Said::BetterByCounts { firm, bundle, gain })
        }
    }
}
