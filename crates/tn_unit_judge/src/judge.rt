//! Whether an outcome lasts.

ghost use Rattle.std.specs.Prelude.{◌≡◌, ℕ, ◌≤◌, pos, length, slice_get, Some, IfOk};
ghost use Rattle.tn_base.specs.Arcs.{IsAtMost};
ghost use Rattle.tn_counts.specs.Laminar.{firms_of};
ghost use Rattle.tn_counts.specs.Markets.{IsUnitMarket};
ghost use Rattle.tn_counts.specs.Outcomes.{AreUnitContracts};
ghost use Rattle.tn_counts.specs.Widths.{most_unit_price, most_unit_trades};
ghost use Rattle.tn_counts.specs.declared.contract.UnitContract.{UnitContract};
ghost use Rattle.tn_unit_judge.specs.Judges.{JudgesOutcomeByCounts};

use crate::blocks::block_by;
use crate::completions::{UnitCompletion, completion};
use crate::drops::{UnitDrop, first_drop};
use std::alloc::Global;
use tn_base::OutOfMemory;
use tn_counts::{UnitContract, UnitMarket};

/// What is said of an outcome.
#[derive(Drop)]
pub enum UnitVerdict {
    /// The first firm that would drop some of its units.
    Drops(UnitDrop),
    /// No firm would, and these prices complete the outcome: a price of a unit of each trade, over the outcome's
    /// denominator. Where units of a trade are signed, it is theirs.
    Completes {
        prices: Vec<i128>,
    },
    /// No firm would, no prices complete the outcome, over any denominator, and these offers block it: one unit each of
    /// trades with unsigned units, at prices over this denominator.
    Blocks {
        offers: Vec<UnitContract>,
        over: i128,
    },
}

/// Judges an outcome: the first firm that would drop some of its units, with what it keeps and gains; otherwise prices that
/// complete it, exactly where there are any; otherwise offers of one unit each that block it. There are at most 4,096 contracts, at prices of at most 2 * 10^11 in size, over
/// a denominator from 1 to 100. It fails only where memory runs out (stable outcomes: Hatfield, Kominers, Nichifor,
/// Ostrovsky and Westkamp, 2013).
pub fn judge_outcome(
    alloc: Global,
    market: &UnitMarket,
    over: u32,
    contracts: &[UnitContract],
) -> Result<UnitVerdict, OutOfMemory>
    requires market { IsUnitMarket market.now }
    requires least { 1 ≤ over }
    requires over { over ≤ 100 }
    requires few { length contracts.now ≤ most_unit_trades }
    requires contracts { AreUnitContracts market.now.trades.items contracts.now }
    requires small { (k : ℕ) (contract : UnitContract) → slice_get contracts.now k ≡ Some contract
        → IsAtMost contract.price most_unit_price }
    ensures { IfOk result (JudgesOutcomeByCounts (firms_of market.now) market.now.trades.items (pos over) contracts.now) }
{
    if let Some(drop) = first_drop(alloc, market, over, contracts)? {
        return Ok(UnitVerdict::Drops(drop));
    }
    match completion(alloc, market, over, contracts)? {
        UnitCompletion::Completed { prices } => Ok(UnitVerdict::Completes { prices }),
        UnitCompletion::Incomplete { passed } => {
            let block = block_by(alloc, market, over, contracts, &passed)?;
            Ok(UnitVerdict::Blocks {
                offers: block.offers,
                over: i128::from(block.over),
            })
        }
    }
}
