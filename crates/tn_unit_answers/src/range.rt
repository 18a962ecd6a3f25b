//! The answer of `range` to a document whose trades have units.

ghost use Rattle.std.specs.Prelude.{◌≡◌, map, IfOk};
ghost use Rattle.tn_answer.specs.Kept.{IsWithinClaims};
ghost use Rattle.tn_unit_answers.specs.Range.{TellsRangesByCounts};
ghost use Rattle.tn_unit_answers.specs.Said.{said_range};

use crate::solve::ends_of;
use crate::steps::said_steps;
use std::alloc::Global;
use tn_base::OutOfMemory;
use tn_read_units::{UnitDocument, market_of};
use tn_said::{Counts, Said, UnitRange, UnitRanges};
use tn_tree::{UnitRange as MarketRange, range_market};

/// A range as it is said.
fn said_range(alloc: Global, range: &MarketRange) -> Result<UnitRange, OutOfMemory>
    ensures { IfOk result (λ said. said ≡ said_range range.now) }
{
    let low_path = said_steps(alloc, &range.low_path)?;
    let high_path = said_steps(alloc, &range.high_path)?;
    Ok(UnitRange {
        low: range.low,
        low_path,
        high: range.high,
        high_path,
    })
}

/// Ranges as they are said.
fn said_ranges(alloc: Global, ranges: &[MarketRange]) -> Result<UnitRanges, OutOfMemory>
    ensures { IfOk result (λ said. said ≡ map said_range ranges.now) }
{
    let mut said = Vec::new(alloc);
    for range in ranges {
        let next = said_range(alloc, range)?;
        said.push(next)?;
    }
    Ok(UnitRanges::from_vec(said))
}

/// The lowest and the highest price of a unit of each trade over all equilibria by counts of the document's firms, each with
/// steps that show it, and counts than which none have more surplus. It fails only where memory runs out.
pub fn answer_unit_range(alloc: Global, document: &UnitDocument) -> Result<Said, OutOfMemory>
    ensures answer { IfOk result (TellsRangesByCounts document.now) }
    ensures within { IfOk result IsWithinClaims }
{
    let market = market_of(alloc, document)?;
    let found = range_market(alloc, &market)?;
    drop(market);
    let ranges = said_ranges(alloc, &found.ranges)?;
    let ends = ends_of(alloc, document.trades())?;
    Ok(Said::RangesByCounts {
        counts: Counts::from_vec(found.counts),
        ranges,
        ends,
    })
}
