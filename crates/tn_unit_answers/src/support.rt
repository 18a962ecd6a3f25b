//! The answer of `support` to a document whose trades have units.

ghost use Rattle.std.specs.Prelude.{◌≡◌, map, IfOk};
ghost use Rattle.tn_answer.specs.Kept.{IsWithinClaims};
ghost use Rattle.tn_read_unit_parts.specs.Arranged.{AreCountsOf};
ghost use Rattle.tn_unit_answers.specs.Solve.{unit_ends};
ghost use Rattle.tn_unit_answers.specs.Support.{SupportsCounts};

use crate::solve::ends_of;
use crate::steps::said_steps;
use std::alloc::Global;
use tn_base::OutOfMemory;
use tn_model::Prices;
use tn_read_units::{UnitDocument, market_of};
use tn_said::{Counts, Said};
use tn_tree::{UnitSupport, support_counts};

/// The answer that prices support counts.
fn supported(
    alloc: Global,
    document: &UnitDocument,
    counts: &[u32],
    prices: Vec<i128>,
) -> Result<Said, OutOfMemory>
    ensures { IfOk result (λ said. said
        ≡ Said.SupportedByCounts counts.now prices.items (map unit_ends document.now.head.trades)) }
{
    let listed = Vec::from_slice(alloc, counts)?;
    let ends = ends_of(alloc, document.trades())?;
    Ok(Said::SupportedByCounts {
        counts: Counts::from_vec(listed),
        prices: Prices::from_vec(prices),
        ends,
    })
}

/// Prices of a unit of each trade that make counts an equilibrium of the document's firms, or why there are none: the first
/// firm for which the counts are impossible, or a negative cycle of steps. It fails only where memory runs out.
pub fn answer_unit_support(
    alloc: Global,
    document: &UnitDocument,
    counts: &[u32],
) -> Result<Said, OutOfMemory>
    requires { AreCountsOf document.now.head.trades counts.now }
    ensures answer { IfOk result (SupportsCounts document.now counts.now) }
    ensures within { IfOk result IsWithinClaims }
{
    let _trades = document.trades();
    let market = market_of(alloc, document)?;
    let support = support_counts(alloc, &market, counts)?;
    drop(market);
    match support {
        UnitSupport::Supported { prices } => supported(alloc, document, counts, prices),
        UnitSupport::Impossible { firm } => Ok(Said::Impossible { firm }),
        UnitSupport::Cycle { nodes, cost } => {
            let nodes = said_steps(alloc, &nodes)?;
            Ok(Said::CycleByCounts { nodes, cost })
        }
    }
}
