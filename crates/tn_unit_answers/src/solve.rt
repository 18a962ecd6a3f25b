//! The answer of `solve` to a document whose trades have units.

ghost use Rattle.std.specs.Prelude.{◌≡◌, ◌≤◌, ◌<◌, ◌^◌, length, map, All, IfOk};
ghost use Rattle.tn_answer.specs.Kept.{IsWithinClaims};
ghost use Rattle.tn_counts.specs.Widths.{most_unit_trades};
ghost use Rattle.tn_unit_answers.specs.Solve.{SolvesByCounts, unit_ends};

use std::alloc::Global;
use tn_base::OutOfMemory;
use tn_counts::UnitTrade;
use tn_model::{Ends, Prices, TradeEnds};
use tn_read_units::{UnitDocument, market_of};
use tn_said::{Counts, Said};
use tn_tree::solve_market;

/// The ends of trades.
pub(crate) fn ends_of(alloc: Global, trades: &[UnitTrade]) -> Result<TradeEnds, OutOfMemory>
    ensures { IfOk result (λ ends. ends ≡ map unit_ends trades.now) }
{
    let mut list = Vec::new(alloc);
    for trade in trades {
        list.push(Ends {
            seller: trade.seller,
            buyer: trade.buyer,
            at_seller: 0,
            at_buyer: 0,
        })?;
    }
    Ok(TradeEnds::from_vec(list))
}

/// An equilibrium by counts of the document's firms: how many units of each trade go, a whole price of a unit of each, and
/// the surplus, than which no counts have more. It fails only where memory runs out.
pub fn answer_unit_solve(alloc: Global, document: &UnitDocument) -> Result<Said, OutOfMemory>
    ensures answer { IfOk result (SolvesByCounts document.now) }
    ensures within { IfOk result IsWithinClaims }
{
    let market = market_of(alloc, document)?;
    let solved = solve_market(alloc, &market)?;
    drop(market);
    let ends = ends_of(alloc, document.trades())?;
    Ok(Said::SolvedByCounts {
        counts: Counts::from_vec(solved.counts),
        prices: Prices::from_vec(solved.prices),
        surplus: solved.surplus,
        ends,
    })
}
