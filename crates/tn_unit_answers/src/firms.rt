//! The answer of `firms` to a document whose trades have units.

ghost use Rattle.std.specs.Prelude.{◌≡◌, ◌≤◌, cond, length, All, IfOk};
ghost use Rattle.std.specs.List.{count_by};
ghost use Rattle.tn_answer.specs.Kept.{IsWithinClaims};
ghost use Rattle.tn_base.specs.Arcs.{IsAtMost};
ghost use Rattle.tn_counts.specs.Widths.{most_unit_firms, most_unit_price, most_unit_trades};
ghost use Rattle.tn_read_unit_parts.specs.Arranged.{AreCountsOf};
ghost use Rattle.tn_unit_answers.specs.Firms.{TellsHoldingsByCounts, is_content};
ghost use Rattle.tn_unit_answers.specs.Judged.{AreToldBy, IsToldBy};

use crate::bundles::own_bundle;
use crate::judged::{Judged, judge};
use std::alloc::Global;
use tn_base::OutOfMemory;
use tn_counts::UnitTrade;
use tn_read_units::UnitDocument;
use tn_said::{Said, UnitBundle, UnitHolding, UnitHoldings};
use tn_tree::{BestCounts, FirmCount};

/// What is said of a firm with these bundles, by what is found of it.
fn told(has: UnitBundle, best: UnitBundle, said: FirmCount) -> UnitHolding
    ensures has { result.has ≡ has }
    ensures worth { result.worth ≡ said.worth }
    ensures utility { result.utility ≡ said.utility }
    ensures best { result.best ≡ best }
    ensures best_utility { result.best_utility ≡ said.best }
    ensures gain { result.gain ≡ said.gain }
{
    UnitHolding {
        has,
        worth: said.worth,
        utility: said.utility,
        best,
        best_utility: said.best,
        gain: said.gain,
    }
}

/// What is said of firm `f`.
fn holding_of(
    alloc: Global,
    trades: &[UnitTrade],
    f: u32,
    counts: &[u32],
    best: &BestCounts,
    said: FirmCount,
) -> Result<UnitHolding, OutOfMemory>
    requires few { length trades.now ≤ most_unit_trades }
    requires counts { length counts.now ≡ length trades.now }
    requires sold { length best.now.sold.items ≡ length trades.now }
    requires bought { length best.now.bought.items ≡ length trades.now }
    ensures { IfOk result (IsToldBy trades.now f counts.now best.now.sold.items best.now.bought.items said) }
{
    let own = own_bundle(alloc, trades, f, counts, counts)?;
    let other = own_bundle(alloc, trades, f, &best.sold, &best.bought)?;
    Ok(told(own, other, said))
}

/// What is said of all firms.
fn holdings_of(
    alloc: Global,
    trades: &[UnitTrade],
    counts: &[u32],
    judged: &Judged,
) -> Result<Vec<UnitHolding>, OutOfMemory>
    requires few { length trades.now ≤ most_unit_trades }
    requires few_firms { length judged.now.firms.items ≤ most_unit_firms }
    requires counts { length counts.now ≡ length trades.now }
    requires sold { length judged.now.best.sold.items ≡ length trades.now }
    requires bought { length judged.now.best.bought.items ≡ length trades.now }
    ensures sized { IfOk result (λ told. length told.items ≡ length judged.now.firms.items) }
    ensures each { IfOk result (λ told. AreToldBy trades.now counts.now judged.now.best.sold.items
        judged.now.best.bought.items judged.now.firms.items told.items) }
{
    let mut holdings = Vec::new(alloc);
    for f in 0..judged.firms.len() {
        let said = judged.firms[f];
        holdings.push(holding_of(alloc, trades, f as u32, counts, &judged.best, said)?)?;
    }
    Ok(holdings)
}

/// 1 for a firm that gains nothing, 0 for any other.
fn one_content(told: &UnitHolding) -> u32
    ensures { result ≡ cond (is_content told.now) 1 0 }
{
    match told.gain {
        Some(0) => 1,
        _ => 0,
    }
}

/// How many firms gain nothing.
fn content_of(holdings: &[UnitHolding]) -> u32
    requires few { length holdings.now ≤ most_unit_firms }
    ensures { result ≡ count_by is_content holdings.now }
{
    let mut content = 0;
    for told in holdings {
        content += one_content(told);
    }
    content
}

/// What each firm has by counts of a document's trades and a price of a unit of each, and a best bundle of it; where all
/// are content, these are an equilibrium. The counts are within the units of each trade, and prices are at most 2 * 10^11
/// in size. It fails only where memory runs out.
pub fn answer_unit_firms(
    alloc: Global,
    document: &UnitDocument,
    counts: &[u32],
    prices: &[i128],
) -> Result<Said, OutOfMemory>
    requires counts { AreCountsOf document.now.head.trades counts.now }
    requires priced { length prices.now ≡ length document.now.head.trades }
    requires small { All (λ price. IsAtMost price most_unit_price) prices.now }
    ensures answer { IfOk result (TellsHoldingsByCounts document.now counts.now prices.now) }
    ensures within { IfOk result IsWithinClaims }
{
    let judged = judge(alloc, document, counts, prices)?;
    let holdings = holdings_of(alloc, document.trades(), counts, &judged)?;
    Ok(Said::FirmsByCounts {
        content: content_of(&holdings),
        firms: UnitHoldings::from_vec(holdings),
        surplus: judged.surplus,
    })
}
