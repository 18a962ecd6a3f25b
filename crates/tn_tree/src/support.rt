//! Prices for given counts.

ghost use Rattle.std.specs.Prelude.{◌≡◌, ℕ, ◌<◌, ◌≤◌, [], IfOk, None, Some, get_or, is_none, length, suc};
ghost use Rattle.tn_counts.specs.Counts.{AreCounts};
ghost use Rattle.tn_counts.specs.Markets.{IsUnitMarket};
ghost use Rattle.tn_counts.specs.Tree.{AreLinksOf, null_node, sold_at};
ghost use Rattle.tn_counts.specs.Widths.{most_unit_firms};
ghost use Rattle.tn_links.specs.Flows.{IsKeptFlow};
ghost use Rattle.tn_tree.specs.Levels.{ArePossible};
ghost use Rattle.tn_tree.specs.Lists.{count_in};
ghost use Rattle.tn_tree.specs.Supports.{FindsNone, SupportsByCounts};

use crate::around::trade_node;
use crate::build::links_of;
use crate::flow::flow_of;
use crate::solve::prices_by;
use crate::steps::{UnitStep, steps_round};
use crate::worths::worths_by;
use std::alloc::Global;
use tn_base::OutOfMemory;
use tn_counts::UnitMarket;
use tn_cycle::{Finder, Labels};
use tn_links::{Links, unit_labels};

/// What the search for prices of given counts finds.
#[derive(Drop)]
pub enum UnitSupport {
    /// Prices of a unit of each trade, with which the counts are an equilibrium.
    Supported {
        prices: Vec<i128>,
    },
    /// The counts are impossible for a firm, the first such one.
    Impossible {
        firm: u32,
    },
    /// No prices make one: steps round a negative cycle lead to counts with more surplus, by what it costs.
    Cycle {
        nodes: Vec<Option<UnitStep>>,
        cost: i128,
    },
}

/// Prices for the counts of a kept flow, exactly where there are any; otherwise a negative cycle of steps.
#[tactic(auto, using(tn_counts::proofs::WideLemmas::wide_market))]
pub(crate) fn support_flow(
    alloc: Global,
    market: &UnitMarket,
    links: &Links,
    levels: &[u32],
) -> Result<UnitSupport, OutOfMemory>
    requires market { IsUnitMarket market.now }
    requires links { AreLinksOf market.now [] links.now.links.items }
    requires nodes { links.now.nodes ≡ suc (null_node market.now) }
    requires kept { IsKeptFlow links.now.links.items levels.now }
    ensures { IfOk result (SupportsByCounts market.now (sold_at market.now levels.now)) }
{
    let nodes = trade_node(market, market.trades.len() as u32) + 1;
    let mut finder = Finder::new(alloc, nodes)?;
    match unit_labels(links, levels, &mut finder) {
        Labels::Feasible => Ok(UnitSupport::Supported {
            prices: prices_by(alloc, market, &finder)?,
        }),
        Labels::Negative { cost, .. } => Ok(UnitSupport::Cycle {
            nodes: steps_round(alloc, market, links, finder.listed())?,
            cost,
        }),
    }
}

/// Whether there is no number at a place.
fn is_missing(numbers: &[Option<i128>], f: u32) -> bool
    requires { f < length numbers.now }
    ensures { result ≡ is_none (get_or numbers.now f None) }
{
    numbers[f as usize].is_none()
}

/// The first place at which there is no number.
fn first_none(numbers: &[Option<i128>]) -> Option<u32>
    requires { length numbers.now ≤ most_unit_firms }
    ensures { FindsNone numbers.now result }
{
    for f in 0..numbers.len() as u32 {
        if is_missing(numbers, f) {
            return Some(f);
        }
    }
    None
}

/// What there is for counts that are possible for each firm.
#[tactic(auto, using(tn_counts::proofs::WideLemmas::wide_market))]
fn support_possible(
    alloc: Global,
    market: &UnitMarket,
    links: &Links,
    counts: &[u32],
) -> Result<UnitSupport, OutOfMemory>
    requires market { IsUnitMarket market.now }
    requires links { AreLinksOf market.now [] links.now.links.items }
    requires nodes { links.now.nodes ≡ suc (null_node market.now) }
    requires as_many { length counts.now ≡ length market.now.trades.items }
    requires within { AreCounts market.now.trades.items (count_in counts.now) }
    requires possible { ArePossible market.now (λ f. count_in counts.now) }
    ensures { IfOk result (SupportsByCounts market.now (count_in counts.now)) }
{
    let levels = flow_of(alloc, market, &[], links, counts)?;
    support_flow(alloc, market, links, &levels)
}

/// Finds prices that make these counts an equilibrium, exactly where there are any. Otherwise the first firm for which the
/// counts are impossible; or, where they are possible for all, a negative cycle of steps, each of one unit of a trade more
/// or fewer, which lead to counts with more surplus (cycle cancelling: Klein, 1967). There are no more units of a trade
/// than it has. It fails only where memory runs out.
#[tactic(auto, using(tn_counts::proofs::WideLemmas::wide_market))]
pub fn support_counts(
    alloc: Global,
    market: &UnitMarket,
    counts: &[u32],
) -> Result<UnitSupport, OutOfMemory>
    requires market { IsUnitMarket market.now }
    requires as_many { length counts.now ≡ length market.now.trades.items }
    requires within { AreCounts market.now.trades.items (count_in counts.now) }
    ensures { IfOk result (SupportsByCounts market.now (count_in counts.now)) }
{
    let links = links_of(alloc, market, &[])?;
    let worths = worths_by(alloc, market, &links, counts, counts)?;
    match first_none(&worths) {
        Some(firm) => Ok(UnitSupport::Impossible { firm }),
        None => support_possible(alloc, market, &links, counts),
    }
}
