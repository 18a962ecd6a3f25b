//! Prices for given counts where the prices of some trades are given.

ghost use Rattle.std.specs.Prelude.{◌≡◌, ℕ, ◌+◌, ◌<◌, ◌≤◌, length, map, IfOk};
ghost use Rattle.std.specs.List.{range_with_len};
ghost use Rattle.tn_counts.specs.Counts.{AreCounts};
ghost use Rattle.tn_counts.specs.Markets.{ArePins, IsWideMarket};
ghost use Rattle.tn_tree.specs.Levels.{ArePossible};
ghost use Rattle.tn_tree.specs.Lists.{count_in};
ghost use Rattle.tn_tree.specs.Pinned.{MarksTrades, SupportsBeside};

use crate::around::trade_node;
use crate::build::links_of;
use crate::flow::flow_of;
use crate::solve::prices_by;
use std::alloc::Global;
use tn_base::OutOfMemory;
use tn_counts::{Pin, UnitMarket};
use tn_cycle::{Finder, Labels};
use tn_links::unit_labels;

/// What the search for prices beside given ones finds.
#[derive(Drop)]
pub enum PinnedSupport {
    /// Prices of a unit of each trade, the given ones among them, with which the counts are an equilibrium.
    Supported { prices: Vec<i128> },
    /// No prices beside the given ones make the counts an equilibrium, over any denominator: with a unit of each trade that
    /// is passed on, by number, all firms together gain at any such prices.
    Unsupported { passed: Vec<u32> },
}

/// No marks.
fn no_marks(alloc: Global, trades: u32) -> Result<Vec<u32>, OutOfMemory>
    ensures { IfOk result (λ passed. passed.items ≡ map (λ t. 0) (range_with_len 0 trades)) }
{
    let mut passed = Vec::new(alloc);
    for _ in 0..trades {
        passed.push(0)?;
    }
    Ok(passed)
}

/// Marks the trade of a node, where it is one of a trade.
fn mark(passed: &mut [u32], first: u32, node: u32)
    ensures sized { length passed.new ≡ length passed.old }
    ensures single { ((t : ℕ) → count_in passed.old t ≤ 1) → (t : ℕ) → count_in passed.new t ≤ 1 }
    ensures kept { (t : ℕ) → count_in passed.old t ≡ 1 → count_in passed.new t ≡ 1 }
    ensures own { (t : ℕ) → t < length passed.old → node ≡ first + t → count_in passed.new t ≡ 1 }
{
    if first <= node && ((node - first) as usize) < passed.len() {
        passed[(node - first) as usize] = 1;
    }
}

/// Marks the trades whose nodes are listed.
fn marked(alloc: Global, first: u32, trades: u32, listed: &[u32]) -> Result<Vec<u32>, OutOfMemory>
    ensures { IfOk result (λ passed. MarksTrades first trades listed.now passed.items) }
{
    let mut passed = no_marks(alloc, trades)?;
    for node in listed {
        mark(&mut passed, first, *node);
    }
    Ok(passed)
}

/// Finds prices that make these counts an equilibrium and are those of the pins on their trades, exactly where there are
/// any. Where there are none, each firm makes its own steps of a negative cycle: trades that aren't pinned pass from one
/// firm to the next, pinned ones are paid at their price by each side for itself, and all firms together gain at any
/// prices. The trades on the cycle are those that are passed on. The counts are possible for each firm. It fails only where memory runs out.
pub fn support_beside(
    alloc: Global,
    market: &UnitMarket,
    pins: &[Pin],
    counts: &[u32],
) -> Result<PinnedSupport, OutOfMemory>
    requires market { IsWideMarket market.now }
    requires pins { ArePins (length market.now.trades.items) pins.now }
    requires as_many { length counts.now ≡ length market.now.trades.items }
    requires within { AreCounts market.now.trades.items (count_in counts.now) }
    requires possible { ArePossible market.now (λ f. count_in counts.now) }
    ensures { IfOk result (SupportsBeside market.now pins.now (count_in counts.now)) }
{
    let links = links_of(alloc, market, pins)?;
    let levels = flow_of(alloc, market, pins, &links, counts)?;
    let nodes = trade_node(market, market.trades.len() as u32) + 1;
    let mut finder = Finder::new(alloc, nodes)?;
    match unit_labels(&links, &levels, &mut finder) {
        Labels::Feasible => Ok(PinnedSupport::Supported {
            prices: prices_by(alloc, market, &finder)?,
        }),
        Labels::Negative { .. } => Ok(PinnedSupport::Unsupported {
            passed: marked(
                alloc,
                trade_node(market, 0),
                market.trades.len() as u32,
                finder.listed(),
            )?,
        }),
    }
}
