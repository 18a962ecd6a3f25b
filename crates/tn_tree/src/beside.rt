//! Markets that are settled where the prices of some trades are given.

ghost use Rattle.std.specs.Prelude.{length, IfOk};
ghost use Rattle.tn_counts.specs.Markets.{ArePins, IsWideMarket};
ghost use Rattle.tn_tree.specs.Pinned.{IsSettledBeside};

use crate::around::trade_node;
use crate::build::links_of;
use crate::settled::settled;
use crate::solve::{levels_from, prices_by};
use std::alloc::Global;
use tn_base::OutOfMemory;
use tn_counts::{Pin, UnitMarket};
use tn_cycle::Finder;

/// What is best for each firm where the prices of some trades are given: how many units of each trade its seller sells and
/// how many its buyer buys, and the price of a unit of each.
#[derive(Drop)]
pub struct SettledBeside {
    pub sold: Vec<u32>,
    pub bought: Vec<u32>,
    pub prices: Vec<i128>,
}

/// Finds prices that are those of the pins on their trades, and counts that are best for each firm at these. Of trades that
/// aren't pinned as much is sold as bought; of pinned ones each firm has what is best for it. It fails only where memory
/// runs out.
pub fn settle_beside(
    alloc: Global,
    market: &UnitMarket,
    pins: &[Pin],
) -> Result<SettledBeside, OutOfMemory>
    requires market { IsWideMarket market.now }
    requires pins { ArePins (length market.now.trades.items) pins.now }
    ensures { IfOk result (IsSettledBeside market.now pins.now) }
{
    let trades = market.trades.len() as u32;
    let nodes = trade_node(market, trades) + 1;
    let links = links_of(alloc, market, pins)?;
    let mut finder = Finder::new(alloc, nodes)?;
    let levels = settled(alloc, &links, nodes, &mut finder)?;
    let place = trade_node(market, 0);
    let sold = levels_from(alloc, trades, &levels, place)?;
    let bought = levels_from(alloc, trades, &levels, place + trades)?;
    let prices = prices_by(alloc, market, &finder)?;
    Ok(SettledBeside {
        sold,
        bought,
        prices,
    })
}
