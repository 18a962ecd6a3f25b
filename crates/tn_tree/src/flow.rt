//! The flow of given counts.

ghost use Rattle.std.specs.Prelude.{◌≡◌, ℕ, suc, ◌+◌, ◌<◌, ◌≤◌, ℤ, pos, ◌+ℤ◌, ◌++◌, length, map, get_or, unsigned_abs, IfOk};
ghost use Rattle.std.specs.List.{range_with_len};
ghost use Rattle.tn_base.specs.Arcs.{IsAtMost};
ghost use Rattle.tn_links.specs.Flows.{IsKeptFlow};
ghost use Rattle.tn_counts.specs.Counts.{AreCounts};
ghost use Rattle.tn_counts.specs.Markets.{IsWideMarket};
ghost use Rattle.tn_counts.specs.Tree.{AreLinksOf, null_node, root_node};
ghost use Rattle.tn_counts.specs.Widths.{most_market_units, unbounded};
ghost use Rattle.tn_tree.specs.Levels.{AreLevelsOf, ArePossible, levels_by, root_level, set_level};
ghost use Rattle.tn_tree.specs.Lists.{count_in};
ghost use Rattle.tn_tree.specs.Nets.{firm_net, net_at};

use crate::around::root_node;
use crate::build::UNBOUNDED;
use crate::nets::nets_of;
use std::alloc::Global;
use tn_base::OutOfMemory;
use tn_counts::{Pin, UnitMarket};
use tn_links::Links;

/// The level of a link whose fewest units are so many below 0, by its flow.
fn level_at(flow: i128, back: u32) -> u32
    requires small { IsAtMost flow most_market_units }
    requires few { back ≤ unbounded }
    ensures { result ≡ unsigned_abs (flow +ℤ pos back) }
{
    (flow + i128::from(back)).unsigned_abs() as u32
}

/// The level of the link of a set.
fn set_level(market: &UnitMarket, nets: &[i128], i: u32) -> u32
    requires market { IsWideMarket market.now }
    requires inside { i < length market.now.sets.items }
    requires read { i < length nets.now }
    requires small { IsAtMost (get_or nets.now i (pos 0)) most_market_units }
    ensures { result ≡ set_level market.now nets.now i }
{
    level_at(nets[i as usize], market.sets[i as usize].back)
}

/// Adds the levels of the links of all sets.
fn add_set_levels(
    market: &UnitMarket,
    nets: &[i128],
    levels: &mut Vec<u32>,
) -> Result<(), OutOfMemory>
    requires market { IsWideMarket market.now }
    requires sized { length nets.now ≡ suc (null_node market.now) }
    requires small { (i : ℕ) → i < length market.now.sets.items
        → IsAtMost (get_or nets.now i (pos 0)) most_market_units }
    ensures { IfOk result (λ done. levels.new.items ≡ levels.old.items
        ++ map (set_level market.now nets.now) (range_with_len 0 (length market.now.sets.items))) }
{
    for i in 0..market.sets.len() as u32 {
        levels.push(set_level(market, nets, i))?;
    }
    Ok(())
}

/// Adds the levels of the links of all roots.
fn add_root_levels(
    market: &UnitMarket,
    nets: &[i128],
    levels: &mut Vec<u32>,
) -> Result<(), OutOfMemory>
    requires market { IsWideMarket market.now }
    requires sized { length nets.now ≡ suc (null_node market.now) }
    requires small { (f : ℕ) → f < market.now.firms
        → IsAtMost (get_or nets.now (root_node market.now f) (pos 0)) most_market_units }
    ensures { IfOk result (λ done. levels.new.items ≡ levels.old.items
        ++ map (root_level market.now nets.now) (range_with_len 0 market.now.firms)) }
{
    for firm in 0..market.firms {
        levels.push(level_at(nets[root_node(market, firm) as usize], UNBOUNDED))?;
    }
    Ok(())
}

/// The levels of all links but those of pins, by what flows into the nodes.
fn first_levels(
    alloc: Global,
    market: &UnitMarket,
    nets: &[i128],
    sold: &[u32],
    bought: &[u32],
) -> Result<Vec<u32>, OutOfMemory>
    requires market { IsWideMarket market.now }
    requires sized { length nets.now ≡ suc (null_node market.now) }
    requires sets { (i : ℕ) → i < length market.now.sets.items
        → IsAtMost (get_or nets.now i (pos 0)) most_market_units }
    requires roots { (f : ℕ) → f < market.now.firms
        → IsAtMost (get_or nets.now (root_node market.now f) (pos 0)) most_market_units }
    ensures { IfOk result (λ levels. levels.items ≡ levels_by market.now nets.now sold.now bought.now) }
{
    let mut levels = Vec::new(alloc);
    add_set_levels(market, nets, &mut levels)?;
    add_root_levels(market, nets, &mut levels)?;
    levels.extend_from_slice(sold)?;
    levels.extend_from_slice(bought)?;
    Ok(levels)
}

/// Adds the levels of the links of so many pins, over which nothing flows.
fn add_pin_levels(pins: usize, levels: &mut Vec<u32>) -> Result<(), OutOfMemory>
    ensures { IfOk result (λ done. levels.new.items
        ≡ levels.old.items ++ map (λ k. unbounded) (range_with_len 0 pins)) }
{
    for _ in 0..pins {
        levels.push(UNBOUNDED)?;
    }
    Ok(())
}

/// The flow by counts that are possible for each firm: the level of each link. Nothing flows over the pins, since as much
/// of each trade is sold as is bought.
pub(crate) fn flow_of(
    alloc: Global,
    market: &UnitMarket,
    pins: &[Pin],
    links: &Links,
    counts: &[u32],
) -> Result<Vec<u32>, OutOfMemory>
    requires market { IsWideMarket market.now }
    requires links { AreLinksOf market.now pins.now links.now.links.items }
    requires nodes { links.now.nodes ≡ suc (null_node market.now) }
    requires as_many { length counts.now ≡ length market.now.trades.items }
    requires within { AreCounts market.now.trades.items (count_in counts.now) }
    requires possible { ArePossible market.now (λ f. count_in counts.now) }
    ensures kept { IfOk result (λ levels. IsKeptFlow links.now.links.items levels.items) }
    ensures counts { IfOk result (λ levels. AreLevelsOf market.now pins.now (count_in counts.now) levels.items) }
{
    let nets = nets_of(alloc, market, links, counts, counts)?;
    let mut levels = first_levels(alloc, market, &nets, counts, counts)?;
    add_pin_levels(pins.len(), &mut levels)?;
    Ok(levels)
}
