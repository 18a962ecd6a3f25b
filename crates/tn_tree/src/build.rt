//! The links of a market.

ghost use Rattle.std.specs.Prelude.{◌≡◌, ◌<◌, ◌≤◌, ◌++◌, suc, length, map, slice_get, Some, IfOk};
ghost use Rattle.std.specs.List.{range_with_len};
ghost use Rattle.tn_base.specs.Arcs.{IsAtMost};
ghost use Rattle.tn_links.specs.Widths.{most_each};
ghost use Rattle.tn_counts.specs.declared.set.CountSet.{CountSet};
ghost use Rattle.tn_counts.specs.Markets.{ArePins, IsWideMarket};
ghost use Rattle.tn_counts.specs.Tree.{AreLinksOf, buyer_shape, even, null_node, pin_shape, root_shape, seller_shape, set_shape, shape_of, unbounded_shape};
ghost use Rattle.tn_tree.specs.Shapes.{set_shapes};

use crate::around::{inner_node, node_above, root_node, trade_node};
use std::alloc::Global;
use tn_base::OutOfMemory;
use tn_counts::{Pin, UnitMarket};
use tn_links::{Link, Links, Step};

/// More units than flow over any link.
pub(crate) const UNBOUNDED: u32 = 4_194_304;

/// One step of so many units.
fn even(alloc: Global, units: u32, each: i64) -> Result<Vec<Step>, OutOfMemory>
    ensures { IfOk result (λ steps. steps.items ≡ even units each) }
{
    let mut steps = Vec::new(alloc);
    steps.push(Step { units, each })?;
    Ok(steps)
}

/// The link of a set.
fn set_link(alloc: Global, market: &UnitMarket, i: u32) -> Result<Link, OutOfMemory>
    requires market { IsWideMarket market.now }
    requires inside { i < length market.now.sets.items }
    ensures { IfOk result (λ link. (set : CountSet) → slice_get market.now.sets.items i ≡ Some set
        → shape_of link ≡ set_shape market.now i set) }
{
    let head = node_above(market, i);
    let set = &market.sets[i as usize];
    let steps = Vec::from_slice(alloc, &set.steps)?;
    Ok(Link {
        tail: i,
        head,
        back: set.back,
        steps,
    })
}

/// A link over which more units may flow than there are, both ways.
fn unbounded(alloc: Global, tail: u32, head: u32, each: i64) -> Result<Link, OutOfMemory>
    ensures { IfOk result (λ link. shape_of link ≡ unbounded_shape tail head each) }
{
    Ok(Link {
        tail,
        head,
        back: UNBOUNDED,
        steps: even(alloc, 2 * UNBOUNDED, each)?,
    })
}

/// The link of a root.
fn root_link(alloc: Global, market: &UnitMarket, firm: u32) -> Result<Link, OutOfMemory>
    requires market { IsWideMarket market.now }
    requires known { firm < market.now.firms }
    ensures { IfOk result (λ link. shape_of link ≡ root_shape market.now firm) }
{
    let null = trade_node(market, market.trades.len() as u32);
    unbounded(alloc, root_node(market, firm), null, 0)
}

/// The link of a trade at its seller.
fn seller_link(alloc: Global, market: &UnitMarket, t: u32) -> Result<Link, OutOfMemory>
    requires market { IsWideMarket market.now }
    requires inside { t < length market.now.trades.items }
    ensures { IfOk result (λ link. shape_of link ≡ seller_shape market.now t) }
{
    let trade = market.trades[t as usize];
    let each = market.amounts[t as usize].seller;
    Ok(Link {
        tail: inner_node(market, trade.seller, t),
        head: trade_node(market, t),
        back: 0,
        steps: even(alloc, trade.units, each)?,
    })
}

/// The link of a trade at its buyer.
fn buyer_link(alloc: Global, market: &UnitMarket, t: u32) -> Result<Link, OutOfMemory>
    requires market { IsWideMarket market.now }
    requires inside { t < length market.now.trades.items }
    ensures { IfOk result (λ link. shape_of link ≡ buyer_shape market.now t) }
{
    let trade = market.trades[t as usize];
    let each = market.amounts[t as usize].buyer;
    Ok(Link {
        tail: trade_node(market, t),
        head: inner_node(market, trade.buyer, t),
        back: 0,
        steps: even(alloc, trade.units, each)?,
    })
}

/// The link of a pinned trade.
fn pin_link(alloc: Global, market: &UnitMarket, pin: Pin) -> Result<Link, OutOfMemory>
    requires market { IsWideMarket market.now }
    requires known { pin.trade < length market.now.trades.items }
    ensures { IfOk result (λ link. shape_of link ≡ pin_shape market.now pin) }
{
    let null = trade_node(market, market.trades.len() as u32);
    unbounded(alloc, trade_node(market, pin.trade), null, pin.price)
}

/// Adds the links of all sets.
fn add_sets(alloc: Global, market: &UnitMarket, links: &mut Vec<Link>) -> Result<(), OutOfMemory>
    requires { IsWideMarket market.now }
    ensures { IfOk result (λ done. map shape_of links.new.items
        ≡ map shape_of links.old.items ++ set_shapes market.now 0 market.now.sets.items) }
{
    for i in 0..market.sets.len() as u32 {
        links.push(set_link(alloc, market, i)?)?;
    }
    Ok(())
}

/// Adds the links of all roots.
fn add_roots(alloc: Global, market: &UnitMarket, links: &mut Vec<Link>) -> Result<(), OutOfMemory>
    requires { IsWideMarket market.now }
    ensures { IfOk result (λ done. map shape_of links.new.items
        ≡ map shape_of links.old.items ++ map (root_shape market.now) (range_with_len 0 market.now.firms)) }
{
    for firm in 0..market.firms {
        links.push(root_link(alloc, market, firm)?)?;
    }
    Ok(())
}

/// Adds the links of all trades at their sellers.
fn add_sellers(alloc: Global, market: &UnitMarket, links: &mut Vec<Link>) -> Result<(), OutOfMemory>
    requires { IsWideMarket market.now }
    ensures { IfOk result (λ done. map shape_of links.new.items ≡ map shape_of links.old.items
        ++ map (seller_shape market.now) (range_with_len 0 (length market.now.trades.items))) }
{
    for t in 0..market.trades.len() as u32 {
        links.push(seller_link(alloc, market, t)?)?;
    }
    Ok(())
}

/// Adds the links of all trades at their buyers.
fn add_buyers(alloc: Global, market: &UnitMarket, links: &mut Vec<Link>) -> Result<(), OutOfMemory>
    requires { IsWideMarket market.now }
    ensures { IfOk result (λ done. map shape_of links.new.items ≡ map shape_of links.old.items
        ++ map (buyer_shape market.now) (range_with_len 0 (length market.now.trades.items))) }
{
    for t in 0..market.trades.len() as u32 {
        links.push(buyer_link(alloc, market, t)?)?;
    }
    Ok(())
}

/// Adds the links of all pinned trades.
fn add_pins(
    alloc: Global,
    market: &UnitMarket,
    pins: &[Pin],
    links: &mut Vec<Link>,
) -> Result<(), OutOfMemory>
    requires market { IsWideMarket market.now }
    requires pins { ArePins (length market.now.trades.items) pins.now }
    ensures { IfOk result (λ done. map shape_of links.new.items
        ≡ map shape_of links.old.items ++ map (pin_shape market.now) pins.now) }
{
    for pin in pins {
        links.push(pin_link(alloc, market, *pin)?)?;
    }
    Ok(())
}

/// All links in their order.
fn all_links(alloc: Global, market: &UnitMarket, pins: &[Pin]) -> Result<Vec<Link>, OutOfMemory>
    requires market { IsWideMarket market.now }
    requires pins { ArePins (length market.now.trades.items) pins.now }
    ensures { IfOk result (λ links. AreLinksOf market.now pins.now links.items) }
{
    let mut links = Vec::new(alloc);
    add_sets(alloc, market, &mut links)?;
    add_roots(alloc, market, &mut links)?;
    add_sellers(alloc, market, &mut links)?;
    add_buyers(alloc, market, &mut links)?;
    add_pins(alloc, market, pins, &mut links)?;
    Ok(links)
}

/// The links of a market, some of whose trades are pinned.
pub(crate) fn links_of(
    alloc: Global,
    market: &UnitMarket,
    pins: &[Pin],
) -> Result<Links, OutOfMemory>
    requires market { IsWideMarket market.now }
    requires pins { ArePins (length market.now.trades.items) pins.now }
    ensures links { IfOk result (λ made. AreLinksOf market.now pins.now made.links.items) }
    ensures nodes { IfOk result (λ made. made.nodes ≡ suc (null_node market.now)) }
{
    let links = all_links(alloc, market, pins)?;
    let nodes = trade_node(market, market.trades.len() as u32) + 1;
    Links::new(alloc, nodes, links)
}
