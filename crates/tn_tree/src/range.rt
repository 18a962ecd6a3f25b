//! How far the price of each trade goes over all equilibria by counts.

ghost use Rattle.std.specs.Prelude.{◌≡◌, [], ℕ, ◌+◌, ◌^◌, ◌<◌, ◌≤◌, All, IfOk, IfSome, length, neg_ℤ, option_map, suc};
ghost use Rattle.tn_base.specs.Arcs.{IsAtMost};
ghost use Rattle.tn_counts.specs.Markets.{IsUnitMarket, IsWideMarket};
ghost use Rattle.tn_counts.specs.Tree.{AreLinksOf, null_node, trade_node};
ghost use Rattle.tn_counts.specs.Widths.{most_unit_price};
ghost use Rattle.tn_cycle.specs.Answers.{distance_in, walk_in};
ghost use Rattle.tn_tree.specs.Ranges.{AreRangesBy, AreRangesByCounts, AreWalks, IsRangeBy, IsSmallRange, IsWalk, KeepsWalks, high_steps, low_steps};

use crate::around::trade_node;
use crate::build::links_of;
use crate::settled::settled;
use crate::solve::levels_from;
use crate::steps::{UnitStep, steps_down, steps_round};
use std::alloc::Global;
use tn_base::OutOfMemory;
use tn_counts::UnitMarket;
use tn_cycle::Finder;
use tn_links::{Links, walks_from, walks_to};

/// The lowest and the highest price of a trade over all equilibria by counts, None where for each number some equilibrium
/// has a price beyond it. The first step of a lowest price is the trade's own, one more where the walk leaves it to its
/// buyer; the last step of a highest price is, one more where the walk comes from its seller.
#[derive(Drop)]
pub struct UnitRange {
    pub low: Option<i128>,
    /// Steps from the trade to null that show the lowest price, none where there is no such price.
    pub low_path: Vec<Option<UnitStep>>,
    pub high: Option<i128>,
    /// Steps from null to the trade that show the highest price, none where there is no such price.
    pub high_path: Vec<Option<UnitStep>>,
}

/// The ranges of all trades.
#[derive(Drop)]
pub struct UnitRanges {
    /// How many units of each trade go in an equilibrium, by trade number.
    pub counts: Vec<u32>,
    /// The range of each trade, by trade number.
    pub ranges: Vec<UnitRange>,
}

/// The negative of a cost, if there is one.
fn negated(cost: Option<i128>) -> Option<i128>
    requires { IfSome cost (λ c. IsAtMost c most_unit_price) }
    ensures { result ≡ option_map neg_ℤ cost }
{
    match cost {
        Some(cost) => Some(-cost),
        None => None,
    }
}

/// The steps of the least walk from null to a node, none where there is no walk.
fn high_path(
    alloc: Global,
    market: &UnitMarket,
    links: &Links,
    from_null: &mut Finder,
    node: u32,
) -> Result<Vec<Option<UnitStep>>, OutOfMemory>
    requires market { IsWideMarket market.now }
    requires links { AreLinksOf market.now [] links.now.links.items }
    requires found { node < length from_null.old.distances }
    requires walk { IfSome (distance_in from_null.old node) (λ c. IsWalk market.now (walk_in from_null.old node)) }
    ensures path { IfOk result (λ steps. steps.items
        ≡ high_steps market.now (distance_in from_null.old node) (walk_in from_null.old node)) }
    ensures walks { KeepsWalks from_null.old from_null.new }
{
    if from_null.distance(node).is_none() {
        return Ok(Vec::new(alloc));
    }
    from_null.walk(node);
    steps_round(alloc, market, links, from_null.listed())
}

/// The steps of the least walk from a node to null, none where there is no walk.
fn low_path(
    alloc: Global,
    market: &UnitMarket,
    links: &Links,
    to_null: &mut Finder,
    node: u32,
) -> Result<Vec<Option<UnitStep>>, OutOfMemory>
    requires market { IsWideMarket market.now }
    requires links { AreLinksOf market.now [] links.now.links.items }
    requires found { node < length to_null.old.distances }
    requires walk { IfSome (distance_in to_null.old node) (λ c. IsWalk market.now (walk_in to_null.old node)) }
    ensures path { IfOk result (λ steps. steps.items
        ≡ low_steps market.now (distance_in to_null.old node) (walk_in to_null.old node)) }
    ensures walks { KeepsWalks to_null.old to_null.new }
{
    if to_null.distance(node).is_none() {
        return Ok(Vec::new(alloc));
    }
    to_null.walk(node);
    steps_down(alloc, market, links, to_null.listed())
}

/// The range of a trade, by the least walks from null to its node and from there to null.
fn range_of(
    alloc: Global,
    market: &UnitMarket,
    links: &Links,
    from_null: &mut Finder,
    to_null: &mut Finder,
    node: u32,
) -> Result<UnitRange, OutOfMemory>
    requires market { IsWideMarket market.now }
    requires links { AreLinksOf market.now [] links.now.links.items }
    requires from_found { node < length from_null.old.distances }
    requires to_found { node < length to_null.old.distances }
    requires walks { AreWalks market.now from_null.old to_null.old node }
    ensures range { IfOk result (IsRangeBy market.now from_null.old to_null.old node) }
    ensures from_walks { KeepsWalks from_null.old from_null.new }
    ensures to_walks { KeepsWalks to_null.old to_null.new }
{
    Ok(UnitRange {
        low: negated(to_null.distance(node)),
        low_path: low_path(alloc, market, links, to_null, node)?,
        high: from_null.distance(node),
        high_path: high_path(alloc, market, links, from_null, node)?,
    })
}

/// The ranges of all trades, the first of which has this node.
fn ranges_from(
    alloc: Global,
    market: &UnitMarket,
    links: &Links,
    mut from_null: Finder,
    mut to_null: Finder,
    trades: u32,
    place: u32,
) -> Result<Vec<UnitRange>, OutOfMemory>
    requires market { IsWideMarket market.now }
    requires links { AreLinksOf market.now [] links.now.links.items }
    requires few { place + trades ≤ 2 ^ 24 }
    requires from_found { place + trades < length from_null.distances }
    requires to_found { place + trades < length to_null.distances }
    requires walks { (t : ℕ) → t < trades → AreWalks market.now from_null to_null (place + t) }
    ensures { IfOk result (λ ranges. AreRangesBy market.now from_null to_null place trades ranges.items) }
{
    let mut ranges = Vec::new(alloc);
    for t in 0..trades {
        ranges.push(range_of(
            alloc,
            market,
            links,
            &mut from_null,
            &mut to_null,
            place + t,
        )?)?;
    }
    Ok(ranges)
}

/// Finds the lowest and the highest price of each trade over all equilibria by counts, whatever the counts in them: a
/// highest price is the least cost of a walk from null to the trade's node over the links of a settled flow, and a lowest
/// one the negative of the least cost of a walk from there to null. It fails only where memory runs out (the lattice of
/// prices: Gul and Stacchetti, 1999, and Hatfield, Kominers, Nichifor, Ostrovsky and Westkamp, 2013; by least walks,
/// Murota, 2003).
#[tactic(auto, using(tn_counts::proofs::WideLemmas::wide_market))]
pub fn range_market(alloc: Global, market: &UnitMarket) -> Result<UnitRanges, OutOfMemory>
    requires { IsUnitMarket market.now }
    ensures ranges { IfOk result (λ found. AreRangesByCounts market.now found.counts.items found.ranges.items) }
    // So the prices are those of an arrangement.
    ensures small { IfOk result (λ found. All IsSmallRange found.ranges.items) }
{
    let trades = market.trades.len() as u32;
    let null = trade_node(market, trades);
    let place = trade_node(market, 0);
    let links = links_of(alloc, market, &[])?;
    let mut from_null = Finder::new(alloc, null + 1)?;
    let mut to_null = Finder::new(alloc, null + 1)?;
    let levels = settled(alloc, &links, null + 1, &mut from_null)?;
    to_null.label_as(&from_null);
    walks_from(&links, &levels, &mut from_null, null);
    walks_to(&links, &levels, &mut to_null, null);
    let counts = levels_from(alloc, trades, &levels, place)?;
    let ranges = ranges_from(alloc, market, &links, from_null, to_null, trades, place)?;
    Ok(UnitRanges { counts, ranges })
}
