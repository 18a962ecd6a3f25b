//! Equilibria of markets whose trades have units.

ghost use Rattle.std.specs.Prelude.{◌≡◌, ℕ, ◌+◌, ◌*◌, ◌^◌, ◌<◌, ◌≤◌, length, map, pos, suc, get_or, slice_get, All, IfOk, Some};
ghost use Rattle.std.specs.List.{range_with_len};
ghost use Rattle.tn_base.specs.Arcs.{IsAtMost};
ghost use Rattle.tn_counts.specs.declared.set.CountSet.{CountSet};
ghost use Rattle.tn_counts.specs.Counts.{IsEquilibriumByCounts, count_surplus};
ghost use Rattle.tn_counts.specs.Laminar.{constants, firms_of};
ghost use Rattle.tn_counts.specs.Markets.{IsUnitMarket, IsWideMarket};
ghost use Rattle.tn_counts.specs.Tree.{null_node, price_by};
ghost use Rattle.tn_counts.specs.Widths.{most_count_sets, most_unit_amount, most_unit_price, most_unit_surplus};
ghost use Rattle.tn_cycle.specs.Answers.{label_in};
ghost use Rattle.tn_cycle.specs.Widths.{most_read};
ghost use Rattle.tn_tree.specs.Lists.{count_in, price_in};

use crate::around::trade_node;
use crate::build::links_of;
use crate::settled::settled;
use std::alloc::Global;
use tn_base::OutOfMemory;
use tn_counts::{CountSet, UnitMarket};
use tn_cycle::{Finder, label_less};

/// An equilibrium by counts, and its surplus.
#[derive(Drop)]
pub struct Solved {
    /// How many units of each trade go, by trade number.
    pub counts: Vec<u32>,
    /// The price of a unit of each trade.
    pub prices: Vec<i128>,
    /// The sum of the firms' worths.
    pub surplus: i128,
}

/// The levels of the flow over the links of all trades, the first of which stands at a place.
pub(crate) fn levels_from(
    alloc: Global,
    trades: u32,
    levels: &[u32],
    place: u32,
) -> Result<Vec<u32>, OutOfMemory>
    requires few { length levels.now ≤ 2 ^ 24 }
    requires all { place + trades ≤ length levels.now }
    ensures { IfOk result (λ counts. counts.items
        ≡ map (λ t. get_or levels.now (place + t) 0) (range_with_len 0 trades)) }
{
    let mut counts = Vec::new(alloc);
    for t in 0..trades {
        counts.push(levels[(place + t) as usize])?;
    }
    Ok(counts)
}

/// The price of each trade: its label less that of null.
pub(crate) fn prices_by(
    alloc: Global,
    market: &UnitMarket,
    finder: &Finder,
) -> Result<Vec<i128>, OutOfMemory>
    requires market { IsWideMarket market.now }
    requires labelled { length finder.now.labels ≡ suc (null_node market.now) }
    requires small { (v : ℕ) → v < length finder.now.labels → IsAtMost (label_in finder.now.labels v) most_read }
    ensures { IfOk result (λ prices. prices.items
        ≡ map (price_by market.now (label_in finder.now.labels)) (range_with_len 0 (length market.now.trades.items))) }
{
    let trades = market.trades.len() as u32;
    let null = trade_node(market, trades);
    let mut prices = Vec::new(alloc);
    for t in 0..trades {
        prices.push(label_less(finder, trade_node(market, t), null))?;
    }
    Ok(prices)
}

/// The constants of all sets.
pub(crate) fn constants(sets: &[CountSet]) -> i128
    requires few { length sets.now ≤ most_count_sets }
    requires small { (i : ℕ) (set : CountSet) → slice_get sets.now i ≡ Some set → IsAtMost set.constant most_unit_amount }
    ensures sum { result ≡ constants sets.now }
    ensures small { IsAtMost result (most_count_sets * most_unit_amount) }
{
    let mut sum = 0;
    for set in sets {
        sum += i128::from(set.constant);
    }
    sum
}

/// Finds counts and prices that are an equilibrium by counts, and the surplus of the counts, which is the greatest. It
/// fails only where memory runs out.
#[tactic(auto, using(tn_counts::proofs::WideLemmas::wide_market))]
pub fn solve_market(alloc: Global, market: &UnitMarket) -> Result<Solved, OutOfMemory>
    requires { IsUnitMarket market.now }
    ensures equilibrium { IfOk result (λ solved. IsEquilibriumByCounts (firms_of market.now) market.now.trades.items
        (pos 1) (count_in solved.counts.items) (price_in solved.prices.items)) }
    ensures surplus { IfOk result (λ solved. count_surplus (firms_of market.now) (count_in solved.counts.items)
        ≡ Some solved.surplus) }
    ensures counts { IfOk result (λ solved. length solved.counts.items ≡ length market.now.trades.items) }
    ensures prices { IfOk result (λ solved. length solved.prices.items ≡ length market.now.trades.items) }
    // So prices are those of an arrangement, and the surplus is a number of a claim.
    ensures small_prices { IfOk result (λ solved. All (λ price. IsAtMost price most_unit_price) solved.prices.items) }
    ensures small_surplus { IfOk result (λ solved. IsAtMost solved.surplus most_unit_surplus) }
{
    let trades = market.trades.len() as u32;
    let nodes = trade_node(market, trades) + 1;
    let links = links_of(alloc, market, &[])?;
    let mut finder = Finder::new(alloc, nodes)?;
    let levels = settled(alloc, &links, nodes, &mut finder)?;
    let surplus = links.gain(&levels) + constants(&market.sets);
    let counts = levels_from(alloc, trades, &levels, trade_node(market, 0))?;
    let prices = prices_by(alloc, market, &finder)?;
    Ok(Solved {
        counts,
        prices,
        surplus,
    })
}
