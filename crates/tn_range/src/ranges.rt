//! The ranges of all trades.

ghost use Rattle.std.specs.Prelude.{◌≡◌, ℕ, ◌+◌, ◌*◌, ◌≤◌, ◌<◌, All, Some, length, map, slice_get, IfOk, IfSome};
ghost use Rattle.tn_base.specs.Arcs.{IsAtMost};
ghost use Rattle.tn_base.specs.Widths.{most_cost};
ghost use Rattle.tn_cycle.specs.Answers.{distance_in, label_in};
ghost use Rattle.tn_cycle.specs.Reading.{ListsNoWalks};
ghost use Rattle.tn_cycle.specs.Widths.{most_label, most_read};
ghost use Rattle.tn_market.specs.Graph.{graph_worths};
ghost use Rattle.tn_market.specs.Ranges.{AreRanges};
ghost use Rattle.tn_market.specs.Supported.{AreSupports};
ghost use Rattle.tn_network_laws.specs.Laws.{price_of_node};
ghost use Rattle.tn_model.specs.Prices.{price_at};
ghost use Rattle.tn_range.specs.Shown.{AreRangesBy};
ghost use Rattle.tn_market.specs.NetworkOf.{network_of};

use crate::bounds::range_of;
use std::alloc::Global;
use tn_base::{OutOfMemory, Steps, TradeSet};
use tn_cycle::Finder;
use tn_graph::Graph;
use tn_market::{Market, Prices, Ranges, Valuation};

/// The ranges of all trades, where one finder has found the least walks from the null node and the other those to it.
/// It fails only where memory runs out.
fn ranges_from(
    alloc: Global,
    mut from_null: Finder,
    mut to_null: Finder,
    trades: u32,
) -> Result<Ranges, OutOfMemory>
    requires from_found { length from_null.distances ≡ trades + 1 }
    requires to_found { length to_null.distances ≡ trades + 1 }
    requires small { (t : ℕ) → t < trades → IfSome (distance_in to_null t) (λ c. IsAtMost c most_read) }
    ensures { IfOk result (AreRangesBy trades trades from_null to_null) }
{
    let mut ranges = Vec::with_capacity(alloc, trades as usize)?;
    for t in 0..trades {
        ranges.push(range_of(alloc, &mut from_null, &mut to_null, t, trades)?)?;
    }
    Ok(Ranges::from_vec(ranges))
}

/// Gives each trade its price as a label, and the null node 0.
fn label_by_prices(finder: &mut Finder, prices: &Prices, trades: u32)
    requires counted { length prices.now ≡ trades }
    requires sized { finder.old.nodes ≡ trades + 1 }
    ensures one_each { length finder.new.labels ≡ finder.old.nodes }
    ensures prices { (v : ℕ) → label_in finder.new.labels v ≡ price_of_node trades (price_at prices.now) v }
    ensures rest { ListsNoWalks finder.old.nodes finder.new }
{
    finder.label_all();
    for t in 0..trades {
        finder.set_label(t, prices.at(t as usize));
    }
}

/// The lowest and the highest price of each trade over all equilibria, whatever trades are on in them, each with a path
/// of the exchange graph at the given set that shows it: a highest price is the least cost of a walk from the null node
/// to the trade, and a lowest one the negative of the least cost of a walk from the trade to the null node. None where
/// there is no such price, and then its path is empty. The given prices support the set, and least walks are found over
/// them. It asks for at most a worth for each two places of each firm, and fails only where memory runs out (the
/// lattice of prices: Gul and Stacchetti, 1999, and Hatfield, Kominers, Nichifor, Ostrovsky and Westkamp, 2013; by
/// least walks, Murota, 2003). The market has at most `64 * W` trades, twice the bound of each firm is at most 10^18,
/// and no price is above 10^27 in size.
pub fn range<V: Valuation, const W: usize>(
    alloc: Global,
    market: &Market<V>,
    on: &TradeSet<W>,
    prices: &Prices,
    steps: &mut Steps<V::Mark>,
) -> Result<Ranges, OutOfMemory>
    requires wide { length market.now.trades ≤ 64 * W }
    requires small { (f : ℕ) (v : V) → slice_get market.now.firms f ≡ Some v → 2 * V.limit v ≤ most_cost }
    requires supported { network_of V.firm market.now AreSupports on.now prices.now }
    requires near { All (λ price. IsAtMost price most_label) prices.now }
    ensures ranges { IfOk result (network_of V.firm market.now AreRanges on.now) }
    ensures asked { steps.new ≤ steps.old + graph_worths (map V.firm market.now.firms) }
{
    let trades = market.trades();
    let mut graph = Graph::new(alloc, trades + 1)?;
    let mut from_null = Finder::new(alloc, trades + 1)?;
    let mut to_null = Finder::new(alloc, trades + 1)?;
    graph.fill(market, on, steps);
    label_by_prices(&mut from_null, prices, trades);
    to_null.label_as(&from_null);
    from_null.least_from(&graph, trades);
    to_null.least_to(&graph, trades);
    ranges_from(alloc, from_null, to_null, trades)
}
