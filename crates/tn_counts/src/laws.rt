//! Laws of markets by counts. Each is the contract of a function with an empty body: calling it proves nothing more, and
//! costs nothing.

ghost use Rattle.tn_counts.specs.Laws.{CyclesGainByCounts, EquilibriaByCountsAreEfficient, FlowsAreCounts, LabelsArePrices, LabelsMakeEquilibria, LinksArePlain, NegativeCyclesBarEquilibria};
ghost use Rattle.tn_counts.specs.Ranges.{PricesAreLeastWalks};

/// An equilibrium by counts has the greatest surplus, over all counts: in the sum of the firms' utilities the price of
/// each unit is paid once and received once (the first welfare theorem of trading networks: Hatfield, Kominers, Nichifor,
/// Ostrovsky and Westkamp, 2013).
pub fn equilibria_by_counts_are_efficient()
    ensures { EquilibriaByCountsAreEfficient }
{}

/// The links of a market are such as `Links` takes: no two join the same two nodes, and what each gains is concave.
pub fn links_are_plain()
    ensures { LinksArePlain }
{}

/// Labels that keep the graph of a kept flow with lots of one unit are prices at which each firm's counts are best; a
/// pinned trade has its pin's price (weak duality on the tree of a laminar firm).
pub fn labels_are_prices()
    ensures { LabelsArePrices }
{}

/// Where nothing is pinned, a kept flow has as many units of a trade at its buyer as at its seller, and the firms' worths
/// of these counts sum to what the flow gains and the constants of all sets.
pub fn flows_are_counts()
    ensures { FlowsAreCounts }
{}

/// Where nothing is pinned, labels that keep the graph of a kept flow make its counts an equilibrium.
pub fn labels_make_equilibria()
    ensures { LabelsMakeEquilibria }
{}

/// A lot of units round a negative cycle leaves counts that have more surplus, by what the cycle costs.
pub fn cycles_gain_by_counts()
    ensures { CyclesGainByCounts }
{}

/// Where the graph of a flow has a negative cycle, no prices make its counts an equilibrium, over any denominator.
pub fn negative_cycles_bar_equilibria()
    ensures { NegativeCyclesBarEquilibria }
{}

/// Over the graph of a settled flow least walks from null and to null are the highest and the lowest prices of all
/// equilibria, whatever the counts in them; and all highest prices, where each trade has one, make an equilibrium, as do
/// all lowest ones (the lattice of prices: Gul and Stacchetti, 1999, and Hatfield, Kominers, Nichifor, Ostrovsky and
/// Westkamp, 2013; by least walks, Murota, 2003).
pub fn prices_are_least_walks()
    ensures { PricesAreLeastWalks }
{}
