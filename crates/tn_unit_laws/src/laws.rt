//! Laws of the unit network. Each is the contract of a function with an empty body: calling it proves nothing more, and
//! costs nothing.

ghost use Rattle.tn_unit_laws.specs.Laws.{BlockedByCounts, BlockedByUnits, CompletableByCounts, CompletedByCounts, CompletedByCountsAreStable, CountsAreOfSets, EfficientByCounts, EquilibriaByCountsAreEquilibria, EquilibriaByCountsAreStable, ExchangeByCounts, LossesBoundUnitPrices, MarketsFitByCounts, MarketsMeetExchange, MoreSurplusBarsUnitPrices, NegativeCyclesBarUnitPrices, OnePriceIsEnough, RationalByCounts, StableByCounts, TwinsCostTheSame, UnitContractsAreOfContracts, UnitsMakeNetworks};

/// Firms by counts, and trades of many units between two different ones of them, make a network in which each unit is a
/// trade of its own: each firm has a position for each unit of its trades.
pub fn units_make_networks()
    ensures { UnitsMakeNetworks }
{}

/// Of each trade the first so many twins have the counts that they are taken by, where there are so many units; and no
/// set has more twins of a trade than it has units.
pub fn counts_are_of_sets()
    ensures { CountsAreOfSets }
{}

/// An equilibrium by counts is one of the unit network, at one price for the twins of each trade, and no other counts
/// are: what a bundle is worth and brings goes by how many twins of each trade are in it.
pub fn equilibria_by_counts_are_equilibria()
    ensures { EquilibriaByCountsAreEquilibria }
{}

/// A set of unit trades has the surplus of its counts, and the greatest one exactly where no counts have more.
pub fn efficient_by_counts()
    ensures { EfficientByCounts }
{}

/// The firms of a market of laminar firms fit its trades by counts: what a firm has depends on the units of its own
/// trades alone.
pub fn markets_fit_by_counts()
    ensures { MarketsFitByCounts }
{}

/// An equilibrium by counts is efficient and stable in the unit network, in the words of networks without units: no set
/// of unit trades has more surplus, and no contracts, over any denominator, block it (Hatfield, Kominers, Nichifor,
/// Ostrovsky and Westkamp, 2013). So it is stable by counts: no offers by counts block its outcome.
pub fn equilibria_by_counts_are_stable()
    ensures { EquilibriaByCountsAreStable }
{}

/// Where other counts have more surplus, no prices make a set of unit trades an equilibrium, the same for twins or not.
pub fn more_surplus_bars_unit_prices()
    ensures { MoreSurplusBarsUnitPrices }
{}

/// A negative cycle of the graph of a market's links bars all prices of the unit network, the same for twins or not.
pub fn negative_cycles_bar_unit_prices()
    ensures { NegativeCyclesBarUnitPrices }
{}

/// In an equilibrium of the unit network, whatever its firms' exchange, twins of which one is on and one is off have
/// the same price: the seller and the buyer may each take one for the other.
pub fn twins_cost_the_same()
    ensures { TwinsCostTheSame }
{}

/// What firms lose together, where one unit of a trade is sold that isn't bought, is at least the price of each twin of
/// the trade, in every equilibrium of the unit network; and where one is bought that isn't sold, the price of a twin and
/// the loss together are at least nothing. Twins may have different prices there.
pub fn losses_bound_unit_prices()
    ensures { LossesBoundUnitPrices }
{}

/// Where the unit firms meet the exchange property, one price for the twins of a trade is enough: the greatest price
/// among its twins, for each trade, is a price for all of them with the same set, and so is the least. Without it neither
/// need be: two units that a buyer takes and a seller gives only together may go at 1 and 9, and at 5 and 5, but not at
/// 9 and 9.
pub fn one_price_is_enough()
    ensures { OnePriceIsEnough }
{}

/// The unit firms of a market of laminar firms meet the exchange property: each is a sum of concave functions of net
/// counts over nested sets of its unit trades, and of an amount for each.
pub fn markets_meet_exchange()
    ensures { MarketsMeetExchange }
{}

/// A unit firm meets the exchange property exactly where its firm exchanges by counts: of two counts, where the level of
/// the first is above that of the second at a trade, or at null, some other place is the other way round, and both may be
/// moved by a unit towards each other without loss.
pub fn exchange_by_counts()
    ensures { ExchangeByCounts }
{}

/// Contracts of several units are as many contracts of one unit, on different twins: each contract has as many twins as it
/// has units, all of them of its trade.
pub fn unit_contracts_are_of_contracts()
    ensures { UnitContractsAreOfContracts }
{}

/// An outcome by counts is rational exactly where the list of its unit contracts is, in the words of networks without
/// units: no firm would rather drop some.
pub fn rational_by_counts()
    ensures { RationalByCounts }
{}

/// Prices complete an outcome by counts exactly where they complete its unit contracts.
pub fn completed_by_counts()
    ensures { CompletedByCounts }
{}

/// Where the unit firms meet the exchange property, some prices complete an outcome by counts exactly where some prices of
/// single units, the same for twins or not, complete its unit contracts.
pub fn completable_by_counts()
    ensures { CompletableByCounts }
{}

/// Offers by counts block an outcome by counts exactly where their unit offers, on the twins after those that are signed,
/// block its unit contracts: each firm of an offer takes all of its own in every choice. So what is stable over single units
/// is stable by counts.
pub fn blocked_by_counts()
    ensures { BlockedByCounts }
{}

/// Contracts of single units, over any denominator, that block the unit contracts of an outcome are offers by counts of one
/// unit each that block the outcome, where they are on unsigned twins; and so they are if each firm can have some of what is
/// signed. Twins may be at different prices.
pub fn blocked_by_units()
    ensures { BlockedByUnits }
{}

/// An outcome by counts is stable exactly where its unit contracts are, in the words of networks without units, if each firm
/// can have some of what is signed, as laminar firms can; and any outcome is rational and stable exactly where its unit
/// contracts are individually rational and stable.
pub fn stable_by_counts()
    ensures { StableByCounts }
{}

/// An outcome by counts that some prices complete is stable: no contracts for single units, over any denominator, block it,
/// and no offers by counts.
pub fn completed_by_counts_are_stable()
    ensures { CompletedByCountsAreStable }
{}
