//! Laws of one trade more or one less: one cycle does.

ghost use Rattle.tn_network_laws.specs.Barred.{OneCycleBarsATrade};
ghost use Rattle.tn_network_laws.specs.Rounds.{OneCycleForEachTrade};

/// Where trades are admitted one after another, one cycle of the exchange graph through the new trade, of least cost
/// and then of least arcs, leads from an equilibrium of the trades before to one with it; and numbers of the nodes that
/// keep the arcs are its prices. Numbers that keep the arcs with the new trade keep those after the round too, where
/// the arcs that enter it find its number and the cost of the cycle. So a network of firms that meet exchange has an
/// equilibrium (Hatfield, Kominers, Nichifor, Ostrovsky and Westkamp, 2013; as a flow, Candogan, Epitropou and Vohra,
/// 2021): the solver's answer shows one of each network that it is asked about, since that there is such a cycle is
/// found, round by round, and no law.
pub fn one_cycle_for_each_trade()
    ensures { OneCycleForEachTrade }
{}

/// Where a trade is barred again, one cycle of the exchange graph through it leads from an equilibrium with it to one
/// of the other trades: a cycle of least cost and then of least arcs, whatever it costs. There is one where the trade
/// is on and every firm may do without any trade; where it is off, nothing has to change. Numbers that keep the arcs go
/// on as where a trade is admitted.
pub fn one_cycle_bars_a_trade()
    ensures { OneCycleBarsATrade }
{}
