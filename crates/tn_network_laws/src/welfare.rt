//! A law of equilibria: they have the greatest surplus.

ghost use Rattle.tn_network_laws.specs.Laws.{EquilibriaAreEfficient};

/// An equilibrium has the greatest surplus, over all sets of trades: in the sum of the firms' utilities each price is
/// paid once and received once (the first welfare theorem of trading networks: Hatfield, Kominers, Nichifor, Ostrovsky
/// and Westkamp, 2013).
pub fn equilibria_are_efficient()
    ensures { EquilibriaAreEfficient }
{}
