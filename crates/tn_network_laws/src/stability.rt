//! A law of equilibria: nothing blocks them.

ghost use Rattle.tn_network_laws.specs.Laws.{EquilibriaAreStable};

/// An equilibrium is stable: no contracts, over any denominator, block its outcome. What the offers give one of their
/// firms more than the prices do, another of them loses (Hatfield, Kominers, Nichifor, Ostrovsky and Westkamp, 2013).
pub fn equilibria_are_stable()
    ensures { EquilibriaAreStable }
{}
