//! Laws of how far prices go.

ghost use Rattle.tn_network_laws.specs.Bounds.{EfficientSetsSharePrices, PriceBoundsAreDistances};

/// Efficient sets share their prices: those of one equilibrium support every set of the greatest surplus, since the
/// firms' utilities at these prices sum to the same (Hatfield, Kominers, Nichifor, Ostrovsky and Westkamp, 2013).
pub fn efficient_sets_share_prices()
    ensures { EfficientSetsSharePrices }
{}

/// How far prices go: over all equilibria the highest price of a trade is the least cost of a walk from the null node
/// to it in the exchange graph of any supported set, and the lowest price is the negative of the least cost of a walk
/// from it to the null node. Where there is no walk, prices go beyond every bound. All highest prices together support
/// the set, and so do all lowest ones: prices form a lattice (Gul and Stacchetti, 1999, and for trading networks
/// Hatfield, Kominers, Nichifor, Ostrovsky and Westkamp, 2013; by least walks, Murota, Discrete Convex Analysis, 2003).
pub fn price_bounds_are_distances()
    ensures { PriceBoundsAreDistances }
{}
