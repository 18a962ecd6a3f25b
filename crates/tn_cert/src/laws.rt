//! Laws of claims: what refutes one, and what a plan in parts says of prices.

ghost use Rattle.tn_cert.specs.Plans.{PlansBarPrices};
ghost use Rattle.tn_cert.specs.RefutedLaw.{RefutedIsNotValid};

/// A claim with a reason against it isn't valid. So the replay of a claim answers that it is valid exactly where no
/// condition fails.
pub fn refuted_is_not_valid()
    ensures { RefutedIsNotValid }
{}

/// Where a plan in parts is worth more than every set of trades, no prices over any denominator make a set of trades an
/// equilibrium: each firm's utility at prices would be at least that of each of its bundles, so at least that of their
/// weighted sum, and in the sum over all firms the prices cancel (the duality of linear programming: Bikhchandani and
/// Mamer, 1997).
pub fn plans_bar_prices()
    ensures { PlansBarPrices }
{}
