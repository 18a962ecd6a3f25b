//! A law of residual markets: their greatest surplus is that of reduced worths.

ghost use Rattle.tn_residual.specs.Surplus.{SurplusIsReducedWorth};

/// In every residual market, at any scale and tax, the greatest surplus for a set of unsigned trades is the sum of
/// their reduced worths, scaled, less two taxes for each of them; and there is none exactly where a reduced worth is
/// none. (The market around signed contracts: Hatfield, Kominers, Nichifor, Ostrovsky and Westkamp, 2013.)
pub fn surplus_is_reduced_worth()
    ensures { SurplusIsReducedWorth }
{}
