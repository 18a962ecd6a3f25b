//! A law of outcomes that no firm would leave.

ghost use Rattle.tn_outcome_laws.specs.Laws.{RationalByBundles};

/// Individually rational by lists of contracts is individually rational by bundles: a firm chooses all its contracts
/// from them exactly where its signed trades are best among their parts, at the contracts' prices.
pub fn rational_by_bundles()
    ensures { RationalByBundles }
{}
