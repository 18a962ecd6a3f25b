//! A law of dealers: what a bundle is worth by matchings.

ghost use Rattle.tn_dealer.specs.MatchingLaw.{DealersMatch};

/// A dealer's bundle is worth minus the least sum of the costs of listed pairs that match its purchases one to one with
/// its sales; it is impossible where no listed pairs do. No trade is worth 0.
pub fn dealers_match()
    ensures { DealersMatch }
{}
