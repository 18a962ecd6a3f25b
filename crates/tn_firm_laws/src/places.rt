//! Laws of a firm's places: its own trades, and null.

ghost use Rattle.tn_firm_laws.specs.Laws.{BundlesHavePlaces, ExchangeIsOverPlaces, NullIsNetCount};

/// A firm's own trades and null, for its net count, are places, each with a level; toggling at two places, one that
/// can be raised and one that can be lowered, moves one level from the second to the first.
pub fn bundles_have_places()
    ensures { BundlesHavePlaces }
{}

/// The net count is smaller exactly where the level of null is greater.
pub fn null_is_net_count()
    ensures { NullIsNetCount }
{}

/// The exchange property, in its two halves, is one statement over the places of a firm: signed M-natural concavity
/// is M-concavity with one place more (Murota, Discrete Convex Analysis, 2003; Candogan, Epitropou and Vohra, 2021).
pub fn exchange_over_places()
    ensures { ExchangeIsOverPlaces }
{}
