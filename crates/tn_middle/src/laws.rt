//! A law of middlemen: what each bundle is worth.

ghost use Rattle.tn_middle.specs.PairLaw.{MiddlemenPair};

/// A middleman is worth 0 without a trade, what it keeps less the cost with a purchase alone, and the gain less the
/// cost with a purchase and a sale; no other bundle is possible.
pub fn middlemen_pair()
    ensures { MiddlemenPair }
{}
