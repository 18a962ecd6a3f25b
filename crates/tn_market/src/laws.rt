//! Laws of markets: which trade stands at a position, and what a firm's bundle is.

ghost use Rattle.tn_model.specs.NetworkLaws.{AreBundleLists, ArePositions};

/// The trade at a position of a firm is the one that stands there, and a firm's bundle of a set of trades has the
/// positions whose trade is in the set.
pub fn positions_have_one_trade()
    ensures { ArePositions }
{}

/// The list of a bundle's trades has exactly the trades that stand at the bundle's positions. It ascends strictly where
/// the trades ascend with the positions.
pub fn bundles_are_listed()
    ensures { AreBundleLists }
{}
