//! A law of close bundles: they decide exchange where every bundle is possible.

ghost use Rattle.tn_firm_laws.specs.Close.{ClosePairsDecide};

/// A firm to which every bundle of its trades is possible meets exchange as soon as no triple of close bundles fails
/// (Murota, Discrete Convex Analysis, 2003, on the local exchange property of M-convex functions).
pub fn close_pairs_decide()
    ensures { ClosePairsDecide }
{}
