//! A law of four places: they decide close bundles.

ghost use Rattle.tn_firm_laws.specs.Quads.{QuadsDecide};

/// Where every bundle of a firm's trades is possible, no triple of close bundles fails exactly where of each bundle and
/// each four free places the greatest of the three sums that part them two and two stands at least twice.
pub fn quads_decide()
    ensures { QuadsDecide }
{}
