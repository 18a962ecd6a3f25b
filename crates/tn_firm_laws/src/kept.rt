//! Laws of what keeps exchange.

ghost use Rattle.tn_firm_laws.specs.Laws.{ExchangeAmong, ExchangeOfPricedFirms};

/// Exchange is kept where worths are scaled and a sum over the bundle is added: so utility at any prices, a tax on
/// trades or a bonus for wanted ones meets exchange wherever the worth does (Murota, Discrete Convex Analysis, 2003,
/// on the sum of an M-natural concave and a linear function).
pub fn exchange_of_priced_firms()
    ensures { ExchangeOfPricedFirms }
{}

/// Exchange is kept where only bundles within a set of positions stay possible: so a firm that may trade less, as in
/// a market with fewer trades, meets exchange too.
pub fn exchange_among()
    ensures { ExchangeAmong }
{}
