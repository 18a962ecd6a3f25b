//! Laws of concave functions over nested sets.

ghost use Rattle.tn_firm_laws.specs.Laws.{ExchangeOfNestedSums, ListedNumbersAreConcave};

/// A sum of concave functions of net counts over nested sets of trades, with an amount for each trade beside it, meets
/// exchange (Murota, Discrete Convex Analysis, 2003: laminar concave functions are M-natural concave).
pub fn exchange_of_nested_sums()
    ensures { ExchangeOfNestedSums }
{}

/// A list of numbers without a positive second difference is a concave function of a count.
pub fn listed_numbers_are_concave()
    ensures { ListedNumbersAreConcave }
{}
