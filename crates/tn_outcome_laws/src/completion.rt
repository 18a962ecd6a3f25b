//! Laws of prices that complete an outcome.

ghost use Rattle.tn_outcome_laws.specs.Fixed.{CompletedOutcomesAreRational, CompletionIsFixedLabels};
ghost use Rattle.tn_outcome_laws.specs.Laws.{CompletedOutcomesAreStable, CompletionIsLabels};

/// Completion is labels: prices complete an individually rational outcome exactly where no closed walk of the graph of
/// its reduced worths is negative. Numbers of the nodes that keep its arcs are the prices of the unsigned trades, less
/// null's; and completing prices keep the arcs. (Hatfield, Kominers, Nichifor, Ostrovsky and Westkamp, 2013, on stable
/// outcomes and equilibria.)
pub fn completion_is_labels()
    ensures { CompletionIsLabels }
{}

/// Completion is labels of the fixed graph too: the exchange graph at the signed trades, its costs counted over the
/// outcome's denominator, where an arc from null to each signed trade at its price and one back at minus that fix
/// the trade's price. Where each firm's signed trades are a possible bundle, prices complete the outcome exactly
/// where no closed walk of that graph is negative; numbers that keep its arcs, less null's, are such prices. (The
/// exchange graph: Candogan, Epitropou and Vohra, 2021.)
pub fn completion_is_fixed_labels()
    ensures { CompletionIsFixedLabels }
{}

/// An outcome that prices complete is individually rational: a firm's best bundle at these prices is as good as each of
/// its parts. Its firms needn't meet exchange.
pub fn completed_outcomes_are_rational()
    ensures { CompletedOutcomesAreRational }
{}

/// An outcome that prices complete is stable: no contracts, over any denominator, block it. Its firms needn't meet
/// exchange (Hatfield, Kominers, Nichifor, Ostrovsky and Westkamp, 2013).
pub fn completed_outcomes_are_stable()
    ensures { CompletedOutcomesAreStable }
{}
