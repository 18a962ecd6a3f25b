//! Laws of the contracts that block an outcome.

ghost use Rattle.tn_blocking_laws.specs.Laws.{AllOnBlock, NoneOnIsNoCycle, SomeOnIsCycle};

/// Where a taxed equilibrium has no trade on, at a scale of more than twice the number of allowed trades, no cycle of
/// the reduced graph on these is negative: the taxes on a cycle are fewer than the scale, so its cost, a whole number,
/// isn't below 0.
pub fn none_on_is_no_cycle()
    ensures { NoneOnIsNoCycle }
{}

/// Where a taxed equilibrium has trades on, these have more reduced worth than none, by at least their taxes, so the
/// reduced graph on them has a negative cycle.
pub fn some_on_is_cycle()
    ensures { SomeOnIsCycle }
{}

/// The trades of a taxed equilibrium that are on block the outcome at its prices: a firm that keeps fewer of them would
/// pay less tax, so without the tax it has strictly less by them.
pub fn all_on_block()
    ensures { AllOnBlock }
{}
