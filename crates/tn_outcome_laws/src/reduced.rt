//! Laws of reduced worths.

ghost use Rattle.tn_outcome_laws.specs.Laws.{NumbersLeaveNoMore, ReducedArcsAreUnsigned, ReducedWorthsAreGreatest};

/// A reduced worth is the greatest utility of the unsigned trades with a part of the firm's contracts, and none exactly
/// where each of them is impossible.
pub fn reduced_worths_are_greatest()
    ensures { ReducedWorthsAreGreatest }
{}

/// The graph of the reduced worths has arcs among unsigned trades and null alone, since a firm has no reduced worth of
/// a signed trade.
pub fn reduced_arcs_are_unsigned()
    ensures { ReducedArcsAreUnsigned }
{}

/// Where numbers of the nodes keep the arcs of the reduced graph among some trades, no set of these trades has more
/// reduced worth, over all firms, than none. So where one has more, the graph on them has a negative cycle.
pub fn numbers_leave_no_more()
    ensures { NumbersLeaveNoMore }
{}
