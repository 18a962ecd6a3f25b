//! Laws of prices that support a set of trades.

ghost use Rattle.tn_network_laws.specs.Laws.{LabelsAreSupports, NegativeCyclesForbidSupports, SupportsKeepArcs};

/// Supports are arcs: where every bundle is possible, prices support a set of trades exactly where no arc of the
/// exchange graph costs less than the price at its end minus the one at its begin (Candogan, Epitropou and Vohra, 2021;
/// Murota, Discrete Convex Analysis, 2003, on optimality by the exchange graph).
pub fn supports_keep_arcs()
    ensures { SupportsKeepArcs }
{}

/// Numbers of the nodes that keep every arc, such as the least costs of walks, are supporting prices: each trade's
/// number less the null node's.
pub fn labels_are_supports()
    ensures { LabelsAreSupports }
{}

/// A negative closed walk shows that no prices support a set of trades.
pub fn negative_cycles_forbid_supports()
    ensures { NegativeCyclesForbidSupports }
{}
