//! A law of graphs: numbers keep the arcs exactly where no cycle is negative.

ghost use Rattle.tn_firm_laws.specs.Laws.{NumbersKeepArcs};

/// Numbers of the nodes keep every arc of a finite graph exactly where no closed walk has a negative cost (potentials
/// of shortest paths: Gallai, 1958).
pub fn numbers_keep_arcs()
    ensures { NumbersKeepArcs }
{}
