//! Laws of flows. Each is the contract of a function with an empty body: calling it proves nothing more, and costs
//! nothing.

ghost use Rattle.tn_links.specs.Laws.{CyclesGainWhatTheyCost, LabelsAreGreatest};

/// Where labels keep the graph of a kept flow with lots of one unit, no kept flow gains more (weak duality of flows of
/// least cost: Ford and Fulkerson, 1962).
pub fn labels_are_greatest()
    ensures { LabelsAreGreatest }
{}

/// A lot round a cycle of negative cost leaves a kept flow, which gains more by what the cycle costs: so a flow whose
/// graph has such a cycle isn't of greatest gain (cycle cancelling: Klein, 1967).
pub fn cycles_gain_what_they_cost()
    ensures { CyclesGainWhatTheyCost }
{}
