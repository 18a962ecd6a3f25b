//! A law of several shifts at once.

ghost use Rattle.tn_firm_laws.specs.Laws.{OrderedShiftsKeepBest};

/// Ordered exchange: from a best bundle, several tight shifts may be made together where none of an earlier raise with
/// a later lowering is tight too. So a cycle of the exchange graph without a shortcut keeps each firm's bundle best (as
/// in Murota, Discrete Convex Analysis, 2003, on unique minimum matchings in exchange graphs; Candogan, Epitropou and
/// Vohra, 2021).
pub fn ordered_shifts_keep_best()
    ensures { OrderedShiftsKeepBest }
{}
