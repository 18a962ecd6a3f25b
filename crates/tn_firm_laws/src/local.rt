//! Laws of local search: locally best is best.

ghost use Rattle.tn_firm_laws.specs.Laws.{LocalIsGlobal, LocallyBestIsBest};

/// A possible bundle that no single toggle and no pair of toggles improves has the greatest worth: what a steepest
/// ascent may stop at (Murota, Discrete Convex Analysis, 2003, on local and global optimality of M-natural concave
/// functions).
pub fn locally_best_is_best()
    ensures { LocallyBestIsBest }
{}

/// Local to global: at any prices a bundle is best exactly where no single toggle and no pair of one raising and one
/// lowering toggle has more utility (the single improvement property of full substitutes: Hatfield, Kominers,
/// Nichifor, Ostrovsky and Westkamp, 2013; Candogan, Epitropou and Vohra, 2021).
pub fn local_is_global()
    ensures { LocalIsGlobal }
{}
