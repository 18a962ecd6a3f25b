//! Laws of what firms have: content firms are an equilibrium.

ghost use Rattle.tn_raw_answers.specs.Laws.{AllContentIsEquilibrium, CheckNamesTheFirst};

/// All firms are content exactly where the arrangement is an equilibrium, whether the firms meet exchange or not.
pub fn all_content_is_equilibrium()
    ensures { AllContentIsEquilibrium }
{}

/// What `check` says of the arrangement: an equilibrium where all firms are content, and otherwise the first that
/// isn't.
pub fn check_names_the_first()
    ensures { CheckNamesTheFirst }
{}
