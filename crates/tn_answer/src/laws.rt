//! Laws of the lines that answers have: how far a line tells its answer.

ghost use Rattle.tn_answer.specs.Apart.{AnswersAreToldApart};
ghost use Rattle.tn_answer.specs.Laws.{IsSayableWithinClaims, NeedsNoNames};

/// Two answers of one text in one layout over the same names, which speak of named firms and trades alone and whose
/// numbers fit 64 bits, are equal; but for a step of a fault's place that is a member in the one and a trade of the
/// same name in the other, and for what the layout doesn't tell: two answers with the same rows agree in all that the
/// columns say. An answer by trades and one by counts of units have one text only where the members that differ name no
/// trade, but that a support's object tells neither trades nor counts, and rows don't tell one unit from a trade that is
/// on.
pub fn answers_are_told_apart()
    ensures { AnswersAreToldApart }
{}

/// The text of an answer that names no firm and no trade doesn't depend on names, in any layout.
pub fn some_answers_need_no_names()
    ensures { NeedsNoNames }
{}

/// An answer whose numbers are within the limits of claims can be written.
pub fn answers_within_claims_are_sayable()
    ensures { IsSayableWithinClaims }
{}
