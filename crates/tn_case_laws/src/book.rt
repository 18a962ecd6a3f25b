//! Laws of the book of cases: each case has one allowed answer.

ghost use Rattle.tn_case_laws.specs.Laws.{CasesArePassed, EachCaseHasOneAnswer, NoCaseFails};

/// Of each case of the book the stated status and text are allowed by the definitions, and no others are: its document
/// is read, the definition of its command holds of one answer alone, and the line of that answer is the stated text.
pub fn each_case_has_one_answer()
    ensures { EachCaseHasOneAnswer }
{}

/// A list of numbers is one of the cases that failed, by its definition, only where it is empty.
pub fn no_case_fails()
    ensures { NoCaseFails }
{}

/// All that `cases` may say is that memory ran out, or that none of its 12 cases failed.
pub fn cases_are_passed()
    ensures { CasesArePassed }
{}
