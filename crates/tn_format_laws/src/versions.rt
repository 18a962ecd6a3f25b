//! Laws of versions: what a document is, and what is answered, in two of them.

ghost use Rattle.tn_format_laws.specs.Versions.{ReadingsMeetButForLimits};
ghost use Rattle.tn_format_laws.specs.Runs.{AnswersAreThoseOfEachVersion};

/// A document is read in two versions as the same one, or has the same first fault in both beside the same names;
/// unless in one of them reading stops at a limit, at too many of something or at a number that is too large.
pub fn readings_meet_but_for_limits()
    ensures { ReadingsMeetButForLimits }
{}

/// A document that stops at no limit in two versions has the same answers in both, whatever the command: what the
/// definitions allow in the one they allow in the other, over the same names.
pub fn answers_are_those_of_each_version()
    ensures { AnswersAreThoseOfEachVersion }
{}
