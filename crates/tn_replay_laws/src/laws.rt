//! Laws of replay: every answer is valid as a claim of its document.

ghost use Rattle.tn_replay_laws.specs.Fits.{AnswersFitClaims};
ghost use Rattle.tn_replay_laws.specs.Laws.{JudgementsReplay, SolutionsReplay, SupportsReplay, TestsReplay, VerdictsReplay};
ghost use Rattle.tn_replay_laws.specs.Lines.{LinesAreRead};
ghost use Rattle.tn_replay_laws.specs.Runs.{AnswersReplay};

use tn_cert::refuted_is_not_valid;

/// Whatever the program answers has numbers that a claim may have.
pub fn answers_fit_claims()
    ensures { AnswersFitClaims }
{}

/// The line that is written for an answer that may be a claim is JSON, and is read as the value that the laws of this
/// crate put into the document.
pub fn lines_are_read()
    ensures { LinesAreRead }
{}

/// Every answer of `check` replays: put into its document as the claim, it is read as a claim on the same network and
/// is valid. It says that the arrangement is an equilibrium, or which firm has a better bundle or an impossible one.
pub fn verdicts_replay()
    ensures { VerdictsReplay }
{}

/// Every answer of `test` replays: that all firms are accepted, and a failing triple. It has no number that would have
/// to keep a limit.
pub fn tests_replay()
    ensures { TestsReplay }
{}

/// Every answer of `support` replays: prices, a negative cycle, and an impossible bundle. A cycle names no node twice,
/// so it has at most one node more than the document has trades, as many as a claim on a document of its version may
/// have.
pub fn supports_replay()
    ensures { SupportsReplay }
{}

/// Every answer of `solve` as JSON replays: the claim's trades are those of the answer, with the same equilibrium and
/// the same surplus.
pub fn solutions_replay()
    ensures { SolutionsReplay }
{}

/// Every answer of `judge` replays: contracts that a firm would drop, prices that complete the outcome, and a chain
/// that blocks it. The denominator of a chain is the outcome's times twice the number of unsigned trades and one, and
/// the limits of each version let a claim have one so large.
pub fn judgements_replay()
    ensures { JudgementsReplay }
{}

/// Every answer of `check`, `judge`, `solve`, `support` and `test` replays. Whatever bytes stand for its document with
/// the answer put into it as the claim, in place of any other: `replay` reads them as the same network, answers that
/// the claim is valid, and may answer nothing else. The answer's numbers have to be within the limits of claims, as
/// those of all answers are that the program gives.
pub fn answers_replay()
    ensures { AnswersReplay }
{
    refuted_is_not_valid();
}
