//! That every answer replays: put into its document as the claim, it is read as one and is valid.
//! Each law is the contract of a function with an empty body: calling it proves nothing more, and costs nothing.
#![tactic(auto)]

mod laws;

pub use laws::{
    answers_fit_claims, answers_replay, judgements_replay, lines_are_read, solutions_replay,
    supports_replay, tests_replay, verdicts_replay,
};
