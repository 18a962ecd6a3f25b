//! The answers of the commands to a market, and to what is asked of it.
//! Which answers a command may give is defined in `specs/`. A command has one word for its function, its file and its
//! definitions.
#![tactic(auto)]

mod check;
mod drill;
mod guessing;
mod judge;
mod laws;
mod range;
mod replay;
mod session;
mod solve;
mod support;

pub use check::answer_check;
pub use drill::answer_drill;
pub use guessing::{decided, guess};
pub use judge::answer_judge;
pub use laws::firms_away_have_nothing;
pub use range::answer_range;
pub use replay::answer_replay;
pub use session::answer_session;
pub use solve::answer_solve;
pub use support::answer_support;
