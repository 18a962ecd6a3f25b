//! The answers of the commands to documents whose trades have units.
#![tactic(auto)]

mod bundles;
mod check;
mod firms;
mod judged;
mod range;
mod session;
mod solve;
mod steps;
mod support;

pub use check::answer_unit_check;
pub use firms::answer_unit_firms;
pub use range::answer_unit_range;
pub use session::answer_unit_session;
pub use solve::answer_unit_solve;
pub use support::answer_unit_support;
