//! The verdict on an outcome.
//! It is a firm that would drop contracts, prices that complete the outcome, or a chain that blocks it.
#![tactic(auto)]

mod completing;
mod drops;
mod fixed;
mod judging;

pub use judging::{Judged, judge};
