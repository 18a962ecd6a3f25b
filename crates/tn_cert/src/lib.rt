//! Claims decided by the definitions alone.
//! When a claim is valid, and why one isn't, stands in `specs/`.
#![tactic(auto)]

mod blocking;
mod choosing;
mod completing;
mod cycles;
mod dropping;
mod equilibria;
mod exchange;
mod gains;
mod laws;
mod least;
mod plans;
mod pool;
mod replayed;
mod replaying;
mod terms;
mod utilities;

pub use laws::{plans_bar_prices, refuted_is_not_valid};
pub use replayed::Replayed;
pub use replaying::{replay, replay_raw};
