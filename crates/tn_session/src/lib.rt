//! Sessions: trades are admitted and barred, and after each edit there is an equilibrium of the admitted ones.
//!
//! Admitting a trade is one round of the solver. Barring one that is on is a round backward: the set is toggled along a
//! least cycle of the exchange graph through the trade, whatever it costs. Labels go on from edit to edit.
#![tactic(auto)]

mod barring;
mod moving;
mod session;

pub use session::Session;
