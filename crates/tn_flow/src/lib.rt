//! The solver: an equilibrium of any market, or of the market that some of its trades make.
#![tactic(auto)]

mod rounds;
mod solver;

pub use rounds::Rounds;
pub use solver::Solver;
