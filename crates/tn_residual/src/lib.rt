//! What the unsigned trades of an outcome are worth to its firms, and the market that they make.
#![tactic(auto)]

mod halves;
mod laws;
mod parties;
mod residual_market;
mod signed;
mod worth;

pub use laws::surplus_is_reduced_worth;
pub use residual_market::residual;
pub use signed::{Held, contract_price, signed_by, signed_trades};
pub use worth::{reduced_best, reduced_best_beside};
