//! Chains of contracts that block an outcome.
//! They are found on the exchange graph of the outcome's reduced worths.
#![tactic(auto)]

mod chain;
mod cycle;
mod graph;
mod kept;
mod numbers;

pub use chain::{chain_of, chain_scale};
pub use graph::reduced_graph;
