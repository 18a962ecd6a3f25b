//! Networks that are drawn from two numbers.
//! What is drawn stands in `specs/`.
#![tactic(auto)]

mod draws;
mod firms;
mod network;

pub use network::drill;
