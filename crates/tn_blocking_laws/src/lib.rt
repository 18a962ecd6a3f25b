//! Laws of contracts that block an outcome: an equilibrium of its unsigned trades under a tax.
//! Each law is the contract of a function with an empty body: calling it proves nothing more, and costs nothing.
#![tactic(auto)]

mod laws;

pub use laws::{all_on_block, none_on_is_no_cycle, some_on_is_cycle};
