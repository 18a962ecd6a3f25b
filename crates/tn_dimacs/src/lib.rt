//! Circulations of least cost: what problems in the form of DIMACS ask for, and how they are read.
#![tactic(auto)]

mod least;
mod problem;
mod reading;

pub use least::{Answer, least_cost};
pub use problem::{Arc, Problem};
pub use reading::{Fault, Refusal, read};
