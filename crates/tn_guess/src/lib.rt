//! Guesses at flows of least cost, and at prices for them.
//! Nothing is proved of a guess but that finding one is safe and ends: whoever takes one decides it by what is proved.
//! So reads and writes outside a list are answered and not ruled out, sums wrap, and every search has an end.
#![tactic(auto)]

mod flow;
mod labels;
mod lists;
mod simplex;
mod sketch;
mod tree;

pub use flow::{Flow, GROUND};
pub use labels::Labels;
pub use simplex::Simplex;
pub use sketch::Sketch;
