//! Reads the head of a document: the limits of its version, names, and the ends of its trades.
#![tactic(auto)]

mod counts;
mod listing;
mod names;
mod refusal;
mod trades;

pub use listing::read_head;
pub use names::{name, read_firm_names};
pub use refusal::DocRefusal;
