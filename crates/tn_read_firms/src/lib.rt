//! Reads the firms of a document, by their kinds.
#![tactic(auto)]

mod dealers;
mod failures;
mod firms;
mod kinds;
mod laminars;
mod laws;
mod made;
mod middlemen;
mod own_numbers;
mod rows;

pub use failures::own_option;
pub use firms::read_firms;
pub use laws::first_failures_are_first;
pub use made::FromKinds;
