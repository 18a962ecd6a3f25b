//! The book of cases that the program runs on itself.
#![tactic(auto)]

mod case;
mod shipped;

pub use case::{Case, CaseBook};
pub use shipped::book;
