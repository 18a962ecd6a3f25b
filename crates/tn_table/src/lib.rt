//! A table that was tested, as a firm.
//! What a table's firm is stands in `specs/`.
#![tactic(auto)]

mod as_valuation;
mod table;

pub use table::{Table, TableRefused};
