//! The names of a document's firms and trades, and the rule for a name.
//! Which faults speak of named trades alone stands in `specs/`.
#![tactic(auto)]

mod name_list;
mod names;
mod rule;

pub use names::Names;
pub use rule::is_name;
