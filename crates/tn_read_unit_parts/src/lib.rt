//! Reads the parts of a document whose trades have units that a command speaks of.
#![tactic(auto)]

mod arrangement;
mod edits;
mod entries;

pub use arrangement::{UnitArrangement, read_counts_on, read_unit_arrangement};
pub use edits::read_unit_edits;
pub use entries::EntryNumbers;
