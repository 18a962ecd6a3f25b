//! Reads a whole document: head, firms and the part that its command needs.
//! The rules that a document keeps, and the order in which they are tested, stand in `specs/` here and in the crates
//! below.
#![tactic(auto)]

mod asked;
mod command;
mod document;
mod laws;
mod network;
mod read;

pub use asked::{Asked, RawAsked, UnitAsked};
pub use command::Command;
pub use document::{Content, Document, RawNet, ReadDocument};
pub use laws::{
    documents_are_networks, faults_are_sayable, readings_are_never_too_long,
    units_are_a_version_of_some,
};
pub use read::read_doc;
pub use tn_read_claims::{claims_are_within, claims_keep_limits, raw_claims_are_told};
pub use tn_read_firms::first_failures_are_first;
pub use tn_read_head::DocRefusal;
pub use tn_read_parts::{
    arrangements_have_their_entries, edits_have_their_entries, outcomes_have_their_entries,
};
