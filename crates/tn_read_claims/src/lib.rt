//! Reads the claim of a document, with the part of the document that it speaks of.
//! Which value is which claim, and in which order its parts are tested, stands in `specs/`.
#![tactic(auto)]

mod claim;
mod contracts;
mod kinds;
mod laws;
mod members;
mod nodes;
mod plan;

pub use claim::{named_claim, read_firm_claim, read_market_claim};
pub use laws::{claims_are_within, claims_keep_limits, faults_of_claims, raw_claims_are_told};
