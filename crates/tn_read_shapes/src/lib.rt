//! Shapes of values in a document, members of its objects, places of faults; reading up to the first fault.
//! Which value has which shape, and what reading in order is, stands in `specs/`.
#![tactic(auto)]

mod claims;
mod error;
mod members;
mod shapes;
mod words;

pub use claims::{ClaimKind, FirmClaimKind, MarketClaimKind, claim_named};
pub use error::ReadError;
pub use members::{FirmKind, ObjectKind, member};
pub use shapes::{
    fault, few, found, list, number, object, object_of, optional_list, present, require, text,
    three, two, whole,
};
pub use words::value_of_word;
