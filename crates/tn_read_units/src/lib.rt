//! Reads documents whose trades have units, and whose firms are laminar.
#![tactic(auto)]

mod amounts;
mod checks;
mod counts;
mod firms;
mod head;
mod laws;
mod market;
mod own;
mod sets;
mod steps;
mod trades;

pub use amounts::{Amount, OwnAmounts};
pub use firms::{UnitDocument, WrittenFirm, read_unit_document};
pub use head::{UnitHead, read_unit_head};
pub use laws::{
    markets_say_their_documents, unit_documents_are_named, unit_documents_are_networks,
    unit_faults_are_sayable,
};
pub use market::market_of;
pub use own::Members;
pub use sets::{SetNumbers, WrittenSet};
pub use steps::SetAt;
