//! The head of a document, which readers of its parts take; reads references to trades and own trades, and entries with
//! a number. What a head keeps, and the lists of references and of entries, stand in `specs/`.
#![tactic(auto)]

mod head;
mod own_lists;
mod references;

pub use head::Head;
pub use own_lists::{OwnPart, PartAt, own_bundle};
pub use references::{firm, new_trade, own_position, trade};
pub use tn_model::{count_own, sides_of};
