//! Links between nodes, whose flows gain by steps, and flows of greatest gain.
#![tactic(auto)]

mod balances;
mod checks;
mod gains;
mod guess;
mod laws;
mod light;
mod link;
mod links;
mod lists;
mod lots;
mod push;
mod searching;
mod settling;
mod shown;
mod walks;

pub use checks::{are_plain, has_steps};
pub use laws::{cycles_gain_what_they_cost, labels_are_greatest};
pub use link::{Link, Step, rise, room};
pub use links::Links;
pub use settling::{settle, settle_near};
pub use walks::{unit_labels, walks_from, walks_to};
