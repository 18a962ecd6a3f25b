//! What the answers for documents whose trades have units say of the unit network, in which each unit is a trade of its
//! own. Nothing that runs stands on it.
//! Each law is the contract of a function with an empty body: calling it proves nothing more, and costs nothing.
#![tactic(auto)]

mod laws;

pub use laws::{
    answers_are_stable_units, answers_bar_unit_prices, documents_make_unit_networks,
    documents_meet_exchange, ranges_are_of_units, runs_speak_of_units,
};
