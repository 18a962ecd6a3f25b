//! Middlemen: firms that pair a purchase with a sale, or keep it.
//! What each bundle is worth to one stands in `specs/`.
#![tactic(auto)]

mod as_valuation;
mod laws;
mod middle;
mod outline;

pub use laws::middlemen_pair;
pub use middle::Middle;
