//! Dealers: firms that match purchases one to one with sales at the least cost.
//! What each bundle is worth to one stands in `specs/`.
#![tactic(auto)]

mod as_valuation;
mod costs;
mod dealer;
mod laws;
mod outline;
mod pair;
mod repeated;
mod row;
mod search;
mod worth;

pub use dealer::Dealer;
pub use laws::dealers_match;
pub use pair::{DealerRefusal, Pair};
