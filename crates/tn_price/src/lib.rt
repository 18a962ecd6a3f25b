//! Prices judged, and prices found for a set of trades.
//! What an equilibrium is stands in `tn_market`; what is said of one, in `specs/`.
#![tactic(auto)]

mod bundle;
mod check;
mod content;
mod firm;
mod firm_verdict;
mod judge;
mod supported;
mod supporting;
mod surplus;

pub use bundle::trades_in;
pub use check::Check;
pub use content::is_equilibrium;
pub use firm::greatest;
pub use judge::{judge_arrangement, judge_at, own_prices};
pub use supported::Support;
pub use supporting::{first_unable, support};
pub use surplus::{surplus_of, worth_at};
