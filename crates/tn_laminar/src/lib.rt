//! Laminar firms: amounts, and concave functions of net counts over nested sets of trades.
//! Capacities, groups and decreasing returns are such sets. The firm that it is, and what is wrong with sets that are
//! refused, stands in `specs/`.
#![tactic(auto)]

mod as_valuation;
mod faults;
mod laminar;
mod masks;
mod outline;
mod refusal;
mod row;
mod set;

pub use laminar::Laminar;
pub use refusal::LaminarRefusal;
pub use set::LaminarSet;
