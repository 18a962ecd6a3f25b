//! What a network is, as plain data: ends of trades, contracts, outcomes, arrangements, ranges of prices, and limits.
//! The definitions stand in `specs/`: networks, contracts and choices, limits of documents and of outcomes.
#![tactic(auto)]

mod arrangement;
mod contract;
mod ends;
mod limits;
mod lists;
mod positions;
mod range;
mod sides;

pub use arrangement::Arrangement;
pub use contract::{Contract, Outcome};
pub use ends::Ends;
pub use limits::Limits;
pub use lists::{Amounts, Contracts, Lent, Listed, Nodes, Prices, Ranges, TradeEnds, Trades};
pub use positions::{bundle_of, own, trades_of};
pub use range::Range;
pub use sides::{count_own, sides_of};
