//! The exchange graph of a market at a set of trades, as a block of costs for each firm.
//! It is read from the firms' worths, and read again only where a firm's bundle has changed.
#![tactic(auto)]

mod graph;
mod places;
mod reading;
mod spot;
mod stand;

pub use graph::Graph;
