//! Markets whose trades have units: what counts of units are worth to firms, which of them are an equilibrium, and the
//! laws that lead from the links of a market to its counts and prices.
#![tactic(auto)]

mod checks;
mod contract;
mod laws;
mod market;
mod set;
mod trade;

pub use checks::is_unit_market;
pub use contract::UnitContract;
pub use laws::{
    cycles_gain_by_counts, equilibria_by_counts_are_efficient, flows_are_counts, labels_are_prices,
    labels_make_equilibria, links_are_plain, negative_cycles_bar_equilibria,
    prices_are_least_walks,
};
pub use market::{Pin, UnitMarket};
pub use set::CountSet;
pub use trade::{UnitAmounts, UnitTrade};
