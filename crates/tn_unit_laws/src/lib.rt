//! Laws of trades of many units: what is said by counts is what is said of the unit network, in which each unit is a
//! trade of its own. Nothing that runs stands on it, and no unit network is ever made.
//! Each law is the contract of a function with an empty body: calling it proves nothing more, and costs nothing.
#![tactic(auto)]

mod laws;

pub use laws::{
    blocked_by_counts, blocked_by_units, completable_by_counts, completed_by_counts,
    completed_by_counts_are_stable, counts_are_of_sets, efficient_by_counts,
    equilibria_by_counts_are_equilibria, equilibria_by_counts_are_stable, exchange_by_counts,
    losses_bound_unit_prices, markets_fit_by_counts, markets_meet_exchange,
    more_surplus_bars_unit_prices, negative_cycles_bar_unit_prices, one_price_is_enough,
    rational_by_counts, stable_by_counts, twins_cost_the_same, unit_contracts_are_of_contracts,
    units_make_networks,
};
