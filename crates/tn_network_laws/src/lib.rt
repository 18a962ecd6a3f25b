//! Laws of networks: efficient, stable, prices and arcs, how far prices go, one cycle for each trade.
//! Each law is the contract of a function with an empty body: calling it proves nothing more, and costs nothing.
#![tactic(auto)]

mod bounds;
mod rounds;
mod stability;
mod support;
mod welfare;

pub use bounds::{efficient_sets_share_prices, price_bounds_are_distances};
pub use rounds::{one_cycle_bars_a_trade, one_cycle_for_each_trade};
pub use stability::equilibria_are_stable;
pub use support::{labels_are_supports, negative_cycles_forbid_supports, supports_keep_arcs};
pub use welfare::equilibria_are_efficient;
