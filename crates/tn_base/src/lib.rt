//! Bundles and sets of trades as sets, counted steps; what a firm and the exchange property are.
#![tactic(auto)]

mod bundle;
mod costs;
mod laws;
mod memory;
mod side;
mod steps;
mod trade_set;

pub use bundle::Bundle;
pub use costs::Costs;
pub use laws::{
    bundles_are_sets, exchange_is_what_no_triple_fails, sets_are_counted_and_summed,
    tables_are_firms,
};
pub use memory::OutOfMemory;
pub use side::{Side, purchases};
pub use steps::{Asked, Steps};
pub use trade_set::TradeSet;
