//! Markets of firms that code may ask, what a firm has to promise, and its best bundle; what an equilibrium is.
//! The definitions, of verdicts and ranges too, stand in `specs/`. Plain data is handed on from `tn_model`.
#![tactic(auto)]

mod aim;
mod ascent;
mod bundle_gain;
mod bundle_value;
mod laws;
mod levied;
mod market;
mod nodes;
mod oracle;
mod party;
mod valuation;

pub use ascent::{all_positions, best_by_ascent, best_by_ascent_from, is_best_by_step};
pub use laws::{bundles_are_listed, positions_have_one_trade};
pub use levied::Levied;
pub use market::Market;
pub use nodes::said_nodes;
pub use oracle::{MOST_OWN, MOST_WORTH, Oracle, utility_of, worth_of};
pub use party::{Outside, Party};
pub use tn_model::{
    Amounts, Arrangement, Contract, Contracts, Ends, Lent, Listed, Nodes, Outcome, Prices, Range,
    Ranges, TradeEnds, Trades, count_own, sides_of,
};
pub use valuation::Valuation;
