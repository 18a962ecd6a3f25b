//! How far each price may move over all equilibria.
//! What the lowest and the highest price of a trade are stands in `tn_market`.
#![tactic(auto)]

mod bounds;
mod ranges;

pub use ranges::range;
