//! Ranges of prices.

use crate::lists::Nodes;

/// The prices that a trade may have: the lowest and the highest one over all equilibria, each with a path of an
/// exchange graph that shows that no price is beyond it.
#[derive(Drop)]
pub struct Range {
    /// The lowest price, none where prices go down without a bound.
    pub low: Option<i128>,
    /// The nodes of a path from the trade to the null node whose costs sum to minus the lowest price; empty where there
    /// is no lowest price.
    pub low_path: Nodes,
    /// The highest price, none where prices go up without a bound.
    pub high: Option<i128>,
    /// The nodes of a path from the null node to the trade whose costs sum to the highest price; empty where there is
    /// no highest price.
    pub high_path: Nodes,
}
