//! What a firm has in an arrangement.

use tn_model::Trades;

/// What a firm has in an arrangement and what that brings it, beside a best bundle of it at these prices.
#[derive(Drop)]
pub struct Holding {
    /// The trades of its own bundle, ascending.
    pub has: Trades,
    /// The worth of its own bundle, none where it is impossible.
    pub worth: Option<i128>,
    /// The utility of its own bundle, none where it is impossible.
    pub utility: Option<i128>,
    /// The trades of a best bundle, ascending; of its own where that is best.
    pub best: Trades,
    /// The utility of a best bundle.
    pub best_utility: i128,
    /// What its utility gains by a best bundle, none where its own is impossible. It is content where that is 0.
    pub gain: Option<i128>,
}
