//! What is said of trades with units.

use crate::lists::{UnitBundle, UnitSteps};

/// A trade with how many units of it a bundle has, at least 1.
#[derive(Clone, Copy)]
pub struct TradeUnits {
    /// The number of the trade.
    pub trade: u32,
    /// How many units.
    pub units: u32,
}

/// One unit more or one fewer of a trade: what a trade stands for in a walk of an exchange graph.
#[derive(Clone, Copy)]
pub struct UnitStep {
    /// The number of the trade.
    pub trade: u32,
    /// Whether it is one more.
    pub more: bool,
}

/// What a firm has in an arrangement of counts and what that brings it, beside a best bundle of it at these prices.
#[derive(Drop)]
pub struct UnitHolding {
    /// Its own bundle, ascending by trade.
    pub has: UnitBundle,
    /// The worth of its own bundle, none where it is impossible.
    pub worth: Option<i128>,
    /// The utility of its own bundle, none where it is impossible.
    pub utility: Option<i128>,
    /// A best bundle, ascending by trade; its own where that is best.
    pub best: UnitBundle,
    /// The utility of a best bundle.
    pub best_utility: i128,
    /// What its utility gains by a best bundle, none where its own is impossible. It is content where that is 0.
    pub gain: Option<i128>,
}

/// The prices that each unit of a trade may have: the lowest and the highest one over all equilibria, each with a walk
/// of an exchange graph that shows that no price is beyond it.
#[derive(Drop)]
pub struct UnitRange {
    /// The lowest price, none where prices go down without a bound.
    pub low: Option<i128>,
    /// The steps of a walk from the trade to the null node whose costs sum to minus the lowest price; empty where there
    /// is no lowest price.
    pub low_path: UnitSteps,
    /// The highest price, none where prices go up without a bound.
    pub high: Option<i128>,
    /// The steps of a walk from the null node to the trade whose costs sum to the highest price; empty where there is
    /// no highest price.
    pub high_path: UnitSteps,
}
