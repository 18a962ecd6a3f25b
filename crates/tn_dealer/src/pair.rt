//! Pairs of a purchase and a sale.

use thiserror::Error;

/// A purchase that may be sold on as a sale, both by position, and what that costs.
#[derive(Clone, Copy)]
pub struct Pair {
    /// The position of the purchase.
    pub buy: u32,
    /// The position of the sale.
    pub sell: u32,
    /// What it costs to sell this purchase as this sale.
    pub cost: i128,
}

/// Why pairs make no dealer.
#[derive(Clone, Copy, Debug, Drop, PartialEq, Eq, Error)]
pub enum DealerRefusal {
    /// A pair has the purchase and the sale of an earlier one.
    #[error("pair {index} has the purchase and the sale of an earlier one")]
    SamePair {
        /// The first such pair, counted from 0.
        index: u32,
    },
    /// Memory ran out.
    #[error("out of memory")]
    OutOfMemory,
}
