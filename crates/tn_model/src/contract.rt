//! Contracts and outcomes.

use crate::lists::Contracts;

/// A trade at a price, which is a numerator over the denominator of the list that the contract stands in.
#[derive(Clone, Copy)]
pub struct Contract {
    /// The number of the trade.
    pub trade: u32,
    /// The numerator of the price.
    pub price: i128,
}

/// Contracts over one denominator, ascending by trade, with no trade twice.
#[derive(Drop)]
pub struct Outcome {
    /// The denominator, at least 1.
    pub over: i128,
    /// The contracts.
    pub contracts: Contracts,
}
