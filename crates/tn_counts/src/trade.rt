//! Trades of many units.

/// A trade of many units: its seller and its buyer, by firm numbers, and how many units may go.
#[derive(Clone, Copy, PartialEq, Eq)]
pub struct UnitTrade {
    /// The firm that sells.
    pub seller: u32,
    /// The firm that buys.
    pub buyer: u32,
    /// How many units there are.
    pub units: u32,
}

/// What a unit of a trade adds to the worth of its two firms, before their sets.
#[derive(Clone, Copy, PartialEq, Eq)]
pub struct UnitAmounts {
    /// What it adds to the seller's worth.
    pub seller: i64,
    /// What it adds to the buyer's worth.
    pub buyer: i64,
}
