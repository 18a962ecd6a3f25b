//! Contracts of several units.

/// A contract: so many units of a trade at a price, the numerator over a denominator that the contracts of a list share.
#[derive(Clone, Copy, PartialEq, Eq)]
pub struct UnitContract {
    /// The number of the trade.
    pub trade: u32,
    /// How many units.
    pub units: u32,
    /// The price of a unit.
    pub price: i128,
}
