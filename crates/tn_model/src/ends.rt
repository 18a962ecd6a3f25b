//! The two ends of a trade.

/// The two ends of a trade: its seller and its buyer, by firm numbers, and the position of the trade at each.
#[derive(Clone, Copy, PartialEq, Eq)]
pub struct Ends {
    /// The firm that sells.
    pub seller: u32,
    /// The firm that buys.
    pub buyer: u32,
    /// Where the trade stands among the seller's own trades, counted from 0.
    pub at_seller: u32,
    /// Where the trade stands among the buyer's own trades, counted from 0.
    pub at_buyer: u32,
}
