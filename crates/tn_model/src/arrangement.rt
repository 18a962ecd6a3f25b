//! Arrangements: trades that are on, with prices.

use crate::lists::Prices;
use tn_base::TradeSet;

/// A set of trades with a price for each trade of the market, those outside the set too.
#[derive(Drop)]
pub struct Arrangement<const W: usize> {
    /// The trades that are on.
    pub on: TradeSet<W>,
    /// The prices by trade number.
    pub prices: Prices,
}
