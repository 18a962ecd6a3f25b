//! Markets of laminar firms, whose trades have units.

use crate::set::CountSet;
use crate::trade::{UnitAmounts, UnitTrade};

/// A market of so many laminar firms, whose trades have units. The sets of all firms stand in one list, and of two sets
/// of a firm that share a trade the later one has all trades of the earlier.
#[derive(Drop)]
pub struct UnitMarket {
    /// How many firms there are.
    pub firms: u32,
    pub trades: Vec<UnitTrade>,
    /// The amounts of each trade.
    pub amounts: Vec<UnitAmounts>,
    /// The sets of all firms.
    pub sets: Vec<CountSet>,
}

/// A trade whose price is given, so that each of its two firms takes as many units as it likes.
#[derive(Clone, Copy, PartialEq, Eq)]
pub struct Pin {
    /// The number of the trade.
    pub trade: u32,
    /// The price of a unit.
    pub price: i64,
}
