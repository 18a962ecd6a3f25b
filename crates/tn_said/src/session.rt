//! Edits of a session, and the states after them.

use crate::lists::UnitBundle;
use tn_model::{Contracts, Trades};

/// A change of the trades that a market admits, or of the firms that are there. A trade may be on where it is admitted
/// and both its firms are there.
#[derive(Clone, Copy)]
pub enum Edit {
    /// The trade with this number is admitted.
    Admit(u32),
    /// The trade with this number isn't admitted any longer.
    Bar(u32),
    /// Every trade is admitted.
    AdmitAll,
    /// No trade is admitted any longer.
    BarAll,
    /// The firm with this number goes away.
    Leave(u32),
    /// The firm with this number is there.
    Join(u32),
}

/// An equilibrium of the market that the usable trades make.
#[derive(Drop)]
pub struct State {
    /// The trades that are on, ascending.
    pub on: Trades,
    /// The usable trades at their prices, ascending.
    pub prices: Contracts,
    /// The sum of the firms' worths.
    pub surplus: i128,
}

/// A change of the units of trades that a market admits, or of the firms that are there. So many units of a trade may
/// go as are admitted, where both its firms are there.
#[derive(Clone, Copy)]
pub enum UnitEdit {
    /// So many units of a trade are admitted.
    Admit {
        /// The number of the trade.
        trade: u32,
        /// How many units, 0 where it is barred.
        units: u32,
    },
    /// All units of every trade are admitted.
    AdmitAll,
    /// No unit of any trade is admitted any longer.
    BarAll,
    /// The firm with this number goes away.
    Leave(u32),
    /// The firm with this number is there.
    Join(u32),
}

/// An equilibrium of the market that the usable units of trades make.
#[derive(Drop)]
pub struct UnitState {
    /// How many units of each trade go, ascending by trade.
    pub on: UnitBundle,
    /// The trades with a usable unit at the prices of a unit, ascending.
    pub prices: Contracts,
    /// The sum of the firms' worths.
    pub surplus: i128,
}
