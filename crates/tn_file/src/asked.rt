//! What is asked about a network, with the part of the document that this speaks of.

use tn_base::TradeSet;
use tn_market::{Arrangement, Outcome};
use tn_read_unit_parts::UnitArrangement;
use tn_said::{Edits, FirmClaim, MarketClaim, UnitEdits};

/// What is asked about firms that meet exchange, by its command.
#[derive(Drop)]
pub enum Asked {
    /// Whether the arrangement is an equilibrium.
    Check(Arrangement<16>),
    /// The verdict on the outcome.
    Judge(Outcome),
    /// How far each price may move.
    Range,
    /// Whether the claim is so.
    Replay(MarketClaim),
    /// An equilibrium after each of the edits.
    Session(Edits),
    /// An equilibrium.
    Solve,
    /// Prices for the trades that are on.
    Support(TradeSet<16>),
}

/// What is asked about firms as they are listed, by its command.
#[derive(Drop)]
pub enum RawAsked {
    /// What each firm has in the arrangement.
    Firms(Arrangement<16>),
    /// Whether the claim is so.
    Replay(FirmClaim),
    /// Whether they meet exchange.
    Test,
}

/// What is asked about firms by counts, of a document whose trades have units, by its command.
#[derive(Drop)]
pub enum UnitAsked {
    /// Whether the counts and prices are an equilibrium.
    Check(UnitArrangement),
    /// What each firm has at these counts and prices.
    Firms(UnitArrangement),
    /// How far each price may move.
    Range,
    /// An equilibrium after each of the edits.
    Session(UnitEdits),
    /// An equilibrium.
    Solve,
    /// Prices for these counts, by trade number.
    Support(Vec<u32>),
    /// Whether they meet exchange.
    Test,
}
