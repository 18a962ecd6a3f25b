//! Claims.

use crate::lists::Parts;
use tn_base::{Bundle, TradeSet};
use tn_model::{Arrangement, Contracts, Nodes, Outcome, Prices};

/// What somebody claims of a market, with the part of the document that the claim speaks of. Each claim is an answer of
/// the program. Bundles are those of the claimed firm.
#[derive(Drop)]
pub enum MarketClaim {
    /// The arrangement is an equilibrium with this surplus.
    Equilibrium {
        /// The document's arrangement.
        at: Arrangement<16>,
        /// The sum of the firms' worths.
        surplus: i128,
    },
    /// At the arrangement the firm has more by another bundle.
    Better {
        /// The document's arrangement.
        at: Arrangement<16>,
        /// The firm.
        firm: u32,
        /// The other bundle.
        bundle: Bundle,
        /// What the firm's utility gains by it.
        gain: i128,
    },
    /// The firm's bundle of the set is impossible.
    Impossible {
        /// The document's set of trades.
        on: TradeSet<16>,
        /// The firm.
        firm: u32,
    },
    /// The prices support the set.
    Supported {
        /// The document's set of trades.
        on: TradeSet<16>,
        /// The price of each trade.
        prices: Prices,
    },
    /// The nodes go round on arcs of the set's exchange graph at a negative cost.
    Cycle {
        /// The document's set of trades.
        on: TradeSet<16>,
        /// The nodes, in order.
        nodes: Nodes,
        /// The sum of the arcs' costs.
        cost: i128,
    },
    /// The arrangement is an equilibrium with this surplus.
    Solved {
        /// The claim's own arrangement.
        at: Arrangement<16>,
        /// The sum of the firms' worths.
        surplus: i128,
    },
    /// The firm has more where it keeps some of its contracts and drops the others.
    Drops {
        /// The document's outcome.
        outcome: Outcome,
        /// The firm.
        firm: u32,
        /// The bundle of the trades that it would keep.
        keeps: Bundle,
        /// What the firm's utility gains, none where its contracts together are an impossible bundle.
        gain: Option<i128>,
        /// The denominator of the gain.
        over: i128,
    },
    /// The prices complete the outcome to an equilibrium.
    Completes {
        /// The document's outcome.
        outcome: Outcome,
        /// The price of each trade.
        prices: Prices,
        /// Their denominator.
        over: i128,
    },
    /// The contracts block the outcome.
    Blocks {
        /// The document's outcome.
        outcome: Outcome,
        /// The contracts, in the claim's order.
        contracts: Contracts,
        /// Their denominator.
        over: i128,
    },
}

/// What somebody claims of firms as they are listed, whether they meet the exchange property or not. Each claim but the
/// last is an answer of the program. Bundles and positions are those of the claimed firm.
#[derive(Drop)]
pub enum FirmClaim {
    /// Every firm meets the exchange property.
    Accepted,
    /// The triple of two bundles and a position, or none, fails at the firm.
    ExchangeFails {
        /// The firm.
        firm: u32,
        /// The first bundle.
        x: Bundle,
        /// The second bundle.
        y: Bundle,
        /// The position that can't be exchanged, or none where the net count can't be.
        at: Option<u32>,
    },
    /// The plan in parts is worth more than any set of trades, so that no prices make one an equilibrium.
    NoPrices {
        /// The parts, in the claim's order.
        plan: Parts,
        /// Their denominator.
        over: i128,
    },
}
