//! What may be said of a set for which prices are wanted.

use tn_market::{Nodes, Prices};

/// What may be said of a set of trades for which prices are wanted.
#[derive(Drop)]
pub enum Support {
    /// With these prices, one for each trade, the set is an equilibrium.
    Supported {
        /// The prices by trade number.
        prices: Prices,
    },
    /// Some firm's bundle of the set is impossible.
    Impossible {
        /// The first such firm.
        firm: u32,
    },
    /// No prices support the set, since this cycle of its exchange graph is negative.
    Cycle {
        /// Its nodes, in order.
        nodes: Nodes,
        /// The sum of its arcs' costs, below 0.
        cost: i128,
    },
}
