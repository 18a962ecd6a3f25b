//! What may be said of an arrangement.

use tn_base::Bundle;

/// What may be said of an arrangement.
#[derive(Clone, Copy)]
pub enum Check {
    /// Each firm's bundle is best.
    Equilibrium {
        /// The sum of the firms' worths.
        surplus: i128,
    },
    /// The firm's bundle is impossible.
    Impossible {
        /// The first firm whose bundle isn't best.
        firm: u32,
    },
    /// The firm's bundle is possible and not best.
    Better {
        /// The first firm whose bundle isn't best.
        firm: u32,
        /// A best bundle.
        bundle: Bundle,
        /// Its utility minus that of the firm's own bundle.
        gain: i128,
    },
}
