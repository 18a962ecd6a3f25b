//! The verdict on the exchange property.

use tn_base::Bundle;

/// Whether a table meets exchange.
#[derive(Clone, Copy, PartialEq, Eq)]
pub enum Verdict {
    /// No triple fails.
    Holds,
    /// The first failing triple in test order: of all triples, or of those with close bundles where a test looks at
    /// these alone.
    Fails {
        /// The first bundle.
        x: Bundle,
        /// The second bundle.
        y: Bundle,
        /// The position that can't be exchanged, or none where the net count can't be.
        at: Option<u32>,
    },
}
