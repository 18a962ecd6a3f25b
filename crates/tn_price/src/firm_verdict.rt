//! How a firm stands with its bundle.

use tn_base::Bundle;

/// How a firm stands with its bundle.
#[derive(Clone, Copy)]
pub enum FirmVerdict {
    /// The bundle is best, with this worth.
    Best(i128),
    /// The bundle is impossible.
    Impossible,
    /// The other bundle is best, and has more by the gain.
    Bettered(Bundle, i128),
}
