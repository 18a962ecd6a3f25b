//! Why sets make no laminar firm.

use thiserror::Error;

/// Why sets make no laminar firm. Sets are tested in order, each for the first three causes in their order.
#[derive(Clone, Copy, Debug, Drop, PartialEq, Eq, Error)]
pub enum LaminarRefusal {
    /// The set has no number at the net count 0, so the empty bundle would be impossible.
    #[error("set {set} has no number at 0")]
    NoEmpty {
        /// The set, counted from 0.
        set: u32,
    },
    /// The number at the place is below the middle of its two neighbours.
    #[error("the number at place {place} of set {set} is below the middle of its neighbours")]
    NotConcave {
        /// The set, counted from 0.
        set: u32,
        /// The first such place in its numbers, counted from 0.
        place: u32,
    },
    /// The set and an earlier one cross: they have a trade in common, and neither contains the other.
    #[error("set {set} crosses an earlier one")]
    NotLaminar {
        /// The set, counted from 0.
        set: u32,
    },
    /// Memory ran out.
    #[error("out of memory")]
    OutOfMemory,
}
