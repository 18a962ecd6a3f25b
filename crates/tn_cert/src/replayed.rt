//! What the replay of a claim says.

use tn_said::Reason;

/// What the replay of a claim says.
#[derive(Drop)]
pub enum Replayed {
    /// Each condition of the claim holds.
    Valid,
    /// This is the first of its conditions that fails.
    Invalid(Reason),
}
