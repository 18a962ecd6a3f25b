//! Parts of a plan.

use tn_base::Bundle;

/// A bundle of a firm with its weight: a numerator over the denominator of the plan that the part stands in.
#[derive(Clone, Copy)]
pub struct Part {
    /// The firm.
    pub firm: u32,
    /// The bundle, by the firm's positions.
    pub bundle: Bundle,
    /// The numerator, at least 1.
    pub weight: i128,
}
