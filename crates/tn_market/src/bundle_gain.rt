//! A bundle with its gain.

use tn_base::Bundle;

/// A bundle with the sum of the gains of its positions.
#[derive(Clone, Copy)]
pub struct BundleGain {
    pub bundle: Bundle,
    pub gain: i128,
}
