//! A bundle with its value.

use tn_base::Bundle;

/// A possible bundle with its value.
#[derive(Clone, Copy)]
pub struct BundleValue {
    pub bundle: Bundle,
    pub value: i128,
}
