//! A bundle that a search found.

use tn_base::Bundle;

/// A bundle with its utility.
#[derive(Clone, Copy)]
pub struct Found {
    pub bundle: Bundle,
    pub value: i128,
}
