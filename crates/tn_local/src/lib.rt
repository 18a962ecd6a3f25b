//! The exchange test of tables whose every bundle is possible: by two and three trades at a time.
//! That close bundles decide, and four places at a time with them, are laws of `tn_firm_laws`; a firm's first
//! triple stands in `specs/`.
#![tactic(auto)]

mod local;
mod quads;
mod verdict;
mod walk;

pub use local::local_test;
pub use verdict::test_table;
