//! Tables by bundle number, and whether one meets the exchange property.
//! When the property holds, and which triples of two bundles and a position fail, stands in `tn_base`; the order of the
//! test stands in `specs/`.
#![tactic(auto)]

mod exchange;
mod laws;
mod refusal;
mod table;
mod verdict;

pub use exchange::{are_enough, fails_at, test, test_pair};
pub use laws::rows_make_the_firm;
pub use refusal::RowRefusal;
pub use table::RawTable;
pub use verdict::Verdict;
