//! Laws of one firm that meets exchange: what keeps it, local to global, ordered exchange, nested sets.
//! Each law is the contract of a function with an empty body: calling it proves nothing more, and costs nothing.
#![tactic(auto)]

mod additive;
mod close;
mod kept;
mod labels;
mod local;
mod nested;
mod ordered;
mod places;
mod quads;

pub use additive::exchange_of_additive_firms;
pub use close::close_pairs_decide;
pub use kept::{exchange_among, exchange_of_priced_firms};
pub use labels::numbers_keep_arcs;
pub use local::{local_is_global, locally_best_is_best};
pub use nested::{exchange_of_nested_sums, listed_numbers_are_concave};
pub use ordered::ordered_shifts_keep_best;
pub use places::{bundles_have_places, exchange_over_places, null_is_net_count};
pub use quads::quads_decide;
