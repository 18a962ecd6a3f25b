//! Laminar markets whose trades have units, as links: their equilibria, and best counts at given prices.
#![tactic(auto)]

mod around;
mod beside;
mod best;
mod build;
mod flow;
mod held;
mod nets;
mod pinned;
mod range;
mod settled;
mod solve;
mod steps;
mod support;
mod surplus;
mod worths;

pub use beside::{SettledBeside, settle_beside};
pub use best::{BestCounts, best_counts};
pub use held::{FirmCount, HeldCounts, hold_counts, hold_wide};
pub use pinned::{PinnedSupport, support_beside};
pub use range::{UnitRange, UnitRanges, range_market};
pub use solve::{Solved, solve_market};
pub use steps::UnitStep;
pub use support::{UnitSupport, support_counts};
pub use surplus::surplus_of;
