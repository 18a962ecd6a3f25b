//! Outcomes of markets whose trades have units: which firm would drop contracts, which prices
//! complete them, and which offers block them.
#![tactic(auto)]

mod blocks;
mod completions;
mod contracts;
mod drops;
mod judge;
mod lists;
mod split;

pub use completions::{UnitCompletion, completion};
pub use contracts::are_served_contracts;
pub use drops::{UnitDrop, first_drop};
pub use judge::{UnitVerdict, judge_outcome};
