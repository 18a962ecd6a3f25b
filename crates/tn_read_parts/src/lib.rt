//! Reads the parts of a document beside its network: the arrangement, the outcome, the edits.
#![tactic(auto)]

mod arrangement;
mod edits;
mod laws;
mod lists;
mod outcome;

pub use arrangement::{read_arrangement, read_trades_on};
pub use edits::{ALL_TRADES, Change, change_named, read_edits};
pub use laws::{
    arrangements_have_their_entries, edits_have_their_entries, outcomes_have_their_entries,
};
pub use lists::{ListAt, price_of, read_prices, read_trades};
pub use outcome::{read_outcome, read_over};
