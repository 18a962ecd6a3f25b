//! The answers of the commands about firms as they are written, which needn't meet the exchange property: what each of
//! them has in an arrangement, whether it meets the property, and claims of that or that there are no prices. Which
//! answers these may be is defined in `specs/`. A command has one word for its function, its file and its definitions.
#![tactic(auto)]

mod firms;
mod found;
mod laws;
mod replay;
mod stand;
mod table;
mod test;

pub use firms::answer_firms;
pub use laws::{all_content_is_equilibrium, check_names_the_first};
pub use replay::answer_replay_raw;
pub use stand::{Stand, stand_of};
pub use test::answer_test;
