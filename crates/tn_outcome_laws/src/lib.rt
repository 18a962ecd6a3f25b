//! Laws of outcomes: which are individually rational, which prices complete, and what reduced worths are.
//! Each law is the contract of a function with an empty body: calling it proves nothing more, and costs nothing.
#![tactic(auto)]

mod completion;
mod rational;
mod reduced;

pub use completion::{
    completed_outcomes_are_rational, completed_outcomes_are_stable, completion_is_fixed_labels,
    completion_is_labels,
};
pub use rational::rational_by_bundles;
pub use reduced::{numbers_leave_no_more, reduced_arcs_are_unsigned, reduced_worths_are_greatest};
