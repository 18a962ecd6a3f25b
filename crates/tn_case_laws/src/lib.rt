//! That each of the twelve cases of the book has one allowed answer, the one that the book states.
//! So `cases` can't find a case that fails. Each law is the contract of a function with an empty body: calling it
//! proves nothing more, and costs nothing.
#![tactic(auto)]

mod book;

pub use book::{cases_are_passed, each_case_has_one_answer, no_case_fails};
