//! What the pages on formats promise beyond single runs: within the limits of several versions a document has the same
//! answers in all of them, and an answer is one line, or a line for each row.
//! Each law is the contract of a function with an empty body: calling it proves nothing more, and costs nothing.
#![tactic(auto)]

mod lines;
mod versions;

pub use lines::{answers_are_one_line, rows_are_lines};
pub use versions::{answers_are_those_of_each_version, readings_meet_but_for_limits};
