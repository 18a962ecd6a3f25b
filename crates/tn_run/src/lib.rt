//! The top call: the words of the program, what it reads, what it answers and what it writes.
#![tactic(auto)]

mod answer;
mod casing;
mod command;
mod exit;
mod lines;
mod numbers;
mod request;
mod status;
mod top;

pub use casing::run_cases;
pub use exit::run_to_exit;
pub use request::{Request, request_of};
pub use status::Status;
pub use top::{Run, run_market, run_steadily};
