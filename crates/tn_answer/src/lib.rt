//! The text that is written for each answer, in each layout.
//! Which text each answer has, and how far a text tells its answer, stands in `specs/`.
#![tactic(auto)]

mod arrays;
mod cells;
mod counts;
mod fields;
mod holdings;
mod laws;
mod layout;
mod pages;
mod ranges;
mod reasons;
mod rows;
mod states;
mod tables;
mod text;
mod topics;
mod values;
mod words;

pub use laws::{
    answers_are_told_apart, answers_within_claims_are_sayable, some_answers_need_no_names,
};
pub use layout::Layout;
pub use pages::page_text;
pub use text::{answer_text, no_memory_text, read_fault_text, usage_text};
pub use tn_names::{Names, is_name};
