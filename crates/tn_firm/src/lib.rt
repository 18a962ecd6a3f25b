//! One type over the four kinds of firms, and firms that weren't tested yet.
//! Which firm a value is stands in `specs/`.
#![tactic(auto)]

mod raw;
mod value;

pub use raw::RawFirm;
pub use value::FirmValue;
