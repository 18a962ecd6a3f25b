//! The worked rows. A row has three lines: the words, a document, and the exit status with the text without its line
//! end. `..` stands there for what may differ, and `3~5` for a price from 3 to 5, as outside the program was worked
//! out.

pub(crate) mod answers;
pub(crate) mod claims;
pub(crate) mod faults;
pub(crate) mod layouts;
pub(crate) mod parts;
pub(crate) mod runs;
pub(crate) mod units;
