//! Sources that are read and sinks that are written: in memory, in memory with failures, over std.
#![tactic(auto)]

mod lines;
mod memory;
mod reading;
mod sink;
mod source;
mod standard;
mod steady;
mod writing;

pub use lines::{LineReader, LineStop};
pub use memory::{MemorySink, MemorySource};
pub use reading::{ReadStop, read_all};
pub use sink::{Sink, WriteFailed};
pub use source::{ReadFailed, Source};
pub use standard::{StdSink, StdSource};
pub use steady::{SteadySink, SteadySource};
pub use writing::write_all;
