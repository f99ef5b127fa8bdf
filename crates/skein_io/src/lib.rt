//! Sources and sinks of bytes: what a read takes, what a write appends, and how often either failed.
//!
//! `read_all` and `write_all` work over every source and sink. `MemorySource` and `MemorySink` tell
//! their bytes and fail on the calls that they are told; `StdStream` is the edge to the system's
//! streams and tells none.
#![tactic(auto)]

mod calls;
mod memory_sink;
mod memory_source;
mod reading;
mod sink;
mod source;
mod std_stream;
mod writing;

pub use memory_sink::MemorySink;
pub use memory_source::MemorySource;
pub use reading::{ReadAll, read_all};
pub use sink::Sink;
pub use source::{Failed, Source};
pub use std_stream::StdStream;
pub use writing::{Wrote, write_all};

#[cfg(test)]
mod tests;
