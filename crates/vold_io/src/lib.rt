//! Bytes in and out: sources and sinks that count their faults, in memory and over the readers and writers of std.
#![tactic(auto)]

pub mod mem_sink;
pub mod mem_source;
mod plan;
pub mod read_source;
pub mod sink;
pub mod source;
pub mod transfers;
pub mod write_sink;

pub use mem_sink::MemSink;
pub use mem_source::MemSource;
pub use read_source::ReadSource;
pub use sink::{Sink, SinkFault};
pub use source::{Failed, Source};
pub use transfers::{ReadFault, read_at_most, write_all};
pub use write_sink::WriteSink;

#[cfg(test)]
mod tests;
