//! Input and output as streams of bytes: a source, a sink, and both in memory.
//!
//! A stream is seen as the bytes that it has left to give, or has taken, where it tells them, and
//! a count of its failures that never falls. Promises that a call answers `Failed` only where the
//! count rose. Leaves it to the caller to try again or to stop.
#![tactic(auto)]

mod mem_sink;
mod mem_source;
mod streams;
#[cfg(test)]
mod tests;

pub use failure::{Failed, NoMemory};
pub use mem_sink::MemSink;
pub use mem_source::MemSource;
pub use streams::{Sink, Source, write_all};
