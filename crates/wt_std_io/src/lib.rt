//! The standard streams as a source and a sink: readers and writers of the system, whose failed
//! calls are counted.
//!
//! It promises what `Source` and `Sink` say of streams that do not tell their bytes, and hands on
//! what std tells of a reader or a writer: bytes that were answered as written stand behind those
//! that the writer held, bytes that were read stood first among those that the reader had left, and
//! a call that failed moved none. Of the system's own streams std tells no bytes. How to go on after
//! a fault is left to the caller.
#![tactic(auto)]

mod sink;
mod source;
#[cfg(test)]
mod tests;

pub use sink::StdSink;
pub use source::StdSource;
