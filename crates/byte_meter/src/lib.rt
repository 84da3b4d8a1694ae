//! Counts on a terminal, for a person who waits: streams and a disk whose bytes are counted as they
//! pass.
//!
//! Promises that a stream or a disk with a meter keeps the contract of its trait with the bytes, the
//! faults and the content of the one that it is made of. What the terminal shows is promised to
//! nobody, and a failed write of it is no fault.
#![tactic(auto)]

mod disk;
mod meter;
mod sink;
mod source;
#[cfg(test)]
mod tests;

pub use disk::MeteredDisk;
pub use meter::Meter;
pub use sink::MeteredSink;
pub use source::MeteredSource;
