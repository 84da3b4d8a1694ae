//! How a checkpoint becomes the last completed one: its record is written after all other blocks,
//! the disk is synced, and the slot that names the record is installed.
//!
//! Promises that at each moment the device has the old checkpoint or the new one, whole, and after
//! `Ok` the new one alone. Leaves to the crates above which blocks the checkpoint has, and writes
//! none of them but the record.
#![tactic(auto)]

mod finishing;
#[cfg(test)]
mod tests;

pub use finishing::finish;
