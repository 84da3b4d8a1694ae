//! The history, as a checkpoint writes and captures it.
//!
//! Stands for the blocks that the running checkpoint has of the history: those of its leaves, and above
//! them the inner pages of their entries (`specs/Cuts`). Promises that `write_history` leaves a whole
//! history of the records on the device, each block new and captured, one after the other; that at each
//! moment the checkpoint before still stands; and that each block is listed when it is captured, also
//! before an error (`specs/Writes`). Leaves to the caller which records these are, and the record of the
//! checkpoint.
#![tactic(auto)]

mod entries;
mod leaves;
mod levels;
mod writing;

pub use writing::{HistoryPlace, write_history};
