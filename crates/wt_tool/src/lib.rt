//! The commands of the store, over any input, output and disk.
//!
//! Promises, on the call that the program makes, that a run is one that the machine's definitions
//! allow, that the disk it hands back opens to the last completed checkpoint, and that a status
//! tells its cause. Leaves the real file and the real streams to the program. A command that writes,
//! or makes calls of its own, runs on an engine that starts on the device's checkpoint. `read`, `dump`
//! and `list` answer from the device itself: they read all but the leaves, and of those the ones that
//! they need, and the history beside them. `verify` reads the device through, and keeps no row. A script
//! writes to the device only by its lines that take a checkpoint, and where leaves leave memory.
#![tactic(auto)]

mod closing;
mod create;
mod dump;
mod input;
mod list;
mod load;
mod names;
mod opening;
mod read;
mod script;
mod sessions;
mod status;
mod tables;
mod telling;
mod top;
mod verify;
mod write;

pub use status::Status;
pub use top::{Ended, wt_main, wt_plain};
