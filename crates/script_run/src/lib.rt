//! Scripts over the engine and its device: the lines of an input, each a call or a step of one, or
//! something that is asked of the device, and for each the line of text that tells its reply.
//!
//! It stands for `specs/Lines`, which says how an input is cut into lines, and for `specs/Scripts`,
//! which says what a line replies, what it leaves, and how a script ends. Promises that
//! `run_script` runs the lines of its input in order, each as it says, and prints of each what
//! tells its reply; that a call whose leaf is read from the device and cannot be had is refused,
//! and tells a fault of the disk only where one rose; that a whole call which evicts the leaf of a
//! key writes to the device, and tells who keeps it; that an eviction which goes by steps changes
//! nothing before its last one, and that a call which comes to its leaf meanwhile is told so; that a
//! checkpoint runs from the line that starts it up to the one that finishes it, beside whatever other
//! lines ask for; that
//! behind any other line of an actor leaves may leave memory, which no reply tells, but that the
//! engine is down where a write failed then;
//! that a refusal which a line replies does not end the script, and that bytes which are no line,
//! or one of a later stage, change nothing and stop it with the number of their line; and that it
//! ends else only where the device is not opened anew, for want of memory, at a stream that fails,
//! or at the end of the input. What the device opens to then is told by the checkpoints that lines
//! installed. Leaves to the caller where the store comes from, and what is told of how a script
//! ended.
#![tactic(auto)]

mod checkpointing;
mod control;
mod evicting;
mod kept;
mod lines;
mod one_line;
mod script;
mod told;

pub use kept::Kept;
pub use lines::{Lines, NoLine};
pub use one_line::{Printed, Stop, run_line};
pub use script::{End, INPUT_MAX, ScriptRun, run_script};
pub use told::PLAIN;
