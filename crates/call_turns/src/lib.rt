//! Laws of the events of a session's call, as they are plain data.
//!
//! `specs/Turns` says how many steps a call has left at most. Promises that each event of `call_steps`
//! leaves fewer, whatever a frame or a device brought, so that a loop which makes one event after the
//! other ends; that each event keeps the places of the sessions in the table of transactions
//! (`specs/Seats`); and that none tells by itself a refusal that only a device gives (`specs/Answers`).
//! Leaves to the crates above what the events mean for the machine.
#![tactic(auto)]

mod answers;
mod seats;
mod turns;

pub use answers::answers_are_own;
pub use seats::{calls_run, seats_stay};
pub use turns::{calls_end, turns_stay};
