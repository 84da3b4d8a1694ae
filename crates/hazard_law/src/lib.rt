//! The law of hazard words: which steps on state words and hazard words keep every pinned frame
//! in place, beside any law of the pieces.
//!
//! Promises, in its specs and proofs, that each of these steps keeps what holds between any two
//! steps. It has the types of what a seat knows of the words, and no code that runs. Leaves to
//! `hazard_table` the words, and to the law beside it what the pieces mean.
#![tactic(auto)]

mod known;
mod law;

pub use known::{Hazards, Lock, Mark};
pub use law::{a_frame_that_may_be_freed_has_no_pin, a_pinned_frame_stays, a_step_keeps_the_words};
