//! Latched pieces: a hub and frames, each in a slot of one table under a latch of its own, and
//! further words, which change in single steps.
//!
//! Promises that the law of the table holds between any two steps of any threads, where a piece
//! that a seat holds counts as it was when it was taken; that no two seats hold one piece; and
//! that at the end every piece comes back, with the notes of all seats. Leaves to the law what the
//! pieces mean, and to the caller that a seat holds a latch for a short time only. Nothing waits
//! but `latch`; nothing takes memory but `new` and `close`.
#![tactic(auto)]

mod close;
mod latched;
mod latching;
mod open;
mod rule;
mod seat;
mod steps;
mod view;

pub use close::Pieces;
pub use failure::NoMemory;
pub use latched::Latched;
pub use latching::Latching;
pub use pool_law::{AnyTurn, Law, Part, Piece, Shape, Turn};
pub use seat::Seat;
