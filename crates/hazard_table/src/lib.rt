//! Hazard words: a state word for each frame and five hazard words for each seat, beside latched
//! pieces.
//!
//! Promises that a frame which a hazard word pins is in, or locked, at the generation of the pin,
//! whatever other threads do; that a frame is freed only once every hazard word was scanned clear
//! since it was locked; and that none of the calls on words takes memory or waits. Leaves to the
//! law of the pieces which page lies in a frame, and who may fill one.
#![tactic(auto)]

mod answers;
mod evict;
mod kinds;
mod open;
mod pins;
mod pool;
mod with_hazards;
mod words;

pub use answers::{Locking, Looking, Pinning, Scanning};
pub use latch_table::{NoMemory, Pieces, Seat};
pub use pool::{HAZARDS, Pool};
pub use with_hazards::WithHazards;
