//! What threads that share a hub and frames have to keep: a law of the pieces, of further words,
//! and of what each seat knows of them.
//!
//! Promises nothing by itself: it says what a table of latched pieces asks of a law, and each law
//! proves these lemmas where it is made. Leaves the keeping to the tables above, which hold the
//! law between any two steps of any threads.
#![tactic(auto)]

mod law;
mod part;
mod piece;
mod shape;
mod turn;

pub use law::Law;
pub use part::Part;
pub use piece::Piece;
pub use shape::Shape;
pub use turn::{AnyTurn, Turn};
