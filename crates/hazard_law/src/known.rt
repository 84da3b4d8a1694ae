//! What a seat knows of the words.

use pool_law::Shape;
use std::collections::LinkedList;

/// What a seat knows of one of its hazard words: that it names nothing, that it names a frame, or
/// that it pins the frame with the page that was filled at this generation.
pub enum Mark {
    Blank,
    Names(u32),
    Pins(u32, u64),
}

/// What a seat knows of one frame: nothing, or that it locked the frame at this generation and
/// has scanned so many hazard words clear since.
pub enum Lock {
    Open,
    Locks(u64, u64),
}

/// What a seat knows of the words, beside its note in the law of the pieces. No value of it is
/// made.
pub struct Hazards<N> {
    pub note: N,
    pub seat: u32,
    pub shape: Shape,
    // One a hazard word of this seat.
    pub marks: LinkedList<Mark>,
    // One a frame.
    pub locks: LinkedList<Lock>,
    // The hazard word that it wrote last, and the frame that it locked last.
    pub last_word: u32,
    pub last_frame: u32,
}
