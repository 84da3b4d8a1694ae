//! The names of the pieces.

/// Which piece a latch guards.
#[derive(Clone, Copy, PartialEq, Eq, Drop)]
pub enum Piece {
    Hub,
    Frame(u32),
}
