//! What an attempt to take a piece answers.

/// The seat holds the piece, or the latch word was not free: `seen` is what it was.
#[derive(Drop)]
pub enum Latching {
    Held,
    Again { seen: u64 },
}
