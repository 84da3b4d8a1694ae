// Frames and their leaves.

ghost use Rattle.std.specs.Prelude.{◌≡◌};
ghost use Rattle.call_steps.specs.Tables.{empty, filled};

use leaf_frame::LeafFrame;

/// A leaf in memory.
#[derive(Drop)]
pub struct Frame {
    /// The number of its table.
    pub table: u32,
    /// What the leaf is named by.
    pub id: u64,
    /// The rows of its page, under the updates of its keys.
    pub leaf: LeafFrame,
}

/// A frame: the piece that an event on it holds.
#[derive(Drop)]
pub struct FramePiece {
    /// How many leaves the frame had before.
    pub generation: u64,
    /// The leaf; none where the frame is empty.
    pub frame: Option<Frame>,
}

// Generations are below this.
const GENERATIONS: u64 = 1 << 62;

/// The state word of a frame without a leaf, at this generation.
pub fn empty(generation: u64) -> u64
    ensures { result ≡ empty generation }
{
    4 * (generation % GENERATIONS)
}

/// The state word of a frame that has a leaf, at this generation.
pub fn filled(generation: u64) -> u64
    ensures { result ≡ filled generation }
{
    4 * (generation % GENERATIONS) + 1
}
