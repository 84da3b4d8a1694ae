//! What is captured.

use stamp::Name;

/// What a checkpoint captures of a leaf.
#[derive(Drop)]
pub enum Captured {
    /// There are no rows.
    Nothing,
    /// The leaf of the rows.
    Leaf(CapturedLeaf),
    /// The rows do not fit one leaf: their image, with its header, would be longer than 32,768
    /// bytes.
    TooLarge,
}

/// A leaf that has rows, as a checkpoint captures it.
#[derive(Drop)]
pub struct CapturedLeaf {
    /// The bytes of its block: the image, and the zeros that fill it up.
    pub block: Vec<u8>,
    /// The greatest name of a version on it.
    pub greatest: Name,
    /// The greatest durable stamp of a version on it.
    pub durable: u64,
}
