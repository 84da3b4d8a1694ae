// What a transaction wrote.

/// A key that a transaction wrote, by its place in the leaf of a frame.
#[derive(Clone, Copy, Debug, PartialEq, Eq, PartialOrd, Ord)]
pub struct WrittenKey {
    /// The frame that has the leaf.
    pub frame: u32,
    /// The slot of the key in the leaf's chains.
    pub slot: u32,
}
