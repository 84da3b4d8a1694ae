//! A leaf of a table.

use inner_page::Entry;

/// The frame that has a leaf in memory.
#[derive(Clone, Copy, Debug, PartialEq, Eq)]
pub struct Framed {
    /// The frame's number.
    pub frame: u32,
    /// The frame's generation while it has the leaf.
    pub generation: u64,
}

/// A leaf of a table.
#[derive(Drop)]
pub struct Leaf {
    /// What it is named by.
    pub id: u64,
    /// Its table's number.
    pub table: u32,
    /// Its low key, which is the least key that may stand in it, and what leads to its block: a
    /// link of zeros where it has none.
    pub entry: Entry,
    /// The frame that it is in, if it is in one.
    pub frame: Option<Framed>,
}
