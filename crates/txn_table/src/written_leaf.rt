//! Leaves that a transaction wrote.

use item::Item;

/// A leaf that a transaction wrote, by its table and a key in it.
#[derive(Drop)]
pub struct WrittenLeaf {
    /// The number of its table.
    pub table: u32,
    /// A key of the leaf, which the transaction wrote.
    pub key: Item,
}
