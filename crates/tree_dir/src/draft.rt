//! An inner page that is not written yet.

use item::Item;
use stamp::Name;

/// An inner page of a table, and what leads to it but for its address.
#[derive(Drop)]
pub struct PageDraft {
    /// The least key of its entries.
    pub low: Item,
    /// Its image, of at most 4,096 bytes; zeros up to 4,096 make it the block.
    pub image: Vec<u8>,
    /// The greatest name of a version below; run 0 and id 0 where there is none.
    pub greatest: Name,
    /// The greatest durable stamp of a version below; 0 where none has one.
    pub durable: u64,
}
