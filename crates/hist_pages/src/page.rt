//! An inner page of the history that is not written yet.

use inner_page::RecordMark;
use stamp::Name;

/// An inner page of the history, and what leads to it but for its address.
#[derive(Drop)]
pub struct HistoryPage {
    /// What orders the least record below.
    pub least: RecordMark,
    /// Its image, of at most 4,096 bytes; zeros up to 4,096 make it the block.
    pub image: Vec<u8>,
    /// The greatest name of a version below.
    pub greatest: Name,
    /// The greatest durable stamp of a version below.
    pub durable: u64,
}
