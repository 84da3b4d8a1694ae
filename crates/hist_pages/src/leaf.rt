//! What is made of the history.

use inner_page::RecordMark;
use stamp::Name;

/// A leaf of the history that is written.
#[derive(Drop)]
pub struct HistoryLeaf {
    /// What orders its first record.
    pub least: RecordMark,
    /// The bytes of its block: the image, and the zeros that fill it up.
    pub block: Vec<u8>,
    /// The greatest name of a version on it.
    pub greatest: Name,
    /// The greatest durable stamp of a version on it.
    pub durable: u64,
}
