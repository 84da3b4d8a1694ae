//! A table with the entries of its leaves.

use catalog::Table;
use inner_page::Entry;

/// A table of a checkpoint, with what leads to its leaves.
#[derive(Drop)]
pub struct TableEntries {
    pub table: Table,
    /// Each leaf's least key and link, in the order of the keys.
    pub entries: Vec<Entry>,
}
