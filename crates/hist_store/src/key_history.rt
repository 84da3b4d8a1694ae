//! A key with its older versions.

use crate::versions::Versions;
use item::Item;

/// A key of a table, and its older versions.
#[derive(Drop)]
pub struct KeyHistory {
    pub table: u32,
    pub key: Item,
    pub versions: Versions,
}
