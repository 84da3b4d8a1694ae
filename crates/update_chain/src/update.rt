//! Updates of a key.

use item::Change;
use stamp::Version;

/// An update of a key: its version, and the stamp at which its transaction was prepared, 0 where
/// it is not marked. The mark and the stamps of a running transaction's update mean nothing.
#[derive(Drop)]
pub struct Update {
    pub version: Version<Change>,
    pub prepared: u64,
}
