// A record of the history.
ghost use Rattle.std.specs.Prelude.{◌≡◌};
ghost use Rattle.stored.specs.HistoryTree.{mark_of};
ghost use Rattle.inner_page.specs.Marks.{mark_seen};

use crate::mark::LentMark;
use item::Item;
use row_page::CellChange;
use stamp::Version;
use std::marker::Model;

/// An older version of a key of a table.
#[derive(Drop)]
pub struct HistoryRecord {
    /// The table's number.
    pub table: u32,
    /// The key, 1,024 bytes at most.
    pub key: Item,
    /// The version, with a value of 16,384 bytes at most.
    pub version: Version<CellChange<Item>>,
}

impl Model for HistoryRecord {
    ghost use Rattle.stored.specs.HistoryTree.{HistoryRecord as StoredRecord};

    ghost Value = { StoredRecord };

    ghost view = { λ r. record { table = r.table; key = r.key; version = r.version } };
}

impl HistoryRecord {
    /// What orders it among the records, with its key lent.
    pub fn mark(&self) -> LentMark<'_>
        ensures { mark_seen result ≡ mark_of self.now }
    {
        let window = self.version.window;
        LentMark {
            table: self.table,
            key: self.key.as_bytes(),
            commit: window.commit,
            name: window.name,
        }
    }
}
