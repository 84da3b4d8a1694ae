//! A version of a key of a table, lent.
ghost use Rattle.std.specs.Prelude.{◌≡◌, IfOk};
ghost use Rattle.row_page.specs.Rows.{code_of, value_of};
ghost use Rattle.stored.specs.HistoryTree.{mark_of};
ghost use Rattle.hist_pages.specs.Views.{record_seen};

use failure::NoMemory;
use inner_page::RecordMark;
use item::{Change, Item};
use stamp::Version;
use std::alloc::Global;

#[derive(Clone, Copy)]
pub(crate) struct LentRecord<'a> {
    pub table: u32,
    pub key: &'a [u8],
    pub version: &'a Version<Change>,
}

// What orders it. Its key is copied.
pub(crate) fn mark_of(alloc: Global, lent: &LentRecord<'_>) -> Result<RecordMark, NoMemory>
    ensures { IfOk result (λ m. m ≡ mark_of (record_seen lent.now)) }
{
    let key = Item::new(Vec::from_slice(alloc, lent.key)?);
    let window = lent.version.window;
    Ok(RecordMark {
        table: lent.table,
        key,
        commit: window.commit,
        name: window.name,
    })
}

// The value that its version puts, empty where it is a removal.
pub(crate) fn value_of<'a>(lent: &LentRecord<'a>) -> &'a [u8]
    ensures { result.now ≡ value_of (record_seen lent.now).version.change }
{
    let version = lent.version;
    match &version.change {
        Change::Put(value) => value.as_bytes(),
        Change::Remove => &[],
    }
}

// The code of its change in a cell.
pub(crate) fn code_of(lent: &LentRecord<'_>) -> u8
    ensures { result ≡ code_of (record_seen lent.now).version.change }
{
    let version = lent.version;
    match &version.change {
        Change::Put(_) => 1,
        Change::Remove => 2,
    }
}
