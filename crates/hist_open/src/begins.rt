// With which record a page begins.
ghost use Rattle.std.specs.Prelude.{◌≡◌, ◌↔◌, IsTrue};
ghost use Rattle.stored.specs.HistoryTree.{start, mark_of};

use inner_page::{HistoryRecord, RecordMark};
use stamp::Name;

// The name that no version has.
const NO_NAME: Name = Name { run: 0, id: 0 };

// Whether it stands before every record, as the entry of a root does.
pub(crate) fn is_start(least: &RecordMark) -> bool
    ensures { IsTrue result ↔ (least.now ≡ start) }
{
    least.table == 0 && least.key.is_empty() && least.commit == 0 && least.name == NO_NAME
}

// Whether the two are of one record.
pub(crate) fn same_mark(least: &RecordMark, other: &RecordMark) -> bool
    ensures { IsTrue result ↔ (least.now ≡ other.now) }
{
    least.table == other.table
        && least.key.same(&other.key)
        && least.commit == other.commit
        && least.name == other.name
}

// Whether the mark is the record's.
pub(crate) fn is_mark_of(least: &RecordMark, of: &HistoryRecord) -> bool
    ensures { IsTrue result ↔ (least.now ≡ mark_of of.now) }
{
    let window = of.version.window;
    least.table == of.table
        && least.key.same(&of.key)
        && least.commit == window.commit
        && least.name == window.name
}
