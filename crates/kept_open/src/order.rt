// The records that an opening keeps, in the order in which they are kept.
ghost use Rattle.std.specs.Prelude.{◌≡◌, IsPermutation, filter};
ghost use Rattle.stored.specs.HistoryTree.{NamesOnce};
ghost use Rattle.kept_open.specs.Keeping.{AreOrdered, is_kept_record, record_cmp};

use byte_order::order;
use inner_page::HistoryRecord;
use leaf_load::is_seen;
use leaf_rows::Marks;
use std::cmp::Ordering;

// The others go.
pub(crate) fn keep_seen(records: &mut Vec<HistoryRecord>, marks: &Marks, ids: &[u64])
    ensures { records.new.items ≡ filter (is_kept_record marks.now ids.now) records.old.items }
{
    records.retain(|of| is_kept(marks, ids, of));
}

fn is_kept(marks: &Marks, ids: &[u64], of: &HistoryRecord) -> bool
    ensures { result ≡ is_kept_record marks.now ids.now of.now }
{
    let window = of.version.window;
    is_seen(marks, ids, &window)
}

// By table, then by key, and of a key newest first. `O(n log n)` comparisons.
pub(crate) fn sort(records: &mut Vec<HistoryRecord>)
    ensures same { IsPermutation records.old.items records.new.items }
    ensures ordered { NamesOnce records.old.items → AreOrdered records.old.items records.new.items }
{
    records.sort_unstable_by(|first, other| compare(first, other));
}

fn compare(first: &HistoryRecord, other: &HistoryRecord) -> Ordering
    ensures { result ≡ record_cmp first.now other.now }
{
    let window = first.version.window;
    let others = other.version.window;
    let keys = order(first.key.as_bytes(), other.key.as_bytes());
    let newest = others.name.compare(&window.name);
    first.table.cmp(&other.table).then(keys.then(newest))
}
