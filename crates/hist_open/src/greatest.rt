// The greatest of what stands below entries, and of what records have.
ghost use Rattle.std.specs.Prelude.{◌≡◌, map};
ghost use Rattle.row_page.specs.Greatest.{greatest_in, most_in};
ghost use Rattle.stored.specs.HistoryTree.{HistoryEntry as StoredEntry, HistoryRecord as StoredRecord};

use inner_page::{HistoryEntry, HistoryRecord};
use stamp::Name;

// The greatest name that the entries say. `O(entries)`.
pub(crate) fn greatest_name(entries: &[HistoryEntry]) -> Name
    ensures { result ≡ greatest_in (map {A = StoredEntry} (λ x. x.link.greatest) entries.now) }
{
    let mut greatest = Name { run: 0, id: 0 };
    for entry in entries {
        greatest = greatest.later(entry.link.greatest);
    }
    greatest
}

// The greatest durable stamp that the entries say. `O(entries)`.
pub(crate) fn greatest_durable(entries: &[HistoryEntry]) -> u64
    ensures { result ≡ most_in (map {A = StoredEntry} (λ x. x.link.durable) entries.now) }
{
    let mut greatest = 0;
    for entry in entries {
        greatest = greatest.max(entry.link.durable);
    }
    greatest
}

// The greatest name of a version of the records. `O(records)`.
pub(crate) fn greatest_of(records: &[HistoryRecord]) -> Name
    ensures { result ≡ greatest_in (map {A = StoredRecord} (λ r. r.version.window.name) records.now) }
{
    let mut greatest = Name { run: 0, id: 0 };
    for of in records {
        let window = of.version.window;
        greatest = greatest.later(window.name);
    }
    greatest
}

// The greatest durable stamp of a version of the records. `O(records)`.
pub(crate) fn latest_of(records: &[HistoryRecord]) -> u64
    ensures { result ≡ most_in (map {A = StoredRecord} (λ r. r.version.window.durable) records.now) }
{
    let mut greatest = 0;
    for of in records {
        let window = of.version.window;
        greatest = greatest.max(window.durable);
    }
    greatest
}
