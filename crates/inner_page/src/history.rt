// The inner page of the history.
ghost use Rattle.std.specs.Prelude.{◌≡◌, ◌≤◌, length};
ghost use Rattle.stored.specs.HistoryTree.{HistoryClimbs, is_before};
ghost use Rattle.inner_page.specs.Marks.{mark_seen};
ghost use Rattle.inner_page.specs.Children.{IsUnderMark};

use crate::mark::{LentMark, RecordMark};
use device_layout::Link;
use std::marker::Model;

/// What an inner page of the history has of one page below it.
#[derive(Drop)]
pub struct HistoryEntry {
    /// The least record below.
    pub least: RecordMark,
    /// What leads to the page.
    pub link: Link,
}

impl Model for HistoryEntry {
    ghost use Rattle.stored.specs.HistoryTree.{HistoryEntry as StoredEntry};

    ghost Value = { StoredEntry };

    ghost view = { λ e. record { least = e.least; link = e.link } };
}

/// An inner page of the history.
#[derive(Drop)]
pub struct HistoryInner {
    /// Its level, from 1 to 60. The pages below have the level before, and a leaf has level 0.
    pub level: u8,
    /// Its entries, in the ascending order of their records.
    pub entries: Vec<HistoryEntry>,
}

impl HistoryInner {
    /// The place of the entry below which the record with this mark stands: the last one whose
    /// record does not come behind it, or the first one where all do. `O(log n)` comparisons in
    /// the entries.
    pub fn child_for(&self, mark: &LentMark<'_>) -> usize
        requires some { 1 ≤ length self.now.entries.items }
        requires climbs { HistoryClimbs self.now.entries.items }
        ensures { IsUnderMark self.now.entries.items (mark_seen mark.now) result }
    {
        place_under(&self.entries, mark)
    }
}

// By halving: the entries from `high` on come behind the mark, and so does none up to `low`, unless
// that is the first.
fn place_under(entries: &[HistoryEntry], mark: &LentMark<'_>) -> usize
    requires some { 1 ≤ length entries.now }
    requires climbs { HistoryClimbs entries.now }
    ensures { IsUnderMark entries.now (mark_seen mark.now) result }
{
    let mut low = 0;
    let mut high = entries.len();
    while high - low > 1 {
        let middle = low + (high - low) / 2;
        if is_behind(&entries[middle], mark) {
            high = middle;
        } else {
            low = middle;
        }
    }
    low
}

// Whether the entry's record comes behind the mark.
fn is_behind(entry: &HistoryEntry, mark: &LentMark<'_>) -> bool
    ensures { result ≡ is_before (mark_seen mark.now) entry.now.least }
{
    mark.is_before(&entry.least.lent())
}
