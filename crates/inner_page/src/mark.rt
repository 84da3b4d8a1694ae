// What orders the records of the history.
ghost use Rattle.std.specs.Prelude.{◌≡◌, option_map};
ghost use Rattle.row_page.specs.Reading.{is_number};
ghost use Rattle.stored.specs.HistoryTree.{mark_cmp, is_before, comes_behind};
ghost use Rattle.inner_page.specs.Marks.{mark_seen, name_fits};

use byte_order::order;
use item::Item;
use stamp::Name;
use std::cmp::Ordering;
use std::marker::Model;

// What stands behind the last run and the last id.
const NUMBERS_END: u64 = 1 << 62;

/// What orders the records of the history: the table's number, the key, the commit stamp, and the
/// name.
#[derive(Drop)]
pub struct RecordMark {
    /// The table's number.
    pub table: u32,
    /// The key, 1,024 bytes at most.
    pub key: Item,
    /// The stamp from which readers see the version.
    pub commit: u64,
    /// The transaction that wrote the version.
    pub name: Name,
}

impl Model for RecordMark {
    ghost use Rattle.stored.specs.HistoryTree.{Mark};

    ghost Value = { Mark };

    ghost view = { λ m. record { table = m.table; key = m.key; commit = m.commit; name = m.name } };
}

/// The same, with a key that is lent.
#[derive(Clone, Copy)]
pub struct LentMark<'a> {
    /// The table's number.
    pub table: u32,
    /// The key.
    pub key: &'a [u8],
    /// The stamp from which readers see the version.
    pub commit: u64,
    /// The transaction that wrote the version.
    pub name: Name,
}

impl RecordMark {
    /// The same mark, with its key lent.
    pub fn lent(&self) -> LentMark<'_>
        ensures { mark_seen result ≡ self.now }
    {
        LentMark {
            table: self.table,
            key: self.key.as_bytes(),
            commit: self.commit,
            name: self.name,
        }
    }
}

impl LentMark<'_> {
    /// Whether it stands before the other one. `O(bytes in common)` of the keys.
    pub fn is_before(&self, other: &LentMark<'_>) -> bool
        ensures { result ≡ is_before (mark_seen self.now) (mark_seen other.now) }
    {
        self.compare(other).is_lt()
    }

    // Orders by table, then by key, then by commit stamp, then by name.
    fn compare(&self, other: &LentMark<'_>) -> Ordering
        ensures { result ≡ mark_cmp (mark_seen self.now) (mark_seen other.now) }
    {
        let keys = order(self.key, other.key);
        let commits = self.commit.cmp(&other.commit);
        let names = self.name.compare(&other.name);
        self.table
            .cmp(&other.table)
            .then(keys.then(commits.then(names)))
    }
}

// Whether the mark comes behind the one before, where there is one.
pub(crate) fn comes_behind(before: Option<LentMark<'_>>, mark: &LentMark<'_>) -> bool
    ensures { result ≡ comes_behind (option_map mark_seen before.entry) (mark_seen mark.now) }
{
    match before {
        Some(before) => before.is_before(mark),
        None => true,
    }
}

// Whether a version may bear the name.
pub(crate) fn name_fits(name: Name) -> bool
    ensures { result ≡ name_fits name }
{
    is_number(name.run) && is_number(name.id)
}

fn is_number(n: u64) -> bool
    ensures { result ≡ is_number n }
{
    1 <= n && n < NUMBERS_END
}
