//! The leaves of one table.

ghost use Rattle.std.specs.Prelude.{◌≡◌, ◌<◌, ◌≤◌, suc, [], length, drop, option_map, IfOk, IfErr, IsTrue};
ghost use Rattle.failure.specs.Counts.{Rose};
ghost use Rattle.disk_model.specs.Crash.{Looked};
ghost use Rattle.row_page.specs.Rows.{is_below};
ghost use Rattle.leaf_rows.specs.Rows.{AreFit};
ghost use Rattle.stored.specs.TableTree.{Climbs, first_key};
ghost use Rattle.inner_page.specs.Children.{IsUnderKey};
ghost use Rattle.tree_open.specs.Damage.{Refused};
ghost use Rattle.device_read.specs.Newest.{KeysClimb, of_leaf};
ghost use Rattle.device_read.specs.Readers.{entries_in, low_at, number_in};
ghost use Rattle.device_read.specs.Steps.{IsLeafAt, LeafSpoilsAt, value_with};

use crate::find::table_at;
use crate::merging::later_of;
use crate::newest::of_leaf;
use byte_order::order;
use checkpoint_record::TableRoot;
use disk_model::Disk;
use failure::NoMemory;
use inner_page::{Entry, HistoryRecord};
use item::Item;
use leaf_frame::LeafFrame;
use leaf_load::load_leaf;
use leaf_rows::Marks;
use row_page::CellChange;
use std::alloc::Global;
use tree_open::Upper;
use wt_code::Refusal;

/// The entries of the leaves of the table at a place, none where no table is there.
pub(crate) fn entries_at(uppers: &[Upper], place: usize) -> &[Entry]
    ensures { result.now ≡ entries_in uppers.now place }
{
    match uppers.get(place) {
        Some(upper) => &upper.entries,
        None => &[],
    }
}

/// The number of the table at a place, 0 where no table is there.
pub(crate) fn number_at(tables: &[TableRoot], place: usize) -> u32
    ensures { result ≡ number_in tables.now place }
{
    match table_at(tables, place) {
        Some(table) => table.number,
        None => 0,
    }
}

/// The i-th leaf of those that have these entries.
pub(crate) fn leaf_at<D: Disk>(
    alloc: Global,
    disk: &mut D,
    entries: &[Entry],
    i: usize,
    marks: Marks,
    ids: &[u64],
) -> Result<LeafFrame, Refusal>
    requires { i < length entries.now }
    ensures ok { IsTrue (D.honest disk.old) → IfOk result (IsLeafAt (D.seen disk.old) entries.now i marks ids.now) }
    ensures fit { IfOk result (λ leaf. AreFit leaf.page) }
    ensures bare { IfOk result (λ leaf. leaf.chains ≡ []) }
    ensures err { IfErr result (Refused (Rose (D.faults disk.old) (D.faults disk.new)) (IsTrue (D.honest disk.old)) (LeafSpoilsAt (D.seen disk.old) entries.now i)) }
    ensures looked { Looked D.Disk disk.old disk.new }
    ensures home { D.home disk.new ≡ D.home disk.old }
{
    let entry = &entries[i];
    let next = first_key_of(&entries[i + 1..]);
    load_leaf(
        alloc,
        disk,
        entry.link,
        entry.key.as_bytes(),
        next,
        marks,
        ids,
    )
}

/// The records that stand in the i-th leaf of those of this table that have these entries.
pub(crate) fn newest_on<'a>(
    newest: &'a [HistoryRecord],
    table: u32,
    entries: &[Entry],
    i: usize,
) -> &'a [HistoryRecord]
    requires there { i < length entries.now }
    requires keys { KeysClimb newest.now }
    ensures { result.now ≡ of_leaf table (low_at entries.now i) (first_key (drop (suc i) entries.now)) newest.now }
{
    let next = first_key_of(&entries[i + 1..]);
    of_leaf(newest, table, low_at(entries, i), next)
}

// The least key that may stand in the i-th leaf: in the first any.
fn low_at(entries: &[Entry], i: usize) -> &[u8]
    requires { i < length entries.now }
    ensures { result.now ≡ low_at entries.now i }
{
    if i == 0 {
        return &[];
    }
    let entry = &entries[i];
    entry.key.as_bytes()
}

fn first_key_of(entries: &[Entry]) -> Option<&[u8]>
    ensures { option_map (λ k. k.now) result ≡ first_key entries.now }
{
    match entries.first() {
        Some(entry) => Some(entry.key.as_bytes()),
        None => None,
    }
}

/// The place of the entry below which the key stands, by halving: the entries from `high` on are above
/// the key, and so are none up to `low`, unless that is the first.
pub(crate) fn place_under(entries: &[Entry], key: &[u8]) -> usize
    requires some { 1 ≤ length entries.now }
    requires climbs { Climbs entries.now }
    ensures { IsUnderKey entries.now key.now result }
{
    let mut low = 0;
    let mut high = entries.len();
    while high - low > 1 {
        let middle = low + (high - low) / 2;
        if is_above(&entries[middle], key) {
            high = middle;
        } else {
            low = middle;
        }
    }
    low
}

// Whether the entry's key is above this one.
fn is_above(entry: &Entry, key: &[u8]) -> bool
    ensures { result ≡ is_below key.now entry.now.key }
{
    order(key, entry.key.as_bytes()).is_lt()
}

/// The value of a key by its row on a leaf and this record of it, copied.
pub(crate) fn value_on(
    alloc: Global,
    leaf: &LeafFrame,
    key: &[u8],
    newest: Option<&HistoryRecord>,
) -> Result<Option<Item>, NoMemory>
    ensures { let found = option_map (λ r. r.now.version) newest.entry in IfOk result (λ v. v ≡ value_with key.now leaf.now.page found) }
{
    match later_of(leaf.row(key), newest) {
        None => Ok(None),
        Some(cell) => match cell.change {
            CellChange::Put(value) => Ok(Some(item_of(alloc, value)?)),
            CellChange::Remove => Ok(None),
        },
    }
}

fn item_of(alloc: Global, bytes: &[u8]) -> Result<Item, NoMemory>
    ensures { IfOk result (λ item. item ≡ bytes.now) }
{
    Ok(Item::new(bytes.to_vec(alloc)?))
}
