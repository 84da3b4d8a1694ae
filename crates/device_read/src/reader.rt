//! What a device has, read leaf by leaf.

ghost use Rattle.std.specs.Prelude.{◌≡◌, ◌↔◌, ◌<◌, ℕ, List, length, slice_get, option_map, IfOk, IfErr, IfSome, IfNone, IsTrue, Some, None};
ghost use Rattle.disk_model.specs.Crash.{Looked};
ghost use Rattle.kv_model.specs.Content.{Content};
ghost use Rattle.kv_model.specs.History.{Table as ModelTable, named};
ghost use Rattle.row_page.specs.Rows.{Ascends, Row};
ghost use Rattle.leaf_rows.specs.Rows.{AreFit};
ghost use Rattle.stored.specs.Stored.{Reads};
ghost use Rattle.device_read.specs.Leaves.{HasPage, HasValue, RefusesKey, RefusesLeaf};
ghost use Rattle.device_read.specs.Newest.{record_at};
ghost use Rattle.device_read.specs.Readers.{IsReaderOf, HasPages, leaf_count, number_at, tables_in};
ghost use Rattle.device_read.specs.Rows.{value_in};

use crate::find::{place_of, table_at};
use crate::leaves::{entries_at, leaf_at, newest_on, number_at};
use crate::lookup::value_at;
use crate::newest::record_at;
use crate::opened::OpenedLeaf;
use catalog::Table;
use checkpoint_record::TableRoot;
use disk_model::Disk;
use inner_page::HistoryRecord;
use item::Item;
use leaf_rows::Marks;
use std::alloc::Global;
use std::marker::Model;
use stored::what_is_read_is_regular;
use tree_open::Upper;
use wt_code::Refusal;

/// The last completed checkpoint of a device, but for the leaves of its tables. Tables have places, from
/// 0 on in the order of their names. Leaves are read from the device that it was opened on, as long as
/// that stays as it is.
#[derive(Drop)]
pub struct Reader {
    // In the order of their names.
    pub(crate) tables: Vec<TableRoot>,
    // By table: what its tree has above its leaves.
    pub(crate) uppers: Vec<Upper>,
    // With the ids, what tells the versions that an opening keeps.
    pub(crate) marks: Marks,
    pub(crate) ids: Vec<u64>,
    // Of each key of the history the newest record that an opening keeps, by table and key.
    pub(crate) newest: Vec<HistoryRecord>,
}

impl Model for Reader {
    ghost use Rattle.device_read.specs.Readers.{Held, IsInForm};

    ghost Value = { Held };

    ghost view = { λ r. record { tables = r.tables.items; uppers = r.uppers.items; marks = r.marks; ids = r.ids.items; newest = r.newest.items } };

    ghost invariant = { λ r. IsInForm (record { tables = r.tables.items; uppers = r.uppers.items; marks = r.marks; ids = r.ids.items; newest = r.newest.items }) };
}

impl Reader {
    /// The number of tables.
    pub fn len(&self) -> usize
        ensures { result ≡ length (tables_in self.now) }
    {
        self.tables.len()
    }

    /// Whether there are no tables.
    pub fn is_empty(&self) -> bool
        ensures { IsTrue result ↔ (length (tables_in self.now) ≡ 0) }
    {
        self.len() == 0
    }

    /// The table at a place. `O(1)`.
    pub fn table(&self, place: usize) -> Option<&Table>
        ensures { option_map (λ t. t.now) result ≡ slice_get (tables_in self.now) place }
    {
        table_at(&self.tables, place)
    }

    /// The place of the table of this name. `O(log n)` in the tables.
    pub fn find(&self, name: &[u8]) -> Option<usize>
        ensures found { IfSome result (λ place. (t : ModelTable) × (slice_get (tables_in self.now) place ≡ Some t) × (named name.now (tables_in self.now) ≡ Some t)) }
        ensures none { IfNone result (named name.now (tables_in self.now) ≡ None) }
    {
        place_of(&self.tables, name)
    }

    /// How many leaves the table at a place has, 0 where no table is there. `O(1)`.
    pub fn leaves(&self, place: usize) -> usize
        ensures { result ≡ leaf_count self.now place }
    {
        entries_at(&self.uppers, place).len()
    }

    /// The i-th leaf of the table at a place, as an opening keeps it. Where the device has all leaves of
    /// the table (`HasPages`), it is the i-th of their pages. Its keys ascend, whatever the disk, and each
    /// row fits a leaf where a disk was honest when this was opened on it. `Corrupt` tells the leaf's
    /// block, with the sum that it should have and the sum that it has, or the same sum twice where that is
    /// not at fault.
    /// `O(bytes)` of the leaf, which is read once, and `O(log n)` comparisons in the records.
    pub fn leaf<D: Disk>(
        &self,
        alloc: Global,
        disk: &mut D,
        place: usize,
        i: usize,
    ) -> Result<OpenedLeaf<'_>, Refusal>
        requires { i < leaf_count self.now place }
        ensures there { IsTrue (D.honest disk.old) → IfOk result (HasPage (D.seen disk.old) self.now place i) }
        ensures ok { IsTrue (D.honest disk.old) → (pages : List (List Row)) → HasPages (D.seen disk.old) self.now place pages → IfOk result (λ leaf. slice_get pages i ≡ Some leaf) }
        ensures ascend { IfOk result (Ascends None) }
        ensures fit { (bytes : List ℕ) → IsReaderOf bytes self.now → IfOk result (λ rows. AreFit rows) }
        ensures err { IfErr result (RefusesLeaf D.Disk self.now place i disk.old disk.new) }
        ensures looked { Looked D.Disk disk.old disk.new }
        ensures home { D.home disk.new ≡ D.home disk.old }
    {
        let entries = entries_at(&self.uppers, place);
        match leaf_at(alloc, disk, entries, i, self.marks, &self.ids) {
            Ok(leaf) => Ok(OpenedLeaf {
                leaf,
                newest: newest_on(&self.newest, number_at(&self.tables, place), entries, i),
            }),
            Err(refusal) => Err(refusal),
        }
    }

    /// The value of a key of the table at a place, None where it has none; the value is copied. One
    /// leaf is read, and it is told of as `leaf` tells it. `O(log n)` comparisons in the leaves, in the
    /// rows of that leaf and in the records, and `O(bytes)` of the leaf.
    pub fn get<D: Disk>(
        &self,
        alloc: Global,
        disk: &mut D,
        place: usize,
        key: &[u8],
    ) -> Result<Option<Item>, Refusal>
        ensures there { IsTrue (D.honest disk.old) → IfOk result (HasValue (D.seen disk.old) self.now place key.now) }
        ensures ok { IsTrue (D.honest disk.old) → IsReaderOf (D.seen disk.old) self.now → (content : Content) (t : ModelTable) → Reads (D.seen disk.old) content → slice_get (tables_in self.now) place ≡ Some t
            → IfOk result (λ v. v ≡ value_in content t.number key.now) }
        ensures err { IfErr result (RefusesKey D.Disk self.now place key.now disk.old disk.new) }
        ensures looked { Looked D.Disk disk.old disk.new }
        ensures home { D.home disk.new ≡ D.home disk.old }
    {
        what_is_read_is_regular();
        value_at(
            alloc,
            disk,
            entries_at(&self.uppers, place),
            key,
            self.marks,
            &self.ids,
            self.newest_of(place, key),
            &mut None,
        )
    }

    // The newest record of a key of the table at a place.
    pub(crate) fn newest_of(&self, place: usize, key: &[u8]) -> Option<&HistoryRecord>
        ensures { option_map (λ r. r.now.version) result ≡ record_at (number_at self.now place) key.now self.now.newest }
    {
        record_at(&self.newest, number_at(&self.tables, place), key)
    }
}
