//! Keys of one table, one after the other.

ghost use Rattle.std.specs.Prelude.{◌≡◌, ◌<◌, length, option_map, slice_get, IfOk, IfErr, IsTrue, None, Some};
ghost use Rattle.failure.specs.Counts.{Rose};
ghost use Rattle.disk_model.specs.Crash.{Looked};
ghost use Rattle.kv_model.specs.Content.{Content};
ghost use Rattle.kv_model.specs.History.{Table as ModelTable};
ghost use Rattle.stored.specs.Stored.{Reads};
ghost use Rattle.stored.specs.TableTree.{Climbs};
ghost use Rattle.tree_open.specs.Damage.{Refused};
ghost use Rattle.device_read.specs.Readers.{IsReaderOf, tables_in};
ghost use Rattle.device_read.specs.Rows.{value_in};
ghost use Rattle.device_read.specs.Steps.{IsValueOf, KeySpoilsAt, LeafSpoilsAt};
ghost use Rattle.device_read.specs.Leaves.{HasValue, RefusesKey};
ghost use Rattle.device_read.specs.Lookups.{IsLast, KeepsLast, KeepsLeafOf};

use crate::leaves::{entries_at, leaf_at, place_under, value_on};
use crate::reader::Reader;
use disk_model::Disk;
use failure::NoMemory;
use inner_page::{Entry, HistoryRecord};
use item::Item;
use leaf_frame::LeafFrame;
use leaf_rows::Marks;
use std::alloc::Global;
use std::marker::Model;
use stored::what_is_read_is_regular;
use wt_code::Refusal;

/// A leaf that was read, and which one of its table it is.
#[derive(Drop)]
pub(crate) struct LastLeaf {
    pub(crate) index: usize,
    pub(crate) leaf: LeafFrame,
}

/// Looks keys of one table up, and keeps the leaf that it read last: keys that stand in one leaf cost
/// one read of it, if no other key comes between them. Used with one reader, whose device stays as it
/// is.
#[derive(Drop)]
pub struct Lookup {
    place: usize,
    last: Option<LastLeaf>,
}

impl Model for Lookup {
    ghost use Rattle.device_read.specs.Lookups.{KeptLeaf};

    ghost Value = { KeptLeaf };

    ghost view = { λ l. record { place = l.place; last = l.last } };
}

impl Lookup {
    /// For the table at a place. Nothing was read yet.
    pub fn new(place: usize) -> Lookup
        ensures place { result.place ≡ place }
        ensures none { result.last ≡ None }
    {
        Lookup { place, last: None }
    }

    /// The value of a key, as `Reader::get`. No leaf is read where the last one is the key's.
    pub fn get<D: Disk>(
        &mut self,
        alloc: Global,
        disk: &mut D,
        reader: &Reader,
        key: &[u8],
    ) -> Result<Option<Item>, Refusal>
        ensures there { IsTrue (D.honest disk.old) → KeepsLeafOf (D.seen disk.old) reader.now self.old → IfOk result (HasValue (D.seen disk.old) reader.now self.old.place key.now) }
        ensures ok { IsTrue (D.honest disk.old) → IsReaderOf (D.seen disk.old) reader.now → KeepsLeafOf (D.seen disk.old) reader.now self.old → (content : Content) (t : ModelTable) → Reads (D.seen disk.old) content → slice_get (tables_in reader.now) self.old.place ≡ Some t
            → IfOk result (λ v. v ≡ value_in content t.number key.now) }
        ensures keeps { IsTrue (D.honest disk.old) → KeepsLeafOf (D.seen disk.old) reader.now self.old → KeepsLeafOf (D.seen disk.new) reader.now self.new }
        ensures place { self.new.place ≡ self.old.place }
        ensures err { IfErr result (RefusesKey D.Disk reader.now self.old.place key.now disk.old disk.new) }
        ensures looked { Looked D.Disk disk.old disk.new }
        ensures home { D.home disk.new ≡ D.home disk.old }
    {
        what_is_read_is_regular();
        let newest = reader.newest_of(self.place, key);
        let entries = entries_at(&reader.uppers, self.place);
        value_at(
            alloc,
            disk,
            entries,
            key,
            reader.marks,
            &reader.ids,
            newest,
            &mut self.last,
        )
    }
}

/// The value of a key by this record of it and its row in the one leaf of those with these entries that
/// may have it. That leaf is the last one then.
pub(crate) fn value_at<D: Disk>(
    alloc: Global,
    disk: &mut D,
    entries: &[Entry],
    key: &[u8],
    marks: Marks,
    ids: &[u64],
    newest: Option<&HistoryRecord>,
    last: &mut Option<LastLeaf>,
) -> Result<Option<Item>, Refusal>
    requires { Climbs entries.now }
    ensures ok { let found = option_map (λ r. r.now.version) newest.entry in IsTrue (D.honest disk.old) → KeepsLast (D.seen disk.old) entries.now marks ids.now last.old → IfOk result (IsValueOf (D.seen disk.old) entries.now key.now marks ids.now found) }
    ensures keeps { IsTrue (D.honest disk.old) → KeepsLast (D.seen disk.old) entries.now marks ids.now last.old → KeepsLast (D.seen disk.old) entries.now marks ids.now last.new }
    ensures err { IfErr result (Refused (Rose (D.faults disk.old) (D.faults disk.new)) (IsTrue (D.honest disk.old)) (KeySpoilsAt (D.seen disk.old) entries.now key.now)) }
    ensures looked { Looked D.Disk disk.old disk.new }
    ensures home { D.home disk.new ≡ D.home disk.old }
{
    if entries.is_empty() {
        return Ok(None);
    }
    let i = place_under(entries, key);
    match leaf_for(alloc, disk, entries, i, marks, ids, last.take()) {
        Ok(kept) => {
            let value = value_on(alloc, &kept.leaf, key, newest);
            *last = Some(kept);
            match value {
                Ok(value) => Ok(value),
                Err(NoMemory) => Err(Refusal::NoMemory),
            }
        }
        Err(refusal) => Err(refusal),
    }
}

// The i-th leaf: the last one, or it is read.
fn leaf_for<D: Disk>(
    alloc: Global,
    disk: &mut D,
    entries: &[Entry],
    i: usize,
    marks: Marks,
    ids: &[u64],
    last: Option<LastLeaf>,
) -> Result<LastLeaf, Refusal>
    requires { i < length entries.now }
    ensures ok { IsTrue (D.honest disk.old) → KeepsLast (D.seen disk.old) entries.now marks ids.now last → IfOk result (λ l. (l.index ≡ i) × IsLast (D.seen disk.old) entries.now marks ids.now l) }
    ensures err { IfErr result (Refused (Rose (D.faults disk.old) (D.faults disk.new)) (IsTrue (D.honest disk.old)) (LeafSpoilsAt (D.seen disk.old) entries.now i)) }
    ensures looked { Looked D.Disk disk.old disk.new }
    ensures home { D.home disk.new ≡ D.home disk.old }
{
    if let Some(kept) = last {
        if kept.index == i {
            return Ok(kept);
        }
    }
    match leaf_at(alloc, disk, entries, i, marks, ids) {
        Ok(leaf) => Ok(LastLeaf { index: i, leaf }),
        Err(refusal) => Err(refusal),
    }
}
