//! From the history in memory to its leaves.

ghost use Rattle.std.specs.Prelude.{◌++◌, List, IfOk, OnOk};
ghost use Rattle.item.specs.declared.change.Change.{Change};
ghost use Rattle.stamp.specs.declared.Version.{Version};
ghost use Rattle.kv_model.specs.Holds.{Descends};
ghost use Rattle.kv_model.specs.Ordered.{Older};
ghost use Rattle.stored.specs.HistoryTree.{HistoryRecord, RecordFits};
ghost use Rattle.hist_pages.specs.Leaves.{AreLeavesOf};
ghost use Rattle.hist_pages.specs.Making.{AreByStamp, HaveRecords, records_of};
ghost use Rattle.hist_pages.specs.Records.{Fits, VersionsFit};

use crate::by_stamp::by_stamp;
use crate::leaf::HistoryLeaf;
use crate::leaves::Leaves;
use crate::lent_record::LentRecord;
use failure::NoMemory;
use hist_store::{Hist, KeyHistory};
use std::alloc::Global;

/// The leaves of the history: each version of each key once, by table, key, commit stamp, and name,
/// each leaf with as many records as its image of at most 32,768 bytes has room for. No leaf where
/// there are no versions. The error is want of memory. `O(bytes)`, each byte of a key and a value
/// copied once, and `O(k log k)` comparisons for each key with k versions.
pub fn leaves_of(alloc: Global, history: &Hist) -> Result<Vec<HistoryLeaf>, NoMemory>
    requires { Fits history.now }
    ensures { IfOk result (λ leaves. AreLeavesOf history.now leaves.items) }
{
    let mut leaves = Leaves::new(alloc);
    let mut walk = history.walk();
    while let Some(slot) = walk.next_entry() {
        if let Some(there) = history.slot(slot) {
            put_key(alloc, &mut leaves, there)?;
        }
    }
    leaves.finish()
}

// Puts the versions of a key behind the records so far.
fn put_key(alloc: Global, leaves: &mut Leaves, of: &KeyHistory) -> Result<(), NoMemory>
    requires descends { Descends Older of.now.versions }
    requires fit { VersionsFit of.now }
    ensures { OnOk result ((sorted : List (Version Change)) × AreByStamp of.now.versions sorted × ((records : List HistoryRecord) → HaveRecords leaves.old records → HaveRecords leaves.new (records ++ records_of of.now sorted))) }
{
    let sorted = by_stamp(alloc, &of.versions)?;
    for version in &sorted {
        let lent = LentRecord {
            table: of.table,
            key: of.key.as_bytes(),
            version,
        };
        leaves.push(alloc, &lent)?;
    }
    Ok(())
}
