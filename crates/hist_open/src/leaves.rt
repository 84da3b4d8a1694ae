// The leaves of a history.
ghost use Rattle.std.specs.Prelude.{◌≡◌, ◌++◌, IfOk, IfErr, OnOk, IsTrue};
ghost use Rattle.failure.specs.Counts.{Rose};
ghost use Rattle.disk_model.specs.Crash.{Looked};
ghost use Rattle.tree_open.specs.Damage.{Refused};
ghost use Rattle.hist_open.specs.Leaves.{RecordsAre};
ghost use Rattle.hist_open.specs.Damage.{LeavesSpoil};

use crate::leaf::read_leaf;
use disk_model::Disk;
use inner_page::{HistoryEntry, HistoryRecord};
use std::alloc::Global;
use wt_code::Refusal;

// The records of the leaves that these entries lead to, one behind the other. `O(bytes)`, each leaf
// read once.
pub(crate) fn read_leaves<D: Disk>(
    alloc: Global,
    disk: &mut D,
    entries: &[HistoryEntry],
) -> Result<Vec<HistoryRecord>, Refusal>
    ensures ok { IsTrue (D.honest disk.old) → IfOk result (λ v. RecordsAre (D.seen disk.old) entries.now v.items) }
    ensures err { IfErr result (Refused (Rose (D.faults disk.old) (D.faults disk.new)) (IsTrue (D.honest disk.old)) (LeavesSpoil (D.seen disk.old) entries.now)) }
    ensures looked { Looked D.Disk disk.old disk.new }
    ensures home { D.home disk.new ≡ D.home disk.old }
{
    let mut records = Vec::new(alloc);
    for i in 0..entries.len() {
        let leaf = match read_leaf(alloc, disk, &entries[i], &entries[i + 1..]) {
            Ok(leaf) => leaf,
            Err(refusal) => return Err(refusal),
        };
        match append(&mut records, leaf) {
            Ok(()) => {}
            Err(refusal) => return Err(refusal),
        }
    }
    Ok(records)
}

fn append(records: &mut Vec<HistoryRecord>, leaf: Vec<HistoryRecord>) -> Result<(), Refusal>
    ensures ok { OnOk result (records.new.items ≡ records.old.items ++ leaf.items) }
    ensures err { IfErr result (λ r. r ≡ Refusal.NoMemory) }
{
    let mut leaf = leaf;
    match records.append(&mut leaf) {
        Ok(()) => Ok(()),
        Err(_) => Err(Refusal::NoMemory),
    }
}
