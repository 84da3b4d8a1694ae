// The leaves of all trees.
ghost use Rattle.std.specs.Prelude.{◌≡◌, ◌+◌, length, IfOk, IfErr, IsTrue};
ghost use Rattle.failure.specs.Counts.{Rose};
ghost use Rattle.disk_model.specs.Crash.{Looked};
ghost use Rattle.tree_open.specs.Damage.{Refused};
ghost use Rattle.verify_dev.specs.Leaves.{AreAllTallied, SomeSpoil, IsSum};

use disk_model::Disk;
use failure::NoMemory;
use inner_page::HistoryRecord;
use recover_open::{Tally, check_leaves};
use std::alloc::Global;
use tree_open::Upper;
use wt_code::Refusal;

// Checks the leaves of the trees that have this above them, and counts them. `O(bytes)`, each leaf
// read once.
pub(crate) fn check_all<D: Disk>(
    alloc: Global,
    disk: &mut D,
    uppers: &[Upper],
) -> Result<Tally, Refusal>
    ensures ok { IsTrue (D.honest disk.old) → IfOk result (AreAllTallied (D.seen disk.old) uppers.now) }
    ensures err { IfErr result (Refused (Rose (D.faults disk.old) (D.faults disk.new)) (IsTrue (D.honest disk.old)) (SomeSpoil (D.seen disk.old) uppers.now)) }
    ensures looked { Looked D.Disk disk.old disk.new }
    ensures home { D.home disk.new ≡ D.home disk.old }
{
    let mut tally = Tally {
        leaves: 0,
        versions: 0,
    };
    for upper in uppers {
        let own = match check_leaves(alloc, disk, &upper.entries) {
            Ok(own) => own,
            Err(refusal) => return Err(refusal),
        };
        match sum_of(tally, own) {
            Ok(more) => tally = more,
            Err(NoMemory) => return Err(Refusal::NoMemory),
        }
    }
    Ok(tally)
}

// No device has so many that the numbers have no room for them: that would be told as want of
// memory.
fn sum_of(tally: Tally, own: Tally) -> Result<Tally, NoMemory>
    ensures { IfOk result (IsSum tally own) }
{
    Ok(Tally {
        leaves: added(tally.leaves, own.leaves)?,
        versions: added(tally.versions, own.versions)?,
    })
}

// The records of a history are versions too.
pub(crate) fn with_records(tally: Tally, records: &[HistoryRecord]) -> Result<Tally, NoMemory>
    ensures leaves { IfOk result (λ t. t.leaves ≡ tally.leaves) }
    ensures versions { IfOk result (λ t. t.versions ≡ tally.versions + length records.now) }
{
    Ok(Tally {
        leaves: tally.leaves,
        versions: added(tally.versions, records.len() as u64)?,
    })
}

fn added(count: u64, more: u64) -> Result<u64, NoMemory>
    ensures { IfOk result (λ n. n ≡ count + more) }
{
    match count.checked_add(more) {
        Some(sum) => Ok(sum),
        None => Err(NoMemory),
    }
}
