// The record that a slot names.
ghost use Rattle.std.specs.Prelude.{◌≡◌, ◌≢◌, ◌↔◌, IfOk, IfErr, IsTrue};
ghost use Rattle.stored.specs.Records.{IsRecord};
ghost use Rattle.failure.specs.Counts.{Rose};
ghost use Rattle.disk_model.specs.Crash.{Looked};
ghost use Rattle.device_leaf.specs.Damage.{IsChosen};
ghost use Rattle.device_leaf.specs.NoHistory.{no_root};
ghost use Rattle.tree_open.specs.Damage.{Refused};
ghost use Rattle.recover_open.specs.Bare.{IsBare};
ghost use Rattle.recover_open.specs.Damage.{Names, RecordSpoils};
ghost use Rattle.recover_open.specs.Surveys.{RefusesSurvey, HasRecord, HasBareRecord, IsOfDisk, IsOwn, IsSound, IsRecordOf, RecordRefused};

use block_mgr::read_block;
use checkpoint_record::{Record, Root, TableRoot, decode};
use device_layout::Addr;
use device_leaf::is_nowhere;
use disk_model::Disk;
use std::alloc::Global;
use turtle::Slot;
use wt_code::{Limit, Refusal};

// The record that a slot names, of a bare checkpoint.
pub(crate) fn record_at<D: Disk>(alloc: Global, disk: &mut D, slot: Slot) -> Result<Record, Refusal>
    ensures ok { IsTrue (D.honest disk.old) → IsChosen (D.seen disk.old) slot → IfOk result (Names (D.seen disk.old) slot) }
    ensures sound { IfOk result (IsSound slot) }
    ensures err { IfErr result (RefusesSurvey D.Disk (IsTrue (D.honest disk.old) × IsChosen (D.seen disk.old) slot) disk.old disk.new) }
    ensures sole { IsTrue (D.honest disk.old) → HasBareRecord (D.seen disk.old) slot → IfErr result IsOfDisk }
    ensures looked { Looked D.Disk disk.old disk.new }
    ensures home { D.home disk.new ≡ D.home disk.old }
{
    let found = match any_record_at(alloc, disk, slot) {
        Ok(found) => found,
        Err(refusal) => return Err(refusal),
    };
    if is_bare(&found) {
        Ok(found)
    } else {
        Err(Refusal::Limit(Limit::Image))
    }
}

// The record that a slot names.
pub(crate) fn any_record_at<D: Disk>(
    alloc: Global,
    disk: &mut D,
    slot: Slot,
) -> Result<Record, Refusal>
    ensures ok { IsTrue (D.honest disk.old) → IsChosen (D.seen disk.old) slot → IfOk result (Names (D.seen disk.old) slot) }
    ensures own { IfOk result (IsOwn slot) }
    ensures err { IfErr result (Refused (Rose (D.faults disk.old) (D.faults disk.new)) (IsTrue (D.honest disk.old) × IsChosen (D.seen disk.old) slot) (RecordSpoils (D.seen disk.old))) }
    ensures sole { IsTrue (D.honest disk.old) → HasRecord (D.seen disk.old) slot → IfErr result IsOfDisk }
    ensures looked { Looked D.Disk disk.old disk.new }
    ensures home { D.home disk.new ≡ D.home disk.old }
{
    match read_block(alloc, disk, slot.addr()) {
        Err(refusal) => Err(refusal),
        Ok(block) => record_of(alloc, slot, &block),
    }
}

// The record of a block, where it is one that suits the slot.
fn record_of(alloc: Global, slot: Slot, block: &[u8]) -> Result<Record, Refusal>
    ensures ok { IfOk result (IsRecordOf slot block.now) }
    ensures err { IfErr result (RecordRefused slot block.now) }
{
    match decode(alloc, block) {
        Err(_) => Err(Refusal::NoMemory),
        Ok(None) => Err(no_record(slot)),
        Ok(Some(found)) => suited(slot, found),
    }
}

fn suited(slot: Slot, found: Record) -> Result<Record, Refusal>
    requires { IsRecord found }
    ensures ok { IfOk result (λ r. (r ≡ found) × IsOwn slot r) }
    ensures err { IfErr result (λ e. (e ≡ Refusal.Corrupt slot.offset slot.sum slot.sum) × (found.sequence ≢ slot.sequence)) }
{
    if found.sequence == slot.sequence {
        Ok(found)
    } else {
        Err(no_record(slot))
    }
}

fn is_bare(found: &Record) -> bool
    ensures { IsTrue result ↔ IsBare found.now }
{
    is_no_root(history_of(found))
}

// The root of a record's history.
pub(crate) fn history_of(found: &Record) -> Root
    ensures { result ≡ found.now.history }
{
    found.history
}

// The tables of a record, each with its tree.
pub(crate) fn tables_of(found: &Record) -> &[TableRoot]
    ensures { result.now ≡ found.now.tables }
{
    &found.tables
}

fn is_no_root(root: Root) -> bool
    ensures yes { IsTrue result → root ≡ no_root }
    ensures no { root ≡ no_root → IsTrue result }
{
    root.level == 0 && is_nowhere(root.link)
}

// The block of the slot is that of no record of its sequence.
fn no_record(slot: Slot) -> Refusal
    ensures { result ≡ Refusal.Corrupt slot.offset slot.sum slot.sum }
{
    spoilt(slot.addr())
}

// What stands there is not what belongs there, though its sum may be right.
pub(crate) fn spoilt(addr: Addr) -> Refusal
    ensures { result ≡ Refusal.Corrupt addr.offset addr.sum addr.sum }
{
    Refusal::Corrupt {
        offset: addr.offset,
        want: addr.sum,
        found: addr.sum,
    }
}
