// One block onto a disk, behind a sync where none was made since the opening.
ghost use Rattle.std.specs.Prelude.{◌≡◌, ◌+◌, ◌≤◌, List, ℕ, length, false, IfErr, OnOk, OnErr, IsTrue};
ghost use Rattle.failure.specs.Counts.{Rose};
ghost use Rattle.disk_model.specs.Disk.{put};
ghost use Rattle.disk_model.specs.Crash.{SameDisk, LeavesOnly, Each};
ghost use Rattle.block_mgr.specs.Writes.{Base, FromBase, Stored, StoreFault};

use disk_model::Disk;
use failure::Fault;

// Syncs where that was not done.
fn sync_once<D: Disk>(disk: &mut D, is_synced: bool) -> Result<(), Fault>
    ensures leaves { LeavesOnly D.Disk disk.old disk.new (D.may_leave disk.old) }
    ensures images { OnOk result (Each (D.may_leave disk.new) (Base is_synced (D.seen disk.old) (D.may_leave disk.old))) }
    ensures seen { OnOk result (D.seen disk.new ≡ D.seen disk.old) }
    ensures fault { IfErr result (λ e. (e ≡ Fault.Sync) × (is_synced ≡ false)) }
    ensures rose { OnErr result (Rose (D.faults disk.old) (D.faults disk.new)) }
    ensures disk { SameDisk D.Disk disk.old disk.new }
{
    if is_synced {
        return Ok(());
    }
    match disk.sync() {
        Ok(()) => Ok(()),
        Err(_) => Err(Fault::Sync),
    }
}

// Writes the bytes of a block. The error is the call that failed.
pub(crate) fn store<D: Disk>(
    disk: &mut D,
    is_synced: bool,
    at: u64,
    bytes: &[u8],
) -> Result<(), Fault>
    requires { IsTrue (D.honest disk.old) → at ≤ length (D.seen disk.old) }
    ensures leaves { LeavesOnly D.Disk disk.old disk.new (Stored is_synced at (length bytes.now) (D.seen disk.old) (D.may_leave disk.old)) }
    ensures images { OnOk result (Each (D.may_leave disk.new) (FromBase is_synced at (length bytes.now) (D.seen disk.old) (D.may_leave disk.old))) }
    ensures written { IsTrue (D.honest disk.old) → OnOk result (D.seen disk.new ≡ put (D.seen disk.old) at bytes.now) }
    ensures fault { IfErr result (StoreFault D.Disk is_synced at disk.old disk.new) }
    ensures rose { OnErr result (Rose (D.faults disk.old) (D.faults disk.new)) }
    ensures disk { SameDisk D.Disk disk.old disk.new }
{
    match sync_once(disk, is_synced) {
        Ok(()) => {}
        Err(fault) => return Err(fault),
    }
    match disk.write_at(at, bytes) {
        Ok(()) => Ok(()),
        Err(_) => Err(Fault::Write(at)),
    }
}
