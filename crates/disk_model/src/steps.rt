// A write that stays.
ghost use Rattle.std.specs.Prelude.{◌≡◌, ◌≤◌, IsTrue, OnOk, IfErr, length};
ghost use Rattle.failure.specs.Counts.{HasCause};
ghost use Rattle.disk_model.specs.Disk.{put, Only};
ghost use Rattle.disk_model.specs.Crash.{SameDisk, LeavesOnly, Each};
ghost use Rattle.disk_model.specs.Steps.{OneWrite, FailedAt};

use crate::Disk;
use failure::Fault;

/// Writes bytes and syncs them. After it a crash leaves what a read gives, the bytes in their
/// place. A crash at any moment of the call, also of one that failed, leaves an image from before
/// it, with any part of the write.
///
/// The error is the call that failed: the write, which is then the only call, or the sync behind a
/// write that was done. After either a disk is not trusted until it is opened again.
pub fn write_synced<D: Disk>(disk: &mut D, at: u64, bytes: &[u8]) -> Result<(), Fault>
    requires { IsTrue (D.honest disk.old) → at ≤ length (D.seen disk.old) }
    ensures written { IsTrue (D.honest disk.old) → OnOk result (D.seen disk.new ≡ put (D.seen disk.old) at bytes.now) }
    ensures durable { OnOk result (Only (D.seen disk.new) (D.may_leave disk.new)) }
    ensures fault { IfErr result (FailedAt D.Disk at bytes.now disk.old disk.new) }
    ensures images { Each (D.may_leave disk.new) (OneWrite at (length bytes.now) (D.may_leave disk.old)) }
    ensures leaves { LeavesOnly D.Disk disk.old disk.new (OneWrite at (length bytes.now) (D.may_leave disk.old)) }
    ensures disk { SameDisk D.Disk disk.old disk.new }
    ensures cause { HasCause (D.faults disk.old) (D.faults disk.new) result }
{
    match disk.write_at(at, bytes) {
        Ok(()) => {}
        Err(_) => return Err(Fault::Write(at)),
    }
    match disk.sync() {
        Ok(()) => Ok(()),
        Err(_) => Err(Fault::Sync),
    }
}
