// How a command comes to its engine, or to its reader.
ghost use Rattle.std.specs.Prelude.{◌≡◌, ◌⊎◌, length, Some, IfOk, IfErr, OnOk, IsTrue};
ghost use Rattle.disk_model.specs.Crash.{Looked};
ghost use Rattle.engine_store.specs.Opened.{IsReady, RefusesOpen};
ghost use Rattle.device_read.specs.Readers.{IsReaderOf};
ghost use Rattle.device_read.specs.Refusals.{RefusesOpen as RefusesReader};
ghost use Rattle.device_read.specs.Steps.{CanOpen, HasNumbersAbove, RefusesSurveyed};
ghost use Rattle.wt_tool.specs.Parts.{IsOfAttach, IsOpenedOn};
ghost use Rattle.wt_tool.specs.Top.{IsReadable};

use device_read::{Reader, open};
use disk_model::{Home, Unattached};
use engine_store::{FRAMES, Frames, Store, open_on};
use std::alloc::Global;
use wt_code::Refusal;

// Attaches the disk, and makes an engine on what it holds. It changes nothing.
pub(crate) fn reach<D: Home>(alloc: Global, disk: &mut D, home: &str) -> Result<Store, Refusal>
    ensures ok { IsTrue (D.honest disk.old) → IfOk result (IsOpenedOn D.Disk disk.new) }
    ensures readable { IsTrue (D.honest disk.old) → OnOk result (IsReadable (D.seen disk.old)) }
    ensures ready { IfOk result IsReady }
    ensures none { IfOk result (λ s. length s.engine.sessions ≡ 0) }
    ensures err { IfErr result (RefusesOpen D.Disk (IsTrue (D.honest disk.old)) disk.old disk.new) }
    ensures told { IfOk result (λ s. D.home disk.new ≡ Some home.now) }
    ensures untold { (D.home disk.new ≡ Some home.now) ⊎ ((D.home disk.new ≡ D.home disk.old) × IfErr result IsOfAttach) }
    ensures looked { Looked D.Disk disk.old disk.new }
{
    match disk.attach(alloc, home) {
        Ok(()) => open_on(alloc, disk, Frames::Soft(FRAMES)),
        Err(Unattached::Failed) => Err(Refusal::DiskFault),
        Err(Unattached::NoMemory) => Err(Refusal::NoMemory),
    }
}

// Attaches the disk, and makes a reader of what it holds: the record, the inner pages and the history are
// read, and no leaf of a table. It changes nothing, and makes no engine.
pub(crate) fn reach_reader<D: Home>(
    alloc: Global,
    disk: &mut D,
    home: &str,
) -> Result<Reader, Refusal>
    ensures ok { IsTrue (D.honest disk.old) → IfOk result (IsReaderOf (D.seen disk.old)) }
    ensures numbers { IsTrue (D.honest disk.old) → OnOk result (HasNumbersAbove (D.seen disk.old)) }
    ensures err { IfErr result (RefusesReader D.Disk (IsTrue (D.honest disk.old)) disk.old disk.new) }
    ensures sole { IsTrue (D.honest disk.old) → CanOpen (D.seen disk.old) → IfErr result (RefusesSurveyed (D.seen disk.old)) }
    ensures told { IfOk result (λ found. D.home disk.new ≡ Some home.now) }
    ensures untold { (D.home disk.new ≡ Some home.now) ⊎ ((D.home disk.new ≡ D.home disk.old) × IfErr result IsOfAttach) }
    ensures looked { Looked D.Disk disk.old disk.new }
{
    match disk.attach(alloc, home) {
        Ok(()) => open(alloc, disk),
        Err(Unattached::Failed) => Err(Refusal::DiskFault),
        Err(Unattached::NoMemory) => Err(Refusal::NoMemory),
    }
}
