// The checkpoint at the end of a command.
ghost use Rattle.std.specs.Prelude.{◌≡◌, IfErr};
ghost use Rattle.failure.specs.Counts.{Rose};
ghost use Rattle.disk_model.specs.Crash.{SameDisk};
ghost use Rattle.wt_tool.specs.Led.{Leading};
ghost use Rattle.wt_tool.specs.Parts.{IsLeft, NoDamage};
ghost use Rattle.wt_tool.specs.Points.{ClosesBeside, point_of};
ghost use Rattle.engine_store.specs.Opened.{IsReady};

use disk_model::Disk;
use engine_store::Store;
use std::alloc::Global;
use std::mem::forget;
use wt_code::Refusal;

// Closes the store of a command. The command ends with it: the memory of the store goes back as a
// whole, with the process.
pub(crate) fn close<D: Disk>(alloc: Global, disk: &mut D, store: Store) -> Result<(), Refusal>
    requires ready { IsReady store }
    ensures run { Leading D.Disk store disk.old (λ start first w. IsLeft D.Disk start first (ClosesBeside store.ground.lives) (point_of D.Disk w.machine disk.old) disk.new result) }
    ensures sound { IfErr result NoDamage }
    ensures fault { IfErr result (λ r. r ≡ Refusal.DiskFault → Rose (D.faults disk.old) (D.faults disk.new)) }
    ensures disk { SameDisk D.Disk disk.old disk.new }
{
    let mut store = store;
    let closed = store.close(alloc, disk);
    forget(store);
    closed
}
