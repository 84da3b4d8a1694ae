// The finish of a checkpoint.
ghost use Rattle.std.specs.Prelude.{◌≡◌, ◌⊎◌, ◌^◌, ◌≤◌, ◌<◌, length, true, false, IfErr, IfOk, OnErr, OnOk, IsTrue};
ghost use Rattle.failure.specs.Counts.{Rose};
ghost use Rattle.wt_code.specs.StoreErrors.{IsOfDisk};
ghost use Rattle.disk_model.specs.Crash.{SameDisk};
ghost use Rattle.extent_list.specs.Space.{end_of};
ghost use Rattle.block_mgr.specs.Blocks.{HasLive, unit_of};
ghost use Rattle.block_mgr.specs.Cells.{AreUnits, captured, freed};
ghost use Rattle.checkpoint_core.specs.Finishes.{AreBack, FinishesFor, Installs, IsLastNow, KeepsAfter, ReadsAfter, ReadsThen, WhereReady, WhereWritten};

use block_mgr::{Addr, Blocks};
use disk_model::Disk;
use failure::Fault;
use turtle::{Slot, install};
use wt_code::StoreError;

/// Writes the image of the running checkpoint's record, syncs, and installs the slot that names it.
/// The other blocks of the checkpoint are written and captured. The answer is the record's address:
/// the checkpoint is the last completed one then, and what only the one before had is free. The image
/// is copied only where it has no room for the zeros that fill up its block.
///
/// `NoSpace` comes exactly where no free extent has room for the record and the end would move past
/// the capacity. After any error the checkpoint still runs, with the blocks that it had: the caller
/// goes on with it or gives it up. After `Down` the device has the old checkpoint or, where the slot's
/// gate was being opened, the new one; after another error the old one stands as it did. After any
/// answer but `Down` each block that was in use is read as it was.
///
/// It is for an honest disk on which the old checkpoint stands, and all of the new one but its
/// record (`WhereReady`).
pub fn finish<D: Disk>(
    disk: &mut D,
    blocks: &mut Blocks,
    sequence: u64,
    image: Vec<u8>,
) -> Result<Addr, StoreError>
    requires some { 1 ≤ length image.items }
    requires most { length image.items ≤ 2 ^ 20 }
    requires sequence { sequence < 2 ^ 62 }
    requires held { blocks.old.is_held ≡ true }
    requires ready { IsTrue (D.honest disk.old) → (8192 ≤ length (D.seen disk.old)) × (end_of blocks.old.space ≤ length (D.seen disk.old)) }
    ensures finishes { FinishesFor D.Disk blocks.old image.items sequence disk.old disk.new result }
    ensures reads { WhereReady D.Disk blocks.old image.items sequence disk.old (λ old new. ReadsAfter D.Disk blocks.new old new disk.new result) }
    ensures keeps { WhereReady D.Disk blocks.old image.items sequence disk.old (λ old new. KeepsAfter D.Disk blocks.old disk.old disk.new result) }
    ensures last { IfOk result (IsLastNow blocks.old blocks.new) }
    ensures units { OnOk result (AreUnits blocks.new.cells blocks.new.space) }
    ensures back { OnErr result (AreBack blocks.old blocks.new) }
    ensures ended { OnOk result (blocks.new.is_held ≡ false) }
    ensures runs { OnErr result (blocks.new.is_held ≡ true) }
    ensures fault { IfErr result (λ e. IsOfDisk e → Rose (D.faults disk.old) (D.faults disk.new)) }
    ensures disk { SameDisk D.Disk disk.old disk.new }
{
    let addr = match blocks.write(disk, image) {
        Ok(addr) => addr,
        Err(error) => return Err(error),
    };
    match sync_and_install(disk, Slot::new(sequence, addr)) {
        Ok(()) => {
            hand_over(blocks, addr);
            blocks.ckpt_done();
            Ok(addr)
        }
        Err(error) => {
            blocks.free(addr);
            Err(error)
        }
    }
}

// The running checkpoint has a block of the live tree, and the live tree has it no longer.
fn hand_over(blocks: &mut Blocks, addr: Addr)
    requires live { HasLive blocks.old.cells addr.offset addr.size }
    requires held { blocks.old.is_held ≡ true }
    ensures cells { blocks.new.cells ≡ freed (captured blocks.old.cells (unit_of addr.offset)) (unit_of addr.offset) }
    ensures end { end_of blocks.new.space ≡ end_of blocks.old.space }
    ensures held { blocks.new.is_held ≡ true }
{
    blocks.capture(addr);
    blocks.free(addr);
}

// Syncs what was written, and installs the slot that names the record there.
fn sync_and_install<D: Disk>(disk: &mut D, slot: Slot) -> Result<(), StoreError>
    requires sequence { slot.sequence < 2 ^ 62 }
    requires long { IsTrue (D.honest disk.old) → 8192 ≤ length (D.seen disk.old) }
    ensures leaves { WhereWritten D.Disk slot disk.old (λ old new. Installs D.Disk old new disk.old disk.new result) }
    ensures reads { WhereWritten D.Disk slot disk.old (λ old new. ReadsThen D.Disk old new disk.old disk.new result) }
    ensures kind { IfErr result IsOfDisk }
    ensures rose { OnErr result (Rose (D.faults disk.old) (D.faults disk.new)) }
    ensures disk { SameDisk D.Disk disk.old disk.new }
{
    match disk.sync() {
        Ok(()) => install(disk, slot),
        Err(_) => Err(StoreError::Down(Fault::Sync)),
    }
}
