// The history, written.
ghost use Rattle.std.specs.Prelude.{◌≡◌, ◌≤◌, ◌++◌, List, Option, length, true, IfErr, IfOk, OnOk, IsTrue};
ghost use Rattle.failure.specs.Counts.{Rose};
ghost use Rattle.wt_code.specs.StoreErrors.{IsOfDisk};
ghost use Rattle.disk_model.specs.Crash.{SameDisk};
ghost use Rattle.device_layout.specs.declared.addr.Addr.{Addr as AnAddr};
ghost use Rattle.extent_list.specs.Space.{end_of};
ghost use Rattle.block_mgr.specs.Blocks.{Books};
ghost use Rattle.stored.specs.Stored.{Stored};
ghost use Rattle.stored.specs.HistoryTree.{HistoryRecord as StoredRecord};
ghost use Rattle.tree_write.specs.Captures.{MayWrite};
ghost use Rattle.hist_write.specs.Writes.{AreWritable, HistoryWrites};

use crate::entries::nowhere;
use crate::leaves::write_leaves;
use crate::levels::rise;
use block_mgr::Blocks;
use checkpoint_record::Root;
use device_layout::Addr;
use disk_model::Disk;
use hist_pages::HistoryLeaf;
use std::alloc::Global;
use wt_code::StoreError;

/// Where a history stands on a device.
#[derive(Drop)]
pub struct HistoryPlace {
    /// Its level, and what leads to its root: to its one leaf where the level is 0, and nowhere where it
    /// has no records.
    pub root: Root,
    /// Where its blocks stand: the inner pages, from the root down, and then the leaves.
    pub addrs: Vec<Addr>,
}

/// Writes and captures the history of these leaves, and the inner pages above them, each with as many
/// entries as it has room for, and gives where it stands: nowhere where there are no leaves. Each block is
/// new. `captured` gets the address of each block as it is captured, also before an error.
///
/// `NoSpace` comes only where the device has no room for all its blocks. After a want of memory or of
/// room what is captured is on the device; after a write or a sync that failed the checkpoint before
/// stands in each image. `O(bytes)` of the blocks.
pub fn write_history<D: Disk>(
    alloc: Global,
    disk: &mut D,
    blocks: &mut Blocks,
    leaves: Vec<HistoryLeaf>,
    captured: &mut Vec<Addr>,
) -> Result<HistoryPlace, StoreError>
    requires records { (records : List StoredRecord) × AreWritable leaves.items records }
    requires held { blocks.old.is_held ≡ true }
    requires ready { IsTrue (D.honest disk.old) → end_of blocks.old.space ≤ length (D.seen disk.old) }
    ensures writes { (records : List StoredRecord) → AreWritable leaves.items records → IsTrue (D.honest disk.old) → (old : Option Stored) (first : Books) → MayWrite (D.seen disk.old) (D.may_leave disk.old) blocks.old old
        → (addrs : List AnAddr) × (captured.new.items ≡ captured.old.items ++ addrs) × HistoryWrites D.Disk old first records addrs blocks.old blocks.new disk.old disk.new result }
    ensures low { IfOk result (λ p. p.root.level ≤ 60) }
    ensures ready { IsTrue (D.honest disk.old) → OnOk result (end_of blocks.new.space ≤ length (D.seen disk.new)) }
    ensures held { blocks.new.is_held ≡ true }
    ensures fault { IfErr result (λ e. IsOfDisk e → Rose (D.faults disk.old) (D.faults disk.new)) }
    ensures disk { SameDisk D.Disk disk.old disk.new }
{
    if leaves.is_empty() {
        return Ok(HistoryPlace {
            root: Root {
                level: 0,
                link: nowhere(),
            },
            addrs: Vec::new(alloc),
        });
    }
    match write_leaves(alloc, disk, blocks, leaves, captured) {
        Ok(entries) => rise(alloc, disk, blocks, entries, captured),
        Err(error) => Err(error),
    }
}
