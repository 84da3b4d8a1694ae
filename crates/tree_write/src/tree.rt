// The tree of a table, written.
ghost use Rattle.std.specs.Prelude.{◌≡◌, ◌≤◌, ◌++◌, List, Option, length, true, IfErr, IfOk, OnOk, IsTrue};
ghost use Rattle.failure.specs.Counts.{Rose};
ghost use Rattle.wt_code.specs.StoreErrors.{IsOfDisk};
ghost use Rattle.disk_model.specs.Crash.{SameDisk};
ghost use Rattle.device_layout.specs.declared.addr.Addr.{Addr as AnAddr};
ghost use Rattle.extent_list.specs.Space.{end_of};
ghost use Rattle.block_mgr.specs.Blocks.{Books};
ghost use Rattle.row_page.specs.Rows.{Row};
ghost use Rattle.leaf_rows.specs.Rows.{AreFit};
ghost use Rattle.reconcile.specs.Images.{AreImages};
ghost use Rattle.stored.specs.Stored.{Stored};
ghost use Rattle.tree_write.specs.Writes.{MayWriteOver, TreeWrites};

use crate::draft::TreeDraft;
use block_mgr::Blocks;
use device_layout::{Addr, Link};
use disk_model::Disk;
use item::Item;
use reconcile::Image;
use std::alloc::Global;
use tree_open::TreePlace;
use wt_code::StoreError;

/// Writes and captures the tree of these images, over the leaves `was` of the checkpoint before: a leaf
/// that stands there at the same place among the leaves with the same rows keeps its block (its block
/// is read where the greatest name and the greatest stamp are the same); any other is written anew, and
/// so is each inner page. `captured` gets the address of each block as it is captured, also before an
/// error.
///
/// `NoSpace` comes only where the device has no room for all blocks of the tree that are to be written.
/// After a want of memory or of room, or a read that failed, what is captured is on the device; after
/// a write or a sync that failed the checkpoint before stands in each image. `O(bytes)` of the images,
/// and of the leaves that are read.
pub fn write_tree<D: Disk>(
    alloc: Global,
    disk: &mut D,
    blocks: &mut Blocks,
    was: &[Link],
    images: Vec<Image>,
    captured: &mut Vec<Addr>,
) -> Result<TreePlace, StoreError>
    requires rows { (rows : List Row) × AreImages images.items rows × AreFit rows }
    requires held { blocks.old.is_held ≡ true }
    requires ready { IsTrue (D.honest disk.old) → end_of blocks.old.space ≤ length (D.seen disk.old) }
    ensures writes { (rows : List Row) → AreImages images.items rows → AreFit rows → IsTrue (D.honest disk.old) → (old : Option Stored) (first : Books) → MayWriteOver (D.seen disk.old) (D.may_leave disk.old) first blocks.old old was.now
        → (addrs : List AnAddr) × (captured.new.items ≡ captured.old.items ++ addrs) × TreeWrites D.Disk old first was.now rows addrs blocks.old blocks.new disk.old disk.new result }
    ensures low { IfOk result (λ p. p.root.level ≤ 60) }
    ensures ready { IsTrue (D.honest disk.old) → OnOk result (end_of blocks.new.space ≤ length (D.seen disk.new)) }
    ensures held { blocks.new.is_held ≡ true }
    ensures fault { IfErr result (λ e. IsOfDisk e → Rose (D.faults disk.old) (D.faults disk.new)) }
    ensures disk { SameDisk D.Disk disk.old disk.new }
{
    let mut draft = TreeDraft::new(alloc);
    let low = Item::new(Vec::new(alloc));
    match draft.write(alloc, disk, blocks, &low, was, &images, captured) {
        Ok(()) => draft.finish(alloc, disk, blocks, captured),
        Err(error) => Err(error),
    }
}
