// The leaves of a part, each in a block that the live tree alone has.
ghost use Rattle.std.specs.Prelude.{◌≡◌, ◌≤◌, ℕ, List, Option, length, IfErr, IfOk, IsTrue};
ghost use Rattle.std.specs.List.{AllByRecursion};
ghost use Rattle.failure.specs.Counts.{Rose};
ghost use Rattle.wt_code.specs.StoreErrors.{IsOfDisk};
ghost use Rattle.disk_model.specs.Crash.{SameDisk};
ghost use Rattle.extent_list.specs.Space.{end_of};
ghost use Rattle.block_mgr.specs.Blocks.{Books};
ghost use Rattle.block_mgr.specs.Cells.{AreUnits, cell_at};
ghost use Rattle.row_page.specs.Rows.{Row};
ghost use Rattle.stored.specs.Links.{LinkFits};
ghost use Rattle.stored.specs.Stored.{Stored};
ghost use Rattle.stored.specs.TableTree.{Entry as StoredEntry};
ghost use Rattle.tree_write.specs.Captures.{MayWrite};
ghost use Rattle.tree_write.specs.Drafts.{addrs_to};
ghost use Rattle.tree_write.specs.Steps.{AreSpelled, keys_of, part_keys};
ghost use Rattle.leaf_write.specs.Adds.{AreAdded};
ghost use Rattle.leaf_write.specs.Writes.{IsKnown, WritesLeaves};

use crate::leaf::write_leaf;
use block_mgr::Blocks;
use disk_model::Disk;
use inner_page::Entry;
use item::Item;
use reconcile::Image;
use std::alloc::Global;
use wt_code::StoreError;

/// Writes the leaves of images, each as one block that the live tree alone has, and gives the entries
/// that lead to them: the first has the low key, and each other one that of its image.
///
/// After an error each block is held as before, whatever the error. `NoSpace` comes only where the
/// device has no room for the blocks of all leaves, in this order. The memory for the list is taken
/// before the first write, and that for a key before its leaf. `O(bytes)` of the images, and
/// `O(log n)` a leaf in the free extents.
pub fn write_leaves<D: Disk>(
    alloc: Global,
    disk: &mut D,
    blocks: &mut Blocks,
    low: &Item,
    images: &[Image],
) -> Result<Vec<Entry>, StoreError>
    requires leaves { (leaves : List (List Row)) × AreSpelled images.now leaves }
    requires ready { IsTrue (D.honest disk.old) → end_of blocks.old.space ≤ length (D.seen disk.old) }
    ensures keys { IfOk result (λ v. keys_of v.items ≡ part_keys low.now images.now) }
    ensures fits { IfOk result (λ v. AllByRecursion (λ (e : StoredEntry). LinkFits e.link) v.items) }
    ensures writes { (leaves : List (List Row)) → AreSpelled images.now leaves → IsTrue (D.honest disk.old) → (old : Option Stored) → MayWrite (D.seen disk.old) (D.may_leave disk.old) blocks.old old
        → WritesLeaves D.Disk old blocks.old blocks.new disk.old disk.new leaves result }
    ensures ready { IsTrue (D.honest disk.old) → IsKnown result → end_of blocks.new.space ≤ length (D.seen disk.new) }
    ensures held { blocks.new.is_held ≡ blocks.old.is_held }
    ensures fault { IfErr result (λ e. IsOfDisk e → Rose (D.faults disk.old) (D.faults disk.new)) }
    ensures disk { SameDisk D.Disk disk.old disk.new }
{
    let Ok(mut entries) = Vec::with_capacity(alloc, images.len()) else {
        return Err(StoreError::NoMemory);
    };
    for i in 0..images.len() {
        match write_leaf(disk, blocks, low, i, &images[i]) {
            Ok(entry) => entries.push_reserved(entry),
            Err(error) => {
                give_back(blocks, &entries);
                return Err(error);
            }
        }
    }
    Ok(entries)
}

// The live tree lets go of the blocks that were added for these entries.
fn give_back(blocks: &mut Blocks, entries: &[Entry])
    requires added { (before : Books) × AreAdded before (addrs_to entries.now) blocks.old }
    ensures cells { (before : Books) → AreAdded before (addrs_to entries.now) blocks.old → (u : ℕ) → cell_at blocks.new.cells u ≡ cell_at before.cells u }
    ensures end { end_of blocks.new.space ≡ end_of blocks.old.space }
    ensures units { AreUnits blocks.old.cells blocks.old.space → AreUnits blocks.new.cells blocks.new.space }
    ensures synced { blocks.new.is_synced ≡ blocks.old.is_synced }
    ensures held { blocks.new.is_held ≡ blocks.old.is_held }
{
    for i in 0..entries.len() {
        let entry = &entries[i];
        blocks.free(entry.link.addr);
    }
}
