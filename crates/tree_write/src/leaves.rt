// The leaves of a tree.
ghost use Rattle.std.specs.Prelude.{◌≡◌, ◌≤◌, ◌++◌, List, Option, length, true, IfErr, IfOk, OnOk, IsTrue};
ghost use Rattle.std.specs.List.{AllByRecursion};
ghost use Rattle.failure.specs.Counts.{Rose};
ghost use Rattle.wt_code.specs.StoreErrors.{IsOfDisk};
ghost use Rattle.disk_model.specs.Crash.{SameDisk};
ghost use Rattle.device_layout.specs.declared.addr.Addr.{Addr as AnAddr};
ghost use Rattle.extent_list.specs.Space.{end_of};
ghost use Rattle.block_mgr.specs.Blocks.{Books};
ghost use Rattle.row_page.specs.Rows.{Row};
ghost use Rattle.stored.specs.Links.{LinkFits};
ghost use Rattle.stored.specs.Stored.{Stored};
ghost use Rattle.stored.specs.TableTree.{Entry as StoredEntry};
ghost use Rattle.tree_write.specs.Steps.{AreSpelled, LeavesWrite, key_at, keys_of, part_keys};
ghost use Rattle.tree_write.specs.Writes.{MayWriteOver};

use crate::entries::link_at;
use crate::leaf::write_leaf;
use block_mgr::Blocks;
use device_layout::{Addr, Link};
use disk_model::Disk;
use failure::NoMemory;
use inner_page::Entry;
use item::Item;
use reconcile::Image;
use std::alloc::Global;
use wt_code::StoreError;

// Writes and captures the leaves of a part, of its images, where `was` has those of the checkpoint
// before by place, and gives the entries that lead to them: the first has the low key, and each other
// one that of its image.
pub(crate) fn write_leaves<D: Disk>(
    alloc: Global,
    disk: &mut D,
    blocks: &mut Blocks,
    low: &Item,
    was: &[Link],
    images: &[Image],
    captured: &mut Vec<Addr>,
) -> Result<Vec<Entry>, StoreError>
    requires leaves { (leaves : List (List Row)) × AreSpelled images.now leaves }
    requires held { blocks.old.is_held ≡ true }
    requires ready { IsTrue (D.honest disk.old) → end_of blocks.old.space ≤ length (D.seen disk.old) }
    ensures keys { IfOk result (λ v. keys_of v.items ≡ part_keys low.now images.now) }
    ensures fits { IfOk result (λ v. AllByRecursion (λ (e : StoredEntry). LinkFits e.link) v.items) }
    ensures writes { (leaves : List (List Row)) → AreSpelled images.now leaves → IsTrue (D.honest disk.old) → (old : Option Stored) (first : Books) → MayWriteOver (D.seen disk.old) (D.may_leave disk.old) first blocks.old old was.now
        → (addrs : List AnAddr) × (captured.new.items ≡ captured.old.items ++ addrs) × LeavesWrite D.Disk old first blocks.old blocks.new disk.old disk.new was.now leaves addrs result }
    ensures ready { IsTrue (D.honest disk.old) → OnOk result (end_of blocks.new.space ≤ length (D.seen disk.new)) }
    ensures held { blocks.new.is_held ≡ true }
    ensures fault { IfErr result (λ e. IsOfDisk e → Rose (D.faults disk.old) (D.faults disk.new)) }
    ensures disk { SameDisk D.Disk disk.old disk.new }
{
    let Ok(mut entries) = Vec::with_capacity(alloc, images.len()) else {
        return Err(StoreError::NoMemory);
    };
    for i in 0..images.len() {
        let image = &images[i];
        let Ok(key) = key_of(low, i, image) else {
            return Err(StoreError::NoMemory);
        };
        match write_leaf(alloc, disk, blocks, link_at(was, i), image, captured) {
            Ok(link) => entries.push_reserved(Entry { key, link }),
            Err(error) => return Err(error),
        }
    }
    Ok(entries)
}

/// The key of the entry that leads to the image at a place of a part with this low key: the part's
/// low key for the first image, and its own for each other one. `O(key)`.
pub fn key_of(low: &Item, place: usize, image: &Image) -> Result<Item, NoMemory>
    ensures { IfOk result (λ k. k ≡ key_at low.now place image.now) }
{
    if place == 0 {
        low.copy()
    } else {
        image.low.copy()
    }
}
