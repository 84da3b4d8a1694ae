// One leaf in a block that the live tree alone has.
ghost use Rattle.std.specs.Prelude.{◌≡◌, ◌≤◌, List, Option, length, IfErr, IfOk, OnErr, IsTrue};
ghost use Rattle.failure.specs.Counts.{Rose};
ghost use Rattle.wt_code.specs.StoreErrors.{IsOfDisk};
ghost use Rattle.disk_model.specs.Crash.{SameDisk};
ghost use Rattle.extent_list.specs.Space.{end_of};
ghost use Rattle.block_mgr.specs.Writes.{Added};
ghost use Rattle.row_page.specs.Rows.{Row};
ghost use Rattle.reconcile.specs.Images.{SpellsRows};
ghost use Rattle.stored.specs.Links.{LinkFits};
ghost use Rattle.stored.specs.Stored.{Stored};
ghost use Rattle.tree_write.specs.Captures.{MayWrite};
ghost use Rattle.tree_write.specs.Steps.{key_at};
ghost use Rattle.leaf_write.specs.Writes.{IsKnown, WritesLeaf};

use block_mgr::Blocks;
use disk_model::Disk;
use inner_page::Entry;
use item::Item;
use reconcile::Image;
use tree_write::{key_of, link_to};
use wt_code::StoreError;

// Writes the leaf of the image at a place of a part with this low key, and gives the entry that leads to
// it. The key is copied first: where there is no memory for it nothing is written.
pub(crate) fn write_leaf<D: Disk>(
    disk: &mut D,
    blocks: &mut Blocks,
    low: &Item,
    place: usize,
    image: &Image,
) -> Result<Entry, StoreError>
    requires rows { (rows : List Row) × SpellsRows image.now rows }
    requires ready { IsTrue (D.honest disk.old) → end_of blocks.old.space ≤ length (D.seen disk.old) }
    ensures key { IfOk result (λ e. e.key ≡ key_at low.now place image.now) }
    ensures fits { IfOk result (λ e. LinkFits e.link) }
    ensures added { IfOk result (λ e. Added blocks.old blocks.new e.link.addr) }
    ensures same { OnErr result (blocks.new ≡ blocks.old) }
    ensures writes { (rows : List Row) → SpellsRows image.now rows → IsTrue (D.honest disk.old) → (old : Option Stored) → MayWrite (D.seen disk.old) (D.may_leave disk.old) blocks.old old
        → WritesLeaf D.Disk old blocks.old blocks.new disk.old disk.new rows result }
    ensures ready { IsTrue (D.honest disk.old) → IsKnown result → end_of blocks.new.space ≤ length (D.seen disk.new) }
    ensures held { blocks.new.is_held ≡ blocks.old.is_held }
    ensures fault { IfErr result (λ e. IsOfDisk e → Rose (D.faults disk.old) (D.faults disk.new)) }
    ensures disk { SameDisk D.Disk disk.old disk.new }
{
    let Ok(key) = key_of(low, place, image) else {
        return Err(StoreError::NoMemory);
    };
    match blocks.write_block(disk, &image.block) {
        Err(error) => Err(error),
        Ok(addr) => Ok(Entry {
            key,
            link: link_to(addr, image.greatest, image.durable),
        }),
    }
}
