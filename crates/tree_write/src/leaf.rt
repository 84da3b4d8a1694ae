// One leaf of a tree.
ghost use Rattle.std.specs.Prelude.{◌≡◌, ◌⊎◌, ◌↔◌, ◌≤◌, ◌<◌, ◌++◌, [], ◌∷◌, List, Option, length, true, false, vec_capacity, vec_len, IfErr, IfOk, OnOk, IsTrue};
ghost use Rattle.failure.specs.Counts.{Rose};
ghost use Rattle.wt_code.specs.StoreErrors.{IsOfDisk};
ghost use Rattle.wt_code.specs.declared.store_error.StoreError.TheVariants.{NoMemory as WantOfMemory, Read as FailedRead};
ghost use Rattle.disk_model.specs.Crash.{SameDisk, Looked};
ghost use Rattle.disk_model.specs.Ranges.{range};
ghost use Rattle.device_layout.specs.declared.addr.Addr.{Addr as AnAddr};
ghost use Rattle.extent_list.specs.Space.{end_of};
ghost use Rattle.block_mgr.specs.Blocks.{Books, HasLive};
ghost use Rattle.block_mgr.specs.Places.{IsThere};
ghost use Rattle.row_page.specs.Rows.{IsPage, Row, image};
ghost use Rattle.row_page.specs.Greatest.{names_of, durables_of};
ghost use Rattle.reconcile.specs.Images.{SpellsRows};
ghost use Rattle.stored.specs.Links.{LinkFits, SaysOf};
ghost use Rattle.stored.specs.Stored.{Stored};
ghost use Rattle.device_leaf.specs.Leaves.{LeafIs};
ghost use Rattle.tree_write.specs.Captures.{MayWrite, StaysLive};
ghost use Rattle.tree_write.specs.Steps.{BlockWrites, LeafWrites};
ghost use Rattle.tree_write.specs.Writes.{IsLiveLeaf};

use crate::blocks::capture;
use crate::entries::link_to;
use block_mgr::Blocks;
use device_layout::{Addr, Link};
use disk_model::Disk;
use reconcile::Image;
use std::alloc::Global;
use wt_code::{Refusal, StoreError};

// Writes and captures the leaf of an image, lists its address, and gives what leads to it. `was` is
// the link of the checkpoint before: where the same leaf stands there, it is captured as it is. Where
// the greatest name and the greatest durable stamp are those of before, the block of before is read;
// one is written unless it has the same bytes.
pub(crate) fn write_leaf<D: Disk>(
    alloc: Global,
    disk: &mut D,
    blocks: &mut Blocks,
    was: Link,
    image: &Image,
    captured: &mut Vec<Addr>,
) -> Result<Link, StoreError>
    requires rows { (rows : List Row) × SpellsRows image.now rows }
    requires held { blocks.old.is_held ≡ true }
    requires ready { IsTrue (D.honest disk.old) → end_of blocks.old.space ≤ length (D.seen disk.old) }
    ensures fits { IfOk result LinkFits }
    ensures writes { (rows : List Row) → SpellsRows image.now rows → IsTrue (D.honest disk.old) → (old : Option Stored) (first : Books) → MayWrite (D.seen disk.old) (D.may_leave disk.old) blocks.old old → StaysLive first blocks.old → IsLiveLeaf first was
        → (addrs : List AnAddr) × (captured.new.items ≡ captured.old.items ++ addrs) × LeafWrites D.Disk old first blocks.old blocks.new disk.old disk.new was rows addrs result }
    ensures ready { IsTrue (D.honest disk.old) → OnOk result (end_of blocks.new.space ≤ length (D.seen disk.new)) }
    ensures held { blocks.new.is_held ≡ true }
    ensures fault { IfErr result (λ e. IsOfDisk e → Rose (D.faults disk.old) (D.faults disk.new)) }
    ensures disk { SameDisk D.Disk disk.old disk.new }
{
    let Ok(()) = captured.reserve(1) else {
        return Err(StoreError::NoMemory);
    };
    match has_leaf(alloc, disk, blocks, was, image) {
        Err(error) => Err(error),
        Ok(true) => {
            capture(blocks, was.addr, captured);
            Ok(was)
        }
        Ok(false) => match write_new(disk, blocks, &image.block, captured) {
            Err(error) => Err(error),
            Ok(addr) => Ok(link_to(addr, image.greatest, image.durable)),
        },
    }
}

// Writes and captures the block of a new leaf, and lists its address, for which there is room.
fn write_new<D: Disk>(
    disk: &mut D,
    blocks: &mut Blocks,
    block: &[u8],
    captured: &mut Vec<Addr>,
) -> Result<Addr, StoreError>
    requires rows { (rows : List Row) × IsPage block.now rows }
    requires room { vec_len captured.old < vec_capacity captured.old }
    requires held { blocks.old.is_held ≡ true }
    requires ready { IsTrue (D.honest disk.old) → end_of blocks.old.space ≤ length (D.seen disk.old) }
    ensures writes { (rows : List Row) → IsPage block.now rows → IsTrue (D.honest disk.old) → (old : Option Stored) (first : Books) → MayWrite (D.seen disk.old) (D.may_leave disk.old) blocks.old old
        → BlockWrites D.Disk old first blocks.old blocks.new disk.old disk.new (image rows) result }
    ensures listed { IfOk result (λ a. captured.new.items ≡ captured.old.items ++ a ∷ []) }
    ensures none { IfErr result (λ _. captured.new.items ≡ captured.old.items) }
    ensures ready { IsTrue (D.honest disk.old) → OnOk result (end_of blocks.new.space ≤ length (D.seen disk.new)) }
    ensures held { blocks.new.is_held ≡ true }
    ensures fault { IfErr result (λ e. IsOfDisk e → Rose (D.faults disk.old) (D.faults disk.new)) }
    ensures disk { SameDisk D.Disk disk.old disk.new }
{
    match blocks.write_block(disk, block) {
        Err(error) => Err(error),
        Ok(addr) => {
            capture(blocks, addr, captured);
            Ok(addr)
        }
    }
}

// Whether the live tree has the leaf of the link, and it is this one.
fn has_leaf<D: Disk>(
    alloc: Global,
    disk: &mut D,
    blocks: &Blocks,
    link: Link,
    image: &Image,
) -> Result<bool, StoreError>
    ensures live { IfOk result (λ b. IsTrue b → HasLive blocks.now.cells link.addr.offset link.addr.size) }
    ensures is { (rows : List Row) → SpellsRows image.now rows → IsTrue (D.honest disk.old) → IfOk result (λ b. IsTrue b → LeafIs (D.seen disk.old) link rows) }
    ensures isnt { (rows : List Row) → SpellsRows image.now rows → IsTrue (D.honest disk.old) → IfOk result (λ b. b ≡ false → LeafIs (D.seen disk.old) link rows → HasLive blocks.now.cells link.addr.offset link.addr.size → ⊥) }
    ensures err { IfErr result (λ e. (e ≡ WantOfMemory) ⊎ ((e ≡ FailedRead) × Rose (D.faults disk.old) (D.faults disk.new))) }
    ensures looked { Looked D.Disk disk.old disk.new }
    ensures home { D.home disk.new ≡ D.home disk.old }
{
    if says(link, image) && blocks.is_live(link.addr) {
        has_block(alloc, disk, blocks, link.addr, &image.block)
    } else {
        Ok(false)
    }
}

// Whether the link says the greatest of the image's rows.
fn says(link: Link, image: &Image) -> bool
    ensures { (rows : List Row) → SpellsRows image.now rows → (IsTrue result ↔ SaysOf link (names_of rows) (durables_of rows)) }
{
    link.greatest == image.greatest && link.durable == image.durable
}

// Whether the device has these bytes at an address, with the sum that it says. A block that is
// spoilt is another one.
fn has_block<D: Disk>(
    alloc: Global,
    disk: &mut D,
    blocks: &Blocks,
    addr: Addr,
    block: &[u8],
) -> Result<bool, StoreError>
    ensures is { IsTrue (D.honest disk.old) → IfOk result (λ b. IsTrue b → IsThere (D.seen disk.old) addr × (block.now ≡ range (D.seen disk.old) addr.offset addr.size)) }
    ensures isnt { IsTrue (D.honest disk.old) → IfOk result (λ b. b ≡ false → IsThere (D.seen disk.old) addr → block.now ≡ range (D.seen disk.old) addr.offset addr.size → ⊥) }
    ensures err { IfErr result (λ e. (e ≡ WantOfMemory) ⊎ ((e ≡ FailedRead) × Rose (D.faults disk.old) (D.faults disk.new))) }
    ensures looked { Looked D.Disk disk.old disk.new }
    ensures home { D.home disk.new ≡ D.home disk.old }
{
    match blocks.read(alloc, disk, addr) {
        Ok(bytes) => Ok(bytes.as_slice() == block),
        Err(Refusal::NoMemory) => Err(StoreError::NoMemory),
        Err(Refusal::DiskFault) => Err(StoreError::Read),
        Err(_) => Ok(false),
    }
}
