// A leaf that is evicted to a block of its own, or to several, while others are at work.
ghost use Rattle.std.specs.Prelude.{◌≡◌, List, Option, Some, None, Err, length, IfErr, IfOk, OnErr, OnOk, IsTrue, option_copied};
ghost use Rattle.failure.specs.Counts.{Rose};
ghost use Rattle.failure.specs.declared.Fault.{Fault as AFault};
ghost use Rattle.wt_code.specs.StoreErrors.{IsOfDisk};
ghost use Rattle.disk_model.specs.Crash.{SameDisk};
ghost use Rattle.device_layout.specs.declared.link.Link.{Link as ALink};
ghost use Rattle.stored.specs.Stored.{Stored};
ghost use Rattle.engine_world.specs.Stands.{Stands};
ghost use Rattle.engine_world.specs.Worlds.{World};
ghost use Rattle.engine.specs.Evictions.{HasBeenEvicted};
ghost use Rattle.engine.specs.Running.{RunsAs};
ghost use Rattle.reconcile.specs.declared.image.Moved.{Moved as AMoved};
ghost use Rattle.evict_step.specs.Cuts.{AreCut};
ghost use Rattle.evict_step.specs.Kept.{KeepsThese};
ghost use Rattle.ckpt_step.specs.EvictSteps.{IsLowOf, PutsBack};
ghost use Rattle.ckpt_step.specs.Evicts.{EvictsEngine, Evicts, KeepsStill};
ghost use Rattle.ckpt_step.specs.Floors.{AreLivesOn, Follows};
ghost use Rattle.ckpt_step.specs.Grounds.{StandsOn};
ghost use Rattle.ckpt_step.specs.Takes.{IsOfCheckpoint};

use crate::emptying::leave_empty;
use crate::ground::Ground;
use crate::leaves::{may_begin_behind, stand_from};
use crate::moving_out::move_out;
use crate::parting::part_out;
use crate::writing::is_within;
use crate::writing_out::tell;
use disk_model::Disk;
use engine::{Local, RunningCheckpoint, Stays};
use evict_step::{CutOut, cut_out};
use failure::NoMemory;
use item::Item;
use leaf_write::write_leaves;
use reconcile::{Image, Made};
use std::alloc::Global;
use wt_code::{Refusal, StoreError};

/// How the eviction of a leaf went.
#[derive(Clone, Copy, Debug, PartialEq, Eq)]
pub enum Evicted {
    /// It is in no frame, and is read from its new block when a call needs it.
    Done,
    /// Its rows need more than one block: leaves of these have its place, and are in no frame.
    Parted,
    /// It holds no key, and is in no frame: it is read again as a leaf without rows.
    Emptied,
    /// It may not be evicted at this moment, or its rows need more than one block and it may not part.
    Stays(Stays),
    /// It holds a version of the transaction of this id, which has not ended: the least such that has
    /// an update in it.
    Unresolved(u64),
    /// It holds no key, and there is no block to read it from: its table was made since the last
    /// checkpoint, or its entry leads to rows of which nothing is left.
    Empty,
}

/// Evicts a leaf to a block of its own, whoever is at work, beside the checkpoint that runs, or none: the
/// newest version of each of its keys is written as one block that the live tree alone has, and the leaf
/// leaves its frame and leads to it. Older versions that somebody may still want are kept in memory
/// (`ground.kept`) until the leaf comes back (`bring_back` of `evict_step`), and a checkpoint writes them in
/// its history. Where the leaf needs more than one block it parts: leaves of these blocks take its place,
/// and are in no frame, and of each are kept the older versions of the keys that lie in it. The next
/// checkpoint keeps the blocks as they stand. Where the leaf was written since the last one before, its
/// former block is free again.
///
/// Where the leaf holds no key it leaves its frame without a block, if the last checkpoint has its table
/// and no rows of it.
///
/// But for `Done`, `Parted` and `Emptied` it stays where it is, and nothing changed. Refused where the engine is
/// down; `28 no space` where the device has no room for the blocks, one behind the other; `12 no memory`
/// also where it has become shorter than its blocks. What was written is free again then, and nothing
/// changed. A failed read leaves the engine up; a failed write takes it down, and the device has the last
/// checkpoint still.
///
/// `O(n log n)` in the sessions and what their transactions wrote, and `O(rows + updates + bytes)` of
/// the leaf, which is copied once into its images; for each one write, and one look-up among the leaves
/// and among those that were written since.
pub fn evict<D: Disk>(
    alloc: Global,
    disk: &mut D,
    ground: &mut Ground,
    engine: &mut Local,
    running: Option<&RunningCheckpoint>,
    leaf: u64,
) -> Result<Evicted, Refusal>
    ensures evicts { IsTrue (D.honest disk.old) → (w : World) → Stands engine.old w → RunsAs w.machine (option_copied running.entry) → (old : Option Stored) → StandsOn (D.seen disk.old) (D.may_leave disk.old) engine.old.hub ground.old old
        → Follows old engine.old.hub ground.old w → AreLivesOn (D.seen disk.old) engine.old.hub ground.old w → Evicts D.Disk old w ground.old ground.new engine.old engine.new leaf disk.old disk.new result }
    ensures down { (fault : AFault) → engine.old.hub.fault ≡ Some fault → (result ≡ Err (Refusal.Panic fault)) × (engine.new ≡ engine.old) × (ground.new ≡ ground.old) × (disk.new ≡ disk.old) }
    ensures refusals { IfErr result IsOfCheckpoint }
    ensures fault { IfErr result (λ r. r ≡ Refusal.DiskFault → Rose (D.faults disk.old) (D.faults disk.new)) }
    ensures number { ground.new.number ≡ ground.old.number }
    ensures trees { ground.new.trees ≡ ground.old.trees }
    ensures floor { ground.new.floor ≡ ground.old.floor }
    ensures stood { ground.new.history ≡ ground.old.history }
    ensures sessions { length engine.new.sessions ≡ length engine.old.sessions }
    ensures hub { (engine.new.hub.tables ≡ engine.old.hub.tables) × (engine.new.hub.txns ≡ engine.old.hub.txns) }
    ensures engine { EvictsEngine engine.old engine.new leaf result }
    ensures keeps { (w : World) → Stands engine.old w → KeepsThese w ground.old.kept → KeepsStill w ground.new.kept result }
    ensures disk { SameDisk D.Disk disk.old disk.new }
{
    if let Some(fault) = engine.fault() {
        return Err(Refusal::Panic { fault });
    }
    let Ok(cut) = cut_out(alloc, engine, running, leaf) else {
        return Err(Refusal::NoMemory);
    };
    let made = match cut {
        CutOut::Stays(why) => return Ok(Evicted::Stays(why)),
        CutOut::Unresolved(id) => return Ok(Evicted::Unresolved(id)),
        CutOut::Images(made) => made,
    };
    if made.images.is_empty() {
        match leave_empty(ground, engine, leaf) {
            Ok(true) => return Ok(Evicted::Emptied),
            Ok(false) => return Ok(Evicted::Empty),
            Err(_) => return Err(Refusal::NoMemory),
        }
    }
    if made.images.len() == 1 {
        return evict_whole(alloc, disk, ground, engine, running, leaf, made);
    }
    part_out(
        alloc,
        disk,
        ground,
        engine,
        running,
        leaf,
        made.images,
        made.moved,
    )
}

// Evicts a leaf that needs one block. What moves is kept before the device is touched, so that want of
// memory for it changes nothing.
fn evict_whole<D: Disk>(
    alloc: Global,
    disk: &mut D,
    ground: &mut Ground,
    engine: &mut Local,
    running: Option<&RunningCheckpoint>,
    leaf: u64,
    made: Made,
) -> Result<Evicted, Refusal>
    requires cut { AreCut engine.old (option_copied running) leaf made.images.items made.moved.items }
    requires one { length made.images.items ≡ 1 }
    ensures evicts { IsTrue (D.honest disk.old) → (w : World) → Stands engine.old w → RunsAs w.machine (option_copied running.entry) → (old : Option Stored) → StandsOn (D.seen disk.old) (D.may_leave disk.old) engine.old.hub ground.old old
        → Follows old engine.old.hub ground.old w → AreLivesOn (D.seen disk.old) engine.old.hub ground.old w → Evicts D.Disk old w ground.old ground.new engine.old engine.new leaf disk.old disk.new result }
    ensures refusals { IfErr result IsOfCheckpoint }
    ensures fault { IfErr result (λ r. r ≡ Refusal.DiskFault → Rose (D.faults disk.old) (D.faults disk.new)) }
    ensures number { ground.new.number ≡ ground.old.number }
    ensures trees { ground.new.trees ≡ ground.old.trees }
    ensures floor { ground.new.floor ≡ ground.old.floor }
    ensures stood { ground.new.history ≡ ground.old.history }
    ensures sessions { length engine.new.sessions ≡ length engine.old.sessions }
    ensures hub { (engine.new.hub.tables ≡ engine.old.hub.tables) × (engine.new.hub.txns ≡ engine.old.hub.txns) }
    ensures engine { EvictsEngine engine.old engine.new leaf result }
    ensures keeps { (w : World) → Stands engine.old w → KeepsThese w ground.old.kept → KeepsStill w ground.new.kept result }
    ensures disk { SameDisk D.Disk disk.old disk.new }
{
    let Ok(()) = ground.kept.keep(alloc, leaf, made.moved) else {
        return Err(Refusal::NoMemory);
    };
    match put_back(alloc, disk, ground, engine, running, leaf, &made.images) {
        Ok(()) => Ok(Evicted::Done),
        Err(error) => {
            ground.kept.forget(leaf);
            Err(tell(engine, error))
        }
    }
}

// Writes the only image of a leaf, and the leaf leaves its frame and leads to its block. After an error
// what was written is given back, and nothing changed.
fn put_back<D: Disk>(
    alloc: Global,
    disk: &mut D,
    ground: &mut Ground,
    engine: &mut Local,
    running: Option<&RunningCheckpoint>,
    leaf: u64,
    images: &[Image],
) -> Result<(), StoreError>
    requires cut { (moved : List AMoved) × AreCut engine.old (option_copied running) leaf images.now moved }
    requires one { length images.now ≡ 1 }
    ensures puts { IsTrue (D.honest disk.old) → (moved : List AMoved) → AreCut engine.old (option_copied running.entry) leaf images.now moved → (w : World) → Stands engine.old w → RunsAs w.machine (option_copied running.entry) → (old : Option Stored) → StandsOn (D.seen disk.old) (D.may_leave disk.old) engine.old.hub ground.old old
        → Follows old engine.old.hub ground.old w → AreLivesOn (D.seen disk.old) engine.old.hub ground.old w → PutsBack D.Disk old w ground.old ground.new engine.old engine.new leaf disk.old disk.new moved result }
    ensures out { OnOk result ((link : ALink) × HasBeenEvicted engine.old engine.new leaf link) }
    ensures kept { OnErr result (engine.new ≡ engine.old) }
    ensures history { ground.new.kept ≡ ground.old.kept }
    ensures number { ground.new.number ≡ ground.old.number }
    ensures trees { ground.new.trees ≡ ground.old.trees }
    ensures floor { ground.new.floor ≡ ground.old.floor }
    ensures stood { ground.new.history ≡ ground.old.history }
    ensures sessions { length engine.new.sessions ≡ length engine.old.sessions }
    ensures hub { (engine.new.hub.tables ≡ engine.old.hub.tables) × (engine.new.hub.txns ≡ engine.old.hub.txns) }
    ensures fault { IfErr result (λ e. IsOfDisk e → Rose (D.faults disk.old) (D.faults disk.new)) }
    ensures disk { SameDisk D.Disk disk.old disk.new }
{
    match is_within(disk, &ground.place.blocks) {
        Ok(true) => {}
        // A device that has become shorter than its blocks.
        Ok(false) => return Err(StoreError::NoMemory),
        Err(error) => return Err(error),
    }
    let Ok(low) = low_of(engine, leaf, images) else {
        return Err(StoreError::NoMemory);
    };
    let blocks = &mut ground.place.blocks;
    match write_leaves(alloc, disk, blocks, &low, images) {
        Ok(entries) => {
            let entry = &entries[0];
            match move_out(ground, engine, leaf, entry.link) {
                Ok(()) => Ok(()),
                Err(_) => Err(StoreError::NoMemory),
            }
        }
        Err(error) => Err(error),
    }
}

// The low key of a leaf, from which its images stand. The error is want of memory.
fn low_of(engine: &Local, leaf: u64, images: &[Image]) -> Result<Item, NoMemory>
    ensures { IfOk result (λ low. IsLowOf engine.now leaf images.now low) }
{
    let Some(found) = engine.leaves().leaf(leaf) else {
        return Err(NoMemory);
    };
    let low = found.entry.key.copy()?;
    if may_begin_behind(&[], &low) && stand_from(images, &low) {
        Ok(low)
    } else {
        Err(NoMemory)
    }
}
