// A leaf that is written out of memory between two checkpoints.
ghost use Rattle.std.specs.Prelude.{◌≡◌, List, Option, Some, None, Err, length, IfErr, OnErr, OnOk, IsTrue};
ghost use Rattle.failure.specs.Counts.{Rose};
ghost use Rattle.failure.specs.declared.Fault.{Fault as AFault};
ghost use Rattle.row_page.specs.Rows.{Row};
ghost use Rattle.wt_code.specs.StoreErrors.{IsOfDisk};
ghost use Rattle.disk_model.specs.Crash.{SameDisk};
ghost use Rattle.stored.specs.Stored.{Stored};
ghost use Rattle.stored.specs.TableTree.{Entry as StoredEntry};
ghost use Rattle.engine_world.specs.Stands.{Stands};
ghost use Rattle.engine_world.specs.Worlds.{World};
ghost use Rattle.engine.specs.Frames.{HasGivenWay};
ghost use Rattle.ckpt_step.specs.CutOuts.{MayGiveWay, MayReplace, PutsOut, TellsOut};
ghost use Rattle.ckpt_step.specs.Floors.{AreLivesOn, Follows};
ghost use Rattle.ckpt_step.specs.Grounds.{StandsOn};
ghost use Rattle.ckpt_step.specs.Takes.{IsOfCheckpoint};
ghost use Rattle.ckpt_step.specs.WritesOut.{AreRowsIn, LeavesEngine, WritesOut};

use crate::cutting_out::{LeafCut, cut_leaf};
use crate::ground::Ground;
use crate::moving_in::{When, move_in};
use crate::writing::is_within;
use disk_model::Disk;
use engine::Local;
use frame_capture::captures_are_newest;
use leaf_write::write_leaves;
use std::alloc::Global;
use tree_dir::leaves_give_way;
use wt_code::{Refusal, StoreError};

/// Writes a leaf that is in a frame out, while nobody is at work: the newest committed version of each
/// of its keys is cut into images, as a checkpoint cuts them, each is written as one block that the live
/// tree alone has, and the leaf gives way to the leaves of these blocks, which are in no frame. The next
/// checkpoint keeps them as they stand. Where the leaf itself was written since the last one, its block
/// is free again.
///
/// `Ok(false)`: it stays where it is, and nothing changed. Somebody is at work, the leaf is unknown or
/// in no frame, it has no rows, or a version of it is not durable at the oldest stamp, so that memory
/// has what its images would lose. Refused where a checkpoint is: the engine is down, a prepared
/// transaction is being resolved, or there were too many checkpoints; `28 no space` where the device has
/// no room for the blocks, one behind the other; `12 no memory` also where it has become shorter than its
/// blocks. What was written is free again then, and nothing changed. A failed read leaves the engine up;
/// a failed write takes it down, and the device has the last checkpoint still.
///
/// `O(n log n)` in the sessions and `O(rows)` of the leaf, which are copied once into images; for each
/// image one write, and one look-up each among the leaves and among those that were written since.
pub fn write_out<D: Disk>(
    alloc: Global,
    disk: &mut D,
    ground: &mut Ground,
    engine: &mut Local,
    leaf: u64,
) -> Result<bool, Refusal>
    ensures writes { IsTrue (D.honest disk.old) → (w : World) → Stands engine.old w → w.machine.checkpoint ≡ None → (old : Option Stored) → StandsOn (D.seen disk.old) (D.may_leave disk.old) engine.old.hub ground.old old
        → Follows old engine.old.hub ground.old w → AreLivesOn (D.seen disk.old) engine.old.hub ground.old w → WritesOut D.Disk old w ground.old ground.new engine.old engine.new leaf disk.old disk.new result }
    ensures down { (fault : AFault) → engine.old.hub.fault ≡ Some fault → (result ≡ Err (Refusal.Panic fault)) × (engine.new ≡ engine.old) × (ground.new ≡ ground.old) × (disk.new ≡ disk.old) }
    ensures refusals { IfErr result IsOfCheckpoint }
    ensures fault { IfErr result (λ r. r ≡ Refusal.DiskFault → Rose (D.faults disk.old) (D.faults disk.new)) }
    ensures number { ground.new.number ≡ ground.old.number }
    ensures trees { ground.new.trees ≡ ground.old.trees }
    ensures floor { ground.new.floor ≡ ground.old.floor }
    ensures stood { ground.new.history ≡ ground.old.history }
    ensures sessions { length engine.new.sessions ≡ length engine.old.sessions }
    ensures hub { (engine.new.hub.tables ≡ engine.old.hub.tables) × (engine.new.hub.txns ≡ engine.old.hub.txns) }
    ensures engine { LeavesEngine engine.old engine.new leaf result }
    ensures history { ground.new.kept ≡ ground.old.kept }
    ensures disk { SameDisk D.Disk disk.old disk.new }
{
    captures_are_newest();
    match engine.may_checkpoint(ground.number) {
        Ok(()) => {}
        Err(refusal) => return Err(refusal),
    }
    if !engine.is_idle() {
        return Ok(false);
    }
    let Ok(cut) = cut_leaf(alloc, engine, leaf) else {
        return Err(Refusal::NoMemory);
    };
    let Some(cut) = cut else {
        return Ok(false);
    };
    match put_out(alloc, disk, ground, engine, leaf, &cut, When::Idle) {
        Ok(()) => Ok(true),
        Err(error) => Err(tell(engine, error)),
    }
}

// The engine is told of an error, and the answer tells it too.
pub(crate) fn tell(engine: &mut Local, error: StoreError) -> Refusal
    ensures tells { TellsOut engine.old engine.new error result }
    ensures refusals { IsOfCheckpoint result }
    ensures sessions { length engine.new.sessions ≡ length engine.old.sessions }
    ensures hub { (engine.new.hub.tables ≡ engine.old.hub.tables) × (engine.new.hub.txns ≡ engine.old.hub.txns) }
{
    if let StoreError::Down(fault) = error {
        engine.go_down(fault);
    }
    Refusal::from(error)
}

// Writes the images, and the leaf gives way to the leaves of their blocks. After an error what was
// written is given back, and nothing changed.
pub(crate) fn put_out<D: Disk>(
    alloc: Global,
    disk: &mut D,
    ground: &mut Ground,
    engine: &mut Local,
    leaf: u64,
    cut: &LeafCut,
    when: When,
) -> Result<(), StoreError>
    requires may { MayGiveWay when engine.old leaf }
    requires cut { (rows : List Row) × MayReplace engine.old leaf cut.now rows }
    ensures puts { IsTrue (D.honest disk.old) → (rows : List Row) (place : MayReplace engine.old leaf cut.now rows) (w : World) → Stands engine.old w → AreRowsIn w.machine engine.old.hub.dir.leaves place.leaf rows → (old : Option Stored) → StandsOn (D.seen disk.old) (D.may_leave disk.old) engine.old.hub ground.old old
        → Follows old engine.old.hub ground.old w → AreLivesOn (D.seen disk.old) engine.old.hub ground.old w → PutsOut D.Disk old w ground.old ground.new engine.old engine.new leaf disk.old disk.new when rows result }
    ensures given { OnOk result ((entries : List StoredEntry) × HasGivenWay engine.old engine.new leaf entries) }
    ensures kept { OnErr result (engine.new ≡ engine.old) }
    ensures history { ground.new.kept ≡ ground.old.kept }
    ensures number { ground.new.number ≡ ground.old.number }
    ensures trees { ground.new.trees ≡ ground.old.trees }
    ensures floor { ground.new.floor ≡ ground.old.floor }
    ensures stood { ground.new.history ≡ ground.old.history }
    ensures sessions { length engine.new.sessions ≡ length engine.old.sessions }
    ensures hub { (engine.new.hub.tables ≡ engine.old.hub.tables) × (engine.new.hub.txns ≡ engine.old.hub.txns) }
    ensures fault { IfErr result (λ e. IsOfDisk e → Rose (D.faults disk.old) (D.faults disk.new)) }
    ensures disk { SameDisk D.Disk disk.old disk.new }
{
    leaves_give_way();
    match is_within(disk, &ground.place.blocks) {
        Ok(true) => {}
        // A device that has become shorter than its blocks.
        Ok(false) => return Err(StoreError::NoMemory),
        Err(error) => return Err(error),
    }
    let blocks = &mut ground.place.blocks;
    match write_leaves(alloc, disk, blocks, &cut.low, &cut.images) {
        Ok(entries) => match move_in(alloc, ground, engine, leaf, cut.table, entries, when) {
            Ok(()) => Ok(()),
            Err(_) => Err(StoreError::NoMemory),
        },
        Err(error) => Err(error),
    }
}
