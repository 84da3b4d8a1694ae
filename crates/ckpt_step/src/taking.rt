// A checkpoint that runs beside other work, and one in one event.
ghost use Rattle.std.specs.Prelude.{◌≡◌, ◌⊎◌, ◌≤◌, ◌<◌, ◌+◌, ◌-◌, ◌^◌, Option, Some, Err, length, None, IfErr, IfOk, OnErr, OnOk, IsTrue};
ghost use Rattle.failure.specs.Counts.{Rose};
ghost use Rattle.failure.specs.declared.Fault.{Fault as AFault};
ghost use Rattle.disk_model.specs.Crash.{SameDisk};
ghost use Rattle.stored.specs.Stored.{Stored};
ghost use Rattle.engine_world.specs.Stands.{Stands};
ghost use Rattle.engine_world.specs.Worlds.{World};
ghost use Rattle.evict_step.specs.Kept.{KeepsThese};
ghost use Rattle.ckpt_step.specs.Floors.{AreLivesOn, Follows, Respects};
ghost use Rattle.ckpt_step.specs.Grounds.{StandsOn};
ghost use Rattle.engine_world.specs.Systems.{with_fault};
ghost use Rattle.ckpt_step.specs.Moments.{IsUnderWay, Moment, cells_of};
ghost use Rattle.ckpt_step.specs.Runs.{Concludes};
ghost use Rattle.ckpt_step.specs.Takes.{Finishes, IsBarred, IsOfCheckpoint, Starts, Takes, finished_world};
ghost use Rattle.ckpt_step.specs.Trees.{AreLow};

use crate::ground::Ground;
use crate::writing::write;
use disk_model::Disk;
use engine::{Local, RunningCheckpoint};
use limits::NUMBER_MAX;
use std::alloc::Global;
use wt_code::{Refusal, StoreError};

/// A checkpoint starts, beside whatever others do: what is committed now is what it captures, and the
/// oldest and the stable stamp of now are what it records. Nothing changes of the engine or the ground.
///
/// Refused where the engine is down, a prepared transaction is being resolved or there were too many
/// checkpoints. Leaves to the caller that none runs. `O(n log n)` in the sessions.
pub fn start(alloc: Global, ground: &Ground, engine: &Local) -> Result<RunningCheckpoint, Refusal>
    ensures starts { (w : World) → Stands engine.now w → w.machine.checkpoint ≡ None → Respects w.machine ground.now.floor → IfOk result (Starts engine.now ground.now w) }
    ensures refused { (w : World) → Stands engine.now w → w.machine.checkpoint ≡ None → IfErr result (λ r. IsBarred w.machine ground.now.number r ⊎ (r ≡ Refusal.NoMemory)) }
    ensures down { (fault : AFault) → engine.now.hub.fault ≡ Some fault → result ≡ Err (Refusal.Panic fault) }
    ensures refusals { IfErr result IsOfCheckpoint }
    ensures fault { IfErr result (λ r. r ≡ Refusal.DiskFault → ⊥) }
{
    match engine.may_checkpoint(ground.number) {
        Ok(()) => {}
        Err(refusal) => return Err(refusal),
    }
    let Ok(running) = engine.start_checkpoint(alloc) else {
        return Err(Refusal::NoMemory);
    };
    // What holds of every snapshot holds of this one.
    let _view = running.snapshot.view(0, 0);
    Ok(running)
}

/// The checkpoint that runs is finished: of each table that stood as it started the tree of the newest
/// versions of transactions that have ended, the history of the older ones that a read at its moment can
/// want, the record of that moment, a sync, and the slot that names it. An opening hides what it did not
/// capture. A leaf of the directory that is in no frame, or clean, so that nothing was written to it since
/// the last checkpoint of this engine, keeps its blocks, unread: those of the checkpoint before, or the one
/// to which it was written since. The rows of any other are cut into images, of which one that is there
/// already at the same place in the leaf, with the same rows, keeps its block. The history is written
/// anew, whole. Of tables that were made since it started nothing is written, and the blocks of their
/// leaves stay.
///
/// After `Ok` it is the last completed one. Refused where the engine is down; `28 no space` where a block
/// has no place: what was written is given back, and so after each refusal but that of a failed write or
/// sync: the checkpoint still runs then. The device is asked for its length first: one that has
/// become shorter than its blocks is refused as `12 no memory`, and left as it is. A failed read
/// leaves the engine up; a failed write or sync takes it down, and the device has the checkpoint
/// before or, where the gate of the slot was being opened, the new one.
///
/// `O(leaves)`, and `O(blocks)` for a table of clean leaves alone, which keeps its tree. Of any other
/// table `O(rows)` of each leaf that is not clean, whose rows are copied once into images: a block of
/// before is read where it may be the same, one is written where it is not, and so is each inner page
/// of the table. For the history `O(bytes)` of the older versions, and the costs of `gather`.
pub fn finish<D: Disk>(
    alloc: Global,
    disk: &mut D,
    ground: &mut Ground,
    engine: &mut Local,
    running: &RunningCheckpoint,
) -> Result<(), Refusal>
    requires run { engine.old.hub.txns.run ≤ ground.old.number + 1 }
    requires trees { length ground.old.trees.items ≤ length engine.old.hub.tables.tables }
    requires low { AreLow ground.old.trees.items }
    ensures finishes { IsTrue (D.honest disk.old) → (n : Moment) → Stands engine.old n.world → IsUnderWay n.world.machine n.checkpoint running.now ground.old → n.cells ≡ cells_of engine.old n.world → KeepsThese n.world ground.old.kept → (old : Option Stored) → StandsOn (D.seen disk.old) (D.may_leave disk.old) engine.old.hub ground.old old
        → Follows old engine.old.hub ground.old n.world → AreLivesOn (D.seen disk.old) engine.old.hub ground.old n.world → Finishes D.Disk old n ground.old ground.new engine.old engine.new disk.old disk.new result }
    ensures down { (fault : AFault) → engine.old.hub.fault ≡ Some fault → (result ≡ Err (Refusal.Panic fault)) × (engine.new ≡ engine.old) × (ground.new ≡ ground.old) × (disk.new ≡ disk.old) }
    ensures refusals { IfErr result IsOfCheckpoint }
    ensures fault { IfErr result (λ r. r ≡ Refusal.DiskFault → Rose (D.faults disk.old) (D.faults disk.new)) }
    ensures run { ground.old.number ≤ ground.new.number }
    ensures trees { length ground.new.trees.items ≤ length engine.old.hub.tables.tables }
    ensures low { AreLow ground.new.trees.items }
    ensures number { OnErr result (ground.new.number ≡ ground.old.number) }
    ensures floor { OnErr result (ground.new.floor ≡ ground.old.floor) }
    ensures lives { OnErr result (ground.new.lives ≡ ground.old.lives) }
    ensures history { ground.new.kept ≡ ground.old.kept }
    ensures sessions { length engine.new.sessions ≡ length engine.old.sessions }
    ensures hub { (engine.new.hub.tables ≡ engine.old.hub.tables) × (engine.new.hub.txns ≡ engine.old.hub.txns) }
    ensures engine { (engine.new ≡ engine.old) ⊎ ((fault : AFault) × (engine.new ≡ with_fault engine.old fault)) }
    ensures disk { SameDisk D.Disk disk.old disk.new }
{
    if let Some(fault) = engine.fault() {
        return Err(Refusal::Panic { fault });
    }
    if !may_follow(ground, engine, running) {
        return Err(Refusal::NoMemory);
    }
    let Ok(snapshot) = engine.checkpoint_snapshot(alloc) else {
        return Err(Refusal::NoMemory);
    };
    let outcome = write(alloc, disk, ground, engine, &snapshot, running);
    conclude(engine, outcome)
}

// Whether the checkpoint may follow the last completed one: there were not too many, and it has not
// fewer tables, nor more than the engine.
fn may_follow(ground: &Ground, engine: &Local, running: &RunningCheckpoint) -> bool
    ensures { IsTrue result → (ground.now.number < 2 ^ 62 - 1) × ((length ground.now.trees.items ≤ running.now.tables) × (running.now.tables ≤ length engine.now.hub.tables.tables)) }
{
    let tables = running.tables as usize;
    ground.number < NUMBER_MAX && ground.trees.len() <= tables && tables <= engine.tables().len()
}

/// A checkpoint in one event, with nobody between its start and its finish (`start`, `finish`): of each
/// table the newest version of each key that is committed.
///
/// After `Ok` it is the last completed one. Refused as these are; after a refusal none runs. Costs as
/// `finish`.
pub fn checkpoint<D: Disk>(
    alloc: Global,
    disk: &mut D,
    ground: &mut Ground,
    engine: &mut Local,
) -> Result<(), Refusal>
    requires run { engine.old.hub.txns.run ≤ ground.old.number + 1 }
    requires trees { length ground.old.trees.items ≤ length engine.old.hub.tables.tables }
    requires low { AreLow ground.old.trees.items }
    ensures takes { IsTrue (D.honest disk.old) → (w : World) → Stands engine.old w → w.machine.checkpoint ≡ None → KeepsThese w ground.old.kept → (old : Option Stored) → StandsOn (D.seen disk.old) (D.may_leave disk.old) engine.old.hub ground.old old
        → Follows old engine.old.hub ground.old w → AreLivesOn (D.seen disk.old) engine.old.hub ground.old w → Takes D.Disk old w ground.old ground.new engine.old engine.new disk.old disk.new result }
    ensures down { (fault : AFault) → engine.old.hub.fault ≡ Some fault → (result ≡ Err (Refusal.Panic fault)) × (engine.new ≡ engine.old) × (ground.new ≡ ground.old) × (disk.new ≡ disk.old) }
    ensures refusals { IfErr result IsOfCheckpoint }
    ensures fault { IfErr result (λ r. r ≡ Refusal.DiskFault → Rose (D.faults disk.old) (D.faults disk.new)) }
    ensures run { ground.old.number ≤ ground.new.number }
    ensures trees { length ground.new.trees.items ≤ length engine.old.hub.tables.tables }
    ensures low { AreLow ground.new.trees.items }
    ensures lives { OnErr result (ground.new.lives ≡ ground.old.lives) }
    ensures history { ground.new.kept ≡ ground.old.kept }
    ensures sessions { length engine.new.sessions ≡ length engine.old.sessions }
    ensures hub { (engine.new.hub.tables ≡ engine.old.hub.tables) × (engine.new.hub.txns ≡ engine.old.hub.txns) }
    ensures engine { (engine.new ≡ engine.old) ⊎ ((fault : AFault) × (engine.new ≡ with_fault engine.old fault)) }
    ensures disk { SameDisk D.Disk disk.old disk.new }
{
    match start(alloc, ground, engine) {
        Ok(running) => finish(alloc, disk, ground, engine, &running),
        Err(refusal) => Err(refusal),
    }
}

// The engine is told how it went, and the answer tells it too.
fn conclude(engine: &mut Local, outcome: Result<(), StoreError>) -> Result<(), Refusal>
    ensures concludes { Concludes engine.old engine.new outcome result }
    ensures stands { (n : Moment) → Stands engine.old n.world → n.world.machine.checkpoint ≡ Some n.checkpoint → OnOk result (Stands engine.new (finished_world n)) }
    ensures refusals { IfErr result IsOfCheckpoint }
    ensures sessions { length engine.new.sessions ≡ length engine.old.sessions }
    ensures hub { (engine.new.hub.tables ≡ engine.old.hub.tables) × (engine.new.hub.txns ≡ engine.old.hub.txns) }
{
    match outcome {
        Ok(()) => {
            engine.finish_checkpoint();
            Ok(())
        }
        Err(error) => {
            if let StoreError::Down(fault) = error {
                engine.go_down(fault);
            }
            Err(Refusal::from(error))
        }
    }
}
