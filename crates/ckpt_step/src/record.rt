// The record of a checkpoint.
ghost use Rattle.std.specs.Prelude.{◌≡◌, ◌≤◌, ◌<◌, ◌+◌, ◌-◌, ◌^◌, IfOk, IsTrue, take};
ghost use Rattle.kv_model.specs.Allowed.{StampsFit};
ghost use Rattle.stamp.specs.declared.Name.{Name as AName};
ghost use Rattle.stored.specs.Records.{IsRecord, SnapshotFits};
ghost use Rattle.ckpt_content.specs.Finished.{IsRecordThen};
ghost use Rattle.ckpt_step.specs.Moments.{IsFinishing, Moment};
ghost use Rattle.ckpt_step.specs.Records.{roots_by_name};
ghost use Rattle.ckpt_step.specs.Trees.{AreTold, placed_by, roots_of as roots_in};

use crate::roots::{roots_of, typed};
use checkpoint_record::{LentRecord, Root, Snapshot as KeptSnapshot};
use engine::{Local, RunningCheckpoint};
use failure::NoMemory;
use limits::SESSIONS_MAX;
use snapshot::Snapshot;
use std::alloc::Global;
use tree_open::TreePlace;

// The record of the checkpoint that runs beside the engine, whose tables, those that stood as it
// started, have these trees, by place; where none is told, it stands where it did before. `number` is
// that of the checkpoint before; `history` is the root of the history. The tables' names are lent. The
// error is want of memory.
pub(crate) fn record_of<'a>(
    alloc: Global,
    engine: &'a Local,
    running: &RunningCheckpoint,
    number: u64,
    was: &[TreePlace],
    told: &[Option<TreePlace>],
    history: Root,
) -> Result<LentRecord<'a>, NoMemory>
    requires number { number < 2 ^ 62 - 1 }
    requires run { engine.now.hub.txns.run ≤ number + 1 }
    requires told { AreTold was.now told.now }
    requires root { history.level ≤ 60 }
    ensures admitted { IfOk result IsRecord }
    ensures sequence { IfOk result (λ r. r.sequence ≡ number + 1) }
    ensures names { (n : Moment) (floor : AName) → IsFinishing engine.now running.now floor n → IfOk result (IsRecordThen n.world.machine n.checkpoint number) }
    ensures history { IfOk result (λ r. r.history ≡ history) }
    ensures tables { IfOk result (λ r. r.tables ≡ roots_by_name (take running.now.tables engine.now.hub.tables.tables) (roots_in (placed_by was.now told.now))) }
{
    if !are_stamps(running.oldest, running.stable) {
        return Err(NoMemory);
    }
    let marks = engine.marks();
    let tables = engine.tables();
    Ok(LentRecord {
        sequence: number + 1,
        run: marks.run,
        oldest: running.oldest,
        stable: running.stable,
        snapshot: kept_of(alloc, &running.snapshot)?,
        next_table: tables.next_number(),
        history: typed(history),
        tables: roots_of(alloc, tables, running.tables, was, told)?,
    })
}

// Oldest is at most stable, where both are set: it is so of every checkpoint that runs.
fn are_stamps(oldest: u64, stable: u64) -> bool
    ensures yes { IsTrue result → StampsFit oldest stable }
    ensures all { StampsFit oldest stable → IsTrue result }
{
    stable == 0 || oldest <= stable
}

// The snapshot, as a record has it, which has as many ids as there are sessions. The error is want of
// memory.
fn kept_of(alloc: Global, snapshot: &Snapshot) -> Result<KeptSnapshot, NoMemory>
    ensures is { IfOk result (λ kept. kept ≡ record { min = snapshot.now.sight.min; max = snapshot.now.sight.max; ids = snapshot.now.sight.list }) }
    ensures fits { IfOk result SnapshotFits }
{
    let view = snapshot.view(0, 0);
    if view.list.len() > SESSIONS_MAX {
        return Err(NoMemory);
    }
    Ok(KeptSnapshot {
        min: view.min,
        max: view.max,
        ids: Vec::from_slice(alloc, view.list)?,
    })
}
