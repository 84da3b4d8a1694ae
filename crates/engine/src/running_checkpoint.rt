// A checkpoint that runs while others are at work: what it captures, what it records, and how it begins
// and ends. The layer above keeps it, and hands it to whatever asks what is out of reach.

ghost use Rattle.std.specs.Prelude.{◌≡◌, None, Some, IfOk, option_copied, option_map};
ghost use Rattle.kv_model.specs.Machine.{Checkpoint as ModelCheckpoint, CheckpointDrop, CheckpointStart, after, finished};
ghost use Rattle.snapshot.specs.Matters.{AreUnended, NoneResolves};
ghost use Rattle.snapshot.specs.Sight.{sight_at};
ghost use Rattle.txn_table.specs.Tabled.{unended};
ghost use Rattle.engine_world.specs.Stands.{Stands};
ghost use Rattle.engine_world.specs.Worlds.{World};
ghost use Rattle.engine.specs.Running.{RunsAs, recorded};

use crate::local::Local;
use engine_world::checkpoints_go;
use failure::NoMemory;
use kv_model::prefixes_begin;
use snapshot::Snapshot;
use std::alloc::Global;
use txn_table::checkpoints_see;

/// A checkpoint that runs.
#[derive(Drop)]
pub struct RunningCheckpoint {
    /// It sees the versions that the checkpoint captures.
    pub snapshot: Snapshot,
    /// The oldest stamp as it started, 0 where it was not set.
    pub oldest: u64,
    /// The stable stamp as it started, 0 where it was not set.
    pub stable: u64,
    /// How many tables stood as it started.
    pub tables: u32,
}

impl Local {
    /// A checkpoint starts, where it may (`may_checkpoint`). Nothing of the engine changes. The error is
    /// want of memory. `O(n log n)` in the sessions.
    pub fn start_checkpoint(&self, alloc: Global) -> Result<RunningCheckpoint, NoMemory>
        ensures stands { (w : World) → Stands self.now w → w.machine.checkpoint ≡ None → NoneResolves w.machine → Stands self.now (record w { machine = after w.machine CheckpointStart }) }
        ensures runs { (w : World) → Stands self.now w → w.machine.checkpoint ≡ None → NoneResolves w.machine → IfOk result (λ running. RunsAs (after w.machine CheckpointStart) (Some running)) }
        ensures sight { IfOk result (λ running. running.snapshot.sight ≡ sight_at self.now.hub.txns.run self.now.hub.txns.next (unended self.now.hub.txns)) }
        ensures unended { (w : World) → Stands self.now w → IfOk result (λ running. AreUnended w.machine running.snapshot.sight.list) }
    {
        checkpoints_go();
        checkpoints_see();
        prefixes_begin();
        let snapshot = self.checkpoint_snapshot(alloc)?;
        let marks = self.marks();
        let known = self.tables();
        let count = known.len() as u32;
        Ok(RunningCheckpoint {
            snapshot,
            oldest: marks.oldest,
            stable: marks.stable,
            tables: count,
        })
    }

    /// The checkpoint that runs is finished. Nothing of the engine changes.
    pub fn finish_checkpoint(&self)
        ensures { (w : World) (c : ModelCheckpoint) → Stands self.now w → w.machine.checkpoint ≡ Some c → Stands self.now (record w { machine = finished w.machine c }) }
    {
        checkpoints_go();
    }

    /// The checkpoint that runs, if one does, ends without having been finished. Nothing of the engine
    /// changes.
    pub fn drop_checkpoint(&self)
        ensures { (w : World) → Stands self.now w → Stands self.now (record w { machine = after w.machine CheckpointDrop }) }
    {
        checkpoints_go();
    }
}

// The oldest stamp that it recorded.
pub(crate) fn recorded_by(running: Option<&RunningCheckpoint>) -> Option<u64>
    ensures { result ≡ recorded (option_copied running.entry) }
{
    match running {
        None => None,
        Some(running) => Some(running.oldest),
    }
}

// Its snapshot.
pub(crate) fn snapshot_of(running: Option<&RunningCheckpoint>) -> Option<&Snapshot>
    ensures { option_copied result ≡ option_map (λ r. r.snapshot) (option_copied running.entry) }
{
    match running {
        None => None,
        Some(running) => Some(&running.snapshot),
    }
}
