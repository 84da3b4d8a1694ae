// What a checkpoint in one go asks of an engine, and what it leaves. The layer above has the device:
// it asks whether a checkpoint may start, takes its snapshot, reads the leaves of each table, writes,
// and tells the engine how that went, with nobody between. A function calls the laws that its proof rests
// on, which do nothing.

ghost use Rattle.std.specs.Prelude.{◌≡◌, ◌<◌, ◌≤◌, ◌-◌, ◌^◌, ℕ, None, Some, Err, length, reverse, option_map, IfErr, IfOk, IfSome, OnOk};
ghost use Rattle.limits.specs.declared.TheConstants.{SESSIONS_MAX};
ghost use Rattle.failure.specs.declared.Fault.{Fault as AFault};
ghost use Rattle.kv_model.specs.History.{tables};
ghost use Rattle.kv_model.specs.Machine.{GoDown, after};
ghost use Rattle.snapshot.specs.Matters.{AreUnended, NoneResolves, SeesCommitted};
ghost use Rattle.snapshot.specs.Sight.{sight_at};
ghost use Rattle.txn_table.specs.Tabled.{unended};
ghost use Rattle.reconcile.specs.Capture.{ChainsFit};
ghost use Rattle.tree_dir.specs.Leaves.{IsDirectory};
ghost use Rattle.catalog.specs.Known.{AreTables};
ghost use Rattle.engine_world.specs.Leaves.{frame_in};
ghost use Rattle.engine_world.specs.Stands.{Stands};
ghost use Rattle.engine_world.specs.Systems.{checkpointed, with_fault};
ghost use Rattle.engine_world.specs.Worlds.{World};
ghost use Rattle.engine.specs.Checkpoints.{IsOfStart, MarksFit, MayStart, marks_in, marks_of};
ghost use Rattle.engine.specs.Sound.{IsSound};

use crate::local::Local;
use crate::parts::Parts;
use catalog::Catalog;
use engine_world::{checkpoints_go, downs_go};
use failure::{Fault, NoMemory};
use leaf_frame::LeafFrame;
use limits::{NUMBER_MAX, SESSIONS_MAX};
use snapshot::Snapshot;
use std::alloc::Global;
use tree_dir::Dir;
use txn_table::{calls_stand, checkpoints_see, lowest_are_the_machines};
use wt_code::{Busy, Limit, Refusal};

/// What the record of a checkpoint keeps of the machine.
#[derive(Clone, Copy, PartialEq, Eq, Debug)]
pub struct EngineMarks {
    /// The run.
    pub run: u64,
    /// The next id of this run.
    pub next: u64,
    /// The oldest stamp, 0 where it is not set.
    pub oldest: u64,
    /// The stable stamp, 0 where it is not set.
    pub stable: u64,
}

impl Local {
    /// Why a checkpoint may not start now: the engine is down, a prepared transaction is being
    /// resolved, or there were too many. `number` is that of the last completed one, 0 where there is
    /// none. `O(n)` in the sessions.
    pub fn may_checkpoint(&self, number: u64) -> Result<(), Refusal>
        ensures decided { (w : World) → Stands self.now w → w.machine.checkpoint ≡ None → MayStart w.machine number result }
        ensures down { (fault : AFault) → self.now.hub.fault ≡ Some fault → result ≡ Err (Refusal.Panic fault) }
        ensures up { OnOk result (self.now.hub.fault ≡ None) }
        ensures resolves { (w : World) → Stands self.now w → OnOk result (NoneResolves w.machine) }
        ensures number { OnOk result (number < 2 ^ 62 - 1) }
        ensures refusals { IfErr result IsOfStart }
    {
        self.parts.may_checkpoint(number)
    }

    /// The snapshot of a checkpoint that starts now. The error is want of memory. `O(n log n)` in
    /// the sessions.
    pub fn checkpoint_snapshot(&self, alloc: Global) -> Result<Snapshot, NoMemory>
        ensures sight { IfOk result (λ s. s.sight ≡ sight_at self.now.hub.txns.run self.now.hub.txns.next (unended self.now.hub.txns)) }
        ensures sees { (w : World) → Stands self.now w → NoneResolves w.machine → IfOk result (λ s. SeesCommitted w.machine (length w.machine.history) s.sight) }
        ensures unended { (w : World) → Stands self.now w → IfOk result (λ s. AreUnended w.machine s.sight.list) }
    {
        self.parts.checkpoint_snapshot(alloc)
    }

    /// What a record keeps of the machine. `O(1)`.
    pub fn marks(&self) -> EngineMarks
        ensures machine { (w : World) → Stands self.now w → result ≡ marks_of w.machine }
        ensures hub { result ≡ marks_in self.now.hub }
        ensures fit { MarksFit result }
        ensures few { length (unended self.now.hub.txns) ≤ SESSIONS_MAX }
    {
        self.parts.marks()
    }

    /// The tables. `O(1)`.
    pub fn tables(&self) -> &Catalog
        ensures are { result.now ≡ self.now.hub.tables }
        ensures known { AreTables result.now }
        ensures made { (w : World) → Stands self.now w → reverse result.now.tables ≡ tables w.machine.history }
    {
        self.parts.tables()
    }

    /// The fault by which the engine is down, if it is. `O(1)`.
    pub fn fault(&self) -> Option<Fault>
        ensures { result ≡ self.now.hub.fault }
    {
        self.parts.fault()
    }

    /// The leaves of all tables, and the frames that have them. `O(1)`.
    pub fn leaves(&self) -> &Dir
        ensures are { result.now ≡ self.now.hub.dir }
        ensures stand { IsDirectory result.now }
    {
        self.parts.leaves()
    }

    /// The leaf in a frame. Each update of its chains fits a row. `O(1)`.
    pub fn leaf_in(&self, frame: u32) -> Option<&LeafFrame>
        ensures is { option_map (λ l. l.now) result ≡ option_map (λ f. f.leaf) (frame_in self.now.pieces frame) }
        ensures fit { IfSome result (λ l. ChainsFit l.now.chains) }
    {
        self.parts.leaf_in(frame)
    }

    /// A checkpoint was completed, with nobody between its start and its finish. Nothing changes.
    pub fn checkpointed(&mut self)
        ensures same { self.new ≡ self.old }
        ensures stands { (w : World) → Stands self.old w → w.machine.checkpoint ≡ None → NoneResolves w.machine → Stands self.new (record w { machine = checkpointed w.machine }) }
    {
        checkpoints_go();
    }

    /// A write or sync of the device failed: the engine is down from now on, and tells this fault.
    /// `O(1)`.
    pub fn go_down(&mut self, fault: Fault)
        ensures is { self.new ≡ with_fault self.old fault }
        ensures down { (w : World) → Stands self.old w → Stands self.new (record w { machine = after w.machine (GoDown fault) }) }
    {
        self.parts.go_down(fault)
    }
}

impl Parts {
    /// Why a checkpoint may not start now.
    pub(crate) fn may_checkpoint(&self, number: u64) -> Result<(), Refusal>
        ensures decided { (w : World) → Stands self.now w → w.machine.checkpoint ≡ None → MayStart w.machine number result }
        ensures down { (fault : AFault) → self.now.hub.fault ≡ Some fault → result ≡ Err (Refusal.Panic fault) }
        ensures up { OnOk result (self.now.hub.fault ≡ None) }
        ensures resolves { (w : World) → Stands self.now w → OnOk result (NoneResolves w.machine) }
        ensures number { OnOk result (number < 2 ^ 62 - 1) }
        ensures refusals { IfErr result IsOfStart }
    {
        lowest_are_the_machines();
        if let Some(fault) = self.hub.fault {
            return Err(Refusal::Panic { fault });
        }
        if let Some(session) = self.hub.txns.resolving() {
            return Err(Refusal::Busy(Busy::Resolving(session)));
        }
        if number >= NUMBER_MAX {
            return Err(Refusal::Limit(Limit::Checkpoints));
        }
        Ok(())
    }

    /// The snapshot of a checkpoint that starts now.
    pub(crate) fn checkpoint_snapshot(&self, alloc: Global) -> Result<Snapshot, NoMemory>
        ensures sight { IfOk result (λ s. s.sight ≡ sight_at self.now.hub.txns.run self.now.hub.txns.next (unended self.now.hub.txns)) }
        ensures sees { (w : World) → Stands self.now w → NoneResolves w.machine → IfOk result (λ s. SeesCommitted w.machine (length w.machine.history) s.sight) }
        ensures unended { (w : World) → Stands self.now w → IfOk result (λ s. AreUnended w.machine s.sight.list) }
    {
        calls_stand();
        checkpoints_see();
        let mut snapshot = Snapshot::new(alloc, self.hub.txns.run(), SESSIONS_MAX)?;
        self.hub.txns.checkpoint_snapshot(&mut snapshot);
        Ok(snapshot)
    }

    /// What a record keeps of the machine.
    pub(crate) fn marks(&self) -> EngineMarks
        ensures machine { (w : World) → Stands self.now w → result ≡ marks_of w.machine }
        ensures hub { result ≡ marks_in self.now.hub }
        ensures few { length (unended self.now.hub.txns) ≤ SESSIONS_MAX }
    {
        prove!(self.hub.txns.sessions() as usize <= SESSIONS_MAX);
        EngineMarks {
            run: self.hub.txns.run(),
            next: self.hub.txns.next_id(),
            oldest: self.hub.stamps.oldest,
            stable: self.hub.stamps.stable,
        }
    }

    /// The tables.
    pub(crate) fn tables(&self) -> &Catalog
        ensures are { result.now ≡ self.now.hub.tables }
        ensures known { AreTables result.now }
    {
        // What holds of every catalog holds of this one.
        let _count = self.hub.tables.len();
        &self.hub.tables
    }

    /// The fault by which the engine is down.
    pub(crate) fn fault(&self) -> Option<Fault>
        ensures { result ≡ self.now.hub.fault }
    {
        self.hub.fault
    }

    /// The leaves of all tables.
    pub(crate) fn leaves(&self) -> &Dir
        ensures are { result.now ≡ self.now.hub.dir }
        ensures stand { IsDirectory result.now }
    {
        // What holds of every directory holds of this one.
        self.hub.dir.stands();
        &self.hub.dir
    }

    /// The engine is down from now on.
    pub(crate) fn go_down(&mut self, fault: Fault)
        requires { IsSound self.old }
        ensures is { self.new ≡ with_fault self.old fault }
        ensures down { (w : World) → Stands self.old w → Stands self.new (record w { machine = after w.machine (GoDown fault) }) }
        ensures sound { IsSound self.new }
    {
        downs_go();
        self.hub.fault = Some(fault);
    }
}
