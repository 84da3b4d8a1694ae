// An engine and its device.
ghost use Rattle.std.specs.Prelude.{◌≡◌, ℕ, List, Option, None, length, IfErr, OnErr, OnOk, IsTrue};
ghost use Rattle.failure.specs.Counts.{Rose};
ghost use Rattle.disk_model.specs.Crash.{SameDisk};
ghost use Rattle.wt_code.specs.declared.refusals.Refusal.TheVariants.{Corrupt};
ghost use Rattle.kv_model.specs.Machine.{Completed};
ghost use Rattle.stored.specs.Stored.{Stored};
ghost use Rattle.engine_world.specs.Stands.{Stands};
ghost use Rattle.engine_world.specs.Worlds.{World};
ghost use Rattle.evict_step.specs.Kept.{KeepsThese};
ghost use Rattle.ckpt_step.specs.Floors.{AreLivesOn, Follows};
ghost use Rattle.ckpt_step.specs.Grounds.{StandsOn};
ghost use Rattle.engine_store.specs.Calls.{StaysTold};
ghost use Rattle.engine_store.specs.Closes.{Closes};
ghost use Rattle.engine_store.specs.Devices.{Installed};
ghost use Rattle.engine_store.specs.Finishes.{IsBarredNow, IsOfTaking};
ghost use Rattle.engine_store.specs.Held.{Checkpoints, IsHeld, MayReopen, Shuts};
ghost use Rattle.engine_store.specs.Opened.{IsAtFault, IsReady};

use crate::eviction::Clock;
use crate::frames::Frames;
use crate::opening::open_on;
use crate::progress::Underway;
use ckpt_content::finishes_open;
use ckpt_step::{Ground, checkpoint, checkpoints_have_newest};
use disk_model::Disk;
use engine::Local;
use engine_world::downs_go;
use std::alloc::Global;
use wt_code::{Busy, Refusal};

/// An engine, and what the next checkpoint of its device stands on.
#[derive(Drop)]
pub struct Store {
    /// The engine.
    pub engine: Local,
    /// The last completed checkpoint of its device.
    pub ground: Ground,
    /// The checkpoint that runs, if one does.
    pub running: Option<Underway>,
    /// How many frames it has: so many leaves stay in memory that were only read, while calls need
    /// others. A leaf whose keys were written stays beside them up to the next checkpoint, or until
    /// `make_room` finds it. Where they are firm, a call whose leaf needs one while each has a leaf that
    /// may not go is refused.
    pub frames: Frames,
    // Which leaves go out of their frames.
    pub(crate) clock: Clock,
}

impl Store {
    /// Takes a checkpoint in one event (`ckpt_step::checkpoint`): the device opens as the checkpoint that
    /// the machine takes. Refused as `16 busy checkpoint` where one runs. Once it is taken, and while no
    /// session has a call, a transaction or a cursor on a leaf, leaves leave their frames: those behind the
    /// first ones, as many as there are frames, and those of which it has several images.
    pub fn checkpoint<D: Disk>(&mut self, alloc: Global, disk: &mut D) -> Result<(), Refusal>
        requires ready { IsReady self.old }
        ensures takes { IsTrue (D.honest disk.old) → (first_disk : D) → (w : World) → (first : Completed) → (made : List Installed) → IsHeld D.Disk first_disk self.old disk.old w first made
            → Checkpoints D.Disk first_disk w first made self.old self.new disk.old disk.new result }
        ensures refusals { IfErr result IsOfTaking }
        ensures fault { IfErr result (λ r. r ≡ Refusal.DiskFault → Rose (D.faults disk.old) (D.faults disk.new)) }
        ensures sessions { length self.new.engine.sessions ≡ length self.old.engine.sessions }
        ensures frames { self.new.frames ≡ self.old.frames }
        ensures running { self.new.running ≡ self.old.running }
        ensures ready { IsReady self.new }
        ensures told { StaysTold D.Disk self.old self.new disk.old disk.new }
        ensures disk { SameDisk D.Disk disk.old disk.new }
    {
        finishes_open();
        checkpoints_have_newest();
        downs_go();
        match self.may_take() {
            Ok(()) => {}
            Err(refusal) => return Err(refusal),
        }
        match checkpoint(alloc, disk, &mut self.ground, &mut self.engine) {
            Ok(()) => {
                self.relieve::<D>(alloc);
                Ok(())
            }
            Err(refusal) => Err(refusal),
        }
    }

    /// Rolls back the transaction of each session, and takes a checkpoint (`ckpt_step::checkpoint`).
    /// Refused at once, with nothing changed, where the engine is down, a checkpoint runs or a session has
    /// a call that is not finished; any other refusal comes after the transactions were rolled back.
    pub fn close<D: Disk>(&mut self, alloc: Global, disk: &mut D) -> Result<(), Refusal>
        requires ready { IsReady self.old }
        ensures closes { IsTrue (D.honest disk.old) → (w : World) → Stands self.old.engine w → self.old.running ≡ None → w.machine.checkpoint ≡ None → KeepsThese w self.old.ground.kept → (old : Option Stored) → StandsOn (D.seen disk.old) (D.may_leave disk.old) self.old.engine.hub self.old.ground old
            → Follows old self.old.engine.hub self.old.ground w → AreLivesOn (D.seen disk.old) self.old.engine.hub self.old.ground w → Closes D.Disk old w self.old self.new disk.old disk.new result }
        ensures shuts { IsTrue (D.honest disk.old) → (first_disk : D) → (w : World) → (first : Completed) → (made : List Installed) → IsHeld D.Disk first_disk self.old disk.old w first made
            → Shuts D.Disk first_disk w first made self.old self.new disk.old disk.new result }
        ensures refusals { IfErr result IsOfTaking }
        ensures fault { IfErr result (λ r. r ≡ Refusal.DiskFault → Rose (D.faults disk.old) (D.faults disk.new)) }
        ensures sessions { length self.new.engine.sessions ≡ length self.old.engine.sessions }
        ensures frames { self.new.frames ≡ self.old.frames }
        ensures running { self.new.running ≡ self.old.running }
        ensures ready { IsReady self.new }
        ensures told { StaysTold D.Disk self.old self.new disk.old disk.new }
        ensures disk { SameDisk D.Disk disk.old disk.new }
    {
        finishes_open();
        downs_go();
        match self.may_take() {
            Ok(()) => {}
            Err(refusal) => return Err(refusal),
        }
        match self.engine.may_close() {
            Ok(()) => {}
            Err(refusal) => return Err(refusal),
        }
        self.engine.roll_back_all(alloc);
        checkpoint(alloc, disk, &mut self.ground, &mut self.engine)
    }

    // Why no checkpoint is taken now: the engine is down, or one runs.
    pub(crate) fn may_take(&self) -> Result<(), Refusal>
        ensures free { OnOk result ((self.now.engine.hub.fault ≡ None) × (self.now.running ≡ None)) }
        ensures barred { IfErr result (IsBarredNow self.now) }
    {
        if let Some(fault) = self.engine.fault() {
            return Err(Refusal::Panic { fault });
        }
        match self.running {
            Some(_) => Err(Refusal::Busy(Busy::Checkpoint)),
            None => Ok(()),
        }
    }

    /// Forgets memory, and opens the device anew with so many frames (`open_on`), without a session.
    /// Where that is refused, the store stays as it was.
    pub fn reopen<D: Disk>(
        &mut self,
        alloc: Global,
        disk: &mut D,
        frames: Frames,
    ) -> Result<(), Refusal>
        requires ready { IsReady self.old }
        ensures opens { IsTrue (D.honest disk.old) → (first_disk : D) → (w : World) → (first : Completed) → (made : List Installed) → IsHeld D.Disk first_disk self.old disk.old w first made
            → MayReopen D.Disk first_disk w first made self.old self.new disk.old disk.new result }
        ensures same { OnErr result (self.new ≡ self.old) }
        ensures damage { IfErr result (λ r. (at want found : ℕ) → r ≡ Corrupt at want found → IsTrue (D.honest disk.old) → IsAtFault (D.seen disk.new) at want found) }
        ensures fault { IfErr result (λ r. r ≡ Refusal.DiskFault → Rose (D.faults disk.old) (D.faults disk.new)) }
        ensures frames { OnOk result (self.new.frames ≡ frames) }
        ensures sessions { OnOk result (length self.new.engine.sessions ≡ 0) }
        ensures ready { IsReady self.new }
        ensures told { StaysTold D.Disk self.old self.new disk.old disk.new }
        ensures disk { SameDisk D.Disk disk.old disk.new }
    {
        match open_on(alloc, disk, frames) {
            Ok(opened) => {
                *self = opened;
                Ok(())
            }
            Err(refusal) => Err(refusal),
        }
    }
}
