//! A checkpoint that runs beside other work.

ghost use Rattle.std.specs.Prelude.{◌≡◌, List, None, false, length, nat_lt, true, IfErr, OnErr, OnOk, IsTrue};
ghost use Rattle.failure.specs.Counts.{Rose};
ghost use Rattle.disk_model.specs.Crash.{SameDisk};
ghost use Rattle.kv_model.specs.Machine.{Completed, of_some};
ghost use Rattle.engine_world.specs.Worlds.{World};
ghost use Rattle.engine_store.specs.Calls.{Holding, StaysTold};
ghost use Rattle.engine_store.specs.Devices.{Installed};
ghost use Rattle.engine_store.specs.Finishes.{FinishesTo, IsOfFinish, IsOfStep, IsOfTaking, StartsTo, StepsTo, ends_it};
ghost use Rattle.engine_store.specs.Held.{IsHeld};
ghost use Rattle.engine_store.specs.Opened.{IsReady};
ghost use Rattle.engine_store.specs.Progress.{has_left, left_of, place_in};
ghost use Rattle.engine_store.specs.Running.{checkpoint_of};

use crate::progress::{Remains, Underway};
use crate::store::Store;
use ckpt_content::finishes_open;
use ckpt_step::{finish, start};
use disk_model::Disk;
use engine_world::downs_go;
use std::alloc::Global;
use wt_code::{Invalid, Refusal};

impl Store {
    /// A checkpoint starts (`ckpt_step::start`): what is committed now is what it captures. It runs beside
    /// whatever others do, until `step_checkpoint` has taken each leaf of the tables that are there now, and
    /// `finish_checkpoint` writes it. Nothing of the engine or the device changes.
    /// `D` is the type of the store's disk, which is not looked at.
    ///
    /// Refused where the engine is down; as `16 busy checkpoint` where one runs, and as `16 busy resolving`
    /// where a prepared transaction is being resolved; as `75 limit checkpoints`; and for want of memory.
    /// `O(n log n)` in the sessions.
    pub fn start_checkpoint<D: Disk>(&mut self, alloc: Global) -> Result<(), Refusal>
        ensures starts { (disk : D) → Holding D.Disk self.old disk (λ start w first made. StartsTo D.Disk start w first made self.old self.new disk disk result) }
        ensures refusals { IfErr result IsOfTaking }
        ensures fault { IfErr result (λ r. r ≡ Refusal.DiskFault → ⊥) }
        ensures same { OnErr result (self.new ≡ self.old) }
        ensures engine { self.new.engine ≡ self.old.engine }
        ensures ground { self.new.ground ≡ self.old.ground }
        ensures frames { self.new.frames ≡ self.old.frames }
        ensures ready { IsReady self.old → IsReady self.new }
        ensures told { (disk : D) → StaysTold D.Disk self.old self.new disk disk }
    {
        match self.may_take() {
            Ok(()) => {}
            Err(refusal) => return Err(refusal),
        }
        match start(alloc, &self.ground, &self.engine) {
            Ok(checkpoint) => {
                self.running = Some(Underway::begin(alloc, checkpoint));
                Ok(())
            }
            Err(refusal) => Err(refusal),
        }
    }

    /// The checkpoint that runs takes its next leaf, the tables in the order in which they were made and
    /// the leaves of each by their keys. What it captures of the leaf stays where it is until
    /// `finish_checkpoint` writes it, whatever becomes of the leaf: nothing of the engine or the device
    /// changes. Tells whether another leaf is left; where none was, nothing is taken. `D` is the type of
    /// the store's disk, which is not looked at.
    ///
    /// Refused where the engine is down, as `22 no checkpoint` where none runs, and for want of memory for
    /// the key of the leaf behind it. `O(log n)` in the leaves.
    pub fn step_checkpoint<D: Disk>(&mut self, alloc: Global) -> Result<Remains, Refusal>
        ensures steps { (disk : D) → Holding D.Disk self.old disk (λ start w first made. StepsTo D.Disk start w first made self.old self.new disk disk result) }
        ensures checkpoint { checkpoint_of self.new.running ≡ checkpoint_of self.old.running }
        ensures refusals { IfErr result IsOfStep }
        ensures same { OnErr result (self.new ≡ self.old) }
        ensures engine { self.new.engine ≡ self.old.engine }
        ensures ground { self.new.ground ≡ self.old.ground }
        ensures frames { self.new.frames ≡ self.old.frames }
        ensures ready { IsReady self.old → IsReady self.new }
        ensures told { (disk : D) → StaysTold D.Disk self.old self.new disk disk }
    {
        if let Some(fault) = self.engine.fault() {
            return Err(Refusal::Panic { fault });
        }
        match &mut self.running {
            None => Err(Refusal::Invalid(Invalid::NoCkpt)),
            Some(running) => running.take(alloc, &self.engine),
        }
    }

    /// Whether a step of a checkpoint would take a leaf: one runs, a leaf of it has not been taken, and the
    /// engine is up. `D` is the type of the store's disk, which is not looked at. `O(1)`.
    pub fn has_leaf_left<D: Disk>(&self) -> bool
        ensures { (disk : D) → Holding D.Disk self.now disk (λ start w first made. result ≡ has_left w.machine (left_of w.machine self.now.engine.hub.dir.leaves (place_in self.now.running))) }
    {
        match self.engine.fault() {
            Some(_) => false,
            None => has_left(&self.running),
        }
    }

    /// The checkpoint that runs is finished (`ckpt_step::finish`): the device opens as what it captured when it
    /// started, and it is the last completed one.
    ///
    /// Refused where the engine is down, as `22 no checkpoint` where none runs, and as
    /// `22 checkpoint left` while a leaf of it has not been taken. For want of room the
    /// checkpoint ends without having been finished; after any other refusal it still runs. A failed write
    /// or sync takes the engine down, and the device has the checkpoint before or, where the gate of the
    /// slot was being opened, the new one.
    pub fn finish_checkpoint<D: Disk>(&mut self, alloc: Global, disk: &mut D) -> Result<(), Refusal>
        requires ready { IsReady self.old }
        ensures finishes { IsTrue (D.honest disk.old) → (first_disk : D) → (w : World) → (first : Completed) → (made : List Installed) → IsHeld D.Disk first_disk self.old disk.old w first made
            → FinishesTo D.Disk first_disk w first made self.old self.new disk.old disk.new result }
        ensures refusals { IfErr result IsOfFinish }
        ensures fault { IfErr result (λ r. r ≡ Refusal.DiskFault → Rose (D.faults disk.old) (D.faults disk.new)) }
        ensures ends { OnOk result (self.new.running ≡ None) }
        ensures ended { IfErr result (λ r. ends_it r ≡ true → self.new.running ≡ None) }
        ensures runs_on { IfErr result (λ r. ends_it r ≡ false → self.new.running ≡ self.old.running) }
        ensures sessions { length self.new.engine.sessions ≡ length self.old.engine.sessions }
        ensures frames { self.new.frames ≡ self.old.frames }
        ensures ready { IsReady self.new }
        ensures told { StaysTold D.Disk self.old self.new disk.old disk.new }
        ensures disk { SameDisk D.Disk disk.old disk.new }
    {
        finishes_open();
        downs_go();
        if let Some(fault) = self.engine.fault() {
            return Err(Refusal::Panic { fault });
        }
        let Some(running) = &self.running else {
            return Err(Refusal::Invalid(Invalid::NoCkpt));
        };
        if running.has_left() {
            return Err(Refusal::Invalid(Invalid::CkptLeft));
        }
        let running = &running.checkpoint;
        match finish(alloc, disk, &mut self.ground, &mut self.engine, running) {
            Ok(()) => {
                self.running = None;
                Ok(())
            }
            Err(refusal) => {
                if ends_it(refusal) {
                    self.engine.drop_checkpoint();
                    self.running = None;
                }
                Err(refusal)
            }
        }
    }
}

// Whether a leaf of what runs, if something does, has not been taken.
fn has_left(running: &Option<Underway>) -> bool
    ensures { result ≡ of_some false (λ u. nat_lt u.progress.table u.checkpoint.tables) running.now }
{
    match running {
        None => false,
        Some(running) => running.has_left(),
    }
}

// Whether a finish that is refused so ends the checkpoint: there was no room.
fn ends_it(refusal: Refusal) -> bool
    ensures { result ≡ ends_it refusal }
{
    match refusal {
        Refusal::NoSpace => true,
        _ => false,
    }
}
