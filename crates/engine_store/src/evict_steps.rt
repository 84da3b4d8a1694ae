//! A leaf that is evicted by steps, of which the last one writes it.

ghost use Rattle.std.specs.Prelude.{◌≡◌, ◌≢◌, ℕ, List, Option, None, Some, false, length, slice_index_or, IfSome, IsTrue};
ghost use Rattle.failure.specs.Counts.{Rose};
ghost use Rattle.disk_model.specs.Crash.{SameDisk};
ghost use Rattle.engine_world.specs.Stands.{Stands};
ghost use Rattle.engine_world.specs.Worlds.{World};
ghost use Rattle.engine.specs.declared.turning.Evicting.{Evicting as AnEvicting};
ghost use Rattle.engine.specs.Turning.{evicting_by, target_of};
ghost use Rattle.engine_store.specs.Answers.{answer_of};
ghost use Rattle.engine_store.specs.Calls.{StaysTold};
ghost use Rattle.engine_store.specs.EvictCalls.{IsOut, MayLook};
ghost use Rattle.engine_store.specs.EvictSteps.{EndsAs, EndsWith, EvictsBesideFrom, IsLockedBut, IsLockedByOther, IsTargetOf, LeavesFewer, MayTurn, SeesTo, TurnsTo, scan_from, stage_left, steps_left};
ghost use Rattle.engine_store.specs.Opened.{IsReady};

use crate::evict_call::WORDS_EACH;
use crate::store::Store;
use call_steps::Target;
use disk_model::Disk;
use engine::{EvictStage, Evicting, evicting_of, locker, put_stage};
use item::Item;
use std::alloc::Global;
use wt_code::{Busy, Invalid, Refusal};

/// How a step of an eviction went.
#[derive(Clone, Copy, Debug, PartialEq, Eq)]
pub enum EvictTurn {
    /// It goes on with this step.
    On(EvictStage),
    /// It has ended with this answer.
    Ended(Result<(), Refusal>),
}

impl Store {
    /// A whole call of an actor of the system, as `evict`, beside evictions that go by steps. Refused as
    /// `16 busy evicting` where that of another actor has locked the frame of the leaf.
    pub fn evict_beside<D: Disk>(
        &mut self,
        alloc: Global,
        disk: &mut D,
        number: u32,
        table: &Item,
        key: &Item,
        evicting: &[Option<Evicting>],
    ) -> Result<(), Refusal>
        ensures evicts { EvictsBesideFrom D.Disk self.old self.new disk.old disk.new evicting.now number table.now key.now None (answer_of result) }
        ensures fault { EndsWith (EvictTurn.Ended result) Refusal.DiskFault → Rose (D.faults disk.old) (D.faults disk.new) }
        ensures sessions { length self.new.engine.sessions ≡ length self.old.engine.sessions }
        ensures frames { self.new.frames ≡ self.old.frames }
        ensures running { self.new.running ≡ self.old.running }
        ensures number { self.new.ground.number ≡ self.old.ground.number }
        ensures ready { IsReady self.old → IsReady self.new }
        ensures told { StaysTold D.Disk self.old self.new disk.old disk.new }
        ensures disk { SameDisk D.Disk disk.old disk.new }
    {
        match self.locked_by_other(number, table.as_bytes(), key.as_bytes(), evicting) {
            Some(frame) => Err(Refusal::Busy(Busy::Evicting(frame))),
            None => self.evict(alloc, disk, number, table, key),
        }
    }

    // The frame of the leaf of a key, where the eviction of another actor has locked it.
    fn locked_by_other(
        &self,
        number: u32,
        table: &[u8],
        key: &[u8],
        evicting: &[Option<Evicting>],
    ) -> Option<u32>
        ensures some { IfSome result (λ frame. (w : World) → Stands self.now.engine w → MayLook (slice_index_or w.systems number None) w.machine table.now key.now × IsLockedByOther self.now.engine w.machine evicting.now number table.now key.now (Refusal.Busy (Busy.Evicting frame))) }
        ensures none { result ≡ None → (w : World) → Stands self.now.engine w → MayLook (slice_index_or w.systems number None) w.machine table.now key.now → (frame : ℕ) → IsLockedByOther self.now.engine w.machine evicting.now number table.now key.now (Refusal.Busy (Busy.Evicting frame)) → ⊥ }
    {
        match self.may_look(number, table, key) {
            Err(_) => None,
            Ok(()) => self.lock_on_key(number, table, key, evicting),
        }
    }

    // The same, where the call is not refused before.
    fn lock_on_key(
        &self,
        number: u32,
        table: &[u8],
        key: &[u8],
        evicting: &[Option<Evicting>],
    ) -> Option<u32>
        ensures some { IfSome result (λ frame. (w : World) → Stands self.now.engine w → IsLockedByOther self.now.engine w.machine evicting.now number table.now key.now (Refusal.Busy (Busy.Evicting frame))) }
        ensures none { result ≡ None → (w : World) → Stands self.now.engine w → (frame : ℕ) → IsLockedByOther self.now.engine w.machine evicting.now number table.now key.now (Refusal.Busy (Busy.Evicting frame)) → ⊥ }
    {
        match self.framed_target(table, key) {
            None => None,
            Some(target) => frame_if_locked(evicting, number, target),
        }
    }

    // Where the leaf of a key is; none where it is in no frame.
    fn framed_target(&self, table: &[u8], key: &[u8]) -> Option<Target>
        ensures none { result ≡ None → (w : World) → Stands self.now.engine w → IsOut self.now.engine w.machine table.now key.now }
        ensures some { IfSome result (λ target. (w : World) → Stands self.now.engine w → IsTargetOf self.now.engine w.machine table.now key.now target) }
    {
        match self.framed_leaf(table, key) {
            None => None,
            Some(leaf) => self.engine.target(leaf),
        }
    }

    /// One step of the eviction of an actor of the system. It finds the leaf of its key; locks its frame;
    /// looks at each hazard word; sees whether the engine is up, and whether the leaf may be evicted; and
    /// then evicts the leaf of its key as it is then (`evict_beside`). Each step but the last changes
    /// nothing. It ends early where the leaf is in no frame, and is refused as `evict` is at the step that
    /// sees why: as `16 busy evicting` where the frame has the leaf no more or is locked, as
    /// `16 busy pinned` at the first hazard word that names the frame, and for what else keeps the leaf
    /// before it is written. `O(1)` but for the last two.
    pub fn evict_step<D: Disk>(
        &mut self,
        alloc: Global,
        disk: &mut D,
        number: u32,
        evicting: &[Option<Evicting>],
    ) -> EvictTurn
        ensures turns { MayTurn D.Disk self.old self.new disk.old disk.new evicting.now number (evicting_by evicting.now number) result }
        ensures fewer { LeavesFewer self.old.engine (steps_left self.old.engine (evicting_by evicting.now number)) result }
        ensures fault { EndsWith result Refusal.DiskFault → Rose (D.faults disk.old) (D.faults disk.new) }
        ensures sessions { length self.new.engine.sessions ≡ length self.old.engine.sessions }
        ensures frames { self.new.frames ≡ self.old.frames }
        ensures running { self.new.running ≡ self.old.running }
        ensures number { self.new.ground.number ≡ self.old.ground.number }
        ensures ready { IsReady self.old → IsReady self.new }
        ensures told { StaysTold D.Disk self.old self.new disk.old disk.new }
        ensures disk { SameDisk D.Disk disk.old disk.new }
    {
        match evicting_of(evicting, number) {
            None => EvictTurn::Ended(Err(Refusal::Invalid(Invalid::NoCall))),
            Some(one) => self.turn_evicting(alloc, disk, number, one, evicting),
        }
    }

    fn turn_evicting<D: Disk>(
        &mut self,
        alloc: Global,
        disk: &mut D,
        number: u32,
        one: &Evicting,
        evicting: &[Option<Evicting>],
    ) -> EvictTurn
        ensures turns { TurnsTo D.Disk self.old self.new disk.old disk.new evicting.now number one.now result }
        ensures fewer { LeavesFewer self.old.engine (stage_left self.old.engine one.now.stage) result }
        ensures fault { EndsWith result Refusal.DiskFault → Rose (D.faults disk.old) (D.faults disk.new) }
        ensures sessions { length self.new.engine.sessions ≡ length self.old.engine.sessions }
        ensures frames { self.new.frames ≡ self.old.frames }
        ensures running { self.new.running ≡ self.old.running }
        ensures number { self.new.ground.number ≡ self.old.ground.number }
        ensures ready { IsReady self.old → IsReady self.new }
        ensures told { StaysTold D.Disk self.old self.new disk.old disk.new }
        ensures disk { SameDisk D.Disk disk.old disk.new }
    {
        if self.engine.has_started(number) {
            return EvictTurn::Ended(Err(Refusal::Invalid(Invalid::InCall)));
        }
        let table = one.table.as_bytes();
        let key = one.key.as_bytes();
        match one.stage {
            EvictStage::Find => self.find(number, table, key),
            EvictStage::Lock(target) => self.lock(target, evicting),
            EvictStage::Scan(target, word) => self.scan(target, word),
            EvictStage::Ask(target) => self.ask(number, table, key, target),
            EvictStage::Cut(target) => self.judge(alloc, target),
            EvictStage::Write(_) => EvictTurn::Ended(self.evict_beside(
                alloc, disk, number, &one.table, &one.key, evicting,
            )),
        }
    }

    // Finds the leaf of the key and its frame.
    fn find(&self, number: u32, table: &[u8], key: &[u8]) -> EvictTurn
        ensures sees { (evicting : List (Option AnEvicting)) → SeesTo self.now.engine evicting number table.now key.now EvictStage.Find result }
        ensures fewer { LeavesFewer self.now.engine (stage_left self.now.engine EvictStage.Find) result }
        ensures own { EndsWith result Refusal.DiskFault → ⊥ }
    {
        match self.may_look(number, table, key) {
            Err(refusal) => EvictTurn::Ended(Err(refusal)),
            Ok(()) => match self.framed_target(table, key) {
                None => EvictTurn::Ended(Ok(())),
                Some(target) => EvictTurn::On(EvictStage::Lock(target)),
            },
        }
    }

    // Locks the frame, where it has the leaf still and nobody has it locked.
    fn lock(&self, target: Target, evicting: &[Option<Evicting>]) -> EvictTurn
        ensures sees { (number : ℕ) (name key : List ℕ) → SeesTo self.now.engine evicting.now number name key (EvictStage.Lock target) result }
        ensures fewer { LeavesFewer self.now.engine (stage_left self.now.engine (EvictStage.Lock target)) result }
        ensures own { EndsWith result Refusal.DiskFault → ⊥ }
    {
        if !self.is_at(target) {
            return EvictTurn::Ended(Err(Refusal::Busy(Busy::Evicting(target.frame))));
        }
        match locker(evicting, evicting.len(), target.frame, target.word) {
            Some(_) => EvictTurn::Ended(Err(Refusal::Busy(Busy::Evicting(target.frame)))),
            None => EvictTurn::On(self.scan_from(target, 0)),
        }
    }

    // Whether the leaf is where it was found.
    fn is_at(&self, target: Target) -> bool
        ensures yes { IsTrue result → target_of self.now.engine target.leaf ≡ Some target }
        ensures no { result ≡ false → target_of self.now.engine target.leaf ≢ Some target }
    {
        match self.engine.target(target.leaf) {
            None => false,
            Some(found) => found == target,
        }
    }

    // The scan at a hazard word, or what is behind the last one.
    fn scan_from(&self, target: Target, word: u32) -> EvictStage
        ensures { result ≡ scan_from self.now.engine target word }
    {
        if self.engine.has_word(word) {
            EvictStage::Scan(target, word)
        } else {
            EvictStage::Ask(target)
        }
    }

    // Looks whether a hazard word names the frame.
    fn scan(&self, target: Target, word: u32) -> EvictTurn
        ensures sees { (evicting : List (Option AnEvicting)) (number : ℕ) (name key : List ℕ) → SeesTo self.now.engine evicting number name key (EvictStage.Scan target word) result }
        ensures fewer { LeavesFewer self.now.engine (stage_left self.now.engine (EvictStage.Scan target word)) result }
        ensures own { EndsWith result Refusal.DiskFault → ⊥ }
    {
        if self.engine.names(word, target.frame) {
            return EvictTurn::Ended(Err(Refusal::Busy(Busy::Pinned(word / WORDS_EACH))));
        }
        if !self.engine.has_word(word) {
            return EvictTurn::On(EvictStage::Ask(target));
        }
        EvictTurn::On(self.scan_from(target, word + 1))
    }

    // Sees whether the engine is up.
    fn ask(&self, number: u32, table: &[u8], key: &[u8], target: Target) -> EvictTurn
        ensures sees { (evicting : List (Option AnEvicting)) → SeesTo self.now.engine evicting number table.now key.now (EvictStage.Ask target) result }
        ensures fewer { LeavesFewer self.now.engine (stage_left self.now.engine (EvictStage.Ask target)) result }
        ensures own { EndsWith result Refusal.DiskFault → ⊥ }
    {
        match self.may_look(number, table, key) {
            Err(refusal) => EvictTurn::Ended(Err(refusal)),
            Ok(()) => EvictTurn::On(EvictStage::Cut(target)),
        }
    }

    // Sees whether the leaf may be evicted.
    fn judge(&self, alloc: Global, target: Target) -> EvictTurn
        ensures sees { (evicting : List (Option AnEvicting)) (number : ℕ) (name key : List ℕ) → SeesTo self.now.engine evicting number name key (EvictStage.Cut target) result }
        ensures fewer { LeavesFewer self.now.engine (stage_left self.now.engine (EvictStage.Cut target)) result }
        ensures own { EndsWith result Refusal.DiskFault → ⊥ }
    {
        match self.engine.why_it_stays(target.leaf) {
            None => EvictTurn::On(EvictStage::Write(target)),
            Some(why) => EvictTurn::Ended(Err(self.kept_by(alloc, target.leaf, why))),
        }
    }

    /// All the steps that are left of the eviction of an actor, with nobody between. `evicting` has it at
    /// its last one then.
    pub fn evict_rest<D: Disk>(
        &mut self,
        alloc: Global,
        disk: &mut D,
        number: u32,
        evicting: &mut [Option<Evicting>],
    ) -> Result<(), Refusal>
        ensures ends { EndsAs D.Disk self.old self.new disk.old disk.new evicting.old evicting.new number result }
        ensures fault { EndsWith (EvictTurn.Ended result) Refusal.DiskFault → Rose (D.faults disk.old) (D.faults disk.new) }
        ensures sessions { length self.new.engine.sessions ≡ length self.old.engine.sessions }
        ensures frames { self.new.frames ≡ self.old.frames }
        ensures running { self.new.running ≡ self.old.running }
        ensures number { self.new.ground.number ≡ self.old.ground.number }
        ensures ready { IsReady self.old → IsReady self.new }
        ensures told { StaysTold D.Disk self.old self.new disk.old disk.new }
        ensures disk { SameDisk D.Disk disk.old disk.new }
    {
        'steps: loop {
            match self.evict_step(alloc, disk, number, evicting) {
                EvictTurn::On(stage) => put_stage(evicting, number, stage),
                EvictTurn::Ended(result) => return result,
            }
        }
    }
}

// The frame of a leaf, where the eviction of another actor has locked it.
fn frame_if_locked(evicting: &[Option<Evicting>], number: u32, target: Target) -> Option<u32>
    ensures some { IfSome result (λ frame. (frame ≡ target.frame) × IsLockedBut evicting.now number target) }
    ensures none { result ≡ None → IsLockedBut evicting.now number target → ⊥ }
{
    match locker(evicting, number as usize, target.frame, target.word) {
        None => None,
        Some(_) => Some(target.frame),
    }
}
