//! A leaf that is evicted by a call.

ghost use Rattle.std.specs.Prelude.{◌≡◌, ◌≢◌, None, length, nat_lt, slice_index_or, IfErr, IfOk, IfSome};
ghost use Rattle.limits.specs.declared.TheConstants.{KEY_MAX};
ghost use Rattle.failure.specs.Counts.{Rose};
ghost use Rattle.disk_model.specs.Crash.{SameDisk};
ghost use Rattle.engine_world.specs.Stands.{Stands};
ghost use Rattle.engine_world.specs.Worlds.{World};
ghost use Rattle.ckpt_step.specs.Evicts.{WhyNotNow};
ghost use Rattle.engine_store.specs.Calls.{StaysTold};
ghost use Rattle.engine_store.specs.EvictCalls.{EvictsFrom, EvictsLeafFrom, IsKeptBy, IsLeafOf, IsOut, IsPinnedBy, IsRefusedAtOnce, MayLook};
ghost use Rattle.engine_store.specs.Opened.{IsReady};
ghost use Rattle.engine_store.specs.Room.{RoomAlike};

use crate::progress::checkpoint_in;
use crate::store::Store;
use catalog::is_name;
use ckpt_step::{Evicted, evict};
use disk_model::Disk;
use engine::Stays;
use engine_world::downs_go;
use evict_step::unended_in;
use item::Item;
use limits::KEY_MAX;
use std::alloc::Global;
use wt_code::{Busy, Invalid, Limit, Refusal};

// So many hazard words each session has, one session's behind the other's.
pub(crate) const WORDS_EACH: u32 = 5;

impl Store {
    /// A whole call of an actor of the system: the leaf in which the key of a table lies is evicted
    /// (`ckpt_step::evict`), whoever is at work. It is in no frame then. Done at once where it was in none.
    ///
    /// Refused where the actor has a call that is not finished, the engine is down, the name or the key
    /// is none that there may be, or the table is not there. Then as `16 busy pinned` where a session
    /// holds the leaf: a cursor stands on it, or a call that was begun is at it; and, where the leaf has to
    /// part, where such a call is on its way to it or goes over its table. As `16 busy unresolved` where
    /// a transaction that has not ended has a version in it, of those with an update the least; as
    /// `16 busy resolving` where one wrote in it that has taken that back and has not ended. As
    /// `75 limit generations` where its frame has no next generation. Each leaves the leaf where it is. For
    /// want of memory or room it stays too; a failed read leaves the engine up, and a failed write takes it
    /// down.
    ///
    /// `O(log n)` comparisons with the low keys of n leaves, and what `ckpt_step::evict` costs.
    pub fn evict<D: Disk>(
        &mut self,
        alloc: Global,
        disk: &mut D,
        number: u32,
        table: &Item,
        key: &Item,
    ) -> Result<(), Refusal>
        ensures evicts { EvictsFrom D.Disk self.old self.new disk.old disk.new number table.now key.now result }
        ensures fault { IfErr result (λ r. r ≡ Refusal.DiskFault → Rose (D.faults disk.old) (D.faults disk.new)) }
        ensures sessions { length self.new.engine.sessions ≡ length self.old.engine.sessions }
        ensures frames { self.new.frames ≡ self.old.frames }
        ensures running { self.new.running ≡ self.old.running }
        ensures number { self.new.ground.number ≡ self.old.ground.number }
        ensures ready { IsReady self.old → IsReady self.new }
        ensures told { StaysTold D.Disk self.old self.new disk.old disk.new }
        ensures disk { SameDisk D.Disk disk.old disk.new }
    {
        match self.may_look(number, table.as_bytes(), key.as_bytes()) {
            Err(refusal) => Err(refusal),
            Ok(()) => match self.framed_leaf(table.as_bytes(), key.as_bytes()) {
                None => Ok(()),
                Some(leaf) => self.evict_from(alloc, disk, leaf, table, key),
            },
        }
    }

    // Whether the leaf of a key is looked at, or the call is refused before.
    pub(crate) fn may_look(&self, number: u32, table: &[u8], key: &[u8]) -> Result<(), Refusal>
        ensures refused { IfErr result (λ r. (w : World) → Stands self.now.engine w → IsRefusedAtOnce (slice_index_or w.systems number None) w.machine table.now key.now r) }
        ensures own { IfErr result (λ r. r ≢ Refusal.DiskFault) }
        ensures goes { IfOk result (λ _. (w : World) → Stands self.now.engine w → MayLook (slice_index_or w.systems number None) w.machine table.now key.now) }
    {
        if self.engine.has_started(number) {
            return Err(Refusal::Invalid(Invalid::InCall));
        }
        if let Some(fault) = self.engine.fault() {
            return Err(Refusal::Panic { fault });
        }
        if !is_name(table) {
            return Err(Refusal::Invalid(Invalid::BadName));
        }
        if is_long(key) {
            return Err(Refusal::Invalid(Invalid::KeyLong {
                len: key.len() as u64,
            }));
        }
        match self.engine.table_number(table) {
            None => Err(Refusal::NoTable),
            Some(_) => Ok(()),
        }
    }

    // The leaf in which a key lies, where it is in a frame.
    pub(crate) fn framed_leaf(&self, table: &[u8], key: &[u8]) -> Option<u64>
        ensures none { result ≡ None → (w : World) → Stands self.now.engine w → IsOut self.now.engine w.machine table.now key.now }
        ensures some { IfSome result (λ id. (w : World) → Stands self.now.engine w → IsLeafOf self.now.engine w.machine table.now key.now id) }
    {
        let number = self.engine.table_number(table)?;
        let leaf = self.engine.leaves().leaf_for(number, key)?;
        let _framed = self.engine.leaves().frame(leaf)?;
        Some(leaf)
    }

    // Evicts the leaf of a key, which is in a frame.
    fn evict_from<D: Disk>(
        &mut self,
        alloc: Global,
        disk: &mut D,
        leaf: u64,
        table: &Item,
        key: &Item,
    ) -> Result<(), Refusal>
        ensures evicts { EvictsLeafFrom D.Disk self.old self.new disk.old disk.new leaf table.now key.now result }
        ensures fault { IfErr result (λ r. r ≡ Refusal.DiskFault → Rose (D.faults disk.old) (D.faults disk.new)) }
        ensures alike { RoomAlike D.Disk self.old self.new disk.old disk.new }
    {
        downs_go();
        let running = checkpoint_in(&self.running);
        match evict(
            alloc,
            disk,
            &mut self.ground,
            &mut self.engine,
            running,
            leaf,
        ) {
            Ok(Evicted::Stays(why)) => Err(self.kept_by(alloc, leaf, why)),
            Ok(Evicted::Unresolved(by)) => Err(Refusal::Busy(Busy::Unresolved(by))),
            Ok(_) => self.told_out(table.as_bytes(), key.as_bytes()),
            Err(refusal) => Err(refusal),
        }
    }

    // Done, where the leaf of the key is in no frame.
    fn told_out(&self, table: &[u8], key: &[u8]) -> Result<(), Refusal>
        ensures out { IfOk result (λ _. (w : World) → Stands self.now.engine w → IsOut self.now.engine w.machine table.now key.now) }
        ensures short { IfErr result (λ r. r ≡ Refusal.NoMemory) }
    {
        match self.framed_leaf(table, key) {
            None => Ok(()),
            Some(_) => Err(Refusal::NoMemory),
        }
    }

    // What is told where a leaf stays for this reason.
    pub(crate) fn kept_by(&self, alloc: Global, leaf: u64, why: Stays) -> Refusal
        ensures told { (w : World) → Stands self.now.engine w → WhyNotNow self.now.engine w.machine leaf why → IsKeptBy self.now.engine w.machine leaf result }
        ensures own { result ≢ Refusal.DiskFault }
    {
        match why {
            Stays::Call(session) => Refusal::Busy(Busy::Pinned(session)),
            Stays::Coming(session) => Refusal::Busy(Busy::Pinned(session)),
            Stays::Walked(session) => Refusal::Busy(Busy::Pinned(session)),
            Stays::Pinned(word) => pinned_by(word),
            Stays::Written(session) => self.written_by(alloc, leaf, session),
            Stays::LastGeneration => Refusal::Limit(Limit::Generations),
            // It was in a frame.
            Stays::Away => Refusal::NoMemory,
        }
    }

    // What is told where the transaction of a session wrote in a leaf, and has not ended.
    fn written_by(&self, alloc: Global, leaf: u64, session: u32) -> Refusal
        ensures told { (w : World) → Stands self.now.engine w → WhyNotNow self.now.engine w.machine leaf (Stays.Written session) → IsKeptBy self.now.engine w.machine leaf result }
        ensures own { result ≢ Refusal.DiskFault }
    {
        match unended_in(alloc, &self.engine, leaf) {
            Err(_) => Refusal::NoMemory,
            Ok(None) => Refusal::Busy(Busy::Resolving(session)),
            Ok(Some(by)) => Refusal::Busy(Busy::Unresolved(by)),
        }
    }
}

// Whether no table has such a key.
fn is_long(key: &[u8]) -> bool
    ensures { result ≡ nat_lt KEY_MAX (length key.now) }
{
    key.len() > KEY_MAX
}

// The session whose hazard word it is.
fn pinned_by(word: usize) -> Refusal
    ensures told { IsPinnedBy word result }
    ensures own { result ≢ Refusal.DiskFault }
{
    match u32::try_from(word / (WORDS_EACH as usize)) {
        Ok(session) => Refusal::Busy(Busy::Pinned(session)),
        // There are not so many sessions.
        Err(_) => Refusal::NoMemory,
    }
}
