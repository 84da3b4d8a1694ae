//! Leaves that are evicted behind calls.

ghost use Rattle.std.specs.Prelude.{◌≡◌, length};
ghost use Rattle.disk_model.specs.Crash.{SameDisk};
ghost use Rattle.engine_store.specs.Calls.{StaysTold};
ghost use Rattle.engine_store.specs.Opened.{IsReady};
ghost use Rattle.engine_store.specs.Room.{MakesRoom, RoomAlike};

use crate::eviction::TRIES;
use crate::frames::Frames;
use crate::progress::checkpoint_in;
use crate::store::Store;
use crate::writing_out::{CHANGED_LEAST, is_short};
use ckpt_step::evict;
use disk_model::Disk;
use engine::{Evicting, are_any};
use engine_world::downs_go;
use std::alloc::Global;

impl Store {
    /// Behind a call, whoever is at work: some leaves are evicted (`ckpt_step::evict`), so that the
    /// newest version of each of their keys stands in a block that the live tree alone has, and they are
    /// in no frame. Older versions that somebody may still want, as a checkpoint that runs, stay in memory, and come back with their
    /// leaf. One that has grown past one block parts: leaves of several such blocks, in no frame either,
    /// have its place, and each has the older versions of its keys. Calls read them when they need them,
    /// the next checkpoint keeps them as they stand, and an opening knows nothing of them.
    ///
    /// While more frames have leaves than there are to be, these are the next ones of which keys were
    /// written since they were read. Every 1,000 calls it is each of which `CHANGED_LEAST` keys or more
    /// were, and every 32 calls while one of these stays. At most four are tried; where the frames are
    /// firm, each is, until no more have leaves than there are to be. A leaf stays in its frame that may
    /// not go, and for which memory or the device has no room. A failed write takes the engine down; a
    /// failed read does not. Either ends it.
    ///
    /// `O(1)` where nothing is due, else `O(n)` in the frames, and of each such leaf what
    /// `ckpt_step::evict` costs.
    #[inline(always)]
    pub fn make_room<D: Disk>(&mut self, alloc: Global, disk: &mut D)
        ensures room { MakesRoom D.Disk self.old self.new disk.old disk.new }
        ensures frames { self.new.frames ≡ self.old.frames }
        ensures running { self.new.running ≡ self.old.running }
        ensures sessions { length self.new.engine.sessions ≡ length self.old.engine.sessions }
        ensures number { self.new.ground.number ≡ self.old.ground.number }
        ensures ready { IsReady self.old → IsReady self.new }
        ensures told { StaysTold D.Disk self.old self.new disk.old disk.new }
        ensures disk { SameDisk D.Disk disk.old disk.new }
    {
        self.evict_due(alloc, disk);
    }

    /// The same, where no actor has an eviction that goes by steps; nothing else.
    pub fn make_room_beside<D: Disk>(
        &mut self,
        alloc: Global,
        disk: &mut D,
        evicting: &[Option<Evicting>],
    )
        ensures room { MakesRoom D.Disk self.old self.new disk.old disk.new }
        ensures frames { self.new.frames ≡ self.old.frames }
        ensures running { self.new.running ≡ self.old.running }
        ensures sessions { length self.new.engine.sessions ≡ length self.old.engine.sessions }
        ensures number { self.new.ground.number ≡ self.old.ground.number }
        ensures ready { IsReady self.old → IsReady self.new }
        ensures told { StaysTold D.Disk self.old self.new disk.old disk.new }
        ensures disk { SameDisk D.Disk disk.old disk.new }
    {
        if !are_any(evicting) {
            self.make_room(alloc, disk);
        }
    }

    // Those leaves, if any are due.
    #[inline(always)]
    fn evict_due<D: Disk>(&mut self, alloc: Global, disk: &mut D)
        ensures room { MakesRoom D.Disk self.old self.new disk.old disk.new }
        ensures alike { RoomAlike D.Disk self.old self.new disk.old disk.new }
    {
        if self.clock.take_over() {
            self.evict_over(alloc, disk);
        } else if self.clock.count_call() {
            self.evict_many(alloc, disk);
        }
    }

    // Some of the leaves of each of which many keys were written. While any is left, they are looked for
    // again soon.
    #[inline(never)]
    fn evict_many<D: Disk>(&mut self, alloc: Global, disk: &mut D)
        ensures room { MakesRoom D.Disk self.old self.new disk.old disk.new }
        ensures alike { RoomAlike D.Disk self.old self.new disk.old disk.new }
    {
        self.evict_some(alloc, disk, TRIES, CHANGED_LEAST);
        let are_left = self.has_changed();
        self.clock.note_left(are_left);
    }

    // Whether many keys of a leaf in a frame were written.
    fn has_changed(&self) -> bool {
        for frame in 0..self.engine.frames() {
            if self.changed_in(frame).is_some() {
                return true;
            }
        }
        false
    }

    // Some of the leaves beyond so many as there are frames. As long as some go, others go behind the next
    // call.
    #[inline(never)]
    fn evict_over<D: Disk>(&mut self, alloc: Global, disk: &mut D)
        ensures room { MakesRoom D.Disk self.old self.new disk.old disk.new }
        ensures alike { RoomAlike D.Disk self.old self.new disk.old disk.new }
    {
        let filled = self.filled();
        let over = self.over();
        self.evict_some(alloc, disk, self.at_once(over), 1);
        let has_fewer = self.filled() < filled;
        self.clock.note_over(over > TRIES && has_fewer);
    }

    // How many of so many are evicted behind one call.
    fn at_once(&self, over: usize) -> usize {
        match self.frames {
            Frames::Soft(_) => over.min(TRIES),
            Frames::Firm(_) => over,
        }
    }

    // At most so many of the leaves in frames of each of which so many keys or more were written since it
    // was read, by the hand of the clock. Where the frames are firm, those that stay are not counted.
    #[inline(never)]
    fn evict_some<D: Disk>(&mut self, alloc: Global, disk: &mut D, tries: usize, least: usize)
        ensures room { MakesRoom D.Disk self.old self.new disk.old disk.new }
        ensures alike { RoomAlike D.Disk self.old self.new disk.old disk.new }
    {
        let mut left = tries;
        for _ in 0..self.engine.frames() {
            if left == 0 {
                return;
            }
            let frame = self.clock.next(self.engine.frames());
            if let Some(leaf) = self.changed_by(frame, least) {
                if !self.evict_leaf(alloc, disk, leaf) {
                    return;
                }
                left = left.wrapping_sub(self.counted(frame));
            }
        }
    }

    // What the leaf of a frame counts that was tried.
    fn counted(&self, frame: u32) -> usize {
        match self.frames {
            Frames::Soft(_) => 1,
            Frames::Firm(_) => { if self.has_leaf(frame as usize) { 0 } else { 1 } }
        }
    }

    // A leaf is evicted, parts or stays. Whether others are tried: a fault of the disk ends it, want of
    // memory or room does not.
    fn evict_leaf<D: Disk>(&mut self, alloc: Global, disk: &mut D, leaf: u64) -> bool
        ensures room { MakesRoom D.Disk self.old self.new disk.old disk.new }
        ensures alike { RoomAlike D.Disk self.old self.new disk.old disk.new }
    {
        downs_go();
        let running = checkpoint_in(&self.running);
        match evict(
            alloc,
            disk,
            &mut self.ground,
            &mut self.engine,
            running,
            leaf,
        ) {
            Ok(_) => true,
            Err(refusal) => is_short(refusal),
        }
    }
}
