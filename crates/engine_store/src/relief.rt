//! Leaves that leave their frames behind a checkpoint.

ghost use Rattle.std.specs.Prelude.{◌≡◌, false, true, IfSome, IsTrue};
ghost use Rattle.engine.specs.Frames.{IsFramed};
ghost use Rattle.engine_world.specs.GivingWay.{IsIdle};
ghost use Rattle.ckpt_step.specs.Rooms.{known_in};
ghost use Rattle.engine_store.specs.Full.{count_of};
ghost use Rattle.engine_store.specs.Relieves.{LetsGo, has_to_go};

use crate::store::Store;
use ckpt_step::{entries_in_place, grounds_give_way};
use disk_model::Disk;
use std::alloc::Global;
use tree_dir::Dir;

impl Store {
    /// While no session has a call, a transaction or a cursor on a leaf, leaves give way to what the last
    /// completed checkpoint has of them: each one that is in a frame behind the first ones, as many as
    /// there are frames, and each of which it has several images, so that a leaf which grew is parted. A
    /// leaf stays of which it has no rows, whose frame is at its last generation, or where memory is
    /// short. They are read again when a call needs them. `O(n)` in the frames and sessions, and
    /// `O(log n)` in the leaves for each image of those.
    pub(crate) fn relieve<D: Disk>(&mut self, alloc: Global)
        ensures { LetsGo D.Disk self.old self.new }
    {
        if !self.engine.is_idle() {
            return;
        }
        for frame in 0..self.engine.frames() {
            if let Some(leaf) = self.leaf_to_go(frame) {
                self.let_go::<D>(alloc, leaf);
            }
        }
    }

    // The leaf in a frame, where it is one that gives way.
    fn leaf_to_go(&self, frame: usize) -> Option<u64>
        ensures { IfSome result (λ leaf. has_to_go (count_of self.now.frames) frame (known_in self.now.ground.parts leaf) ≡ true) }
    {
        let number = u32::try_from(frame).ok()?;
        let leaf = self.engine.id_in(number)?;
        if self.has_to_go(frame, leaf) {
            Some(leaf)
        } else {
            None
        }
    }

    // Whether a leaf in this frame is one that gives way.
    fn has_to_go(&self, frame: usize, leaf: u64) -> bool
        ensures { result ≡ has_to_go (count_of self.now.frames) frame (known_in self.now.ground.parts leaf) }
    {
        let most = self.frames.count() as usize;
        match self.ground.parts.of(leaf) {
            None => frame >= most,
            Some(entries) => frame >= most || entries.len() > 1,
        }
    }

    // A leaf that is in a frame gives way to what the last completed checkpoint has of it, if it may.
    fn let_go<D: Disk>(&mut self, alloc: Global, leaf: u64)
        requires idle { IsIdle self.old.engine }
        ensures { LetsGo D.Disk self.old self.new }
    {
        grounds_give_way::<D>();
        // What holds of the leaves of every engine holds of these.
        self.engine.leaves();
        if !is_framed(self.engine.leaves(), leaf) {
            return;
        }
        let oldest = self.engine.marks().oldest;
        let Ok(Some(entries)) = entries_in_place(
            alloc,
            &self.ground.parts,
            self.engine.leaves(),
            leaf,
            oldest,
        ) else {
            return;
        };
        if let Ok(()) = self.engine.give_way(leaf, entries) {
            self.engine.leaves();
            self.ground.parts.forget(leaf);
        }
    }
}

// Whether a leaf of this id is there, in a frame.
fn is_framed(leaves: &Dir, leaf: u64) -> bool
    ensures yes { IsTrue result → IsFramed leaves.now.leaves leaf }
    ensures no { result ≡ false → IsFramed leaves.now.leaves leaf → ⊥ }
{
    leaves.frame(leaf).is_some()
}
