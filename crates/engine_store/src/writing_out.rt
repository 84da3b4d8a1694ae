//! Leaves that are written out of memory between two checkpoints.

ghost use Rattle.std.specs.Prelude.{◌≡◌, None, length, IfErr};
ghost use Rattle.failure.specs.Counts.{Rose};
ghost use Rattle.disk_model.specs.Crash.{SameDisk};
ghost use Rattle.ckpt_step.specs.Takes.{IsOfCheckpoint};
ghost use Rattle.engine_store.specs.Calls.{StaysTold};
ghost use Rattle.engine_store.specs.Opened.{IsReady};
ghost use Rattle.engine_store.specs.WritesOut.{WritesAlike, WritesFrom, is_short};

use crate::store::Store;
use ckpt_step::write_out;
use disk_model::Disk;
use engine_world::downs_go;
use std::alloc::Global;
use wt_code::Refusal;

/// A leaf of which fewer keys were written stays in memory: its blocks would soon be written again.
pub const CHANGED_LEAST: usize = 1_000;

impl Store {
    /// While no checkpoint runs, and no session has a call, a transaction or a cursor on a leaf, each leaf in
    /// a frame of which `CHANGED_LEAST` keys or more were written since it was read is written out
    /// (`ckpt_step::write_out`): the newest version of each of its keys stands then in blocks that no
    /// checkpoint has, and the leaves of these blocks, which are in no frame, stand in its place. Calls
    /// read them when they need them, the next checkpoint keeps them as they stand, and an opening knows
    /// nothing of them. Otherwise nothing is done.
    ///
    /// A leaf stays in its frame of which memory has more than the newest versions, or for which memory
    /// or the device has no room, and the others are tried. Any other refusal ends it: `5 disk fault`,
    /// where a failed write takes the engine down and a failed read does not; and those of a checkpoint
    /// that may not start, as of an engine that is down.
    ///
    /// `O(n)` in the frames and sessions, and of each such leaf what `ckpt_step::write_out` costs.
    pub fn write_out<D: Disk>(&mut self, alloc: Global, disk: &mut D) -> Result<(), Refusal>
        ensures writes { WritesFrom D.Disk self.old self.new disk.old disk.new result }
        ensures refusals { IfErr result IsOfCheckpoint }
        ensures fault { IfErr result (λ r. r ≡ Refusal.DiskFault → Rose (D.faults disk.old) (D.faults disk.new)) }
        ensures sessions { length self.new.engine.sessions ≡ length self.old.engine.sessions }
        ensures frames { self.new.frames ≡ self.old.frames }
        ensures number { self.new.ground.number ≡ self.old.ground.number }
        ensures ready { IsReady self.old → IsReady self.new }
        ensures told { StaysTold D.Disk self.old self.new disk.old disk.new }
        ensures disk { SameDisk D.Disk disk.old disk.new }
    {
        self.write_leaves(alloc, disk)
    }

    // Each such leaf, one after the other.
    fn write_leaves<D: Disk>(&mut self, alloc: Global, disk: &mut D) -> Result<(), Refusal>
        ensures writes { WritesFrom D.Disk self.old self.new disk.old disk.new result }
        ensures alike { WritesAlike D.Disk self.old self.new disk.old disk.new result }
        ensures refusals { IfErr result IsOfCheckpoint }
    {
        if self.running.is_some() {
            return Ok(());
        }
        if !self.engine.is_idle() {
            return Ok(());
        }
        for frame in 0..self.engine.frames() {
            if let Some(leaf) = self.changed_in(frame) {
                match self.write_leaf(alloc, disk, leaf) {
                    Ok(()) => {}
                    Err(refusal) => return Err(refusal),
                }
            }
        }
        Ok(())
    }

    // The leaf in a frame, where `CHANGED_LEAST` of its keys or more were written since it was read.
    pub(crate) fn changed_in(&self, frame: usize) -> Option<u64> {
        let number = u32::try_from(frame).ok()?;
        self.changed_by(number, CHANGED_LEAST)
    }

    // The leaf in a frame, where so many of its keys or more were written since it was read.
    pub(crate) fn changed_by(&self, frame: u32, least: usize) -> Option<u64> {
        let held = self.engine.leaf_in(frame)?;
        if held.chains().len() < least {
            None
        } else {
            self.engine.id_in(frame)
        }
    }

    // Writes a leaf out. It stays where it may not go, and where memory or room is short.
    fn write_leaf<D: Disk>(&mut self, alloc: Global, disk: &mut D, leaf: u64) -> Result<(), Refusal>
        requires free { self.old.running ≡ None }
        ensures writes { WritesFrom D.Disk self.old self.new disk.old disk.new result }
        ensures alike { WritesAlike D.Disk self.old self.new disk.old disk.new result }
        ensures refusals { IfErr result IsOfCheckpoint }
    {
        downs_go();
        match write_out(alloc, disk, &mut self.ground, &mut self.engine, leaf) {
            Ok(_) => Ok(()),
            Err(refusal) => {
                if is_short(refusal) {
                    Ok(())
                } else {
                    Err(refusal)
                }
            }
        }
    }
}

// Whether memory or room was short.
pub(crate) fn is_short(refusal: Refusal) -> bool
    ensures { result ≡ is_short refusal }
{
    match refusal {
        Refusal::NoMemory => true,
        Refusal::NoSpace => true,
        _ => false,
    }
}
