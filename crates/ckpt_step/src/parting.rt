// A leaf that parts into leaves of several blocks while others are at work.
ghost use Rattle.std.specs.Prelude.{◌≡◌, ◌≤◌, Option, length, IfErr, IsTrue, option_copied};
ghost use Rattle.failure.specs.Counts.{Rose};
ghost use Rattle.disk_model.specs.Crash.{SameDisk};
ghost use Rattle.stored.specs.Stored.{Stored};
ghost use Rattle.engine_world.specs.Stands.{Stands};
ghost use Rattle.engine_world.specs.Worlds.{World};
ghost use Rattle.engine.specs.Running.{RunsAs};
ghost use Rattle.evict_step.specs.Cuts.{AreCut};
ghost use Rattle.evict_step.specs.Kept.{KeepsThese};
ghost use Rattle.ckpt_step.specs.Evicts.{EvictsEngine, Evicts, KeepsStill};
ghost use Rattle.ckpt_step.specs.Floors.{AreLivesOn, Follows};
ghost use Rattle.ckpt_step.specs.Grounds.{StandsOn};
ghost use Rattle.ckpt_step.specs.Takes.{IsOfCheckpoint};

use crate::cutting_out::in_place;
use crate::evicting::Evicted;
use crate::ground::Ground;
use crate::moving_in::When;
use crate::writing_out::{put_out, tell};
use disk_model::Disk;
use engine::{Local, RunningCheckpoint};
use reconcile::{Image, Moved};
use std::alloc::Global;
use wt_code::Refusal;

// Writes the images of a leaf that needs more than one block, and leaves of these take its place, where
// it may part at this moment. Which leaves keep what moves is known only then, so room is made for it
// before the device is touched.
pub(crate) fn part_out<D: Disk>(
    alloc: Global,
    disk: &mut D,
    ground: &mut Ground,
    engine: &mut Local,
    running: Option<&RunningCheckpoint>,
    leaf: u64,
    images: Vec<Image>,
    moved: Vec<Moved>,
) -> Result<Evicted, Refusal>
    requires cut { AreCut engine.old (option_copied running) leaf images.items moved.items }
    requires more { 2 ≤ length images.items }
    ensures evicts { IsTrue (D.honest disk.old) → (w : World) → Stands engine.old w → RunsAs w.machine (option_copied running.entry) → (old : Option Stored) → StandsOn (D.seen disk.old) (D.may_leave disk.old) engine.old.hub ground.old old
        → Follows old engine.old.hub ground.old w → AreLivesOn (D.seen disk.old) engine.old.hub ground.old w → Evicts D.Disk old w ground.old ground.new engine.old engine.new leaf disk.old disk.new result }
    ensures refusals { IfErr result IsOfCheckpoint }
    ensures fault { IfErr result (λ r. r ≡ Refusal.DiskFault → Rose (D.faults disk.old) (D.faults disk.new)) }
    ensures number { ground.new.number ≡ ground.old.number }
    ensures trees { ground.new.trees ≡ ground.old.trees }
    ensures floor { ground.new.floor ≡ ground.old.floor }
    ensures stood { ground.new.history ≡ ground.old.history }
    ensures sessions { length engine.new.sessions ≡ length engine.old.sessions }
    ensures hub { (engine.new.hub.tables ≡ engine.old.hub.tables) × (engine.new.hub.txns ≡ engine.old.hub.txns) }
    ensures engine { EvictsEngine engine.old engine.new leaf result }
    ensures keeps { (w : World) → Stands engine.old w → KeepsThese w ground.old.kept → KeepsStill w ground.new.kept result }
    ensures disk { SameDisk D.Disk disk.old disk.new }
{
    if let Some(why) = engine.why_it_does_not_part(leaf) {
        return Ok(Evicted::Stays(why));
    }
    let Ok(room) = ground.kept.room_for(alloc, moved.len()) else {
        return Err(Refusal::NoMemory);
    };
    let Ok(cut) = in_place(engine, leaf, images) else {
        return Err(Refusal::NoMemory);
    };
    match put_out(alloc, disk, ground, engine, leaf, &cut, When::AtWork) {
        Ok(()) => {
            let leaves = engine.leaves();
            ground.kept.take_in(alloc, room, moved, leaves, cut.table);
            Ok(Evicted::Parted)
        }
        Err(error) => Err(tell(engine, error)),
    }
}
