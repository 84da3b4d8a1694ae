//! Laws of the start of an engine, of sessions that are opened, and of the events of the system. A law calls those of lower crates
//! that its proof rests on.

ghost use Rattle.engine_world.specs.Coming.{LeavesCome};
ghost use Rattle.engine_world.specs.Evicting.{LeavesAreEvicted, LeavesAreEvictedUnseen};
ghost use Rattle.engine_world.specs.GivingWay.{LeavesGiveWay};
ghost use Rattle.engine_world.specs.Parting.{LeavesPart};
ghost use Rattle.engine_world.specs.GoingOut.{LeavesGoOut, LeavesGoOutUnseen};
ghost use Rattle.engine_world.specs.Systems.{CheckpointsDrop, CheckpointsFinish, CheckpointsGo, CheckpointsStart, CreatesGo, DownsGo, EnginesStart, FramesGrow, OpensGo, SetsGo};

use kv_model::{evictions_stand, frames_are_alike};
use tree_dir::leaves_give_way as directories_give_way;
use update_chain::chains_go_on;

/// An engine that begins on a regular content stands for the machine that an opening makes of it.
pub fn engines_start()
    ensures { EnginesStart }
{
    frames_are_alike();
}

/// A session is opened.
pub fn opens_go()
    ensures { OpensGo }
{
    chains_go_on();
}

/// The oldest and the stable stamp are raised.
pub fn sets_go()
    ensures { SetsGo }
{
    chains_go_on();
}

/// A table is made.
pub fn creates_go()
    ensures { CreatesGo }
{
    chains_go_on();
}

/// A frame more, which has no leaf: nobody sees it.
pub fn frames_grow()
    ensures { FramesGrow }
{}

/// A leaf that is in no frame comes into one, with the rows of its block and what the history keeps of
/// it: nobody sees it.
pub fn leaves_come()
    ensures { LeavesCome }
{}

/// A leaf goes out of its frame as it was read, while no call is at it: calls that have found it, and
/// have not come to it yet, may be told so.
pub fn leaves_go_out()
    ensures { LeavesGoOut }
{}

/// Where no call has found it, nobody sees it.
pub fn leaves_go_out_unseen()
    ensures { LeavesGoOutUnseen }
{}

/// A leaf is evicted while others are at work: it goes out of its frame, its block has of each of its keys
/// the newest version, and the history those of the older ones that are in reach. No call is at it, and no
/// transaction that runs wrote in it: calls that have found it, and have not come to it yet, may be told so.
pub fn leaves_are_evicted()
    ensures { LeavesAreEvicted }
{
    evictions_stand();
}

/// Where no call has found it, nobody sees it.
pub fn leaves_are_evicted_unseen()
    ensures { LeavesAreEvictedUnseen }
{
    evictions_stand();
}

/// While nobody is at work, a leaf that is in a frame gives way to others, which are in none and whose
/// blocks have each key's newest version: nobody sees it.
pub fn leaves_give_way()
    ensures { LeavesGiveWay }
{
    directories_give_way();
}

/// A leaf in a frame gives way, while others are at work, to others, which are in none: their blocks have
/// of each of its keys the newest version, and the history those of the older ones that are in reach. No
/// call is at the leaf, or on its way to it, or goes over its table leaf by leaf, and no transaction that
/// runs wrote in it: nobody sees it.
pub fn leaves_part()
    ensures { LeavesPart }
{
    directories_give_way();
    evictions_stand();
}

/// A checkpoint starts, is finished, or ends without that. It starts while none runs and no prepared
/// transaction is being resolved. It may start and finish with nobody between.
pub fn checkpoints_go()
    ensures start { CheckpointsStart }
    ensures finish { CheckpointsFinish }
    ensures drop { CheckpointsDrop }
    ensures one { CheckpointsGo }
{
    chains_go_on();
}

/// A write or sync of the device failed: the machine goes down, also where it was down before.
pub fn downs_go()
    ensures { DownsGo }
{
    chains_go_on();
}
