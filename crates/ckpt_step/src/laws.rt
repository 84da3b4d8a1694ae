// Laws of checkpoints.
ghost use Rattle.ckpt_step.specs.Keeps.{EnginesAreOrdinary, FitsAreOrdinary, KeptKeep, KeptOutKeep, StepsKeep};
ghost use Rattle.ckpt_step.specs.Stays.{GroundsLetGo, GroundsStay};
ghost use Rattle.ckpt_step.specs.Giving.{CheckpointsHaveNewest, GroundsGiveWay};

use disk_model::Disk;
use tree_dir::leaves_give_way;

/// No step or call of an engine, and no leaf that is kept from a call, changes the last completed
/// checkpoint, starts one, or takes the engine down, whatever the stamps.
pub fn checkpoints_are_kept()
    ensures engines { EnginesAreOrdinary }
    ensures fits { FitsAreOrdinary }
    ensures steps { StepsKeep }
    ensures kept { KeptKeep }
    ensures kept_out { KeptOutKeep }
{}

/// The ground of a checkpoint stays that of an engine whose hub goes on, as over calls, steps and
/// leaves that come into frames, and follows it where its machine goes on and the shelf stays.
pub fn grounds_stay<D: Disk>()
    ensures { (disk : D) → GroundsStay (D.seen disk) (D.may_leave disk) }
{}

/// So it does, in the same world, where a leaf that no checkpoint of the engine wrote goes out of its
/// frame.
pub fn grounds_let_go<D: Disk>()
    ensures { (disk : D) → GroundsLetGo (D.seen disk) (D.may_leave disk) }
{}

/// Each tree of a checkpoint of a machine has the newest version of each key of its table.
pub fn checkpoints_have_newest()
    ensures { CheckpointsHaveNewest }
{}

/// A leaf gives way to what the last completed checkpoint has of it, which has the newest version of
/// each key, durable at the oldest stamp: the shelf has the rows of its new leaves, and the ground is
/// still that of the checkpoint.
pub fn grounds_give_way<D: Disk>()
    ensures { (disk : D) → GroundsGiveWay (D.seen disk) (D.may_leave disk) }
{
    leaves_give_way();
}
