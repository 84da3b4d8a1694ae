// Laws of checkpoints with a history.
ghost use Rattle.ckpt_content.specs.Laws.{CheckpointsOpen, ReadCheckpointsOpen, FinishesOpen, ReadFinishesOpen, TakenBeforeServes, WrittenHistoriesServe, EmptyHistoriesServe, OpenedLines, OpenedLists, KeptAreBelow, OpenedKeysStand};

use stored::what_is_read_is_regular;

/// A device that has a checkpoint of a machine opens as the checkpoint that the machine takes.
pub fn checkpoints_open()
    ensures regular { CheckpointsOpen }
    ensures read { ReadCheckpointsOpen }
{
    what_is_read_is_regular();
}

/// So does a device that has what is written as a checkpoint finishes which ran beside other work: it
/// opens as what the machine completes then.
pub fn finishes_open()
    ensures regular { FinishesOpen }
    ensures read { ReadFinishesOpen }
{
    what_is_read_is_regular();
}

/// A row that was taken while a checkpoint ran serves at its finish.
pub fn rows_taken_before_serve()
    ensures { TakenBeforeServes }
{}

/// The records that are written of a history in memory serve as that of a checkpoint, where it has of
/// each key the older versions that a read can want.
pub fn written_histories_serve()
    ensures { WrittenHistoriesServe }
{}

/// An empty history serves where the newest version of each key suffices, as where no commit had a
/// stamp.
pub fn empty_histories_serve()
    ensures { EmptyHistoriesServe }
{}

/// Of a content that is regular and layered, an opening makes of each key the line of what is kept:
/// its cell, where that is not hidden, above its records. So a leaf with the newest version of each key
/// stands, over the records that are kept.
pub fn opened_lines()
    ensures lines { OpenedLines }
    ensures lists { OpenedLists }
    ensures below { KeptAreBelow }
    ensures stand { OpenedKeysStand }
{}
