//! Laws of an engine that has read no leaf, on what a device has.

ghost use Rattle.engine_start.specs.EntryLaws.{BareLeavesStart, BorneArePart, LeavesAreAdded, LeavesAreLed, LeavesHaveCells, ShelvesAre, TreesAreBorne, UnreadBegin, UnreadStand};

use crate::laws::seen_stay;
use engine_world::engines_start;
use tree_dir::ids_name;

/// An engine on tables of which no leaf was read begins on a content with their marks, where each leaf
/// starts on the device with what the content keeps of it.
pub fn unread_begin()
    ensures { UnreadBegin }
{}

/// And it stands for the world with which that begins.
pub fn unread_stand()
    ensures { UnreadStand }
{
    unread_begin();
    engines_start();
}

/// Where the device has no history, leaves start with what an opening keeps of their rows.
pub fn bare_leaves_start()
    ensures { BareLeavesStart }
{
    seen_stay();
}

/// The cells of keys are the rows of the leaves in which they lie.
pub fn leaves_have_cells()
    ensures { LeavesHaveCells }
{}

/// There is a shelf of the leaves of a directory.
pub fn shelves_are()
    ensures { ShelvesAre }
{
    ids_name();
}

/// There are rows to which the entries of tables lead: those of their leaves.
pub fn leaves_are_led()
    ensures { LeavesAreLed }
{}

/// By them the tables are parted, and whole.
pub fn borne_are_part()
    ensures { BorneArePart }
{}

/// The entries of the leaves of a tree lead to its leaves.
pub fn trees_are_borne()
    ensures { TreesAreBorne }
{}

/// Each leaf of a directory is of one of the tables that were added, and of one of its entries.
pub fn leaves_are_added()
    ensures { LeavesAreAdded }
{}
