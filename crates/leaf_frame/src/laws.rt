//! Laws of what a leaf holds of every key, over what is done at one.

ghost use Rattle.leaf_frame.specs.Laws.{ChangesChangeHeld, ChangesKeepHeld, EmptyPagesReadByChains, InstallsChangeHeld, InstallsKeepHeld};
ghost use Rattle.leaf_frame.specs.ReadLaws.{HeldReadsStand};

use update_chain::views_admit;

/// After an install its key has the installed chain over its row.
pub fn installs_change_held()
    ensures { InstallsChangeHeld }
{}

/// Every other key has what it had.
pub fn installs_keep_held()
    ensures { InstallsKeepHeld }
{}

/// A change in the slot of a key, as a stamp, a mark or an undo, leaves it with the changed chain
/// over its row.
pub fn changes_change_held()
    ensures { ChangesChangeHeld }
{}

/// Every other key has what it had.
pub fn changes_keep_held()
    ensures { ChangesKeepHeld }
{}

/// A leaf without rows is read, judged and ordered by its chains alone.
pub fn empty_pages_read_by_chains()
    ensures { EmptyPagesReadByChains }
{}

/// A read by a chain and the row below it, where they stand for their key with the records of the
/// history, is the model's: what it gives, a key that is removed, a conflict, or what the history
/// has.
pub fn held_reads_stand()
    ensures { HeldReadsStand }
{
    views_admit();
}
