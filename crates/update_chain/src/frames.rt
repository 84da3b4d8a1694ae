//! Laws of what a frame tells of a key to writes and commits.

ghost use Rattle.update_chain.specs.FrameLaws.{OrdersStand, ReadsArePresent, ViewsAdmit};
ghost use Rattle.update_chain.specs.RollbackLaws.{RollbacksBringBack, RollbacksKeep};
ghost use Rattle.update_chain.specs.UnderLaws.{RecordsLieUnder};
ghost use Rattle.update_chain.specs.Writing.{WritesFind, WritesStand};

/// The newest update of a chain, or the cell under an empty one, decides a write as the model does.
pub fn writes_stand()
    ensures { WritesStand }
{}

/// Where it allows the write, it gives what the write finds at the key.
pub fn writes_find()
    ensures { WritesFind }
{}

/// A value that is read is what a write of the key finds.
pub fn reads_are_present()
    ensures { ReadsArePresent }
{}

/// Below the update of a transaction that is not ending, the frame has the durable stamp that its
/// commit is ordered by.
pub fn orders_stand()
    ensures { OrdersStand }
{}

/// Of the versions that stand, a view sees and admits those that its transaction admits.
pub fn views_admit()
    ensures { ViewsAdmit }
{}

/// What a rollback to stable leaves of chain, cell and history stands for the key, where anything
/// is left in chain or cell.
pub fn rollbacks_keep()
    ensures { RollbacksKeep }
{}

/// Where nothing is, so does the newest record that stays, once it came back.
pub fn rollbacks_bring_back()
    ensures { RollbacksBringBack }
{}

/// Each record of the history goes on to lie below a version that had ended when the leaf was
/// looked at, whatever a transaction that had not ended does to the chain.
pub fn records_lie_under()
    ensures { RecordsLieUnder }
{}
