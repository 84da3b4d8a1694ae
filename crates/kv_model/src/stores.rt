//! Laws of stores, which hold the versions of a key in a frame and a history.

ghost use Rattle.kv_model.specs.StoreLaws.{StoresAnswer, EvictionKeepsStores, CaptureKeepsStores, RollbackKeepsStores};

/// A look-up in the frame and then in the history answers what the whole line answers.
pub fn stores_answer()
    ensures { StoresAnswer }
{}

/// An eviction leaves a store of the same versions, and a layered one.
pub fn evictions_keep_stores()
    ensures { EvictionKeepsStores }
{}

/// So does a capture for a checkpoint, which leaves the frame as it is.
pub fn captures_keep_stores()
    ensures { CaptureKeepsStores }
{}

/// A rollback to stable leaves a store of the versions that stay, and a layered one.
pub fn rollbacks_keep_stores()
    ensures { RollbackKeepsStores }
{}
