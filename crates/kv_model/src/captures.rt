//! Laws of a running checkpoint and of an opening, key by key.

ghost use Rattle.kv_model.specs.CaptureLaws.{CaptureHolds, EntriesKeepCaptures, HistoriesKeepCaptures, FinishAgrees, FinishIsLayered, OpeningStores, CleaningStores};

/// What a capture makes of a store holds all that the checkpoint needs.
pub fn captures_hold()
    ensures { CaptureHolds }
{}

/// Each entry that may come while the checkpoint runs keeps that.
pub fn entries_keep_captures()
    ensures { EntriesKeepCaptures }
{}

/// So does a history that gains versions of the line and loses covered ones.
pub fn histories_keep_captures()
    ensures { HistoriesKeepCaptures }
{}

/// At the finish, what is kept of the images and the history agrees with the cut.
pub fn a_finish_agrees()
    ensures { FinishAgrees }
{}

/// And it is layered.
pub fn a_finish_is_layered()
    ensures { FinishIsLayered }
{}

/// What an opening keeps of a layered key is a store of it.
pub fn openings_store()
    ensures { OpeningStores }
{}

/// A marked leaf's key, cleaned, is a layered store.
pub fn cleanings_store()
    ensures { CleaningStores }
{}
