//! Laws of what is captured.

ghost use Rattle.frame_capture.specs.CutLaws.{CapturesAreCut};
ghost use Rattle.frame_capture.specs.Laws.{CapturedRowsAreNewest, CapturesAreNewest, ReconciledRowsAreCaptured};

/// Where no commit that wrote the key is being resolved, what the checkpoint's snapshot sees of the
/// key's chain over its row is the newest version that stands.
pub fn captures_are_newest()
    ensures { CapturesAreNewest }
{}

/// So the captured rows have each key's newest version, where none is being resolved.
pub fn captured_rows_are_newest()
    ensures { CapturedRowsAreNewest }
{}

/// The rows that `reconcile` makes of a leaf, where the versions that the snapshot sees are live, are
/// those that are captured of it.
pub fn reconciled_rows_are_captured()
    ensures { ReconciledRowsAreCaptured }
{}

/// A device that holds them opens, of each key of which the newest version suffices, as the
/// checkpoint that the machine takes.
pub fn captures_are_cut()
    ensures { CapturesAreCut }
{}
