//! Laws of what is captured.

ghost use Rattle.reconcile.specs.CutLaws.{CapturesAreCut};
ghost use Rattle.reconcile.specs.CaptureLaws.{CapturedRowsAreNewest, CapturesAreNewest};

/// Where no commit that wrote the key is being resolved, what the checkpoint's snapshot picks of
/// the key's chain is the newest version that stands.
pub fn captures_are_newest()
    ensures { CapturesAreNewest }
{}

/// So the captured rows have each key's newest version, where none is being resolved.
pub fn captured_rows_are_newest()
    ensures { CapturedRowsAreNewest }
{}

/// A device that holds them opens, of each key of which the newest version suffices, as the
/// checkpoint that the machine takes.
pub fn captures_are_cut()
    ensures { CapturesAreCut }
{}
