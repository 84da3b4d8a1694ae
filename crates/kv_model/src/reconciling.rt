//! Laws of evictions and captures, for a key that stands.

ghost use Rattle.kv_model.specs.ReconcileLaws.{EvictionStands, CaptureStands, CaptureIsHeld, CellsAreUpdates, FramesAlike, LeafIsHeld, CapturesGoOn, PrefixesBegin, PrefixesGoOn, UpdatesAreCells};

/// A key stands after an eviction of its leaf, and so after a load of the image.
pub fn evictions_stand()
    ensures { EvictionStands }
{}

/// A key whose writers have ended stands whether a version is in the chain or the cell.
pub fn frames_are_alike()
    ensures { FramesAlike }
{}

/// A key whose cell stands also stands with the cell as the last update of its chain. So the laws of
/// chains serve a frame whose cell has a mark: as the last update, with no cell below it.
pub fn cells_are_updates()
    ensures { CellsAreUpdates }
{}

/// And with the last update as the cell, where it has no mark and its transaction has ended, or
/// another update lies above it.
pub fn updates_are_cells()
    ensures { UpdatesAreCells }
{}

/// A key stands after a capture of its leaf.
pub fn captures_stand()
    ensures { CaptureStands }
{}

/// What a capture makes of a key holds for the running checkpoint.
pub fn captures_are_held()
    ensures { CaptureIsHeld }
{}

/// A leaf in no frame is captured as it lies on the device.
pub fn leaves_are_held()
    ensures { LeafIsHeld }
{}

/// What the running checkpoint holds of a key goes on to hold, at each event while it runs.
pub fn captures_go_on()
    ensures { CapturesGoOn }
{}

/// A checkpoint that starts sees versions of ended transactions alone.
pub fn prefixes_begin()
    ensures { PrefixesBegin }
{}

/// And so it is at each event while it runs.
pub fn prefixes_go_on()
    ensures { PrefixesGoOn }
{}
