//! Laws of reads that look in the frame and, later, in the history.

ghost use Rattle.kv_model.specs.PassingLaws.{LinesGrow, SnapshotsStand, PinsBegin, PinsGoOn, ReadsInTwoMoments};

/// While a transaction is active a line loses nothing.
pub fn lines_grow()
    ensures { LinesGrow }
{}

/// What stood when a transaction began stands while it is active.
pub fn snapshots_stand()
    ensures { SnapshotsStand }
{}

/// A frame stays pinned at first.
pub fn pins_begin()
    ensures { PinsBegin }
{}

/// And at each step that lets nothing into it but what stood above its versions, or did not stand.
pub fn pins_go_on()
    ensures { PinsGoOn }
{}

/// A read that finds nothing in a pinned frame finds in the history, later, what was its value.
pub fn reads_in_two_moments()
    ensures { ReadsInTwoMoments }
{}
