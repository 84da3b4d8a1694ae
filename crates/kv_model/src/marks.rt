//! Laws of leaves in no frame, whose cells a mark may hide.

ghost use Rattle.kv_model.specs.MarkLaws.{MarksGoOn, LeavesGoOn, KeysGoOn, FramesGoOn, AbsentStands, MarkedLoads, CleanKeeps, CleanStands};

/// A key of a marked leaf goes on to stand, at each event that is elsewhere.
pub fn marks_go_on()
    ensures { MarksGoOn }
{}

/// So does one of a leaf that is not marked.
pub fn leaves_go_on()
    ensures { LeavesGoOn }
{}

/// And one of a frame, at each event of others that is no write of it.
pub fn keys_go_on()
    ensures { KeysGoOn }
{}

/// And one of a frame, all of whose writers have ended.
pub fn frames_go_on()
    ensures { FramesGoOn }
{}

/// A key of a table that is not there stands, with nothing.
pub fn absent_keys_stand()
    ensures { AbsentStands }
{}

/// A load that cleans the cells of a marked leaf makes its keys stand in a frame.
pub fn marked_loads()
    ensures { MarkedLoads }
{}

/// By its greatest name and durable stamp alone a leaf is known to be clean: each cell is kept.
pub fn clean_keeps()
    ensures { CleanKeeps }
{}

/// The keys of a clean leaf stand without a mark.
pub fn clean_stands()
    ensures { CleanStands }
{}
