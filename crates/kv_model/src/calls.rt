//! Laws of whole calls, and of the events that their looks at a page make.

ghost use Rattle.kv_model.specs.CallLaws.{WritesMayCome, SeeksMayCome, RowsMayCome, ResetsMayCome, CallsKeepValid, OpeningsKeepValid};

/// The event of a write may come, once its transaction has an id and the table is there.
pub fn writes_may_come()
    ensures { WritesMayCome }
{}

/// So may the move of a cursor by a Seek.
pub fn seeks_may_come()
    ensures { SeeksMayCome }
{}

/// And by a NextRow or a PrevRow.
pub fn rows_may_come()
    ensures { RowsMayCome }
{}

/// And by a Reset.
pub fn resets_may_come()
    ensures { ResetsMayCome }
{}

/// What a whole call leaves of a valid machine is a valid machine.
pub fn calls_keep_valid()
    ensures { CallsKeepValid }
{}

/// So is what the opening of a session leaves.
pub fn openings_keep_valid()
    ensures { OpeningsKeepValid }
{}
