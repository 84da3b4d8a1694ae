//! Laws of walks over rows: one range of keys after the other, as from leaf to leaf.

ghost use Rattle.kv_model.specs.RowLaws.{AbsencesGoOn, CutsPartRanges, RowsCompose};

/// A range that is cut at a key is in two parts, one before the other on the way.
pub fn cuts_part_ranges()
    ensures { CutsPartRanges }
{}

/// The answer over a range in two parts is that of the first, or, where no row is there, that of
/// the second.
pub fn rows_compose()
    ensures { RowsCompose }
{}

/// A range in which each key reads as absent goes on to be one, whatever the others do.
pub fn absences_go_on()
    ensures { AbsencesGoOn }
{}
