//! Laws of reads and of lines over the events of others.

ghost use Rattle.kv_model.specs.GoingOnLaws.{HeldLinesStay, MeetsGoOn, ReadsGoOn};

/// Whom a transaction meets at a key, it met there before.
pub fn meets_go_on()
    ensures { MeetsGoOn }
{}

/// What a transaction reads of a key stays, whatever the others do, while all that it meets there
/// are ending.
pub fn reads_go_on()
    ensures { ReadsGoOn }
{}

/// The versions that stand under the write of a transaction that is not ending stay.
pub fn held_lines_stay()
    ensures { HeldLinesStay }
{}
