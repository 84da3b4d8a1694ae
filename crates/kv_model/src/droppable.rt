//! Laws of versions that no read can reach.

ghost use Rattle.kv_model.specs.DroppableLaws.{CoversAreAdmitted, DroppablesAreNeverPicked, PinDoesNotFall, CoversGoOn};

/// Each transaction admits a version that covers.
pub fn covers_are_admitted()
    ensures { CoversAreAdmitted }
{}

/// A version that a newer one covers is never the one that a read picks.
pub fn droppables_are_never_picked()
    ensures { DroppablesAreNeverPicked }
{}

/// The pin stamp does not fall within a run.
pub fn pin_does_not_fall()
    ensures { PinDoesNotFall }
{}

/// A version that covers goes on to cover, at each event.
pub fn covers_go_on()
    ensures { CoversGoOn }
{}
