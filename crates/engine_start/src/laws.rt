//! Laws of the contents of devices.

ghost use Rattle.engine_start.specs.ContentLaws.{SeenStay};

/// What an opening keeps where some ids had not ended, one keeps where each had.
pub fn seen_stay()
    ensures { SeenStay }
{}
