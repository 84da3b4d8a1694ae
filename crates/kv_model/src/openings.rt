//! Laws of what a device opens to, key by key.

ghost use Rattle.kv_model.specs.OpeningLaws.{StartsStand, FinishOpens};

/// Of a regular content each key of a table stands under the record's mark.
pub fn starts_stand()
    ensures { StartsStand }
{}

/// What the finish of a checkpoint writes opens as what the machine completes.
pub fn finishes_open()
    ensures { FinishOpens }
{}
