//! Laws of the machine.

ghost use Rattle.kv_model.specs.MachineLaws.{EventsKeepValid, StartsAreValid};
ghost use Rattle.kv_model.specs.DecisionLaws.{DecisionsMayCome, ClosesMayCome, ClosesEndTransactions};

/// The machine that an opening makes of a regular content is valid.
pub fn starts_are_valid()
    ensures { StartsAreValid }
{}

/// Every event that may come leaves a valid machine.
pub fn events_keep_valid()
    ensures { EventsKeepValid }
{}

/// The event that a decision makes may come.
pub fn decisions_may_come()
    ensures { DecisionsMayCome }
{}

/// The events of a Close may come, one after the other.
pub fn closes_may_come()
    ensures { ClosesMayCome }
{}

/// A Close that finds the machine up and nobody busy leaves no transaction.
pub fn closes_end_transactions()
    ensures { ClosesEndTransactions }
{}
