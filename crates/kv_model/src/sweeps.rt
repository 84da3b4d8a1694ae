//! Laws of the history: what is swept out of it and what is added to it.

ghost use Rattle.kv_model.specs.SweepLaws.{SweepsInHand, SweepsStand, SweepsKeepMarked, SweepsKeepCaptured, AddsStand, AddsHold, AddsKeepCaptured, TrimsStand, TrimsLieUnder};

/// A sweep of the history is one of the history with versions in hand.
pub fn sweeps_in_hand()
    ensures { SweepsInHand }
{}

/// A key stands after a sweep of the history.
pub fn sweeps_stand()
    ensures { SweepsStand }
{}

/// So does one of a marked leaf.
pub fn sweeps_keep_marked()
    ensures { SweepsKeepMarked }
{}

/// And what the running checkpoint holds goes on to hold.
pub fn sweeps_keep_captured()
    ensures { SweepsKeepCaptured }
{}

/// A history that is a set by names holds what was moved to it.
pub fn adds_stand()
    ensures { AddsStand }
{}

/// A capture whose moved versions were in hand holds with them in the history.
pub fn adds_hold()
    ensures { AddsHold }
{}

/// What is added to the history keeps a capture.
pub fn adds_keep_captured()
    ensures { AddsKeepCaptured }
{}

/// A key stands after a trim of its chain.
pub fn trims_stand()
    ensures { TrimsStand }
{}

/// While a checkpoint runs a trim leaves each record below one that had ended at the look-up.
pub fn trims_lie_under()
    ensures { TrimsLieUnder }
{}
