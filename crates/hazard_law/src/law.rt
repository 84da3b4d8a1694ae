//! The law of hazard words.

ghost use Rattle.std.specs.Prelude.{ℕ, List};
ghost use Rattle.pool_law.specs.Whole.{Noted};
ghost use Rattle.hazard_law.specs.declared.known.Hazards.{Hazards as Known};
ghost use Rattle.hazard_law.specs.Promises.{FreedHaveNoPin, PinnedStay, StepsKeep};
ghost use Rattle.hazard_law.specs.Safety.{Safe};

/// Between any two steps the frame of a pin is in or locked, at the generation of the pin.
pub fn a_pinned_frame_stays<N>()
    ensures { (frames : ℕ) (words : List ℕ) (seats : List (Noted (Known N))) → Safe frames words seats → PinnedStay words seats }
{}

/// Where a seat may free a frame, since it locked the frame and scanned every hazard word clear
/// since, no hazard word pins the frame.
pub fn a_frame_that_may_be_freed_has_no_pin<N>()
    ensures { (frames : ℕ) (words : List ℕ) (seats : List (Noted (Known N))) → Safe frames words seats → FreedHaveNoPin seats }
{}

/// Every step on a word that there is keeps what holds of the words.
pub fn a_step_keeps_the_words<N>()
    ensures { (frames : ℕ) (words : List ℕ) (seats : List (Noted (Known N))) → Safe frames words seats → StepsKeep frames words seats }
{}
