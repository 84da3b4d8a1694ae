//! The law of whole calls.

ghost use Rattle.engine_world.specs.Whole.{KeptOutReaches, StepsReach};

/// The steps of a call with nobody between come to an answer that the whole call may have.
pub fn steps_reach()
    ensures { StepsReach }
{}

/// So does the refusal that its leaf cannot be had.
pub fn kept_out_reaches()
    ensures { KeptOutReaches }
{}
