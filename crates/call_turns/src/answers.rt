//! The law that a call's events tell no refusal of a device by themselves.

ghost use Rattle.call_turns.specs.Answers.{FrameTells, HubTells, KeptTells, LoadTells, StartTells, StoreTells};

/// The start and each event of a call keep and tell no refusal that only a device gives, but one that
/// the session has kept, or by which its leaf is refused.
pub fn answers_are_own()
    ensures hub { HubTells }
    ensures frames { FrameTells }
    ensures loads { LoadTells }
    ensures stores { StoreTells }
    ensures kept_out { KeptTells }
    ensures starts { StartTells }
{}
