//! The laws that a call ends.

ghost use Rattle.call_turns.specs.Turns.{FrameLowers, FramesKeep, HubKeeps, HubLowers, KeepOutLowers, LoadLowers, StoreLowers};

/// Each event of a call leaves fewer steps: on the hub, which keeps its directory, its tables, the run
/// and what failed, on the piece of a frame, and on a word; and so does the refusal of a leaf that
/// cannot be had.
pub fn calls_end()
    ensures hub { HubLowers }
    ensures keeps { HubKeeps }
    ensures frames { FrameLowers }
    ensures loads { LoadLowers }
    ensures stores { StoreLowers }
    ensures kept_out { KeepOutLowers }
{}

/// A leaf that comes into a frame, or is let go from one, changes no count: a call that waits for a
/// leaf goes on from where it was.
pub fn turns_stay()
    ensures { FramesKeep }
{}
