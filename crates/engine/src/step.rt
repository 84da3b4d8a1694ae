// What an actor does in one step.

use wt_calls::Call;

/// Who makes a step, by number, from 0 upwards.
#[derive(Clone, Copy, PartialEq, Eq, Debug)]
pub enum Actor {
    /// A session.
    Session(u32),
    /// An actor of the system.
    System(u32),
}

/// One step of an actor.
#[derive(Drop, PartialEq, Eq)]
pub enum Step {
    /// Start this call.
    Start(Call),
    /// Go on with the call that this actor has started.
    Go(Actor),
}
