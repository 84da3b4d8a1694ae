// What a line of a script asks for.
use wt_calls::Call;

/// Who makes a call.
#[derive(Clone, Copy, PartialEq, Eq, Debug)]
pub enum Actor {
    /// A session, by its number in the engine, from 0 upwards: `s1` is session 0, `s999` is 998.
    Session(u32),
    /// An actor of the system, from 0 upwards: `sys` is actor 0, `sys2` to `sys4` are 1 to 3.
    System(u32),
}

/// What is asked of the whole machine. Each belongs to `sys` and has no steps of its own.
#[derive(Clone, Copy, PartialEq, Eq, Debug)]
pub enum Control {
    /// Start a checkpoint, make its steps to the end, and finish it.
    Checkpoint,
    /// Close, and open the device anew where that is done.
    Close,
    /// Forget memory, and open the device.
    Crash,
    /// Forget memory, and open the device with this many frames, 4 to 1,024.
    Frames(u32),
}

/// What a line asks for. The items of a call are as they are written: one of the format `S` has no
/// final zero byte yet.
#[derive(Drop)]
pub enum Line {
    /// The whole call, up to its answer.
    Whole(Call),
    /// The call, started and no more.
    Start(Call),
    /// One step of the actor's started call.
    Step(Actor),
    /// All steps that are left of the actor's started call.
    Finish(Actor),
    /// Something that is asked of the whole machine.
    Control(Control),
}
