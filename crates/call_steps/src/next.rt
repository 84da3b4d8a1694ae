// What a session's next event is on.

/// What the next event of a session is on. A session's own five hazard words are counted from 0.
#[derive(Clone, Copy, Debug, PartialEq, Eq)]
pub enum Next {
    /// There is no call.
    Nothing,
    /// The hub.
    Hub,
    /// A leaf of this id, which is in no frame: once it is loaded, the hub.
    Fill(u64),
    /// The piece of this frame.
    Frame(u32),
    /// A load of the state word of this frame.
    Load(u32),
    /// A store of a value into a hazard word of the session.
    Store(u32, u64),
}
