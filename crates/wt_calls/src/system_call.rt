use item::{Formats, Item};

/// A call of the system, which needs no session.
///
/// Tables, keys and stamps are as in a session's call.
#[derive(Drop, PartialEq, Eq)]
pub enum SystemCall {
    /// Make a table of this name. A device has at most `TABLES_MAX` of `limits`.
    Create {
        table: Item,
        formats: Formats,
    },
    /// Raise the oldest and the stable stamp.
    SetStamps {
        oldest: Option<u64>,
        stable: Option<u64>,
    },
    /// Take out what is durable after the stable stamp.
    RollbackToStable,
    /// Start a checkpoint of what is there now.
    StartCheckpoint,
    /// Capture one leaf of the running checkpoint.
    StepCheckpoint,
    /// Complete the running checkpoint, whose leaves are all captured.
    FinishCheckpoint,
    /// Evict the leaf of the key.
    Evict {
        table: Item,
        key: Item,
    },
    /// Roll back what is open, prepared too, and take a checkpoint of all that stands.
    Close,
}
