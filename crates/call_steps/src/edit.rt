// What is done to the newest updates of keys that a transaction wrote.

/// What is done to the newest update of a key, where it is of the transaction.
#[derive(Clone, Copy, Debug, PartialEq, Eq)]
pub enum Edit {
    /// It is marked as prepared at this stamp.
    Mark(u64),
    /// It is committed at these stamps: the commit stamp and the durable one.
    Stamp(u64, u64),
    /// It is taken out.
    Undo,
}
