//! Phases of transactions.

/// How far the transaction of a session is.
#[derive(Clone, Copy, Debug, PartialEq, Eq)]
pub enum Phase {
    /// The session has no transaction.
    Idle,
    Running,
    /// A write met a conflict: it can be rolled back, no more.
    Failed,
    /// Prepared at this stamp.
    Prepared(u64),
    /// It was prepared, and its commit or rollback is decided: its updates are being changed.
    Resolving,
    /// Rolled back or refused: its updates are being taken out.
    Leaving,
}
