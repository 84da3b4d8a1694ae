// Why a call is refused.

use crate::Fault;

/// What is in the way of a call. A session is given by its number in the engine, from 0 upwards;
/// its text is that number plus one.
#[derive(Clone, Copy, Debug, PartialEq, Eq)]
pub enum Busy {
    /// This session, the lowest such, has a transaction.
    Active(u32),
    /// A checkpoint runs.
    Checkpoint,
    /// This session, the lowest such, is in the middle of a commit, a rollback or another call.
    Resolving(u32),
    /// The page in this frame is being evicted, loaded or changed by another actor.
    Evicting(u32),
    /// A cursor of this session holds the page.
    Pinned(u32),
    /// The transaction of this id, the least such, has an update on the page that is neither
    /// committed nor undone.
    Unresolved(u64),
}

/// Why the arguments of a call, or the state of its session, do not allow it. Stamps are
/// timestamps; lengths are in bytes, as stored.
#[derive(Clone, Copy, Debug, PartialEq, Eq)]
pub enum Invalid {
    /// The session has no transaction.
    NoTxn,
    /// The session has a transaction already.
    InTxn,
    /// The session's transaction is prepared: it can be committed or rolled back, no more.
    Prepared,
    /// The session's transaction met a conflict: it can be rolled back, no more.
    FailedTxn,
    /// A stamp that was given is zero.
    ZeroStamp,
    /// The stamp that was given lies before the oldest stamp.
    BeforeOldest { given: u64, oldest: u64 },
    /// The stamp that was given does not lie after the stable stamp.
    NotAfterStable { given: u64, stable: u64 },
    /// The oldest stamp would lie after the stable stamp.
    OldestAfterStable { oldest: u64, stable: u64 },
    /// The commit of a prepared transaction names no commit stamp.
    NoCommitStamp,
    /// The commit of a transaction that is not prepared names a durable stamp.
    DurableGiven,
    /// The commit stamp that was given lies before the prepare stamp.
    BeforePrepare { given: u64, prepare: u64 },
    /// The durable stamp lies before the commit stamp.
    DurableBeforeCommit { durable: u64, commit: u64 },
    /// The commit stamp that was given lies before the durable stamp of an older update of a key
    /// that the transaction wrote.
    Order { given: u64, prev: u64 },
    /// The commit names no stamp, and an older update of a key that the transaction wrote has
    /// this durable stamp.
    NoStampAfterStamp { prev: u64 },
    /// The key is longer than a key may be.
    KeyLong { len: u64 },
    /// The value is longer than a value may be.
    ValueLong { len: u64 },
    /// The cursor stands on no row.
    Unpositioned,
    /// The actor has a call that is not finished.
    InCall,
    /// The actor has no call to go on with.
    NoCall,
    /// No checkpoint runs.
    NoCkpt,
    /// The running checkpoint has leaves left to capture.
    CkptLeft,
    /// The name is not one that a table can have.
    BadName,
    /// The configuration is not one that a table can have.
    BadConfig,
    /// The text is outside its grammar at this line, counted from 1.
    Text { line: u64 },
}

/// What there is no more of.
#[derive(Clone, Copy, Debug, PartialEq, Eq)]
pub enum Limit {
    /// Sessions of an engine.
    Sessions,
    /// Tables of a device.
    Tables,
    /// Ids of transactions in a run.
    Ids,
    /// Generations of a frame.
    Generations,
    /// Numbers of checkpoints of a device.
    Checkpoints,
    /// Rollbacks to stable of one engine.
    Rollbacks,
    /// The bytes of a table's one leaf, while a table has no more than that.
    Image,
}

/// Why a call was refused.
#[derive(Clone, Copy, Debug, PartialEq, Eq)]
pub enum Refusal {
    /// The key's newest update conflicts with the transaction: it is the update named by this run
    /// of the engine and this id in the run.
    Rollback { run: u64, id: u64 },
    /// The key is there already.
    DuplicateKey,
    /// The block or slot at this offset of the device, in bytes, has another sum than is wanted;
    /// where both sums are equal, it is outside its grammar or at odds with what names it.
    Corrupt { offset: u64, want: u32, found: u32 },
    /// The key, or a further row, is not there.
    NotFound,
    /// An earlier write or sync failed: the device has to be opened again.
    Panic { fault: Fault },
    /// No frame could be had for a page.
    CacheFull,
    /// The transaction of this id has prepared an update of the key that may be visible.
    PrepareConflict { id: u64 },
    /// The table is not there.
    NoTable,
    /// A call of the disk failed.
    DiskFault,
    /// Another actor is at work on the page, whose state word was this; the same call may be made
    /// again.
    Again { seen: u64 },
    /// There was not enough memory.
    NoMemory,
    /// Something else is in the way.
    Busy(Busy),
    /// The table is there with other formats.
    Exists,
    /// The arguments or the session's state do not allow the call.
    Invalid(Invalid),
    /// The device has no room for a block.
    NoSpace,
    /// There is no more of something that is counted.
    Limit(Limit),
}
