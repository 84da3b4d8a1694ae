// The calls that a disk in memory has had.

/// A call that changes nothing: a look at the content, a sync that failed, or a place that was
/// told. `capacity` and `faults` are no calls.
#[derive(Clone, Copy, Debug, PartialEq, Eq)]
pub enum Look {
    /// The length was asked for, and given.
    Len,
    /// The length was asked for, and the call failed.
    LenFailed,
    /// The bytes from this offset on were read.
    Read(u64),
    /// A read of the bytes from this offset on failed.
    ReadFailed(u64),
    /// The disk was told its place.
    Attached,
    /// The disk was to be told its place, and the call failed.
    AttachFailed,
    /// A sync failed. A crash leaves what it could leave before.
    SyncFailed,
}

/// A call that a disk in memory has had.
#[derive(Debug, Drop)]
pub enum Call {
    /// A write that was done: the offset in bytes, and the bytes.
    Wrote(u64, Vec<u8>),
    /// A write that failed: the offset, and the bytes. The content is as it was, and a crash may
    /// leave any part of the write.
    Missed(u64, Vec<u8>),
    /// A sync that was done.
    Synced,
    /// A call that changes nothing, and which.
    Looked(Look),
}
