//! What a reader brings to a look-up.

/// A transaction's snapshot, lent, with its own id and its read stamp. A name of an earlier run is
/// seen. One of this run is seen below `min`, not seen at or above `max`, and between them seen
/// unless it is listed.
#[derive(Clone, Copy)]
pub struct View<'a> {
    /// This run.
    pub run: u64,
    /// The transaction's id, 0 while it has none.
    pub own: u64,
    /// The least running id when the snapshot was taken, or `max` where none was.
    pub min: u64,
    /// The next id when the snapshot was taken.
    pub max: u64,
    /// The running ids when the snapshot was taken.
    pub list: &'a [u64],
    /// The read stamp, 0 for none.
    pub read: u64,
}
