//! Versions of keys.

use crate::name::Name;

/// Who wrote a version, and from which stamps on it holds. A stamp of 0 is none.
#[derive(Clone, Copy, Debug, PartialEq, Eq)]
pub struct Window {
    /// The transaction that wrote it.
    pub name: Name,
    /// The stamp from which readers see it.
    pub commit: u64,
    /// The stamp that the stable one must reach before a checkpoint keeps it.
    pub durable: u64,
}

/// A version of a key: its window, and the change that it makes.
#[derive(Drop)]
pub struct Version<C> {
    pub window: Window,
    pub change: C,
}
