// What a page says of a key.

/// What a page says of a key. A value is lent by the page's bytes, or owned.
#[derive(Clone, Copy, Drop)]
pub enum CellChange<V> {
    /// The key has this value, which stands in the cell.
    Put(V),
    /// The key was removed.
    Remove,
}
