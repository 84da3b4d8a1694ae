// What a create tells.

/// What became of a table that was asked for, with its place.
#[derive(Clone, Copy, Debug, PartialEq, Eq)]
pub enum Created {
    /// It was made.
    New(u32),
    /// It was there with the same formats.
    Same(u32),
}
