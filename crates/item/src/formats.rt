//! How the items of a table are stored.

/// How an item is stored.
#[derive(Clone, Copy, PartialEq, Eq, Debug)]
pub enum Format {
    /// A text, with one final zero byte.
    S,
    /// Bytes as they are.
    U,
}

/// The formats of a table's keys and of its values.
#[derive(Clone, Copy, PartialEq, Eq, Debug)]
pub struct Formats {
    pub key: Format,
    pub value: Format,
}
