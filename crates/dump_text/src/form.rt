// How the items of a dump are written.

/// How the items of a dump are written.
#[derive(Clone, Copy, PartialEq, Eq, Debug)]
pub enum Form {
    /// Escaped: a printable byte is itself.
    Print,
    /// Each byte as two hexadecimal digits.
    Hex,
}
