//! How large a table is.

/// How many frames and how many seats a table has.
#[derive(Clone, Copy, PartialEq, Eq, Drop)]
pub struct Shape {
    pub frames: u32,
    pub seats: u32,
}
