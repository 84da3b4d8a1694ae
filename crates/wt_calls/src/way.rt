/// Where a cursor goes on: to greater keys, or to smaller ones.
#[derive(Clone, Copy, PartialEq, Eq, Debug)]
pub enum Way {
    /// To the next row.
    Up,
    /// To the previous row.
    Down,
}
