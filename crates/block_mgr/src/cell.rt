// Who has a block.

/// What stands at a unit: the block that begins there, and who has it.
#[derive(Clone, Copy, Debug, PartialEq, Eq)]
pub struct Cell {
    /// How many units the block has; 0 where no block begins at the unit.
    pub units: u16,
    /// The live tree has it.
    pub is_live: bool,
    /// The running checkpoint has captured it.
    pub is_running: bool,
    /// The last completed checkpoint has it.
    pub is_last: bool,
    /// How many named checkpoints have it.
    pub names: u32,
}
