// What a checkpoint kept beside its tables.

/// What a checkpoint recorded of the machine. It had no running transactions.
#[derive(Clone, Copy, Debug, PartialEq, Eq)]
pub struct Marks {
    /// The run that made the checkpoint.
    pub run: u64,
    /// The oldest stamp, 0 where there was none.
    pub oldest: u64,
    /// The stable stamp, 0 where there was none.
    pub stable: u64,
    /// The least id that was running, or the next one.
    pub min: u64,
    /// The next id.
    pub max: u64,
}
