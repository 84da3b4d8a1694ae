// What a call answers.
use crate::Refusal;

/// The answer of a call that reads or changes rows, over the type of a key and a value.
#[derive(Debug, Drop, PartialEq, Eq)]
pub enum Answer<V> {
    /// Done, with nothing to tell.
    Done,
    /// The value of the key that was asked for.
    Value(V),
    /// The key and the value of the row that a cursor now stands on.
    Row(V, V),
    /// A step of a checkpoint is done, and more leaves are left.
    Left,
    /// A step of a checkpoint is done, and no leaf is left.
    End,
    /// The call was refused.
    Refused(Refusal),
}
