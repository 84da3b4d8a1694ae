// How far a call of a session has come.

use item::Item;
use wt_code::Answer;

/// How far a call of a session has come.
#[derive(Drop, PartialEq, Eq)]
pub enum Called {
    /// It has ended, with this answer.
    Ended(Answer<Item>),
    /// It waits for the leaf of this id, which is in no frame.
    Waits(u64),
}

// How a call went by one step.
#[derive(Clone, Copy, PartialEq, Eq)]
pub(crate) enum Went {
    // It goes on.
    On,
    // It has ended.
    Ended,
    // There was no step: it waits for the leaf of this id.
    Waits(u64),
}
