// How far a call is.

ghost use Rattle.std.specs.Prelude.{◌≡◌};
ghost use Rattle.call_steps.specs.Stages.{is_write, cursor_in, marks, orders, stamps_then, undoes, first_mark, first_order, after_orders, after_stamps, first_undo, undo_or_resolve};

use txn_table::Phase;
use wt_calls::{Demand, Way};

/// The leaf that a call works on, and where it is.
#[derive(Clone, Copy, Debug, PartialEq, Eq)]
pub struct Target {
    /// The number of the table.
    pub table: u32,
    /// What the leaf is named by.
    pub leaf: u64,
    /// The frame that has the leaf.
    pub frame: u32,
    /// What the frame's state word is while it has the leaf.
    pub word: u64,
}

/// A leaf that is in no frame.
#[derive(Clone, Copy, Debug, PartialEq, Eq)]
pub struct Wanted {
    /// The number of the table.
    pub table: u32,
    /// What the leaf is named by.
    pub leaf: u64,
}

/// What a call does at its leaf.
#[derive(Clone, Copy, Debug, PartialEq, Eq)]
pub enum KeyCall {
    /// Read the key.
    Get,
    /// Write the value, where the key meets the demand.
    Put(Demand),
    /// Remove the key.
    Remove,
    /// Take this cursor to the key.
    Seek(u32),
    /// Take this cursor to the next row on this way.
    Step(u32, Way),
}

impl KeyCall {
    /// Whether it writes.
    pub fn is_write(self) -> bool
        ensures { result ≡ is_write self }
    {
        matches!(self, KeyCall::Put(_) | KeyCall::Remove)
    }

    /// The cursor that it moves.
    pub fn cursor(self) -> Option<u32>
        ensures { result ≡ cursor_in self }
    {
        match self {
            KeyCall::Seek(cursor) | KeyCall::Step(cursor, _) => Some(cursor),
            _ => None,
        }
    }
}

/// The stamps of a commit.
#[derive(Clone, Copy, Debug, PartialEq, Eq)]
pub struct CommitStamps {
    /// The commit stamp, where one is given.
    pub commit: Option<u64>,
    /// The durable stamp, where one is given.
    pub durable: Option<u64>,
    /// The greatest durable stamp below the updates that were looked at, 0 where there is none.
    pub prev: u64,
}

/// The next event of a session's call. Where leaves that were written are passed one by one, it
/// has how many of the keys that were written are left, from the front.
#[derive(Clone, Copy, Debug, PartialEq, Eq)]
pub enum Stage {
    /// There is no call.
    Rest,
    /// Begin a transaction, at this read stamp.
    Begin(Option<u64>),
    /// Find the leaf and its frame.
    Find(KeyCall),
    /// Go on once the leaf is loaded: it was in no frame.
    Fill(KeyCall, Wanted),
    /// Name the frame in the call's hazard word.
    Publish(KeyCall, Target),
    /// Look whether the frame has the leaf still.
    Validate(KeyCall, Target),
    /// Read or write the leaf.
    Look(KeyCall, Target),
    /// Go to the next leaf on the way: no row was found in this one.
    Pass(KeyCall, Target),
    /// Look in the history.
    History(KeyCall, Target),
    /// Clear the hazard word of the cursor, which found no row.
    ClearCursor(KeyCall, Target),
    /// Clear the call's hazard word.
    Clear(KeyCall, Target),
    /// Let this cursor stand nowhere.
    Reset(u32),
    /// Mark the updates of a leaf as prepared at this stamp.
    Mark(u64, usize),
    /// Prepare the transaction at this stamp.
    Release(u64),
    /// Look below the updates of a leaf for durable stamps.
    Order(CommitStamps, usize),
    /// Stamp the updates of a leaf.
    Stamp(CommitStamps, usize),
    /// Decide the commit.
    Decide(CommitStamps),
    /// Decide the rollback.
    Resolve,
    /// Take the updates of a leaf out.
    Undo(usize),
    /// End the transaction.
    Done,
    /// Clear the hazard word of this cursor, after the transaction has ended.
    Unpin(u32),
}

// ---- Of the leaves that were written, where so many keys are left.

pub(crate) fn marks(stamp: u64, left: usize) -> Stage
    ensures { result ≡ marks stamp left }
{
    if left == 0 {
        Stage::Release(stamp)
    } else {
        Stage::Mark(stamp, left)
    }
}

pub(crate) fn orders(stamps: CommitStamps, left: usize, after: Stage) -> Stage
    ensures { result ≡ orders stamps left after }
{
    if left == 0 {
        after
    } else {
        Stage::Order(stamps, left)
    }
}

pub(crate) fn stamps_then(stamps: CommitStamps, left: usize, after: Stage) -> Stage
    ensures { result ≡ stamps_then stamps left after }
{
    if left == 0 {
        after
    } else {
        Stage::Stamp(stamps, left)
    }
}

pub(crate) fn undoes(left: usize) -> Stage
    ensures { result ≡ undoes left }
{
    if left == 0 {
        Stage::Done
    } else {
        Stage::Undo(left)
    }
}

// ---- By the phase of the transaction, which wrote so many keys.

// A prepare marks them first, where it is not refused for the phase.
pub(crate) fn first_mark(phase: Phase, stamp: u64, keys: usize) -> Stage
    ensures { result ≡ first_mark phase stamp keys }
{
    match phase {
        Phase::Running => marks(stamp, keys),
        _ => Stage::Release(stamp),
    }
}

// A commit looks below them first.
pub(crate) fn first_order(phase: Phase, stamps: CommitStamps, keys: usize) -> Stage
    ensures { result ≡ first_order phase stamps keys }
{
    match phase {
        Phase::Running | Phase::Prepared(_) => orders(stamps, keys, Stage::Decide(stamps)),
        _ => Stage::Decide(stamps),
    }
}

// After that a prepared one is decided, and any other stamps them first.
pub(crate) fn after_orders(phase: Phase, stamps: CommitStamps, keys: usize) -> Stage
    ensures { result ≡ after_orders phase stamps keys }
{
    match phase {
        Phase::Prepared(_) => Stage::Decide(stamps),
        _ => stamps_then(stamps, keys, Stage::Decide(stamps)),
    }
}

// A prepared one is decided before they are stamped, and any other after.
pub(crate) fn after_stamps(phase: Phase, stamps: CommitStamps) -> Stage
    ensures { result ≡ after_stamps phase stamps }
{
    match phase {
        Phase::Running => Stage::Decide(stamps),
        _ => Stage::Done,
    }
}

// A rollback takes them out first, where the transaction is not prepared.
pub(crate) fn first_undo(phase: Phase, keys: usize) -> Stage
    ensures { result ≡ first_undo phase keys }
{
    match phase {
        Phase::Running | Phase::Failed => undo_or_resolve(keys),
        _ => Stage::Resolve,
    }
}

fn undo_or_resolve(keys: usize) -> Stage
    ensures { result ≡ undo_or_resolve keys }
{
    if keys == 0 {
        Stage::Resolve
    } else {
        Stage::Undo(keys)
    }
}
