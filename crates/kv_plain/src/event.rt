// What can happen to the machine, and what calls answer and leave.

use crate::history::Table;
use crate::machine::{Machine, Position};
use crate::outcome::Outcome;
use item::{Change, Item};
use wt_code::{Answer, Fault};

/// What can happen. A session's number comes first.
#[derive(Drop)]
pub enum Event {
    OpenSession,
    /// At a read stamp, 0 for none.
    Begin(usize, u64),
    DrawId(usize),
    /// Of this key of this table.
    AcceptWrite(usize, u32, Item, Change),
    RefuseWrite(usize),
    Prepare(usize, u64),
    /// At a commit and a durable stamp.
    Commit(usize, u64, u64),
    StartLeaving(usize),
    EndTransaction(usize),
    /// Of this cursor, to a position or to none.
    PlaceCursor(usize, usize, Option<Position>),
    CreateTable(Table),
    /// Oldest and stable, 0 for none.
    SetStamps(u64, u64),
    RollbackToStable,
    CheckpointStart,
    CheckpointFinish,
    CheckpointDrop,
    GoDown(Fault),
    Nothing,
}

/// The answer at the event that judges a call, and that event.
#[derive(Drop)]
pub(crate) struct Decision {
    pub(crate) outcome: Outcome,
    pub(crate) event: Event,
}

/// The outcome of a call, or of a part of one, and the machine that it leaves.
#[derive(Drop)]
pub(crate) struct Turn {
    pub(crate) outcome: Outcome,
    pub(crate) machine: Machine,
}

/// What a call answers, and the machine that it leaves.
#[derive(Drop)]
pub struct Answered {
    /// Done, what was asked for, or the refusal.
    pub answer: Answer<Item>,
    /// The machine after the call.
    pub machine: Machine,
}
