// The machine as plain data.

use crate::history::{Entry, Write};
use item::Item;
use wt_code::Fault;

/// The state of a transaction.
#[derive(Clone, Copy, PartialEq, Eq, Debug)]
pub enum Phase {
    /// It may read and write.
    Running,
    /// A write was refused by a conflict.
    Failed,
    /// Prepared at this stamp.
    Prepared(u64),
    /// Prepared and then decided; its updates are being changed.
    Resolving,
    /// Refused or rolled back; its updates are being taken out.
    Leaving,
}

/// A transaction that has not ended.
#[derive(Drop)]
pub struct Transaction {
    /// 0 until the first write.
    pub id: u64,
    /// The length of the history when it began.
    pub start: usize,
    /// The read stamp, 0 for none.
    pub read: u64,
    /// The own writes, one at most of each key, newest first.
    pub writes: Vec<Write>,
    pub phase: Phase,
}

/// Where a cursor stands.
#[derive(Drop)]
pub struct Position {
    pub table: u32,
    pub key: Item,
}

/// A checkpoint that runs: of the first entries of the history, with the stamps that it recorded.
#[derive(Clone, Copy)]
pub struct Checkpoint {
    pub prefix: usize,
    pub oldest: u64,
    pub stable: u64,
}

/// What the last complete checkpoint holds.
#[derive(Drop)]
pub struct Completed {
    /// Newest first.
    pub content: Vec<Entry>,
    pub oldest: u64,
    pub stable: u64,
}

/// The whole machine.
#[derive(Drop)]
pub struct Machine {
    /// Newest entry first.
    pub history: Vec<Entry>,
    pub run: u64,
    /// The next id of this run.
    pub next: u64,
    /// 0 for none, of stable too.
    pub oldest: u64,
    pub stable: u64,
    /// By session.
    pub sessions: Vec<Option<Transaction>>,
    /// By session, then by cursor.
    pub cursors: Vec<Vec<Option<Position>>>,
    pub checkpoint: Option<Checkpoint>,
    pub completed: Completed,
    /// The rollbacks to stable that were done.
    pub rollbacks: u64,
    /// The fault that took the machine down.
    pub fault: Option<Fault>,
}
