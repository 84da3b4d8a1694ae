// Where versions are gathered from.
use engine::{Horizon, Local};
use evict_step::Kept;
use snapshot::Snapshot;

// The leaves of an engine, and what decides which of their versions are gathered.
#[derive(Clone, Copy)]
pub(crate) struct Source<'a> {
    pub engine: &'a Local,
    // What is kept of leaves that are in no frame.
    pub kept: &'a Kept,
    // It sees what is of transactions that have ended.
    pub snapshot: &'a Snapshot,
    // What is out of reach.
    pub horizon: Horizon,
}
