//! Snapshots: which transactions a reader sees, by the ids that were running when it began.
//!
//! A snapshot stands for the first entries of a history: of the names that matter it sees those
//! that were released in them (`sights_see_first`), and goes on to do so at every event
//! (`sights_go_on`). A name matters where it was released or is of a transaction that has not
//! ended. A checkpoint's snapshot counts prepared transactions as running, so it sees what was
//! committed (`sights_see_committed`), and goes on to (`committed_go_on`). Promises the rule of
//! run, `min`, `max` and list exactly, that a snapshot which a view lends can be copied, and that
//! it takes memory for its list only when it is made. Leaves to the caller which ids are running.
#![tactic(auto)]

ghost use Rattle.snapshot.specs.SightLaws.{CommittedGoOn, LivingStayUnseen, SightsGoOn, SightsSeeCommitted, SightsSeeFirst};

mod sight;
mod snapshot;

pub use failure::NoMemory;
pub use sight::is_seen;
pub use snapshot::Snapshot;

/// A snapshot that is taken of a machine, with its running ids, sees of the names that matter
/// those that were released.
pub fn sights_see_first()
    ensures { SightsSeeFirst }
{}

/// A snapshot goes on to see what it sees, at each event that may come.
pub fn sights_go_on()
    ensures { SightsGoOn }
{}

/// A snapshot that is taken for a checkpoint, with the ids of all transactions that have not ended,
/// sees of what stands in pages what was committed.
pub fn sights_see_committed()
    ensures { SightsSeeCommitted }
{}

/// A checkpoint's snapshot goes on to see what it sees, at each event that may come.
pub fn committed_go_on()
    ensures { CommittedGoOn }
{}

/// A snapshot that sees nothing of the transactions that have not ended goes on to see nothing of
/// those that have not ended then.
pub fn living_stay_unseen()
    ensures { LivingStayUnseen }
{}
