//! The transactions of an engine: its sessions with their phases, ids, snapshots, read stamps and
//! the leaves that they wrote, and the ids that are running.
//!
//! Promises what each call makes of the table, as plain data, that a new table stands for the
//! sessions of a machine at its start (`new_tables_stand`), and that a table that stands for them
//! goes on to (`calls_stand`): each snapshot sees a name that matters exactly where that was
//! released in the entries before its transaction began. Every snapshot sees what lies below the
//! floor (`floors_are_seen`), the pin stamp is the machine's (`pins_are_the_machines`), and the
//! snapshot of a checkpoint sees what the checkpoint captures (`checkpoints_see`). Memory is taken when the table is made,
//! for `SESSIONS_MAX` sessions of `limits`, and when a written leaf is registered: no other call may
//! want it. Leaves to the caller when each call may come, and what is in the pages.
#![tactic(auto)]

ghost use Rattle.txn_table.specs.Checkpoints.{CheckpointsSee, EndedAreSeen};
ghost use Rattle.txn_table.specs.Past.{FloorsAreUnderTheLiving, PastsStand, ThePastCovers};
ghost use Rattle.txn_table.specs.TableLaws.{CallsGoOn, FloorsAreSeen, LowestAreTheMachines, NewTablesStand, PinsAreTheMachines};

mod phase;
mod session;
mod txns;
mod written_leaf;

pub use failure::NoMemory;
pub use phase::Phase;
pub use txns::Txns;
pub use written_leaf::WrittenLeaf;

/// The table of a run that begins, with no session or with some, stands for the sessions of the
/// machine that an opening makes, in which as many are opened.
pub fn new_tables_stand()
    ensures { NewTablesStand }
{}

/// A table that stands for the sessions of a valid machine goes on to stand for them, over each
/// call with its event, and over every other event.
pub fn calls_stand()
    ensures { CallsGoOn }
{}

/// Each snapshot of a transaction, and the checkpoint's, sees every name below the floor.
pub fn floors_are_seen()
    ensures { FloorsAreSeen }
{}

/// The pin stamp of a table that stands for the sessions of a machine is the machine's.
pub fn pins_are_the_machines()
    ensures { PinsAreTheMachines }
{}

/// So are the lowest session with a transaction, and the lowest whose transaction is resolving.
pub fn lowest_are_the_machines()
    ensures { LowestAreTheMachines }
{}

/// The snapshot that a table takes for a checkpoint that starts sees exactly the versions that the
/// checkpoint captures. `committed_go_on` of `snapshot` says that it goes on to.
pub fn checkpoints_see()
    ensures { CheckpointsSee }
{}

/// Taken at any moment, it sees nothing of a transaction that has not ended, and all else that was
/// committed.
pub fn ended_are_seen()
    ensures { EndedAreSeen }
{}

/// A version of a line that is durable at the pin stamp, and whose name is below the floor, covers
/// what is older.
pub fn the_past_covers()
    ensures { ThePastCovers }
{}

/// No transaction that has not ended is below the floor.
pub fn floors_are_under_the_living()
    ensures { FloorsAreUnderTheLiving }
{}

/// So what lies at the pin stamp and below the floor is past, as a trim of a chain asks.
pub fn pasts_stand()
    ensures { PastsStand }
{}
