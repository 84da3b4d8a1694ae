//! The updates of one key in memory, newest first.
//!
//! A chain stands for the list of its updates. The newest may be of a transaction that has not
//! ended; all below it are committed. Promises what each call makes of that list, that a read
//! answers by the newest update that its view admits (`reads_pick` says that it is the model's),
//! that a read of a chain that stands for its key is the model's, with its conflicts
//! (`reads_stand`), and that a trim loses only what a newer update covers (`trims_lose_covered`).
//! `events` promises that a chain goes on to stand for its key, one law for each event and for what
//! is done to the chain beside it; `frames` what its newest update tells a write and a commit, and
//! what a rollback to stable leaves; `later` what a look in the history answers after a look in the
//! chain. The newest update lies in the chain itself, so that a chain of one takes no memory; only
//! `install` over another's update may want it. Leaves to the caller the versions that stand
//! elsewhere.
#![tactic(auto)]

ghost use Rattle.update_chain.specs.Answers.{ReadsStand};
ghost use Rattle.update_chain.specs.ChainLaws.{ReadsPick, TrimsLoseCovered};

mod chain;
mod events;
mod frames;
mod later;
mod look;
mod update;

pub use chain::Chain;
pub use events::{
    chains_go_on, commits_stand, ends_stand, installs_stand, marks_stand, pasts_go_on,
    prepares_stand, resolves_stand, stamps_stand, trims_stand, undos_stand,
};
pub use failure::NoMemory;
pub use frames::{
    orders_stand, reads_are_present, records_lie_under, rollbacks_bring_back, rollbacks_keep,
    views_admit, writes_find, writes_stand,
};
pub use later::{admitted_go_on, chains_stay_silent, later_looks_answer};
pub use look::{Judgement, Read, judge_update};
pub use update::Update;

/// Among committed versions of others, a read of a chain picks the one that the model admits.
pub fn reads_pick()
    ensures { ReadsPick }
{}

/// A read of a chain that stands for its key, by a running transaction, is the model's: the value
/// that the chain gives, a key that is removed, a conflict with the transaction whose prepared
/// update it met, or what stands below the chain. Another transaction that is met and is not
/// ending makes a conflict.
pub fn reads_stand()
    ensures { ReadsStand }
{}

/// A trim loses only updates that are older than one that stays and covers them.
pub fn trims_lose_covered()
    ensures { TrimsLoseCovered }
{}
