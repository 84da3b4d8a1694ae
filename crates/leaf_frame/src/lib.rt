//! A leaf in memory: the rows of its page as they were read, under the update chains of its keys.
//!
//! Stands for what a leaf holds of each key: the updates of its chain, then its row on the page,
//! newest first. Promises that a read answers by the chain and, where that has nothing for the view,
//! by the row; that a write is judged by the newest of what is held; that what is done to chains
//! leaves the page as it is; that the next key above or below a bound, and each key of a walk, is the
//! nearest that holds something and does not read as removed, whether it stands in chains, on the
//! page or in both; and
//! that an eviction or a checkpoint makes of both parts what `reconcile` says. Leaves to the caller
//! which updates come, which versions stand elsewhere, and that a leaf with an unresolved update
//! stays.
#![tactic(auto)]

mod frame;
mod laws;
mod look;
mod near;
mod page;
mod slot_way;
mod updates;
mod walk;
mod way;

pub use failure::NoMemory;
pub use frame::LeafFrame;
pub use laws::{
    changes_change_held, changes_keep_held, empty_pages_read_by_chains, held_reads_stand,
    installs_change_held, installs_keep_held,
};
pub use look::{FrameRead, judge_row};
pub use near::HeldRow;
pub use walk::{LeafPlace, LeafWalk};
