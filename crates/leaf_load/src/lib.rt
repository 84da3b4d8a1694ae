//! A leaf of a table, read from a device while an engine runs.
//!
//! Stands for what an opening keeps of one leaf. Promises that what is read is the page that a link
//! leads to, without the rows that an opening does not keep, under no chains; and that damage is told
//! only where no such leaf is. Leaves to the caller which leaf is read, and what the checkpoint
//! recorded.
#![tactic(auto)]

mod bounds;
mod kept;
mod laws;
mod load;
mod page;

pub use kept::{is_seen, is_surely_seen};
pub use laws::one_is_loaded;
pub use load::load_leaf;
