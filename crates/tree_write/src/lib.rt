//! The tree of a table, as a checkpoint writes and captures it.
//!
//! Stands for the blocks that the running checkpoint has of one table: those of its leaves, and above
//! them the inner pages of their entries (`specs/Cuts`). Promises that `write_tree` leaves a whole
//! tree of the rows on the device, with all its blocks captured, one after the other
//! (`specs/Captures`); that a leaf which the checkpoint before has at the same place with the same rows
//! keeps its block, and every other block is new; that at each moment the checkpoint before still
//! stands; and that each block is listed when it is captured, also before an error. `keep_tree` captures
//! a tree as it stands. A `TreeDraft` is such a tree part by part: each part is written, or kept as it
//! stands. Leaves to the caller what is in the rows, which tables may keep their trees,
//! and the record.
#![tactic(auto)]

mod blocks;
mod draft;
mod entries;
mod keep;
mod leaf;
mod leaves;
mod levels;
mod tree;

pub use blocks::capture;
pub use draft::TreeDraft;
pub use entries::link_to;
pub use keep::{keep_tree, may_keep};
pub use leaves::key_of;
pub use tree::write_tree;
