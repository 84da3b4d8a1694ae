//! The history on a device, read from its root down to its records.
//!
//! Promises that `read_history` gives exactly the records of the tree that a root leads to, one
//! behind the other, and where its blocks stand (`stored`, `specs/HistoryTree`), and tells damage only
//! where there is no such tree, with the first block at fault, or the root's where each block is sound
//! and a version of a key stands twice. Leaves to the crates above which blocks a device may have in
//! use, and what is made of the records.
#![tactic(auto)]

mod begins;
mod greatest;
mod history;
mod law;
mod layer;
mod leaf;
mod leaves;
mod page;
mod place;
mod upper;

pub use history::{History, read_history};
pub use law::{damage_is_no_history, one_history};
