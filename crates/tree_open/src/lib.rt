//! The inner pages of one table's tree on a device, read from the root down to the entries of its
//! leaves.
//!
//! Promises that `read_tree` gives exactly the entries of the leaves of the tree that a root leads
//! to (`stored`, `specs/Tree` and `specs/TableTree`), and where its inner pages stand, and tells
//! damage only where there is no such tree, with the first page at fault. Leaves to the crates above the leaves themselves, and which
//! blocks a device may have in use.
#![tactic(auto)]

mod greatest;
mod law;
mod layer;
mod page;
mod place;
mod tree;

pub use law::{a_tree_is_read, one_tree};
pub use place::{TreePlace, Upper, place_of};
pub use tree::read_tree;
