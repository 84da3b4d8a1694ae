//! Leaves of a table that are written while no checkpoint captures them.
//!
//! Stands for blocks that the live tree alone has: those of a leaf that changed and goes out of memory.
//! Promises that `write_leaves` puts each leaf of a list of images into a new block of its own, that the
//! checkpoint before stands at each moment meanwhile, and that after an error each block that was written
//! is free again (`specs/Writes`). Leaves to the caller what is in the rows, the tree above the leaves,
//! and the block in which the rows stood before.
#![tactic(auto)]

mod leaf;
mod leaves;

pub use leaves::write_leaves;
