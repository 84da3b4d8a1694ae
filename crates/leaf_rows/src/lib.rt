//! The rows of a table that has one leaf, in memory: each key with its newest version, in the order
//! of the keys.
//!
//! Promises that the rows are those of a leaf, or those that were pushed, without what an opening
//! does not keep. Leaves to the crates above where the leaf stands.
#![tactic(auto)]

mod marks;
mod rows;
#[cfg(test)]
mod tests;

pub use failure::NoMemory;
pub use marks::Marks;
pub use rows::Rows;
