//! The history in memory as the leaves that are written of it.
//!
//! Stands for the records of the history: each version of each key of each table once, ascending by
//! table, key, commit stamp, and name (`specs/Records`). Promises that the leaves have exactly these
//! records, one behind the other, each leaf with as many as its image of at most 32,768 bytes has
//! room for, and says of each its least record, its greatest name and its greatest durable stamp
//! (`leaves_of`); and that the entries of a level are cut into inner pages, each with as many as it has
//! room for (`cut_level`). Leaves to the caller that each version fits a leaf, and where the blocks are
//! written.
#![tactic(auto)]

mod by_stamp;
mod leaf;
mod leaves;
mod lent_record;
mod levels;
mod open_leaf;
mod page;
mod record_writer;
mod written;

pub use failure::NoMemory;
pub use leaf::HistoryLeaf;
pub use levels::{cut_level, levels_shrink};
pub use page::HistoryPage;
pub use written::leaves_of;
