//! The last completed checkpoint of a device, read leaf by leaf.
//!
//! Stands for the content that the device reads as (`stored`): the tables and the rows of the machine
//! that an opening makes of it. Promises that a reader has just those tables, by name; that the pages
//! of a table's leaves, one after the other, have all its rows in order; that a key's value is that
//! of a read of all: of its cell and the newest record of the history, where an opening keeps them,
//! that of the later one; and that damage of a leaf is told only of the leaf that was asked for. An
//! opening of a reader reads all but the leaves of the tables, the history whole, and is refused as
//! that of an engine is, but for what the leaves have: a device some of whose leaves are at fault
//! opens as the whole one does. Nothing is written, and no engine is made. Leaves to the callers that
//! the device stays as it is while they read.
#![tactic(auto)]

mod find;
mod laws;
mod leaves;
mod lookup;
mod merging;
mod newest;
mod opened;
mod opening;
mod reader;

pub use laws::{
    faulty_leaves_do_not_read, missing_leaves_are_at_fault, none_need_be_at_fault,
    readers_have_pages, readers_have_tables, readers_have_values, spoilt_devices_have_readers,
};
pub use lookup::Lookup;
pub use opened::{LeafRows, OpenedLeaf};
pub use opening::open;
pub use reader::Reader;
