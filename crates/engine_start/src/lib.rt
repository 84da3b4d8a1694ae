//! An engine on what a device holds, which has read no leaf.
//!
//! Stands for the content of such a device: the marks of its checkpoint, and its tables in the order
//! of their names, each with the entries of any number of leaves. Promises that the engine stands for
//! the world with which that content begins, where its shelf has what an opening keeps of each leaf,
//! that no leaf is in a frame, and that no session is open. Leaves to the caller to read the device,
//! to take out of the rows of a leaf what an opening does not keep, and to close the device.
#![tactic(auto)]

mod laws;
mod opening;
mod parting;
mod table_entries;
mod unread;

pub use failure::NoMemory;
pub use laws::seen_stay;
pub use opening::start;
pub use table_entries::TableEntries;
pub use unread::{
    bare_leaves_start, borne_are_part, leaves_are_added, leaves_are_led, leaves_have_cells,
    shelves_are, trees_are_borne, unread_begin, unread_stand,
};
