//! The parts by which a device leads from one place to the next: the address of a block, the slot
//! that names a checkpoint's record, and the link that leads to a tree. One type for each; what
//! their bytes are, and which of them a device may have, is for the crates that write and read
//! them to say.
#![tactic(auto)]

mod addr;
mod link;
mod slot;

pub use addr::Addr;
pub use link::Link;
pub use slot::Slot;
