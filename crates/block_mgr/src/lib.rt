//! Where blocks stand on a device: which units are in use, by the live tree, the running
//! checkpoint, the last completed one and named ones, and which are free.
//!
//! Promises that each unit between the slots and the end is free or in exactly one block, that a
//! write touches no block in use, at any moment of a crash, and takes nothing where it is refused,
//! that the units of a block are free as soon as nobody has it, and that a read gives a block only
//! where its sum is that of its address. Leaves to the caller what the blocks hold, and when a
//! block is no longer needed.
#![tactic(auto)]

mod admit;
mod blocks;
mod cell;
mod fill;
mod found;
mod holders;
mod law;
mod marks;
mod open;
mod place;
mod put;
mod read;
mod settle;
mod store;

pub use blocks::Blocks;
pub use device_layout::Addr;
pub use failure::NoMemory;
pub use found::{Found, Holder, OpenError};
pub use law::{
    a_block_of_the_last_checkpoint_stays, a_block_stays_live, a_captured_block_stays,
    a_freed_block_is_gone, a_named_block_stays, a_write_keeps_the_blocks_in_use,
};
pub use place::is_place;
pub use read::{read_block, read_into};
