//! An engine and its device, in one hand.
//!
//! Stands for an engine, and for the last completed checkpoint of its device. Promises that an
//! opening of a device that reads makes an engine that stands for the machine which what the device
//! holds begins with, its history too, and that a close rolls back each transaction and takes a
//! checkpoint (`ckpt_step`). A checkpoint, a close and an opening anew keep what holds between two
//! calls (`IsHeld`): at each moment a crash leaves what opens to a checkpoint that was done, or was
//! being installed since. One may run beside other work: `Store::start_checkpoint` begins it,
//! each `Store::step_checkpoint` takes one of its leaves, and `Store::finish_checkpoint` writes what it
//! captured, as it was when it started. So do the calls of actors, whose leaves are read
//! from the device when they need them, and leave memory behind a call that read others, or behind
//! a checkpoint; those that calls changed go out of it where the caller asks for it, while nobody
//! is at work (`Store::write_out`) or whoever is (`Store::make_room`, and of one key
//! `Store::evict`), and come back with what is kept of them. One of these goes by steps too
//! (`Store::evict_step`), beside which a call that comes to its leaf is turned away. Of a device
//! where a leaf is at fault it promises that damage is told of such a leaf alone, where a call needs
//! it. Leaves to the caller to attach the disk, and to say how many frames there are.
#![tactic(auto)]

mod above;
mod beside;
mod by_place;
mod calls;
mod checkpoint_calls;
mod evict_call;
mod evict_steps;
mod eviction;
mod frames;
mod loading;
mod marked;
mod opening;
mod places;
mod progress;
mod relief;
mod room;
mod store;
mod tables;
mod writing_out;

pub use evict_steps::EvictTurn;
pub use eviction::FRAMES;
pub use frames::Frames;
pub use opening::open_on;
pub use progress::{Progress, Remains, Underway};
pub use store::Store;
pub use writing_out::CHANGED_LEAST;
