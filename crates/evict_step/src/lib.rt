//! What a leaf is cut into where it is evicted: the first step of an eviction, which looks at the
//! engine alone. Another layer writes the images, and then lets the leaf go (`Local::evict` of
//! `engine`). And what it is made of when it comes back.
//!
//! Promises that in every world for which the engine stands, while no checkpoint runs, the images
//! have of each key of the leaf its newest version, what moves to the history has of the older ones
//! those that are in reach, and that no read, no snapshot and no transaction can want what is left
//! out (`engine_world` says so of an eviction). Where a version is of a transaction that has not
//! ended, the leaf stays, and the least id of such a one is told (`unended_in`). What was written
//! and what moved, put together again, is a leaf that may come into a frame (`bring_back`). What
//! moved is kept in memory by the leaves in which its keys lie (`Kept`): what is kept of one, or goes
//! with it, changes nothing of another, and want of memory loses nothing. Leaves to the caller which
//! leaf is to go and when it comes back, where images go, and that nothing comes between the cut and
//! the eviction.
#![tactic(auto)]

mod back;
mod cut;
mod fresh;
mod held;
mod kept;

pub use back::bring_back;
pub use cut::{CutOut, cut_out, unended_in};
pub use engine::Stays;
pub use failure::NoMemory;
pub use fresh::Fresh;
pub use kept::Kept;
pub use reconcile::{Image, Made, Moved};
