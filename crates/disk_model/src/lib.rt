//! A disk as the store sees it: what a read gives, and what a crash at any moment may leave.
//!
//! It promises little of its own: `Disk` and `Home` say what an implementation owes, `specs/Disk`
//! what its calls do, `specs/Ranges` and `specs/Crash` what follows for parts of a content and
//! for runs of calls; `write_synced` is a write and the sync behind it. `MemDisk` is a disk in memory that keeps all of it, fails where it is told
//! to, and gives any kind of image that a crash may leave. What a real file holds is left to its
//! adapter.
#![tactic(auto)]

mod call;
mod content;
mod disk;
mod image;
mod mem;
mod steps;

pub use call::{Call, Look};
pub use disk::{Disk, Home, Unattached};
pub use failure::{Failed, Fault};
pub use mem::MemDisk;
pub use steps::write_synced;
