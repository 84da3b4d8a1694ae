//! What is written of a leaf in memory: the images of an eviction, with the versions that move to the
//! history, and the leaf that a checkpoint writes.
//!
//! Stands for what a leaf holds of each key: the updates of its chain, then its row on the page
//! (`specs/Held`); for what is captured of each key's chain (`specs/Capture`); and for what rows show:
//! of each key the version that they have of it (`specs/Shows`). Promises that the images have of each
//! key the newest version that may be written, a removal too, and of no other key, in the order of the
//! keys, each image with as many rows as fit 32,768 bytes; that of each key the live versions behind it
//! move, down to the first one that makes what is older unreachable (`reconcile`); and that so nothing
//! is lost but what a newer version makes unreachable (`keys_are_reconciled`). Of the captured leaf that
//! it has of each key the newest version that the checkpoint's snapshot sees, a removal too, and no
//! other key, in the order of the keys; that it is told where there are no rows, and where they do not
//! fit one leaf (`fits_a_leaf`, `capture`); and what this is to the machine: where chains stand for
//! their keys, and no commit is being resolved, the rows have each key's newest version
//! (`captures_are_newest`, `captured_rows_are_newest`), and a device that holds them opens as the
//! machine's checkpoint (`captures_are_cut`). Rows that others find are gathered into a leaf in the same
//! way (`Gathered`). Rows in order are told by what they show (`rows_tell`). Leaves to the caller which
//! versions are live, where the pin and the floor stand, which snapshot it is, that keys and updates
//! fit a row, and where images, moved versions and the leaf go.
#![tactic(auto)]

mod capture_laws;
mod capturing;
mod fits;
mod gathered;
mod held;
mod image;
mod images;
mod laws;
mod leaf;
mod live;
mod made;
mod open_image;
mod page;
mod rows_shown;
mod version;

pub use capture_laws::{captured_rows_are_newest, captures_are_cut, captures_are_newest};
pub use capturing::capture;
pub use failure::NoMemory;
pub use fits::fits_a_leaf;
pub use gathered::Gathered;
pub use image::{Image, Made, Moved};
pub use laws::keys_are_reconciled;
pub use leaf::{Captured, CapturedLeaf};
pub use live::Live;
pub use made::{reconcile, version_of};
pub use page::row_at;
pub use rows_shown::rows_tell;
pub use version::{cell_of, pick};
