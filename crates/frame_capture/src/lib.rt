//! What a checkpoint captures of a leaf in memory: of each key the newest version that the
//! checkpoint's snapshot sees.
//!
//! Stands for what is captured of each key's chain over its row (`specs/Capture`). Promises that this
//! is what `reconcile` makes of the leaf where the versions that the snapshot sees are live
//! (`reconciled_rows_are_captured`); and what it is to the machine: where chains and rows stand for
//! their keys, and no commit is being resolved, the rows have each key's newest version
//! (`captures_are_newest`, `captured_rows_are_newest`), and a device that holds them opens as the
//! machine's checkpoint (`captures_are_cut`). Leaves to the caller which snapshot that is, and where
//! the rows go.
#![tactic(auto)]

mod laws;

pub use laws::{
    captured_rows_are_newest, captures_are_cut, captures_are_newest, reconciled_rows_are_captured,
};
