//! The older versions that a checkpoint writes as the device's history.
//!
//! Stands for what a checkpoint that runs, and is finished at this moment, keeps of each key of the
//! tables that stood as it started beside the cell of the leaf in which the key lies: of a leaf in a
//! frame what lies below its newest version whose transaction has ended, and is in reach, of any other
//! leaf what is kept of it (`Kept`). Promises that these versions, with that cell, are all that a read
//! can want from the recorded oldest stamp on, and that each of them stands (`HaveTaken`), in every world
//! for which the engine stands and whose history is what is kept; that each is of one of these tables,
//! and fits a leaf of the history. Nothing is changed. Leaves to the caller when a checkpoint is
//! finished, and how the versions are written.
#![tactic(auto)]

mod adding;
mod gathering;
mod leaf;
mod source;

pub use failure::NoMemory;
pub use gathering::gather;
