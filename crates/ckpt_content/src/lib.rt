//! What a checkpoint keeps of a machine.
//!
//! Stands for what a device has then: the record, a tree for each table with the newest version of
//! each key, and a history with the older ones that a read can want (`specs/Checkpoints`). Promises that
//! it opens as the checkpoint that the machine takes (`checkpoints_open`); that the records which are
//! written of a history in memory, or none, serve as such a history (`written_histories_serve`,
//! `empty_histories_serve`); and what an opening makes of each key (`opened_lines`). Leaves to the
//! caller how all this is gathered and written.
#![tactic(auto)]

mod laws;

pub use laws::{
    checkpoints_open, empty_histories_serve, finishes_open, opened_lines, rows_taken_before_serve,
    written_histories_serve,
};
