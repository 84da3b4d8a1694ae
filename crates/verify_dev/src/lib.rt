//! A device that is read through: whether all is there that its last completed checkpoint has.
//!
//! Stands for what the device reads as (`stored`): the record of the checkpoint, and the trees of its
//! tables and of its history. Promises that `verify` answers exactly where the device reads as a
//! content, with the counts of just that record and those trees, and that a device which is refused
//! as damaged has that damage, and so reads as nothing. No row of a table is kept or copied, and
//! nothing is written. That no run may follow is no reason to refuse. Leaves to the callers which
//! table they look for: `examine` gives the record too.
#![tactic(auto)]

mod leaves;
mod report;
mod verifying;

pub use report::Report;
pub use verifying::{Examined, examine, verify};
