//! What an opening keeps of a history.
//!
//! Stands for the records of a device's history that an opening keeps, as the older versions of leaves
//! that are in no frame (`Kept`). Promises that of each key they are, newest first, those of its records
//! that the recorded snapshot sees and that are durable at the recorded stable stamp, kept of the leaf in
//! which the key lies (`keep_history`); that what is read of a device's history is fit for it
//! (`read_histories_fit`); and that a leaf's own rows that are kept, with the first of these versions of
//! each key that they do not show, are the newest versions of its keys, above the others (`rows_open`).
//! Leaves to the caller how the history is read, and when a leaf comes back.
#![tactic(auto)]

mod fits;
mod keep;
mod laws;
mod order;

pub use evict_step::Kept;
pub use failure::NoMemory;
pub use inner_page::HistoryRecord;
pub use keep::keep_history;
pub use laws::{read_histories_fit, rows_open};
