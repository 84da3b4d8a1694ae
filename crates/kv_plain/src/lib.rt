//! The definitions of `kv_model` as a plain, slow program over plain data, newest entry first: the
//! machine that an opening makes of what a device holds, and what each whole call answers and leaves.
//! It is the judge in the tests of the crates that have pages, chains or an engine.
//!
//! Promises exactly what the definitions say, and compares with nothing. Where the model leaves a
//! choice it takes one, and says which. A function that takes memory may always answer want of it.
#![tactic(auto)]

mod after;
mod calls;
mod checks;
mod closing;
mod cursor_calls;
mod cuts;
mod decisions;
mod event;
mod history;
mod key_calls;
mod looks;
mod machine;
mod opening;
mod outcome;
mod reads;
mod seats;
mod settling;
mod standing;
mod walk;
mod writes;

pub use after::apply;
pub use calls::{Around, Unfinished, open_session, run};
pub use decisions::Storing;
pub use event::{Answered, Event};
pub use history::{Entry, Placed, Table, Write};
pub use machine::{Checkpoint, Completed, Machine, Phase, Position, Transaction};
pub use opening::{Content, Snapshot, new_device, open};
pub use standing::{standing_at, standing_versions};
