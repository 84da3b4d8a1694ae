//! The engine of one thread: what the sessions share, the frames with their state words, the
//! sessions with their hazard words, all in one hand.
//!
//! A leaf comes into a frame when a call asks for it: the call stops there (`Called::Waits`), whoever
//! has the device reads the leaf and hands it in (`Local::fill`) or keeps the call out
//! (`Local::keep_out`), and the call is resumed.
//!
//! Promises, for every world for which the engine stands, that each step of a session may reply so
//! in that world, and that the engine stands for a world to which the step may lead (`engine_world`
//! says what a step may do, whatever the other sessions have under way); that whole calls with
//! nobody between answer as `kv_model` says; and that each call ends or waits for a leaf. What a
//! device brings need not be what any world says: then too the engine stays whole, keeps its tables
//! and their leaves, and its calls end; and a call tells no refusal that only a device gives, but the
//! one by which its leaf was kept from it. A leaf that is evicted by steps has its frame locked, by
//! whoever keeps the eviction (`Evicting`): a call that comes to it is turned away. Tells those who open
//! and close it what a checkpoint in one go and a close rest on, and leaves to them what a device keeps.
#![tactic(auto)]

mod batch;
mod called;
mod checkpoint;
mod close;
mod evicting;
mod frames;
mod giving;
mod going_out;
mod got;
mod leaves;
mod lent;
mod local;
mod opening;
mod parting;
mod parts;
mod reads;
mod row_reads;
mod running_checkpoint;
mod runs;
mod step;
mod system;
mod turning;
mod waiting;

pub use batch::{LentRow, RowBatch};
pub use called::Called;
pub use checkpoint::EngineMarks;
pub use evicting::{Horizon, Stays};
pub use got::Got;
pub use local::Local;
pub use running_checkpoint::RunningCheckpoint;
pub use runs::run_steps;
pub use step::{Actor, Step};
pub use turning::{
    EvictStage, Evicting, are_any, evicting_of, first_found, is_evicting, locker, put_evicting,
    put_stage,
};
