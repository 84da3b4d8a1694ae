//! What the data of an engine stands for: a machine of `kv_model`, with the calls that are under
//! way in its sessions.
//!
//! `specs/Steps` says what one step of a call may reply and what it leaves, whatever the other
//! sessions do meanwhile, and how many steps are left at most; `specs/Stands` when the data of an
//! engine stands for such a world. Promises, one law for each event of `call_steps`, that an engine
//! which stands for a world stands, after the event, for one to which a step may lead with that
//! reply. Leaves to the driver which event comes when.
#![tactic(auto)]

mod frames;
mod hub;
mod system;
mod whole;
mod words;

pub use frames::{marks_go, orders_go, reads_go, rows_go, stamps_go, undos_go, writes_go};
pub use hub::{
    begins_go, decides_go, ends_go, fills_go, finds_go, histories_go, keeps_out_go, passes_go,
    releases_go, resolves_go,
};
pub use system::{
    checkpoints_go, creates_go, downs_go, engines_start, frames_grow, leaves_are_evicted,
    leaves_are_evicted_unseen, leaves_come, leaves_give_way, leaves_go_out, leaves_go_out_unseen,
    leaves_part, opens_go, sets_go,
};
pub use whole::{kept_out_reaches, steps_reach};
pub use words::{clears_go, loads_go, publishes_go, resets_go, starts_go, unpins_go};
