//! The calls that a store takes, as plain data that own what they name: those of sessions and those
//! of the system. Whoever reads calls from a script, makes them on an engine or judges them stands
//! on these types. What a call answers is `Answer` of `wt_code`, over items.
//!
//! Promises which call of `kv_model` each of them is, in `specs/Calls`. Any value of these types is
//! a call: one that the store does not take is refused when it is made.
#![tactic(auto)]

mod call;
mod demand;
mod session_call;
mod system_call;
mod way;

pub use call::Call;
pub use demand::Demand;
pub use session_call::SessionCall;
pub use system_call::SystemCall;
pub use way::Way;
