//! Laws over latched pieces and hazard words, and what two threads do under them.
//!
//! Promises that each of these calls keeps its law, as a session of an engine has to: frames that
//! only rise under `Grow`, and frames that their keepers free and fill under `Keepers`. It stands
//! for no part of the store: it shows how the calls of the tables are used, and what they cost.
#![tactic(auto)]

mod grow;
mod keep;
mod keepers;
mod open;
mod pair;
mod rise;
mod threads;

pub use grow::Grow;
pub use keep::{
    Keeper, KeptPool, Visited, free_own, glance, let_go, lock_own, look_again, pin_other, point_at,
    renew, scan_all, unlock_own, visit, who_pins,
};
pub use keepers::Keepers;
pub use open::{close_two, open_kept, open_rising};
pub use pair::{both, two_seats};
pub use rise::{add, meets, raise, set_hub};
pub use threads::{Counts, climb_both, keep_both};

#[cfg(test)]
mod tests;
