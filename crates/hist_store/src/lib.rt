//! The history store in memory: the older versions of keys, by table and key.
//!
//! Stands for the list of its slots in the order in which keys came: a slot has a key of a table and
//! its versions, newest first, and each key has one slot at most, and keeps it. Promises that an add
//! puts its version among those of its key alone, by its name, and changes nothing where the name is
//! there; that in a slot names descend strictly, so that a look-up gives the newest version that its
//! view admits; that a sweep drops of each key what lies below the newest version that is past, and
//! nothing else; and that a walk comes to each slot once, in the order of tables and keys. A slot
//! stays: a sweep leaves the newest past version of its key and all above it. A look-up takes
//! `O(log n)` comparisons with n keys, and no memory. Leaves to the caller which versions belong
//! here, that of one name there is one version of a key, and from which pin and floor on versions
//! are past.
#![tactic(auto)]

mod hist;
mod key_history;
mod laws;
mod names;
mod places;
mod versions;

pub use failure::NoMemory;
pub use hist::Hist;
pub use key_history::KeyHistory;
pub use laws::{
    adds_add, adds_change, adds_descend, adds_keep, first_is_newest, sweeps_change, sweeps_descend,
    sweeps_sweep,
};
pub use ordered_groups::Walk;
pub use versions::Versions;
