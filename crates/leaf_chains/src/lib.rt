//! The update chains of one leaf, by key, for the frame that has the leaf in memory.
//!
//! Stands for the list of its slots in the order in which keys came: a slot has a key and the chain
//! of that key, each key has one slot at most, and keeps it. Promises that a search gives the slot
//! of its key, that an install puts its update on the chain of its key alone, where a new key gets
//! a slot behind all others, that a change in a slot touches no other, and that the next key above
//! or below a bound is the nearest. A search takes `O(log n)` comparisons with n keys, and what is
//! done in a known slot `O(1)`, so a commit that kept its slots finds nothing twice. The head of a
//! key, eight bytes behind a front that the keys have in common, is kept as a number beside it, and
//! decides most comparisons. A name that no update is above is kept too, so that a leaf without newer
//! updates is known at once. Leaves to the caller which update belongs to which key, and that a leaf
//! with an unresolved update stays.
#![tactic(auto)]

mod added;
mod chains;
mod heads;
mod laws;
mod places;
mod slot;

pub use added::Added;
pub use chains::LeafChains;
pub use failure::NoMemory;
pub use laws::{
    changes_change, changes_keep, changes_keep_slots, installs_change, installs_keep,
    installs_keep_slots, slots_hold,
};
pub use ordered_groups::{Place, Walk};
pub use slot::KeyChain;
