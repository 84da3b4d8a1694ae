//! The two slots at a device's beginning, A at 0 and B at 4,096, of which the chosen one names
//! the record of the last completed checkpoint.
//!
//! `choose` tells the chosen slot or where the slots are out of form. `install` puts the next
//! slot into the place that is not chosen, so that a crash at any moment leaves the old slot
//! chosen or the new one. What the record says, and that the blocks it names are on the disk
//! before the slot is, is left to the callers.
#![tactic(auto)]

mod choosing;
mod installing;
mod law;
mod place;
mod slot;
#[cfg(test)]
mod tests;

pub use choosing::choose;
pub use device_layout::Slot;
pub use installing::install;
pub use law::{a_slot_is_its_bytes, one_slot_is_chosen};
