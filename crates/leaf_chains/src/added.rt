//! What an add tells.

use update_chain::Update;

/// What became of an update that was to be the first of its key.
#[derive(Drop)]
pub enum Added {
    /// The key was new, and has this slot.
    New(u32),
    /// The key has this slot already: the update is given back.
    There(u32, Update),
}
