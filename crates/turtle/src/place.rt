// What the gate of a slot may be.

/// The gate of an open slot. Any other byte is shut.
pub(crate) const OPEN: u8 = 0xa5;

/// The gate that shuts a slot.
pub(crate) const SHUT: u8 = 0;
