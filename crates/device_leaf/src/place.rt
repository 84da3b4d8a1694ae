// Where the last completed checkpoint of a device stands.
use block_mgr::Blocks;
use turtle::Slot;

/// The slot that the last completed checkpoint was installed in, and its blocks.
#[derive(Drop)]
pub struct Place {
    /// None where no checkpoint was completed.
    pub slot: Option<Slot>,
    /// The blocks in use, and the free units between them.
    pub blocks: Blocks,
}
