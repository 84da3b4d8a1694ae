// What an opening finds in use, and why it is refused.
ghost use Rattle.std.specs.Prelude.{◌≡◌};
ghost use Rattle.block_mgr.specs.Found.{lasts};

use crate::Addr;

/// Who has a block that an opening finds.
#[derive(Clone, Copy, Debug, PartialEq, Eq)]
pub enum Holder {
    /// The last completed checkpoint, and the live tree, which goes on from it.
    Tree,
    /// The last completed checkpoint alone, as its record.
    Last,
    /// A named checkpoint.
    Named,
}

/// A block that an opening finds: where it stands, and who has it.
#[derive(Clone, Copy, Debug, PartialEq, Eq)]
pub struct Found {
    /// Where it stands.
    pub addr: Addr,
    /// Who has it.
    pub holder: Holder,
}

/// Why blocks cannot all be in use. Addresses go by their index, from 0.
#[derive(Clone, Copy, Debug, PartialEq, Eq)]
pub enum OpenError {
    /// There was not enough memory.
    NoMemory,
    /// No block can stand at this address, or the device ends before the block does.
    NoPlace(usize),
    /// The blocks at these two addresses meet, and they are not one block that a named checkpoint
    /// shares. The first index is the lesser one.
    Clash(usize, usize),
}

// Whether the last completed checkpoint has it.
pub(crate) fn is_of_last(holder: Holder) -> bool
    ensures { result ≡ lasts holder }
{
    match holder {
        Holder::Tree => true,
        Holder::Last => true,
        Holder::Named => false,
    }
}
