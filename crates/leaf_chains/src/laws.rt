//! Laws of the chains of every key, over what is done at one.

ghost use Rattle.leaf_chains.specs.SlotLaws.{ChangesChange, ChangesKeep, ChangesKeepSlots, InstallsChange, InstallsKeep, InstallsKeepSlots, SlotsHold};

/// The slot of a key holds it, with its chain.
pub fn slots_hold()
    ensures { SlotsHold }
{}

/// After an install its key has the installed chain.
pub fn installs_change()
    ensures { InstallsChange }
{}

/// Every other key has the chain that it had.
pub fn installs_keep()
    ensures { InstallsKeep }
{}

/// A key that has a slot keeps it over an install.
pub fn installs_keep_slots()
    ensures { InstallsKeepSlots }
{}

/// A change in the slot of a key, as a stamp, a mark or an undo, changes its chain.
pub fn changes_change()
    ensures { ChangesChange }
{}

/// It changes no other key's chain.
pub fn changes_keep()
    ensures { ChangesKeep }
{}

/// Each key keeps its slot over it.
pub fn changes_keep_slots()
    ensures { ChangesKeepSlots }
{}
