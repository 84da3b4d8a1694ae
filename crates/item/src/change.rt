//! What a write makes of a key.

ghost use Rattle.std.specs.Prelude.{◌≡◌, IfOk};

use crate::item::Item;
use failure::NoMemory;

/// What a write makes of a key.
#[derive(Drop)]
pub enum Change {
    /// The key has this value.
    Put(Item),
    /// The key is absent.
    Remove,
}

impl Change {
    /// A second change of the same kind and value. One allocation at most.
    pub fn copy(&self) -> Result<Change, NoMemory>
        ensures { IfOk result (λ r. r ≡ self.now) }
    {
        match self {
            Change::Put(value) => Ok(Change::Put(value.copy()?)),
            Change::Remove => Ok(Change::Remove),
        }
    }
}
