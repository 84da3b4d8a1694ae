// The slot that names a checkpoint's record.
ghost use Rattle.std.specs.Prelude.{◌≡◌};
ghost use Rattle.device_layout.specs.Slots.{addr_in, slot_at};

use crate::Addr;

/// What names the record of a checkpoint.
#[derive(Clone, Copy, Debug, PartialEq, Eq)]
pub struct Slot {
    /// The checkpoint's number, from 1 to 2^62 - 1.
    pub sequence: u64,
    /// Where the record's block begins, in bytes from the device's beginning.
    pub offset: u64,
    /// The size of the record's block, in bytes.
    pub size: u32,
    /// The sum of the record's block.
    pub sum: u32,
}

impl Slot {
    /// The slot of the checkpoint of this number, whose record stands at this address.
    pub fn new(sequence: u64, addr: Addr) -> Slot
        ensures { result ≡ slot_at sequence addr }
    {
        Slot {
            sequence,
            offset: addr.offset,
            size: addr.size,
            sum: addr.sum,
        }
    }

    /// The address of the record's block.
    pub fn addr(self) -> Addr
        ensures { result ≡ addr_in self }
    {
        Addr {
            offset: self.offset,
            size: self.size,
            sum: self.sum,
        }
    }
}
