// Where a block can stand.
ghost use Rattle.std.specs.Prelude.{◌↔◌, ◌+◌, ◌≤◌, IsTrue};
ghost use Rattle.block_mgr.specs.Places.{IsPlace};

use device_layout::Addr;
use limits::{BLOCK_MAX, SLOTS_END, UNIT};

/// Whether a block can stand at an address: behind the slots, in whole units, 2^20 bytes at most.
pub fn is_place(addr: Addr) -> bool
    ensures { IsTrue result ↔ IsPlace addr }
{
    let size = addr.size as u64;
    SLOTS_END <= addr.offset
        && addr.offset % UNIT == 0
        && UNIT <= size
        && size % UNIT == 0
        && size <= BLOCK_MAX
}

// Whether the block ends within a device of this length.
pub(crate) fn is_within(addr: Addr, len: u64) -> bool
    ensures { IsTrue result ↔ (addr.offset + addr.size ≤ len) }
{
    addr.offset <= len && addr.size as u64 <= len - addr.offset
}
