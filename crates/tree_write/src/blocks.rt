// One block, captured and listed.
ghost use Rattle.std.specs.Prelude.{◌≡◌, ◌≤◌, ◌<◌, ◌++◌, [], ◌∷◌, true, vec_capacity, vec_len};
ghost use Rattle.block_mgr.specs.Blocks.{HasLive, unit_of};
ghost use Rattle.block_mgr.specs.Cells.{captured};

use block_mgr::Blocks;
use device_layout::Addr;

/// The running checkpoint captures a block, and its address is put behind the others, for which there
/// is room. `O(1)`.
pub fn capture(blocks: &mut Blocks, addr: Addr, listed: &mut Vec<Addr>)
    requires live { HasLive blocks.old.cells addr.offset addr.size }
    requires held { blocks.old.is_held ≡ true }
    requires room { vec_len listed.old < vec_capacity listed.old }
    ensures cells { blocks.new.cells ≡ captured blocks.old.cells (unit_of addr.offset) }
    ensures space { blocks.new.space ≡ blocks.old.space }
    ensures synced { blocks.new.is_synced ≡ blocks.old.is_synced }
    ensures held { blocks.new.is_held ≡ true }
    ensures listed { listed.new.items ≡ listed.old.items ++ addr ∷ [] }
    ensures room { vec_capacity listed.old ≤ vec_capacity listed.new }
{
    blocks.capture(addr);
    listed.push_reserved(addr);
}
