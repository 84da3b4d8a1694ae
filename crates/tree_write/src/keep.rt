// Trees that are captured as they stand.
ghost use Rattle.std.specs.Prelude.{◌≡◌, ◌≤◌, ◌↔◌, ◌+◌, ◌++◌, length, true, vec_capacity, vec_len, IfErr, OnErr, OnOk, IsTrue};
ghost use Rattle.wt_code.specs.declared.store_error.StoreError.TheVariants.{NoMemory as WantOfMemory};
ghost use Rattle.tree_write.specs.Drafts.{addrs_to};
ghost use Rattle.tree_write.specs.Keeps.{AreLive, KeepsAll};

use crate::blocks::capture;
use block_mgr::Blocks;
use device_layout::Addr;
use inner_page::Entry;
use tree_open::TreePlace;
use wt_code::StoreError;

/// Whether the live tree has each block of a tree, so that it may be kept. `O(1)` a block.
pub fn may_keep(blocks: &Blocks, place: &TreePlace) -> bool
    ensures { IsTrue result ↔ AreLive blocks.now.cells place.now.addrs.items }
{
    are_live(blocks, &place.addrs)
}

fn are_live(blocks: &Blocks, addrs: &[Addr]) -> bool
    ensures { IsTrue result ↔ AreLive blocks.now.cells addrs.now }
{
    for addr in addrs {
        if !blocks.is_live(*addr) {
            return false;
        }
    }
    true
}

/// Captures a tree as it stands in the checkpoint before: no block is read or written. `captured` gets
/// the address of each block behind the others. The error is want of memory, and nothing changes then.
/// `O(1)` a block.
pub fn keep_tree(
    blocks: &mut Blocks,
    place: &TreePlace,
    captured: &mut Vec<Addr>,
) -> Result<(), StoreError>
    requires live { AreLive blocks.old.cells place.now.addrs.items }
    requires held { blocks.old.is_held ≡ true }
    ensures keeps { OnOk result (KeepsAll blocks.old blocks.new place.now.addrs.items) }
    ensures listed { OnOk result (captured.new.items ≡ captured.old.items ++ place.now.addrs.items) }
    ensures same { OnErr result ((blocks.new ≡ blocks.old) × (captured.new.items ≡ captured.old.items)) }
    ensures err { IfErr result (λ e. e ≡ WantOfMemory) }
    ensures held { blocks.new.is_held ≡ true }
{
    let Ok(()) = captured.reserve(place.addrs.len()) else {
        return Err(StoreError::NoMemory);
    };
    capture_all(blocks, &place.addrs, captured);
    Ok(())
}

// Captures blocks, one after the other, and puts their addresses behind the others, for which there is
// room.
fn capture_all(blocks: &mut Blocks, addrs: &[Addr], listed: &mut Vec<Addr>)
    requires live { AreLive blocks.old.cells addrs.now }
    requires held { blocks.old.is_held ≡ true }
    requires room { vec_len listed.old + length addrs.now ≤ vec_capacity listed.old }
    ensures keeps { KeepsAll blocks.old blocks.new addrs.now }
    ensures listed { listed.new.items ≡ listed.old.items ++ addrs.now }
    ensures held { blocks.new.is_held ≡ true }
{
    for addr in addrs {
        capture(blocks, *addr, listed);
    }
}

// Captures the leaves of entries, one after the other, and puts their addresses behind the others, for
// which there is room.
pub(crate) fn capture_leaves(blocks: &mut Blocks, entries: &[Entry], listed: &mut Vec<Addr>)
    requires live { AreLive blocks.old.cells (addrs_to entries.now) }
    requires held { blocks.old.is_held ≡ true }
    requires room { vec_len listed.old + length entries.now ≤ vec_capacity listed.old }
    ensures keeps { KeepsAll blocks.old blocks.new (addrs_to entries.now) }
    ensures listed { listed.new.items ≡ listed.old.items ++ addrs_to entries.now }
    ensures held { blocks.new.is_held ≡ true }
{
    for entry in entries {
        capture(blocks, entry.link.addr, listed);
    }
}
