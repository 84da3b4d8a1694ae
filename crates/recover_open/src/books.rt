// The books of the blocks in use.
ghost use Rattle.std.specs.Prelude.{◌≡◌, ◌++◌, [], ◌∷◌, false, map, IfOk, IfErr, OnOk};
ghost use Rattle.block_mgr.specs.Open.{AreStored};
ghost use Rattle.device_leaf.specs.Openings.{HasBooks};
ghost use Rattle.tree_open.specs.Trees.{leaf_addr, leaf_addrs};
ghost use Rattle.recover_open.specs.Damage.{found_there, upper_found, uppers_found};
ghost use Rattle.recover_open.specs.Surveys.{RefusesBlocks};
ghost use Rattle.recover_open.specs.Wholes.{whole_found};

use crate::record::spoilt;
use block_mgr::{Addr, Blocks, Found, Holder, OpenError};
use failure::NoMemory;
use inner_page::Entry;
use std::alloc::Global;
use tree_open::Upper;
use turtle::Slot;
use wt_code::Refusal;

// How many blocks the books may be opened with, at most.
const FOUND_MAX: usize = 0xffff_ffff;

// The blocks in use: the record's, and those of the trees. `Corrupt` comes only where one cannot be
// in use beside those before it. `O(n)` in the blocks.
pub(crate) fn books(
    alloc: Global,
    slot: Slot,
    uppers: &[Upper],
    len: u64,
) -> Result<Blocks, Refusal>
    ensures books { IfOk result (HasBooks (uppers_found slot uppers.now)) }
    ensures fresh { IfOk result (λ s. s.is_synced ≡ false) }
    ensures idle { IfOk result (λ s. s.is_held ≡ false) }
    ensures stored { OnOk result (AreStored (uppers_found slot uppers.now) len) }
    ensures err { IfErr result (RefusesBlocks (uppers_found slot uppers.now) len) }
{
    let none = Vec::new(alloc);
    whole_books(alloc, slot, uppers, &none, len)
}

// The same, and then those of the history, which stand there.
pub(crate) fn whole_books(
    alloc: Global,
    slot: Slot,
    uppers: &[Upper],
    history: &[Addr],
    len: u64,
) -> Result<Blocks, Refusal>
    ensures books { IfOk result (HasBooks (whole_found slot uppers.now history.now)) }
    ensures fresh { IfOk result (λ s. s.is_synced ≡ false) }
    ensures idle { IfOk result (λ s. s.is_held ≡ false) }
    ensures stored { OnOk result (AreStored (whole_found slot uppers.now history.now) len) }
    ensures err { IfErr result (RefusesBlocks (whole_found slot uppers.now history.now) len) }
{
    match found_with(alloc, slot, uppers, history) {
        Err(NoMemory) => Err(Refusal::NoMemory),
        Ok(found) => books_of(alloc, &found, len),
    }
}

fn books_of(alloc: Global, found: &[Found], len: u64) -> Result<Blocks, Refusal>
    ensures books { IfOk result (HasBooks found.now) }
    ensures fresh { IfOk result (λ s. s.is_synced ≡ false) }
    ensures idle { IfOk result (λ s. s.is_held ≡ false) }
    ensures stored { OnOk result (AreStored found.now len) }
    ensures err { IfErr result (RefusesBlocks found.now len) }
{
    if found.len() > FOUND_MAX {
        return Err(Refusal::NoMemory);
    }
    match Blocks::open(alloc, found, len) {
        Ok(blocks) => Ok(blocks),
        Err(OpenError::NoMemory) => Err(Refusal::NoMemory),
        Err(OpenError::NoPlace(i)) => Err(spoilt(found[i].addr)),
        Err(OpenError::Clash(_, i)) => Err(spoilt(found[i].addr)),
    }
}

// The blocks that are found: those of the history last.
fn found_with(
    alloc: Global,
    slot: Slot,
    uppers: &[Upper],
    history: &[Addr],
) -> Result<Vec<Found>, NoMemory>
    ensures { IfOk result (λ v. v.items ≡ whole_found slot uppers.now history.now) }
{
    let mut found = found_of(alloc, slot, uppers)?;
    put_pages(&mut found, history)?;
    Ok(found)
}

// The blocks that are found but for the history's: the record's first.
fn found_of(alloc: Global, slot: Slot, uppers: &[Upper]) -> Result<Vec<Found>, NoMemory>
    ensures { IfOk result (λ v. v.items ≡ uppers_found slot uppers.now) }
{
    let mut found = Vec::new(alloc);
    let record = Found {
        addr: slot.addr(),
        holder: Holder::Last,
    };
    push(&mut found, record)?;
    for upper in uppers {
        put_tree(&mut found, upper)?;
    }
    Ok(found)
}

// The blocks of a tree: its inner pages, and its leaves that stand somewhere.
fn put_tree(found: &mut Vec<Found>, upper: &Upper) -> Result<(), NoMemory>
    ensures { OnOk result (found.new.items ≡ found.old.items ++ upper_found upper.now) }
{
    put_pages(found, &upper.addrs)?;
    put_leaves(found, &upper.entries)
}

fn put_pages(found: &mut Vec<Found>, addrs: &[Addr]) -> Result<(), NoMemory>
    ensures { OnOk result (found.new.items ≡ found.old.items ++ map found_there addrs.now) }
{
    for addr in addrs {
        put_block(found, *addr)?;
    }
    Ok(())
}

fn put_leaves(found: &mut Vec<Found>, entries: &[Entry]) -> Result<(), NoMemory>
    ensures { OnOk result (found.new.items ≡ found.old.items ++ map found_there (leaf_addrs entries.now)) }
{
    for entry in entries {
        put_leaf(found, entry.link.addr)?;
    }
    Ok(())
}

// The block of a leaf, where it stands somewhere.
fn put_leaf(found: &mut Vec<Found>, addr: Addr) -> Result<(), NoMemory>
    ensures { OnOk result (found.new.items ≡ found.old.items ++ map found_there (leaf_addr addr)) }
{
    if addr.offset == 0 {
        Ok(())
    } else {
        put_block(found, addr)
    }
}

fn put_block(found: &mut Vec<Found>, addr: Addr) -> Result<(), NoMemory>
    ensures { OnOk result (found.new.items ≡ found.old.items ++ found_there addr ∷ []) }
{
    let block = Found {
        addr,
        holder: Holder::Tree,
    };
    push(found, block)
}

fn push(found: &mut Vec<Found>, block: Found) -> Result<(), NoMemory>
    ensures { OnOk result (found.new.items ≡ found.old.items ++ block ∷ []) }
{
    match found.push(block) {
        Ok(()) => Ok(()),
        Err(_) => Err(NoMemory),
    }
}
