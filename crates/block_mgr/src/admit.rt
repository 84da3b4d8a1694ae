// A block that an opening finds, among those found before it.
ghost use Rattle.std.specs.Prelude.{◌≡◌, ◌⊎◌, ◌+◌, ◌-◌, ◌*◌, ◌/◌, ◌^◌, ◌<◌, ◌≤◌, ℕ, IfOk, IsTrue, true, false, length, slice_set};
ghost use Rattle.extent_list.specs.Space.{end_of, IsFree, IsWhole, Fits as Fit};
ghost use Rattle.block_mgr.specs.Cells.{AreUnits, Covers, cell_at, nothing};
ghost use Rattle.block_mgr.specs.Blocks.{unit_of};
ghost use Rattle.block_mgr.specs.Found.{lasts, lives, name_count};
ghost use Rattle.block_mgr.specs.Places.{IsPlace};
ghost use Rattle.block_mgr.specs.Open.{joined, cell_of, HasSize, MayShare, AreBothLast};

use crate::cell::Cell;
use crate::found::{Found, Holder, is_of_last};
use crate::put::no_block;
use extent_list::Extents;
use failure::NoMemory;
use limits::{SLOTS_END, UNIT};
use std::alloc::Global;

// The free units of a device with no block, up to this end.
pub(crate) fn all_free(alloc: Global, end: u64) -> Result<Extents, NoMemory>
    requires behind { 8192 ≤ end }
    requires whole { IsWhole end }
    ensures end { IfOk result (λ s. end_of s ≡ end) }
    ensures free { IfOk result (λ s. Fit s 8192 (end - 8192)) }
{
    let mut space = Extents::new(alloc);
    let size = end - SLOTS_END;
    if size == 0 {
        return Ok(space);
    }
    match space.take(size, end)? {
        Some(at) => space.give(at, size),
        None => unreachable!(),
    }
    Ok(space)
}

// The cells of a device with no block.
pub(crate) fn no_blocks(alloc: Global, end: u64) -> Result<Vec<Cell>, NoMemory>
    requires { 8192 ≤ end }
    ensures none { IfOk result (λ v. (u : ℕ) → cell_at v.items u ≡ nothing) }
    ensures long { IfOk result (λ v. length v.items ≡ (end - 8192) / 4096) }
{
    let mut cells = Vec::new(alloc);
    cells.resize(((end - SLOTS_END) / UNIT) as usize, no_block())?;
    Ok(cells)
}

// How many named checkpoints a holder stands for.
fn names_of(holder: Holder) -> u32
    ensures { result ≡ name_count holder }
{
    match holder {
        Holder::Tree => 0,
        Holder::Last => 0,
        Holder::Named => 1,
    }
}

fn is_tree(holder: Holder) -> bool
    ensures { result ≡ lives holder }
{
    match holder {
        Holder::Tree => true,
        Holder::Last => false,
        Holder::Named => false,
    }
}

// The cell of a block, once an address of it was found.
fn join(cell: Cell, found: Found) -> Cell
    requires few { cell.names + 1 < 2 ^ 32 }
    requires most { found.addr.size ≤ 2 ^ 20 }
    requires idle { cell.is_running ≡ false }
    ensures { result ≡ joined cell found }
{
    Cell {
        units: (found.addr.size as u64 / UNIT) as u16,
        is_live: is_tree(found.holder) || cell.is_live,
        is_running: false,
        is_last: is_of_last(found.holder) || cell.is_last,
        names: cell.names + names_of(found.holder),
    }
}

// Whether an address is that of a block found before, which a named checkpoint shares.
fn is_shared(cell: Cell, found: Found) -> bool
    ensures yes { IsTrue result → MayShare cell found }
    ensures no { result ≡ false → HasSize cell found → AreBothLast cell found }
{
    let units = found.addr.size as u64 / UNIT;
    if cell.units as u64 != units {
        return false;
    }
    !(is_of_last(found.holder) && cell.is_last)
}

// Adds a block: in units that are free, or as one that was found before. `false` leaves all as it was.
pub(crate) fn admit(cells: &mut Vec<Cell>, space: &mut Extents, found: Found) -> bool
    requires units { AreUnits cells.old.items space.old }
    requires place { IsPlace found.addr }
    requires within { found.addr.offset + found.addr.size ≤ end_of space.old }
    requires few { (cell_of cells.old.items found).names + 1 < 2 ^ 32 }
    requires idle { (cell_of cells.old.items found).is_running ≡ false }
    ensures cells { IsTrue result → cells.new.items ≡ slice_set cells.old.items (unit_of found.addr.offset) (joined (cell_of cells.old.items found) found) }
    ensures agrees { IsTrue result → Fit space.old found.addr.offset found.addr.size
        ⊎ MayShare (cell_of cells.old.items found) found }
    ensures meets { result ≡ false → (b : ℕ) × (found.addr.offset ≤ b) × (b < found.addr.offset + found.addr.size) × (IsFree space.old b → ⊥) }
    ensures clash { result ≡ false → HasSize (cell_of cells.old.items found) found → AreBothLast (cell_of cells.old.items found) found }
    ensures units { AreUnits cells.new.items space.new }
    ensures end { end_of space.new ≡ end_of space.old }
{
    let unit = ((found.addr.offset - SLOTS_END) / UNIT) as usize;
    let cell = cells[unit];
    if space.take_at(found.addr.offset, found.addr.size as u64) {
        cells[unit] = join(cell, found);
        return true;
    }
    if is_shared(cell, found) {
        cells[unit] = join(cell, found);
        return true;
    }
    false
}
