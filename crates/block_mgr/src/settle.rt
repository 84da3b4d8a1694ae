// One cell changed, and its units given back where nobody has the block any more.
ghost use Rattle.std.specs.Prelude.{◌≡◌, ◌<◌, ◌≤◌, length, slice_set};
ghost use Rattle.extent_list.specs.Space.{end_of};
ghost use Rattle.block_mgr.specs.Cells.{AreUnits, cell_at, kept, is_used, ended_cell};

use crate::cell::Cell;
use crate::put::no_block;
use extent_list::Extents;
use limits::{SLOTS_END, UNIT};

// Whether anyone has the block.
fn has_use(cell: &Cell) -> bool
    ensures { result ≡ is_used cell.now }
{
    cell.is_live || cell.is_running || cell.is_last || 0 < cell.names
}

// Puts a cell in the place of one of the same block.
pub(crate) fn settle(cells: &mut Vec<Cell>, space: &mut Extents, u: usize, next: Cell)
    requires units { AreUnits cells.old.items space.old }
    requires within { u < length cells.old.items }
    requires same { next.units ≡ (cell_at cells.old.items u).units }
    requires some { 1 ≤ next.units }
    ensures cells { cells.new.items ≡ slice_set cells.old.items u (kept next) }
    ensures units { AreUnits cells.new.items space.new }
    ensures end { end_of space.new ≡ end_of space.old }
{
    if has_use(&next) {
        cells[u] = next;
        return;
    }
    cells[u] = no_block();
    space.give(SLOTS_END + UNIT * u as u64, UNIT * next.units as u64);
}

// A cell once the running checkpoint has ended, complete or not.
fn after_end(cell: Cell, is_complete: bool) -> Cell
    ensures ended { kept result ≡ ended_cell is_complete cell }
    ensures units { result.units ≡ cell.units }
{
    if is_complete {
        return Cell {
            is_running: false,
            is_last: cell.is_running,
            ..cell
        };
    }
    Cell {
        is_running: false,
        ..cell
    }
}

// What the end of the running checkpoint makes of the block at a unit.
pub(crate) fn settle_ended(cells: &mut Vec<Cell>, space: &mut Extents, u: usize, is_complete: bool)
    requires units { AreUnits cells.old.items space.old }
    requires some { 1 ≤ (cell_at cells.old.items u).units }
    requires within { u < length cells.old.items }
    ensures cells { cells.new.items ≡ slice_set cells.old.items u (ended_cell is_complete (cell_at cells.old.items u)) }
    ensures units { AreUnits cells.new.items space.new }
    ensures end { end_of space.new ≡ end_of space.old }
{
    let next = after_end(cells[u], is_complete);
    settle(cells, space, u, next);
}
