// A cell for a block that was written or found.
ghost use Rattle.std.specs.Prelude.{◌≡◌, ◌<◌, ◌≤◌, ℕ, vec_capacity, length};
ghost use Rattle.block_mgr.specs.Cells.{Put, cell_at, nothing};

use crate::cell::Cell;

// No block.
pub(crate) fn no_block() -> Cell
    ensures { result ≡ nothing }
{
    Cell {
        units: 0,
        is_live: false,
        is_running: false,
        is_last: false,
        names: 0,
    }
}

// Puts a block at a unit, among so many units. There is memory for their cells.
pub(crate) fn put(cells: &mut Vec<Cell>, total: usize, unit: usize, next: Cell)
    requires more { length cells.old.items ≤ total }
    requires room { total ≤ vec_capacity cells.old }
    requires within { unit < total }
    ensures { Put cells.old.items cells.new.items total unit next }
{
    if cells.resize(total, no_block()).is_err() {
        return;
    }
    cells[unit] = next;
}

// Takes away the block at a unit, and leaves the cells of the first so many units. No block begins
// behind them but this one.
pub(crate) fn take_away(cells: &mut Vec<Cell>, total: usize, unit: usize)
    requires within { unit < length cells.old.items }
    requires fewer { total ≤ length cells.old.items }
    requires last { (v : ℕ) → total ≤ v → (v ≡ unit → ⊥) → cell_at cells.old.items v ≡ nothing }
    ensures { Put cells.old.items cells.new.items total unit nothing }
{
    cells[unit] = no_block();
    cells.truncate(total);
}
