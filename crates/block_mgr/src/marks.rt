// The units of the blocks that a checkpoint has, the running or the last completed one, so that the
// end of a checkpoint walks no others.
ghost use Rattle.std.specs.Prelude.{
  ◌≡◌,
  ◌+◌,
  ◌++◌,
  ◌∷◌,
  ◌<◌,
  ◌≤◌,
  [],
  ℕ,
  true,
  false,
  length,
  map,
  nat_eq,
  slice_set,
  vec_capacity,
  IfOk,
};
ghost use Rattle.std.specs.List.{list_any, IsDistinct};
ghost use Rattle.extent_list.specs.Space.{end_of};
ghost use Rattle.block_mgr.specs.Cells.{AreUnits, cell_at, captured, ended_cell};
ghost use Rattle.block_mgr.specs.Marks.{Listed, ListedTo, is_marked, unit_in};

use crate::cell::Cell;
use crate::settle::settle_ended;
use extent_list::Extents;
use failure::NoMemory;
use std::alloc::Global;

// Whether the running checkpoint or the last completed one has the block at a unit.
fn has_mark(cells: &[Cell], unit: usize) -> bool
    ensures { result ≡ is_marked (cell_at cells.now unit) }
{
    if unit >= cells.len() {
        return false;
    }
    let cell = cells[unit];
    cell.is_running || cell.is_last
}

// Adds a unit, for which there is room.
fn add(marked: &mut Vec<usize>, unit: usize)
    requires room { length marked.old.items < vec_capacity marked.old }
    ensures items { marked.new.items ≡ marked.old.items ++ unit ∷ [] }
    ensures capacity { vec_capacity marked.old ≤ vec_capacity marked.new }
{
    let _ = marked.push(unit);
}

// The list of these cells.
pub(crate) fn list_marks(alloc: Global, cells: &[Cell]) -> Result<Vec<usize>, NoMemory>
    ensures { IfOk result (λ v. Listed cells.now v.items (vec_capacity v)) }
{
    let mut marked = Vec::with_capacity(alloc, cells.len())?;
    for u in 0..cells.len() {
        list_next(cells, &mut marked, u);
    }
    Ok(marked)
}

// Goes on with the list at the next unit.
fn list_next(cells: &[Cell], marked: &mut Vec<usize>, u: usize)
    requires to { ListedTo cells.now marked.old.items u }
    requires room { u < vec_capacity marked.old }
    ensures to { ListedTo cells.now marked.new.items (u + 1) }
    ensures capacity { vec_capacity marked.old ≤ vec_capacity marked.new }
{
    if !has_mark(cells, u) {
        return;
    }
    add(marked, u);
}

// The running checkpoint captures the block at a unit.
pub(crate) fn set_running(cells: &mut Vec<Cell>, marked: &mut Vec<usize>, unit: usize)
    requires within { unit < length cells.old.items }
    requires listed { Listed cells.old.items marked.old.items (vec_capacity marked.old) }
    ensures cells { cells.new.items ≡ captured cells.old.items unit }
    ensures listed { Listed cells.new.items marked.new.items (vec_capacity marked.new) }
{
    if has_mark(cells, unit) {
        run(cells, unit);
        return;
    }
    run(cells, unit);
    add(marked, unit);
}

fn run(cells: &mut Vec<Cell>, unit: usize)
    requires { unit < length cells.old.items }
    ensures { cells.new.items ≡ captured cells.old.items unit }
{
    let cell = cells[unit];
    cells[unit] = Cell {
        is_running: true,
        ..cell
    };
}

// Ends the running checkpoint at each unit of the list.
pub(crate) fn end_marked(
    cells: &mut Vec<Cell>,
    space: &mut Extents,
    marked: &[usize],
    is_complete: bool,
)
    requires units { AreUnits cells.old.items space.old }
    requires exact { (u : ℕ) → list_any (nat_eq u) marked.now ≡ is_marked (cell_at cells.old.items u) }
    requires distinct { IsDistinct nat_eq marked.now }
    ensures cells { cells.new.items ≡ map (ended_cell is_complete) cells.old.items }
    ensures units { AreUnits cells.new.items space.new }
    ensures end { end_of space.new ≡ end_of space.old }
{
    for i in 0..marked.len() {
        settle_ended(cells, space, marked[i], is_complete);
    }
}

// Leaves in the list what a checkpoint still has.
pub(crate) fn drop_unmarked(cells: &[Cell], marked: &mut Vec<usize>)
    requires all { (u : ℕ) → is_marked (cell_at cells.now u) ≡ true → list_any (nat_eq u) marked.old.items ≡ true }
    requires distinct { IsDistinct nat_eq marked.old.items }
    requires room { length cells.now ≤ vec_capacity marked.old }
    ensures { Listed cells.now marked.new.items (vec_capacity marked.new) }
{
    let mut kept = 0;
    for i in 0..marked.len() {
        kept = keep_mark(cells, marked, i, kept);
    }
    marked.truncate(kept);
}

// Moves a unit behind the first `kept` ones, where a checkpoint has its block, and says how many
// those are then.
fn keep_mark(cells: &[Cell], marked: &mut Vec<usize>, i: usize, kept: usize) -> usize
    requires within { i < length marked.old.items }
    requires order { kept ≤ i }
    ensures has { is_marked (cell_at cells.now (unit_in marked.old.items i)) ≡ true → result ≡ kept + 1 }
    ensures moved { is_marked (cell_at cells.now (unit_in marked.old.items i)) ≡ true → marked.new.items ≡ slice_set marked.old.items kept (unit_in marked.old.items i) }
    ensures none { is_marked (cell_at cells.now (unit_in marked.old.items i)) ≡ false → (result ≡ kept) × (marked.new.items ≡ marked.old.items) }
    ensures capacity { vec_capacity marked.new ≡ vec_capacity marked.old }
{
    let unit = marked[i];
    if !has_mark(cells, unit) {
        return kept;
    }
    marked[kept] = unit;
    kept + 1
}
