// The blocks in use and the free units.
ghost use Rattle.std.specs.Prelude.{◌≡◌, ◌⊎◌, ◌↔◌, ◌+◌, ◌*◌, ◌^◌, ◌<◌, ◌≤◌, ℕ, [], IfOk, IfSome, IsTrue, OnOk, OnErr, None, length, map, true, vec_capacity};
ghost use Rattle.extent_list.specs.Space.{end_of, space_of, Taken, HasNoRoom};
ghost use Rattle.block_mgr.specs.Cells.{
  Holdings,
  AreUnits,
  IsPlaced,
  IsLive,
  cell_at,
  fresh,
  captured,
  Put,
  freed,
  MayBeNamed,
  named,
  unnamed,
  ended_cell,
};
ghost use Rattle.block_mgr.specs.Marks.{Listed};

use crate::cell::Cell;
use crate::marks::{drop_unmarked, end_marked, set_running};
use crate::put::{put, take_away};
use crate::settle::settle;
use extent_list::Extents;
use failure::NoMemory;
use limits::{SLOTS_END, UNIT};
use std::alloc::Global;
use std::marker::Model;

// The blocks in use on a device, and its free units. A block is in use while the live tree, the
// running checkpoint, the last completed one or a named one has it. Blocks go by the number of
// their first unit, counted from offset 8,192.
#[derive(Drop)]
pub(crate) struct Holders {
    pub(crate) cells: Vec<Cell>,
    pub(crate) space: Extents,
    // The units of the blocks that the running checkpoint or the last completed one has.
    pub(crate) marked: Vec<usize>,
}

impl Model for Holders {
    ghost Value = { Holdings };

    ghost view = { λ s. record { cells = s.cells.items; space = s.space } };

    ghost invariant = { λ s. AreUnits s.cells.items s.space × Listed s.cells.items s.marked.items (vec_capacity s.marked) };
}

impl Holders {
    // A device with no block. Takes no memory.
    pub(crate) fn new(alloc: Global) -> Self
        ensures cells { result.cells ≡ [] }
        ensures space { result.space ≡ space_of [] }
        ensures units { AreUnits result.cells result.space }
    {
        Holders {
            cells: Vec::new(alloc),
            space: Extents::new(alloc),
            marked: Vec::new(alloc),
        }
    }

    // The offset up to which the device is in use.
    pub(crate) fn end(&self) -> u64
        ensures end { result ≡ end_of self.now.space }
        ensures units { AreUnits self.now.cells self.now.space }
    {
        self.space.end()
    }

    // Takes the units of a new block of the live tree, where `Extents::take` finds them. `None`
    // comes exactly where there is no room. Takes memory only where the end moves on.
    pub(crate) fn place(&mut self, units: u16, capacity: u64) -> Result<Option<usize>, NoMemory>
        requires { 1 ≤ units }
        ensures taken { IfOk result (λ o. IfSome o (λ u. Taken self.old.space self.new.space (4096 * units) capacity (8192 + 4096 * u))) }
        ensures placed { IfOk result (λ o. IfSome o (λ u. Put self.old.cells self.new.cells (length self.new.space.units) u (fresh units))) }
        ensures full { IfOk result (λ o. o ≡ None → HasNoRoom self.old.space (4096 * units) capacity × (self.new ≡ self.old)) }
        ensures err { OnErr result (self.new ≡ self.old) }
        ensures units { AreUnits self.new.cells self.new.space }
        ensures before { AreUnits self.old.cells self.old.space }
    {
        reserve(&mut self.cells, &mut self.marked, units as usize)?;
        let at = match self.space.take(UNIT * units as u64, capacity)? {
            Some(at) => at,
            None => return Ok(None),
        };
        let unit = ((at - SLOTS_END) / UNIT) as usize;
        let total = ((self.space.end() - SLOTS_END) / UNIT) as usize;
        put(&mut self.cells, total, unit, fresh_cell(units));
        Ok(Some(unit))
    }

    // Undoes a `place` whose write failed: takes away the block, and sets the end back to where it
    // was. Takes no memory.
    pub(crate) fn withdraw(&mut self, unit: usize, units: u16, end: u64)
        requires some { 1 ≤ units }
        requires fresh { cell_at self.old.cells unit ≡ fresh units }
        requires end { (end ≡ end_of self.old.space) ⊎ ((end ≡ 8192 + 4096 * unit) × (8192 + 4096 * unit + 4096 * units ≡ end_of self.old.space)) }
        ensures { (before : Holdings) (capacity : ℕ) → AreUnits before.cells before.space → end ≡ end_of before.space
            → IsPlaced before self.old unit units capacity → self.new ≡ before }
    {
        self.space
            .put_back(SLOTS_END + UNIT * unit as u64, UNIT * units as u64, end);
        take_away(&mut self.cells, ((end - SLOTS_END) / UNIT) as usize, unit);
    }

    // Whether the live tree has a block of so many units here. `O(1)`.
    pub(crate) fn is_live(&self, unit: u64, units: u32) -> bool
        ensures { IsTrue result ↔ (((cell_at self.now.cells unit).units ≡ units) × IsLive self.now.cells unit) }
    {
        if unit >= self.cells.len() as u64 {
            return false;
        }
        let cell = self.cells[unit as usize];
        cell.is_live && cell.units as u32 == units
    }

    // Whether the last completed checkpoint has a block of so many units here. `O(1)`.
    pub(crate) fn is_last(&self, unit: u64, units: u32) -> bool
        ensures { IsTrue result ↔ (((cell_at self.now.cells unit).units ≡ units) × ((cell_at self.now.cells unit).is_last ≡ true)) }
    {
        if unit >= self.cells.len() as u64 {
            return false;
        }
        let cell = self.cells[unit as usize];
        cell.is_last && cell.units as u32 == units
    }

    // The running checkpoint captures a block of the live tree. `O(1)`.
    pub(crate) fn capture(&mut self, unit: usize)
        requires { IsLive self.old.cells unit }
        ensures cells { self.new.cells ≡ captured self.old.cells unit }
        ensures space { self.new.space ≡ self.old.space }
    {
        set_running(&mut self.cells, &mut self.marked, unit);
    }

    // The live tree lets go of a block. Takes no memory. `O(1)` in the number of blocks.
    pub(crate) fn free(&mut self, unit: usize)
        requires { IsLive self.old.cells unit }
        ensures cells { self.new.cells ≡ freed self.old.cells unit }
        ensures end { end_of self.new.space ≡ end_of self.old.space }
        ensures units { AreUnits self.new.cells self.new.space }
    {
        let cell = self.cells[unit];
        let next = Cell {
            is_live: false,
            ..cell
        };
        settle(&mut self.cells, &mut self.space, unit, next);
    }

    // Whether a named checkpoint may take a block of so many units here. `O(1)`.
    pub(crate) fn may_name(&self, unit: u64, units: u32) -> bool
        ensures { IsTrue result ↔ (((cell_at self.now.cells unit).units ≡ units) × MayBeNamed (cell_at self.now.cells unit)) }
    {
        if unit >= self.cells.len() as u64 {
            return false;
        }
        let cell = self.cells[unit as usize];
        cell.is_last && cell.names < u32::MAX && cell.units as u32 == units
    }

    // Whether a named checkpoint has a block of so many units here. `O(1)`.
    pub(crate) fn is_named(&self, unit: u64, units: u32) -> bool
        ensures { IsTrue result ↔ (((cell_at self.now.cells unit).units ≡ units) × (1 ≤ (cell_at self.now.cells unit).names)) }
    {
        if unit >= self.cells.len() as u64 {
            return false;
        }
        let cell = self.cells[unit as usize];
        1 <= cell.names && cell.units as u32 == units
    }

    // A named checkpoint takes a block of the last completed one. `O(1)`.
    pub(crate) fn name(&mut self, unit: usize)
        requires { MayBeNamed (cell_at self.old.cells unit) }
        ensures cells { self.new.cells ≡ named self.old.cells unit }
        ensures space { self.new.space ≡ self.old.space }
    {
        let cell = self.cells[unit];
        self.cells[unit] = Cell {
            names: cell.names + 1,
            ..cell
        };
    }

    // A named checkpoint lets go of a block. Takes no memory. `O(1)` in the number of blocks.
    pub(crate) fn unname(&mut self, unit: usize)
        requires { 1 ≤ (cell_at self.old.cells unit).names }
        ensures cells { self.new.cells ≡ unnamed self.old.cells unit }
        ensures end { end_of self.new.space ≡ end_of self.old.space }
        ensures units { AreUnits self.new.cells self.new.space }
    {
        let cell = self.cells[unit];
        let next = Cell {
            names: cell.names - 1,
            ..cell
        };
        settle(&mut self.cells, &mut self.space, unit, next);
    }

    // The running checkpoint ends: complete, so that it is the last completed one, or given up.
    // Takes no memory. `O(1)` for each block that it or the last completed one has.
    pub(crate) fn end_running(&mut self, is_complete: bool)
        ensures cells { self.new.cells ≡ map (ended_cell is_complete) self.old.cells }
        ensures end { end_of self.new.space ≡ end_of self.old.space }
        ensures units { AreUnits self.new.cells self.new.space }
    {
        end_marked(&mut self.cells, &mut self.space, &self.marked, is_complete);
        drop_unmarked(&self.cells, &mut self.marked);
    }
}

// Makes room for the cells of so many more units, and for the list of all.
fn reserve(cells: &mut Vec<Cell>, marked: &mut Vec<usize>, units: usize) -> Result<(), NoMemory>
    requires { length cells.old.items + units < 2 ^ 64 }
    ensures cells { cells.new.items ≡ cells.old.items }
    ensures marked { marked.new.items ≡ marked.old.items }
    ensures room { OnOk result (length cells.old.items + units ≤ vec_capacity cells.new) }
    ensures list_room { OnOk result (length cells.old.items + units ≤ vec_capacity marked.new) }
    ensures more { vec_capacity marked.old ≤ vec_capacity marked.new }
{
    cells.reserve(units)?;
    let total = cells.len() + units;
    marked.reserve(total.saturating_sub(marked.len()))?;
    Ok(())
}

// A block of the live tree alone.
fn fresh_cell(units: u16) -> Cell
    ensures { result ≡ fresh units }
{
    Cell {
        units,
        is_live: true,
        is_running: false,
        is_last: false,
        names: 0,
    }
}
