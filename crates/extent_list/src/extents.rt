// The free units of a device.
ghost use Rattle.std.specs.Prelude.{
  ◌≡◌,
  ◌↔◌,
  ◌⊎◌,
  ◌+◌,
  ◌*◌,
  ◌^◌,
  ◌≤◌,
  ◌<◌,
  ℕ,
  IsTrue,
  IfOk,
  IfSome,
  OnOk,
  OnErr,
  None,
  List,
  [],
  false,
  length,
};
ghost use Rattle.extent_list.specs.Space.{
  Space,
  end_of,
  IsFree,
  IsHeld,
  IsWhole,
  IsSpot,
  Took,
  Taken,
  HasNoRoom,
  IsPlace,
  Gave,
  PutBack,
  Fits,
};
ghost use Rattle.extent_list.specs.Units.{Summed};

use crate::bounds::{GROUP, in_areas};
use crate::grow::grow;
use crate::marks::{mark, raise};
use crate::scan::{are_free, reach};
use crate::shrink::shrink;
use failure::NoMemory;
use std::alloc::Global;
use std::marker::Model;

// Bytes of a unit, and the offset of the first one.
const UNIT: u64 = 4096;

const START: u64 = 8192;

/// The free units of a device, and the end up to which it is in use. A unit is 4,096 bytes; units
/// are free from offset 8,192 on and before the end. Offsets and sizes are in bytes, and each is a
/// whole number of units.
#[derive(Drop)]
pub struct Extents {
    // For each unit whether it is free.
    units: Vec<bool>,
    // For each 64 units, each 4,096 and each 262,144, how long the free runs are at most that begin
    // there, counted up to 256.
    groups: Vec<u16>,
    regions: Vec<u16>,
    areas: Vec<u16>,
}

impl Model for Extents {
    ghost Value = { Space };

    ghost view = { λ s. record { units = s.units.items } };

    ghost invariant = { λ s. Summed s.units.items s.groups.items s.regions.items s.areas.items };
}

impl Extents {
    /// A device that is in use up to the slots. Takes no memory.
    pub fn new(alloc: Global) -> Self
        ensures { result.units ≡ [] }
    {
        Extents {
            units: Vec::new(alloc),
            groups: Vec::new(alloc),
            regions: Vec::new(alloc),
            areas: Vec::new(alloc),
        }
    }

    /// The offset up to which the device is in use. Each free byte lies before it, and at offset
    /// 8,192 or behind it.
    pub fn end(&self) -> u64
        ensures end { result ≡ end_of self.now }
        ensures behind { 8192 ≤ result }
        ensures whole { IsWhole result }
        ensures free { (b : ℕ) → IsFree self.now b → (8192 ≤ b) × (b < result) }
    {
        START + UNIT * self.units.len() as u64
    }

    /// Whether the byte at this offset is free. `O(1)`.
    pub fn holds(&self, at: u64) -> bool
        ensures { IsTrue result ↔ IsFree self.now at }
    {
        if at < START {
            return false;
        }
        let unit = (at - START) / UNIT;
        unit < self.units.len() as u64 && self.units[unit as usize]
    }

    /// Where `take` would take `size` bytes; `None` exactly where it would give `None`. Takes no
    /// memory.
    pub fn find(&mut self, size: u64, capacity: u64) -> Option<u64>
        requires some { 1 ≤ size }
        requires whole { IsWhole size }
        ensures spot { IfSome result (IsSpot self.old size capacity) }
        ensures place { IfSome result (λ at. (8192 ≤ at) × (at ≤ end_of self.old) × IsWhole at) }
        ensures full { result ≡ None → HasNoRoom self.old size capacity }
        ensures same { self.new ≡ self.old }
    {
        let count = (size / UNIT) as usize;
        let found = in_areas(
            &self.units,
            &mut self.groups,
            &mut self.regions,
            &mut self.areas,
            count,
        );
        if let Some(unit) = found {
            return Some(START + UNIT * unit as u64);
        }
        let end = START + UNIT * self.units.len() as u64;
        if has_end(end, size, capacity) {
            return Some(end);
        }
        None
    }

    /// Takes `size` bytes: of the lowest free extent that has as many, else at the end, which then
    /// moves on. `None` comes exactly where no extent has as many and the end would move past
    /// `capacity`. Takes memory only where the end moves on.
    pub fn take(&mut self, size: u64, capacity: u64) -> Result<Option<u64>, NoMemory>
        requires some { 1 ≤ size }
        requires whole { IsWhole size }
        ensures taken { IfOk result (λ o. IfSome o (Taken self.old self.new size capacity)) }
        ensures place { IfOk result (λ o. IfSome o (λ at. IsPlace self.new at size)) }
        ensures full { IfOk result (λ o. o ≡ None → HasNoRoom self.old size capacity × (self.new ≡ self.old)) }
        ensures err { OnErr result (self.new ≡ self.old) }
    {
        let count = (size / UNIT) as usize;
        let found = in_areas(
            &self.units,
            &mut self.groups,
            &mut self.regions,
            &mut self.areas,
            count,
        );
        if let Some(unit) = found {
            mark(&mut self.units, unit, unit + count, false);
            return Ok(Some(START + UNIT * unit as u64));
        }
        let end = START + UNIT * self.units.len() as u64;
        if !has_end(end, size, capacity) {
            return Ok(None);
        }
        grow(
            &mut self.units,
            &mut self.groups,
            &mut self.regions,
            &mut self.areas,
            count,
        )?;
        Ok(Some(end))
    }

    /// Takes `size` bytes from `at` on where all of them are free; else says false, and leaves all as
    /// it was. Takes no memory. `O(size)`.
    pub fn take_at(&mut self, at: u64, size: u64) -> bool
        requires some { 1 ≤ size }
        requires whole { IsWhole size }
        requires place { IsPlace self.old at size }
        ensures took { IsTrue result → Fits self.old at size × Took self.old self.new at size }
        ensures end { end_of self.new ≡ end_of self.old }
        ensures held { result ≡ false → (b : ℕ) × (at ≤ b) × (b < at + size) × (IsFree self.old b → ⊥) }
        ensures same { result ≡ false → self.new ≡ self.old }
    {
        let first = ((at - START) / UNIT) as usize;
        let behind = first + (size / UNIT) as usize;
        if !are_free(&self.units, first, behind) {
            return false;
        }
        mark(&mut self.units, first, behind, false);
        true
    }

    /// Makes `size` bytes from `at` on free. They lie before the end, and none of them is free.
    /// Takes no memory.
    pub fn give(&mut self, at: u64, size: u64)
        requires some { 1 ≤ size }
        requires whole { IsWhole size }
        requires place { IsPlace self.old at size }
        requires held { IsHeld self.old at size }
        ensures gave { Gave self.old self.new at size }
        ensures end { end_of self.new ≡ end_of self.old }
    {
        let unit = ((at - START) / UNIT) as usize;
        let stop = unit + (size / UNIT) as usize;
        mark(&mut self.units, unit, stop, true);
        let (first, length) = reach(&self.units, unit, stop);
        let length = length as u16;
        let group = first / GROUP;
        let behind = (stop - 1) / GROUP + 1;
        raise(&mut self.groups, group, behind, length);
        let region = group / GROUP;
        let behind = (behind - 1) / GROUP + 1;
        raise(&mut self.regions, region, behind, length);
        let area = region / GROUP;
        let behind = (behind - 1) / GROUP + 1;
        raise(&mut self.areas, area, behind, length);
    }

    /// Undoes a take: makes `size` bytes from `at` on free, and sets the end back to where it was.
    /// Where it moves, nothing lies behind it but these bytes. Takes no memory.
    pub fn put_back(&mut self, at: u64, size: u64, end: u64)
        requires some { 1 ≤ size }
        requires whole { IsWhole size }
        requires place { IsPlace self.old at size }
        requires held { IsHeld self.old at size }
        requires end { (end ≡ end_of self.old) ⊎ ((end ≡ at) × (at + size ≡ end_of self.old)) }
        ensures { PutBack self.old self.new at size end }
    {
        if end == self.end() {
            self.give(at, size);
            return;
        }
        let unit = ((at - START) / UNIT) as usize;
        shrink(
            &mut self.units,
            &mut self.groups,
            &mut self.regions,
            &mut self.areas,
            unit,
        );
    }
}

// Whether the end can move on by this many bytes.
fn has_end(end: u64, size: u64, capacity: u64) -> bool
    ensures { IsTrue result ↔ (end + size ≤ capacity) }
{
    end <= capacity && size <= capacity - end
}
