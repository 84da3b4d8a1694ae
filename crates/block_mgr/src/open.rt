// The blocks of a device that is opened.
ghost use Rattle.std.specs.Prelude.{◌≡◌, ◌⊎◌, ◌↔◌, ◌+◌, ◌<◌, ◌≤◌, ◌^◌, ℕ, false, length, IfOk, IfErr, OnOk, IsTrue, max};
ghost use Rattle.extent_list.specs.Space.{end_of, IsWhole};
ghost use Rattle.block_mgr.specs.declared.found.OpenError.TheVariants.{NoMemory as WantOfMemory, NoPlace};
ghost use Rattle.block_mgr.specs.Cells.{AreUnits, cell_at};
ghost use Rattle.block_mgr.specs.Open.{Fits, Agree, AgreeUpTo, IsFirstClash, found_at, found_cell, last_end};

use crate::Addr;
use crate::admit::{admit, all_free, no_blocks};
use crate::found::{Found, OpenError, is_of_last};
use crate::holders::Holders;
use crate::marks::list_marks;
use crate::place::{is_place, is_within};
use limits::SLOTS_END;
use std::alloc::Global;

// Where the last block ends; each can stand within a device of this length.
pub(crate) fn end_within(found: &[Found], len: u64) -> Result<u64, OpenError>
    ensures end { IfOk result (λ e. e ≡ last_end found.now) }
    ensures behind { IfOk result (λ e. 8192 ≤ e) }
    ensures whole { IfOk result (λ e. IsWhole e) }
    ensures before { IfOk result (λ e. (i : ℕ) → i < length found.now → (found_at found.now i).addr.offset + (found_at found.now i).addr.size ≤ e) }
    ensures fit { OnOk result ((i : ℕ) → i < length found.now → Fits (found_at found.now i) len) }
    ensures err { IfErr result (λ e. (i : ℕ) × (e ≡ NoPlace i) × (i < length found.now) × (Fits (found_at found.now i) len → ⊥)) }
{
    let mut end: u64 = SLOTS_END;
    for i in 0..found.len() {
        let addr = found[i].addr;
        if !is_place(addr) || !is_within(addr, len) {
            return Err(OpenError::NoPlace(i));
        }
        end = later_end(end, addr, len);
    }
    Ok(end)
}

// The greater one of an offset and the end of a block.
fn later_end(end: u64, addr: Addr, len: u64) -> u64
    requires { addr.offset + addr.size ≤ len }
    ensures { result ≡ max end (addr.offset + addr.size) }
{
    let room = len - addr.offset;
    prove!(addr.size as u64 <= room);
    end.max(addr.offset + addr.size as u64)
}

// The blocks found, each in its units.
pub(crate) fn admit_all(alloc: Global, found: &[Found], end: u64) -> Result<Holders, OpenError>
    requires few { length found.now < 2 ^ 32 }
    requires behind { 8192 ≤ end }
    requires whole { IsWhole end }
    requires fit { (i : ℕ) → i < length found.now → Fits (found_at found.now i) end }
    ensures cells { IfOk result (λ h. (u : ℕ) → cell_at h.cells u ≡ found_cell found.now u) }
    ensures end { IfOk result (λ h. end_of h.space ≡ end) }
    ensures units { IfOk result (λ h. AreUnits h.cells h.space) }
    ensures agree { OnOk result (AgreeUpTo found.now (length found.now)) }
    ensures err { IfErr result (λ e. (e ≡ WantOfMemory) ⊎ IsFirstClash found.now e) }
{
    let mut cells = match no_blocks(alloc, end) {
        Ok(cells) => cells,
        Err(_) => return Err(OpenError::NoMemory),
    };
    let mut space = match all_free(alloc, end) {
        Ok(space) => space,
        Err(_) => return Err(OpenError::NoMemory),
    };
    for i in 0..found.len() {
        if !admit(&mut cells, &mut space, found[i]) {
            return Err(OpenError::Clash(first_clash(found, i), i));
        }
    }
    match list_marks(alloc, &cells) {
        Ok(marked) => Ok(Holders {
            cells,
            space,
            marked,
        }),
        Err(_) => Err(OpenError::NoMemory),
    }
}

// The first address that does not agree with the one of this index. There is one before it.
fn first_clash(found: &[Found], i: usize) -> usize
    requires within { i < length found.now }
    requires one { (j : ℕ) × (j < i) × (Agree (found_at found.now j) (found_at found.now i) → ⊥) }
    ensures before { result < i }
    ensures clash { Agree (found_at found.now result) (found_at found.now i) → ⊥ }
{
    for j in 0..i {
        if !agree(found[j], found[i]) {
            return j;
        }
    }
    unreachable!()
}

// Whether both can be in use.
fn agree(x: Found, y: Found) -> bool
    ensures yes { IsTrue result → Agree x y }
    ensures no { result ≡ false → Agree x y → ⊥ }
{
    if ends_before(x.addr, y.addr) || ends_before(y.addr, x.addr) {
        return true;
    }
    let is_one = x.addr.offset == y.addr.offset && x.addr.size == y.addr.size;
    is_one && !(is_of_last(x.holder) && is_of_last(y.holder))
}

fn ends_before(x: Addr, y: Addr) -> bool
    ensures { IsTrue result ↔ (x.offset + x.size ≤ y.offset) }
{
    x.offset <= y.offset && x.size as u64 <= y.offset - x.offset
}
