// The blocks in use, and the free units between them.
ghost use Rattle.std.specs.Prelude.{◌≡◌, ◌⊎◌, ◌↔◌, ◌+◌, ◌*◌, ◌<◌, ◌≤◌, ◌^◌, ◌%◌, ℕ, [], length, true, false, IfOk, IfErr, IfSome, OnOk, OnErr, IsTrue, None};
ghost use Rattle.failure.specs.declared.Fault.TheVariants.{Write, Sync};
ghost use Rattle.failure.specs.Counts.{Rose};
ghost use Rattle.wt_code.specs.declared.store_error.StoreError.TheVariants.{NoMemory as WantOfMemory, NoSpace, Read, Down};
ghost use Rattle.disk_model.specs.Disk.{put};
ghost use Rattle.disk_model.specs.Crash.{SameDisk, LeavesOnly, Each, Looked};
ghost use Rattle.extent_list.specs.Space.{space_of, end_of, IsSpot, Taken, HasNoRoom};
ghost use Rattle.le_codec.specs.Images.{block_of};
ghost use Rattle.block_mgr.specs.Cells.{AreUnits, cell_at, captured, freed, named, unnamed, done, dropped};
ghost use Rattle.block_mgr.specs.Blocks.{Books, HasLast, HasLive, HasName, MayName, unit_of};
ghost use Rattle.block_mgr.specs.declared.found.OpenError.TheVariants.{NoPlace, Clash};
ghost use Rattle.block_mgr.specs.Open.{AreStored, Fits, Clashes, AgreeUpTo, found_at, found_cell, last_end};
ghost use Rattle.block_mgr.specs.Reads.{IsBlock, IsSpoilt, IsRefused};
ghost use Rattle.block_mgr.specs.Writes.{FromBase, LeavesWrite, IsAddress, Added, block_len};

use crate::fill::fill;
use crate::found::{Found, OpenError};
use crate::holders::Holders;
use crate::open::{admit_all, end_within};
use crate::read::read_block;
use crate::store::store;
use block_sum::sum;
use device_layout::Addr;
use disk_model::Disk;
use failure::NoMemory;
use limits::{SLOTS_END, UNIT};
use std::alloc::Global;
use std::marker::Model;
use wt_code::{Refusal, StoreError};

/// The blocks in use on a device, and its free units. Contracts see it as `Books`. A block is in
/// use while the live tree, the running checkpoint, the last completed one or a named one has it.
/// The running checkpoint has what it captured, and nothing else.
#[derive(Drop)]
pub struct Blocks {
    pub(crate) holders: Holders,
    pub(crate) is_synced: bool,
    pub(crate) is_held: bool,
}

impl Model for Blocks {
    ghost Value = { Books };

    ghost view = { λ s.
        record {
          cells = s.holders.cells;
          space = s.holders.space;
          is_synced = s.is_synced;
          is_held = s.is_held;
        } };
}

impl Blocks {
    /// A device with no block, that was not synced yet. Takes no memory.
    pub fn new(alloc: Global) -> Self
        ensures cells { result.cells ≡ [] }
        ensures space { result.space ≡ space_of [] }
        ensures units { AreUnits result.cells result.space }
        ensures synced { result.is_synced ≡ false }
        ensures held { result.is_held ≡ false }
    {
        Blocks {
            holders: Holders::new(alloc),
            is_synced: false,
            is_held: false,
        }
    }

    /// The blocks of a device of this length that is opened: those found, each with its holders, and
    /// the units between them free. Two addresses of one place are one block, where at most one of
    /// them is the last completed checkpoint's; a read judges their sums.
    ///
    /// `NoPlace` comes exactly where no block can stand at an address, within the device: at the
    /// first such one. `Clash` comes exactly where two blocks meet that are not one: the second is
    /// the first address that does not agree with one before it. `O(n)` in the addresses, and in
    /// the units of the device up to the last block.
    pub fn open(alloc: Global, found: &[Found], len: u64) -> Result<Self, OpenError>
        requires few { length found.now < 2 ^ 32 }
        ensures cells { IfOk result (λ s. (u : ℕ) → cell_at s.cells u ≡ found_cell found.now u) }
        ensures end { IfOk result (λ s. end_of s.space ≡ last_end found.now) }
        ensures units { IfOk result (λ s. AreUnits s.cells s.space) }
        ensures synced { IfOk result (λ s. s.is_synced ≡ false) }
        ensures held { IfOk result (λ s. s.is_held ≡ false) }
        ensures stored { OnOk result (AreStored found.now len) }
        ensures no_place { (i : ℕ) → IfErr result (λ e. e ≡ NoPlace i → (i < length found.now) × (Fits (found_at found.now i) len → ⊥)) }
        ensures clash { (i j : ℕ) → IfErr result (λ e. e ≡ Clash i j → Clashes found.now i j) }
        ensures first { (i j : ℕ) → IfErr result (λ e. e ≡ Clash i j → AgreeUpTo found.now j) }
    {
        let end = match end_within(found, len) {
            Ok(end) => end,
            Err(error) => return Err(error),
        };
        match admit_all(alloc, found, end) {
            Ok(holders) => Ok(Blocks {
                holders,
                is_synced: false,
                is_held: false,
            }),
            Err(error) => Err(error),
        }
    }

    /// The offset up to which the device is in use. Each unit before it and behind the slots is
    /// free or in exactly one block, which someone has. `O(1)`.
    pub fn end(&self) -> u64
        ensures end { result ≡ end_of self.now.space }
        ensures units { AreUnits self.now.cells self.now.space }
    {
        self.holders.end()
    }

    /// Whether a checkpoint runs. `O(1)`.
    pub fn is_held(&self) -> bool
        ensures { result ≡ self.now.is_held }
    {
        self.is_held
    }

    /// Writes an image as a new block of the live tree, with zero bytes up to the next whole unit:
    /// as `write_block` writes the bytes of that block. The zeros are put behind the image where it
    /// stands: it is copied only where it has no room for them.
    pub fn write<D: Disk>(&mut self, disk: &mut D, image: Vec<u8>) -> Result<Addr, StoreError>
        requires some { 1 ≤ length image.items }
        requires most { length image.items ≤ 2 ^ 20 }
        requires ready { IsTrue (D.honest disk.old) → end_of self.old.space ≤ length (D.seen disk.old) }
        ensures written { IsTrue (D.honest disk.old) → IfOk result (λ a. D.seen disk.new ≡ put (D.seen disk.old) a.offset (block_of image.items)) }
        ensures images { IfOk result (λ a. Each (D.may_leave disk.new) (FromBase self.old.is_synced a.offset a.size (D.seen disk.old) (D.may_leave disk.old))) }
        ensures leaves { LeavesWrite D.Disk self.old (block_len image.items) disk.old disk.new }
        ensures address { IfOk result (IsAddress (block_of image.items)) }
        ensures taken { IfOk result (λ a. Taken self.old.space self.new.space a.size (D.capacity disk.old) a.offset) }
        ensures added { IfOk result (Added self.old self.new) }

        // Where the disk was touched, each unit was free or in exactly one block.
        ensures before { OnErr result ((disk.new ≡ disk.old) ⊎ AreUnits self.old.cells self.old.space) }
        ensures units { OnOk result (AreUnits self.old.cells self.old.space × AreUnits self.new.cells self.new.space) }
        ensures ready { IsTrue (D.honest disk.old) → OnOk result (end_of self.new.space ≤ length (D.seen disk.new)) }
        ensures synced { OnOk result (self.new.is_synced ≡ true) }
        ensures held { self.new.is_held ≡ self.old.is_held }
        ensures same { OnErr result (self.new ≡ self.old) }
        ensures no_memory { IfErr result (λ e. e ≡ WantOfMemory → disk.new ≡ disk.old) }
        ensures no_space { IfErr result (λ e. e ≡ NoSpace → (disk.new ≡ disk.old) × HasNoRoom self.old.space (block_len image.items) (D.capacity disk.old)) }
        ensures full { HasNoRoom self.old.space (block_len image.items) (D.capacity disk.old) → IfErr result (λ e. (e ≡ WantOfMemory) ⊎ (e ≡ NoSpace)) }
        ensures write_fault { (at : ℕ) → IfErr result (λ e. e ≡ Down (Write at) → IsSpot self.old.space (block_len image.items) (D.capacity disk.old) at) }
        ensures sync_fault { IfErr result (λ e. e ≡ Down Sync → (self.old.is_synced ≡ false) × LeavesOnly D.Disk disk.old disk.new (D.may_leave disk.old)) }
        ensures no_read { IfErr result (λ e. e ≡ Read → ⊥) }
        ensures rose { IfErr result (λ e. (e ≡ WantOfMemory) ⊎ ((e ≡ NoSpace) ⊎ Rose (D.faults disk.old) (D.faults disk.new))) }
        ensures disk { SameDisk D.Disk disk.old disk.new }
    {
        let bytes = match fill(image) {
            Ok(bytes) => bytes,
            Err(_) => return Err(StoreError::NoMemory),
        };
        self.write_block(disk, &bytes)
    }

    /// Writes the bytes of a block, a whole number of units, as a new block of the live tree: into
    /// free units, or else at the end. The first write since the opening syncs before it. Takes
    /// memory only where the end moves on, and copies nothing.
    ///
    /// `NoSpace` comes exactly where no free extent has room and the end would move past the
    /// capacity. After any error the blocks and the free units are as they were; after a fault any
    /// part of the block may stand on the disk, in units that are free or behind the end.
    /// `O(log n)` in the free extents, and `O(bytes)`.
    pub fn write_block<D: Disk>(&mut self, disk: &mut D, block: &[u8]) -> Result<Addr, StoreError>
        requires some { 1 ≤ length block.now }
        requires most { length block.now ≤ 2 ^ 20 }
        requires whole { length block.now % 4096 ≡ 0 }
        requires ready { IsTrue (D.honest disk.old) → end_of self.old.space ≤ length (D.seen disk.old) }
        ensures written { IsTrue (D.honest disk.old) → IfOk result (λ a. D.seen disk.new ≡ put (D.seen disk.old) a.offset block.now) }
        ensures images { IfOk result (λ a. Each (D.may_leave disk.new) (FromBase self.old.is_synced a.offset a.size (D.seen disk.old) (D.may_leave disk.old))) }

        // At any moment of the call, also of one that failed.
        ensures leaves { LeavesWrite D.Disk self.old (length block.now) disk.old disk.new }
        ensures address { IfOk result (IsAddress block.now) }
        ensures taken { IfOk result (λ a. Taken self.old.space self.new.space a.size (D.capacity disk.old) a.offset) }
        ensures added { IfOk result (Added self.old self.new) }
        ensures before { AreUnits self.old.cells self.old.space }
        ensures units { AreUnits self.new.cells self.new.space }
        ensures ready { IsTrue (D.honest disk.old) → OnOk result (end_of self.new.space ≤ length (D.seen disk.new)) }
        ensures synced { OnOk result (self.new.is_synced ≡ true) }
        ensures held { self.new.is_held ≡ self.old.is_held }
        ensures same { OnErr result (self.new ≡ self.old) }
        ensures no_memory { IfErr result (λ e. e ≡ WantOfMemory → disk.new ≡ disk.old) }
        ensures no_space { IfErr result (λ e. e ≡ NoSpace → (disk.new ≡ disk.old) × HasNoRoom self.old.space (length block.now) (D.capacity disk.old)) }
        ensures full { HasNoRoom self.old.space (length block.now) (D.capacity disk.old) → IfErr result (λ e. (e ≡ WantOfMemory) ⊎ (e ≡ NoSpace)) }
        ensures write_fault { (at : ℕ) → IfErr result (λ e. e ≡ Down (Write at) → IsSpot self.old.space (length block.now) (D.capacity disk.old) at) }
        ensures sync_fault { IfErr result (λ e. e ≡ Down Sync → (self.old.is_synced ≡ false) × LeavesOnly D.Disk disk.old disk.new (D.may_leave disk.old)) }
        ensures no_read { IfErr result (λ e. e ≡ Read → ⊥) }
        ensures rose { IfErr result (λ e. (e ≡ WantOfMemory) ⊎ ((e ≡ NoSpace) ⊎ Rose (D.faults disk.old) (D.faults disk.new))) }
        ensures disk { SameDisk D.Disk disk.old disk.new }
    {
        let units = (block.len() as u64 / UNIT) as u16;
        let end = self.holders.end();
        let capacity = disk.capacity();
        let unit = match self.holders.place(units, capacity) {
            Ok(Some(unit)) => unit,
            Ok(None) => return Err(StoreError::NoSpace),
            Err(_) => return Err(StoreError::NoMemory),
        };
        let offset = SLOTS_END + UNIT * unit as u64;
        match store(disk, self.is_synced, offset, block) {
            Ok(()) => {}
            Err(fault) => {
                self.holders.withdraw(unit, units, end);
                return Err(StoreError::Down(fault));
            }
        }
        self.is_synced = true;
        Ok(Addr {
            offset,
            size: block.len() as u32,
            sum: sum(block),
        })
    }

    /// The bytes of the block at an address, as `read_block` gives them.
    pub fn read<D: Disk>(&self, alloc: Global, disk: &mut D, addr: Addr) -> Result<Vec<u8>, Refusal>
        ensures bytes { IsTrue (D.honest disk.old) → IfOk result (λ v. IsBlock (D.seen disk.old) addr v.items) }
        ensures corrupt { IsTrue (D.honest disk.old) → (offset want found : ℕ) → IfErr result (IsSpoilt (D.seen disk.old) addr offset want found) }
        ensures err { IfErr result (IsRefused addr (D.faults disk.old) (D.faults disk.new)) }
        ensures looked { Looked D.Disk disk.old disk.new }
        ensures home { D.home disk.new ≡ D.home disk.old }
    {
        read_block(alloc, disk, addr)
    }

    /// Whether the live tree has a block of this place and size: what `capture` and `free` ask for.
    /// `O(1)`.
    pub fn is_live(&self, addr: Addr) -> bool
        ensures { IsTrue result ↔ HasLive self.now.cells addr.offset addr.size }
    {
        match span_of(addr) {
            Some(span) => self.holders.is_live(span.first, span.units),
            None => false,
        }
    }

    /// Whether the last completed checkpoint has a block of this place and size. `O(1)`.
    pub fn is_last(&self, addr: Addr) -> bool
        ensures { IsTrue result ↔ HasLast self.now.cells addr.offset addr.size }
    {
        match span_of(addr) {
            Some(span) => self.holders.is_last(span.first, span.units),
            None => false,
        }
    }

    /// A checkpoint begins to run. It has no block before it captures one. Takes no memory. `O(1)`.
    pub fn ckpt_hold(&mut self)
        requires idle { self.old.is_held ≡ false }
        ensures cells { self.new.cells ≡ self.old.cells }
        ensures space { self.new.space ≡ self.old.space }
        ensures synced { self.new.is_synced ≡ self.old.is_synced }
        ensures held { self.new.is_held ≡ true }
    {
        self.is_held = true;
    }

    /// The running checkpoint captures a block of the live tree: it has the block from now on, also
    /// after the live tree lets go of it. Takes no memory. `O(1)`.
    pub fn capture(&mut self, addr: Addr)
        requires live { HasLive self.old.cells addr.offset addr.size }
        requires held { self.old.is_held ≡ true }
        ensures cells { self.new.cells ≡ captured self.old.cells (unit_of addr.offset) }
        ensures space { self.new.space ≡ self.old.space }
        ensures synced { self.new.is_synced ≡ self.old.is_synced }
        ensures held { self.new.is_held ≡ self.old.is_held }
    {
        let unit = unit_at(addr.offset);
        self.holders.capture(unit);
    }

    /// The live tree lets go of a block. Its units are free at once where no checkpoint has it,
    /// also while one runs. Takes no memory. `O(1)` in the number of blocks.
    pub fn free(&mut self, addr: Addr)
        requires { HasLive self.old.cells addr.offset addr.size }
        ensures cells { self.new.cells ≡ freed self.old.cells (unit_of addr.offset) }
        ensures end { end_of self.new.space ≡ end_of self.old.space }
        ensures units { AreUnits self.new.cells self.new.space }
        ensures synced { self.new.is_synced ≡ self.old.is_synced }
        ensures held { self.new.is_held ≡ self.old.is_held }
    {
        let unit = unit_at(addr.offset);
        self.holders.free(unit);
    }

    /// A named checkpoint takes a block of the last completed one: it has the block from now on, also
    /// after later checkpoints are complete. `false` comes exactly where the last completed checkpoint
    /// has no block of this place and size, or 2^32 - 1 names have it; nothing changes then. Takes
    /// no memory. `O(1)`.
    pub fn name(&mut self, addr: Addr) -> bool
        ensures found { IsTrue result ↔ MayName self.old.cells addr.offset addr.size }
        ensures cells { IsTrue result → self.new.cells ≡ named self.old.cells (unit_of addr.offset) }
        ensures same { result ≡ false → self.new ≡ self.old }
        ensures space { self.new.space ≡ self.old.space }
        ensures synced { self.new.is_synced ≡ self.old.is_synced }
        ensures held { self.new.is_held ≡ self.old.is_held }
    {
        let Some(span) = span_of(addr) else {
            return false;
        };
        if !self.holders.may_name(span.first, span.units) {
            return false;
        }
        self.holders.name(span.first as usize);
        true
    }

    /// A named checkpoint lets go of a block. Its units are free at once where nobody has it any more.
    /// `false` comes exactly where no named checkpoint has a block of this place and size; nothing
    /// changes then. Takes no memory. `O(1)` in the number of blocks.
    pub fn unname(&mut self, addr: Addr) -> bool
        ensures found { IsTrue result ↔ HasName self.old.cells addr.offset addr.size }
        ensures cells { IsTrue result → self.new.cells ≡ unnamed self.old.cells (unit_of addr.offset) }
        ensures same { result ≡ false → self.new ≡ self.old }
        ensures end { end_of self.new.space ≡ end_of self.old.space }
        ensures units { IsTrue result → AreUnits self.new.cells self.new.space }
        ensures synced { self.new.is_synced ≡ self.old.is_synced }
        ensures held { self.new.is_held ≡ self.old.is_held }
    {
        let Some(span) = span_of(addr) else {
            return false;
        };
        if !self.holders.is_named(span.first, span.units) {
            return false;
        }
        self.holders.unname(span.first as usize);
        true
    }

    /// The running checkpoint is the last completed one now. The units of blocks that nobody has
    /// any more are free. Takes no memory. `O(1)` for each block that this checkpoint or the one before
    /// has, and in no others.
    pub fn ckpt_done(&mut self)
        requires held { self.old.is_held ≡ true }
        ensures cells { self.new.cells ≡ done self.old.cells }
        ensures end { end_of self.new.space ≡ end_of self.old.space }
        ensures units { AreUnits self.new.cells self.new.space }
        ensures synced { self.new.is_synced ≡ self.old.is_synced }
        ensures held { self.new.is_held ≡ false }
    {
        self.holders.end_running(true);
        self.is_held = false;
    }

    /// The running checkpoint is given up. The units of blocks that nobody has any more are free.
    /// Takes no memory. One pass over the units of the device.
    pub fn ckpt_drop(&mut self)
        requires held { self.old.is_held ≡ true }
        ensures cells { self.new.cells ≡ dropped self.old.cells }
        ensures end { end_of self.new.space ≡ end_of self.old.space }
        ensures units { AreUnits self.new.cells self.new.space }
        ensures synced { self.new.is_synced ≡ self.old.is_synced }
        ensures held { self.new.is_held ≡ false }
    {
        self.holders.end_running(false);
        self.is_held = false;
    }
}

// Units of a block: the first one, and how many.
#[derive(Clone, Copy)]
struct Span {
    first: u64,
    units: u32,
}

// The units of a block of this place and size.
fn span_of(addr: Addr) -> Option<Span>
    ensures some { IfSome result (λ s. (addr.offset ≡ 8192 + 4096 * s.first) × (addr.size ≡ 4096 * s.units)) }
    ensures none { result ≡ None → (u n : ℕ) → addr.offset ≡ 8192 + 4096 * u → addr.size ≡ 4096 * n → ⊥ }
{
    let size = addr.size as u64;
    if addr.offset < SLOTS_END || addr.offset % UNIT != 0 || size % UNIT != 0 {
        return None;
    }
    Some(Span {
        first: (addr.offset - SLOTS_END) / UNIT,
        units: (size / UNIT) as u32,
    })
}

// The unit at an offset behind the slots.
fn unit_at(offset: u64) -> usize
    requires { 8192 ≤ offset }
    ensures { result ≡ unit_of offset }
{
    ((offset - SLOTS_END) / UNIT) as usize
}
