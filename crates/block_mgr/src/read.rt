// One block from a disk.
ghost use Rattle.std.specs.Prelude.{◌≡◌, ℕ, IfOk, IfErr, OnOk, IsTrue};
ghost use Rattle.disk_model.specs.Crash.{Looked};
ghost use Rattle.block_mgr.specs.Reads.{IsBlock, IsSpoilt, IsRefused};

use crate::place::is_place;
use block_sum::sum;
use device_layout::Addr;
use disk_model::Disk;
use std::alloc::Global;
use wt_code::Refusal;

/// The bytes of the block at an address. `Corrupt` comes exactly where the device does not have
/// the block: with both sums where they differ, and with the address's sum twice where no block
/// can stand there or the device ends before it. `O(bytes)`.
pub fn read_block<D: Disk>(alloc: Global, disk: &mut D, addr: Addr) -> Result<Vec<u8>, Refusal>
    ensures bytes { IsTrue (D.honest disk.old) → IfOk result (λ v. IsBlock (D.seen disk.old) addr v.items) }
    ensures corrupt { IsTrue (D.honest disk.old) → (offset want found : ℕ) → IfErr result (IsSpoilt (D.seen disk.old) addr offset want found) }
    ensures err { IfErr result (IsRefused addr (D.faults disk.old) (D.faults disk.new)) }
    ensures looked { Looked D.Disk disk.old disk.new }
    ensures home { D.home disk.new ≡ D.home disk.old }
{
    let mut bytes = Vec::new(alloc);
    match read_into(disk, addr, &mut bytes) {
        Ok(()) => Ok(bytes),
        Err(refusal) => Err(refusal),
    }
}

/// The bytes of the block at an address, as `read_block` gives them, in a buffer: it has no others
/// afterwards, and takes memory only where it has too little. After an error its bytes are any.
/// `O(bytes)`.
pub fn read_into<D: Disk>(disk: &mut D, addr: Addr, bytes: &mut Vec<u8>) -> Result<(), Refusal>
    ensures bytes { IsTrue (D.honest disk.old) → OnOk result (IsBlock (D.seen disk.old) addr bytes.new.items) }
    ensures corrupt { IsTrue (D.honest disk.old) → (offset want found : ℕ) → IfErr result (IsSpoilt (D.seen disk.old) addr offset want found) }
    ensures err { IfErr result (IsRefused addr (D.faults disk.old) (D.faults disk.new)) }
    ensures looked { Looked D.Disk disk.old disk.new }
    ensures home { D.home disk.new ≡ D.home disk.old }
{
    let spoilt = Refusal::Corrupt {
        offset: addr.offset,
        want: addr.sum,
        found: addr.sum,
    };
    if !is_place(addr) {
        return Err(spoilt);
    }
    bytes.resize(addr.size as usize, 0)?;
    let len = match disk.len() {
        Ok(len) => len,
        Err(_) => return Err(Refusal::DiskFault),
    };
    if len < addr.offset || len - addr.offset < addr.size as u64 {
        return Err(spoilt);
    }
    match disk.read(addr.offset, bytes) {
        Ok(()) => {}
        Err(_) => return Err(Refusal::DiskFault),
    }
    let found = sum(bytes);
    if found != addr.sum {
        return Err(Refusal::Corrupt {
            offset: addr.offset,
            want: addr.sum,
            found,
        });
    }
    Ok(())
}
