// The chosen slot.
ghost use Rattle.std.specs.Prelude.{◌≡◌, ◌⊎◌, ◌≤◌, ◌<◌, ℕ, Option, length, IfOk, IfErr, IsTrue};
ghost use Rattle.failure.specs.Counts.{Rose};
ghost use Rattle.disk_model.specs.Crash.{Looked};
ghost use Rattle.turtle.specs.Slots.{Chooses, StandsAt, RefusesSlot, RefusesSlots, IsNewer, HaveOneSequence};

use crate::slot::slot_of;
use device_layout::Slot;
use disk_model::Disk;
use limits::{SLOT_A, SLOT_B, SLOTS_END};
use wt_code::Refusal;

/// The open slot with the greater sequence; None where none is open.
///
/// `Corrupt` comes exactly where the device is shorter than 8,192 bytes, at 0; where an open slot
/// is out of form, at that slot, the first of the two; where both are open with one sequence, at
/// slot B. Both its sums are 0. `DiskFault` comes only where the disk's count of faults rose.
/// Reads at most 72 bytes.
pub fn choose<D: Disk>(disk: &mut D) -> Result<Option<Slot>, Refusal>
    ensures chosen { IsTrue (D.honest disk.old) → IfOk result (λ slot. (8192 ≤ length (D.seen disk.old)) × Chooses (D.seen disk.old) slot) }
    ensures corrupt { IsTrue (D.honest disk.old) → IfErr result (RefusesSlots (D.seen disk.old)) }
    ensures fault { IfErr result (λ r. ((r ≡ Refusal.DiskFault) × Rose (D.faults disk.old) (D.faults disk.new)) ⊎ ((at : ℕ) × (r ≡ Refusal.Corrupt at 0 0))) }
    ensures looked { Looked D.Disk disk.old disk.new }
    ensures home { D.home disk.new ≡ D.home disk.old }
{
    let length = length_of(disk)?;
    if length < SLOTS_END {
        return Err(corrupt(SLOT_A));
    }
    let first = slot_at(disk, SLOT_A)?;
    let second = slot_at(disk, SLOT_B)?;
    newer(first, second)
}

fn length_of<D: Disk>(disk: &mut D) -> Result<u64, Refusal>
    ensures length { IsTrue (D.honest disk.old) → IfOk result (λ n. n ≡ length (D.seen disk.old)) }
    ensures fault { IfErr result (λ r. (r ≡ Refusal.DiskFault) × Rose (D.faults disk.old) (D.faults disk.new)) }
    ensures looked { Looked D.Disk disk.old disk.new }
    ensures home { D.home disk.new ≡ D.home disk.old }
{
    match disk.len() {
        Ok(length) => Ok(length),
        Err(_) => Err(Refusal::DiskFault),
    }
}

// The slot at a place; None where its gate is shut.
fn slot_at<D: Disk>(disk: &mut D, at: u64) -> Result<Option<Slot>, Refusal>
    requires place { at ≤ 4096 }
    requires long { IsTrue (D.honest disk.old) → 8192 ≤ length (D.seen disk.old) }
    ensures slot { IsTrue (D.honest disk.old) → IfOk result (λ slot. StandsAt (D.seen disk.old) at slot) }
    ensures err { IfErr result (RefusesSlot (Rose (D.faults disk.old) (D.faults disk.new)) (IsTrue (D.honest disk.old)) (D.seen disk.old) at) }
    ensures looked { Looked D.Disk disk.old disk.new }
    ensures home { D.home disk.new ≡ D.home disk.old }
{
    let mut text = [0; 36];
    match disk.read(at, &mut text) {
        Ok(()) => {}
        Err(_) => return Err(Refusal::DiskFault),
    }
    match slot_of(&text) {
        Ok(slot) => Ok(slot),
        Err(_) => Err(corrupt(at)),
    }
}

// Of two slots that are open, the one with the greater sequence.
fn newer(first: Option<Slot>, second: Option<Slot>) -> Result<Option<Slot>, Refusal>
    ensures slot { IfOk result (λ slot. IsNewer first second slot) }
    ensures one_sequence { IfErr result (λ r. HaveOneSequence first second × (r ≡ Refusal.Corrupt 4096 0 0)) }
{
    match (first, second) {
        (None, None) => Ok(None),
        (Some(a), None) => Ok(Some(a)),
        (None, Some(b)) => Ok(Some(b)),
        (Some(a), Some(b)) => {
            if b.sequence < a.sequence {
                Ok(Some(a))
            } else if a.sequence < b.sequence {
                Ok(Some(b))
            } else {
                Err(corrupt(SLOT_B))
            }
        }
    }
}

fn corrupt(offset: u64) -> Refusal
    ensures { result ≡ Refusal.Corrupt offset 0 0 }
{
    Refusal::Corrupt {
        offset,
        want: 0,
        found: 0,
    }
}
