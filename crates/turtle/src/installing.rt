// The next slot, in the place that is not chosen.
ghost use Rattle.std.specs.Prelude.{◌≡◌, ◌⊎◌, ◌↔◌, ◌+◌, ◌≤◌, ◌<◌, [], ◌∷◌, List, ℕ, Option, length, IfOk, IfErr, OnOk, IsTrue, false};
ghost use Rattle.failure.specs.Counts.{HasCause};
ghost use Rattle.disk_model.specs.Disk.{put, Only};
ghost use Rattle.disk_model.specs.Crash.{SameDisk, LeavesOnly, Each, Looked};
ghost use Rattle.disk_model.specs.Steps.{OneWrite};
ghost use Rattle.wt_code.specs.StoreErrors.{IsOfDisk, OnRead, IfDown};
ghost use Rattle.turtle.specs.Slots.{IsOpen, WhereReady, LeftEither, Installed, StandsInPlace, MaybeWrite, FailsAt, Stopped, sequence_at};
ghost use Rattle.turtle.specs.Targets.{IsFree, IsShutNow};

use crate::place::{OPEN, SHUT};
use crate::slot::body_of;
use device_layout::Slot;
use disk_model::Disk;
use le_codec::number_8;
use limits::{SLOT_A, SLOT_B};
use wt_code::StoreError;

// The place for the next slot, and whether its gate stands open.
#[derive(Clone, Copy)]
struct Target {
    at: u64, // bytes from the device's beginning
    is_open: bool,
}

// What tells two slots apart: whether the gate stands open, and the sequence behind it.
#[derive(Clone, Copy)]
struct Head {
    is_open: bool,
    sequence: u64,
}

/// Installs a slot in the place that is not chosen: slot A where none is. There an open gate is
/// shut and synced first; then the slot's body is written and synced, then its gate is opened and
/// synced. Reads 72 bytes, and writes 37 at most. Takes no memory.
///
/// `Read` comes before anything is written, and leaves the slots as they were. `Down` names the
/// write or the sync that failed: a crash then leaves the old slot or, where the gate was being
/// opened, the new one.
///
/// It is for a device each of whose images has the slots that a read gives, and for the slot with
/// the sequence after the chosen one's, 1 where none is chosen (`WhereReady`).
pub fn install<D: Disk>(disk: &mut D, slot: Slot) -> Result<(), StoreError>
    requires { IsTrue (D.honest disk.old) → 8192 ≤ length (D.seen disk.old) }
    ensures ok { WhereReady D.Disk disk.old slot (λ chosen. OnOk result (Installed (D.seen disk.old) slot (D.seen disk.new) (D.may_leave disk.new))) }
    ensures place { WhereReady D.Disk disk.old slot (λ chosen. OnOk result (StandsInPlace (D.seen disk.old) chosen slot (D.seen disk.new))) }

    // A crash at any moment leaves the old slot or the new one, and all behind the slots as it was.
    ensures any_moment { WhereReady D.Disk disk.old slot (λ chosen. LeavesOnly D.Disk disk.old disk.new (LeftEither (D.may_leave disk.old) chosen slot)) }
    ensures read { IfErr result (λ e. OnRead e (Looked D.Disk disk.old disk.new)) }
    ensures down { WhereReady D.Disk disk.old slot (λ chosen. IfErr result (λ e. IfDown e (Stopped D.Disk chosen slot disk.old disk.new))) }
    ensures no_other { IfErr result IsOfDisk }
    ensures cause { HasCause (D.faults disk.old) (D.faults disk.new) result }
    ensures disk { SameDisk D.Disk disk.old disk.new }
{
    let body = body_of(slot);
    let target = free_place(disk)?;
    shut(disk, target)?;
    write_synced(disk, target.at + 1, &body)?;
    write_synced(disk, target.at, &[OPEN])
}

// The place that is not chosen.
fn free_place<D: Disk>(disk: &mut D) -> Result<Target, StoreError>
    requires { IsTrue (D.honest disk.old) → 8192 ≤ length (D.seen disk.old) }
    ensures looked { Looked D.Disk disk.old disk.new }
    ensures home { D.home disk.new ≡ D.home disk.old }
    ensures place { IfOk result (λ t. (t.at ≡ 0) ⊎ (t.at ≡ 4096)) }
    ensures ok { IsTrue (D.honest disk.old) → (chosen : Option Slot) → IfOk result (IsFree (D.seen disk.old) chosen) }
    ensures err { IfErr result (λ e. e ≡ StoreError.Read) }
    ensures cause { HasCause (D.faults disk.old) (D.faults disk.new) result }
{
    let first = head_at(disk, SLOT_A)?;
    let second = head_at(disk, SLOT_B)?;
    if !first.is_open {
        return Ok(Target {
            at: SLOT_A,
            is_open: false,
        });
    }
    if !second.is_open {
        return Ok(Target {
            at: SLOT_B,
            is_open: false,
        });
    }
    let one = first.sequence;
    let two = second.sequence;
    Ok(if two < one {
        Target {
            at: SLOT_B,
            is_open: true,
        }
    } else {
        Target {
            at: SLOT_A,
            is_open: true,
        }
    })
}

// The gate and the sequence at a place.
fn head_at<D: Disk>(disk: &mut D, at: u64) -> Result<Head, StoreError>
    requires place { at ≤ 4096 }
    requires long { IsTrue (D.honest disk.old) → 8192 ≤ length (D.seen disk.old) }
    ensures looked { Looked D.Disk disk.old disk.new }
    ensures home { D.home disk.new ≡ D.home disk.old }
    ensures gate { IsTrue (D.honest disk.old) → IfOk result (λ head. IsTrue head.is_open ↔ IsOpen (D.seen disk.old) at) }
    ensures sequence { IsTrue (D.honest disk.old) → IfOk result (λ head. head.sequence ≡ sequence_at (D.seen disk.old) at) }
    ensures err { IfErr result (λ e. e ≡ StoreError.Read) }
    ensures cause { HasCause (D.faults disk.old) (D.faults disk.new) result }
{
    let mut text = [0; 36];
    match disk.read(at, &mut text) {
        Ok(()) => {}
        Err(_) => return Err(StoreError::Read),
    }
    let is_open = text[0] == OPEN;
    let sequence = number_8(&text[12..20]);
    Ok(Head { is_open, sequence })
}

// Shuts a gate that stands open.
fn shut<D: Disk>(disk: &mut D, target: Target) -> Result<(), StoreError>
    requires { IsTrue (D.honest disk.old) → target.at ≤ length (D.seen disk.old) }
    ensures written { IsTrue (D.honest disk.old) → OnOk result (IsShutNow (D.seen disk.old) target (D.seen disk.new) (D.may_leave disk.new)) }
    ensures leaves { LeavesOnly D.Disk disk.old disk.new (MaybeWrite target.is_open target.at 1 (D.may_leave disk.old)) }
    ensures same_images { target.is_open ≡ false → (c : List ℕ) → D.may_leave disk.new c → D.may_leave disk.old c }
    ensures err { IfErr result (λ e. (fault : _) × (e ≡ StoreError.Down fault) × FailsAt target.at fault) }
    ensures cause { HasCause (D.faults disk.old) (D.faults disk.new) result }
    ensures disk { SameDisk D.Disk disk.old disk.new }
{
    if target.is_open {
        write_synced(disk, target.at, &[SHUT])
    } else {
        Ok(())
    }
}

// Writes and syncs.
fn write_synced<D: Disk>(disk: &mut D, at: u64, bytes: &[u8]) -> Result<(), StoreError>
    requires { IsTrue (D.honest disk.old) → at ≤ length (D.seen disk.old) }
    ensures written { IsTrue (D.honest disk.old) → OnOk result (D.seen disk.new ≡ put (D.seen disk.old) at bytes.now) }
    ensures durable { OnOk result (Only (D.seen disk.new) (D.may_leave disk.new)) }
    ensures leaves { LeavesOnly D.Disk disk.old disk.new (OneWrite at (length bytes.now) (D.may_leave disk.old)) }
    ensures images { Each (D.may_leave disk.new) (OneWrite at (length bytes.now) (D.may_leave disk.old)) }
    ensures err { IfErr result (λ e. (fault : _) × (e ≡ StoreError.Down fault) × FailsAt at fault) }
    ensures cause { HasCause (D.faults disk.old) (D.faults disk.new) result }
    ensures disk { SameDisk D.Disk disk.old disk.new }
{
    match disk_model::write_synced(disk, at, bytes) {
        Ok(()) => Ok(()),
        Err(fault) => Err(StoreError::Down(fault)),
    }
}
