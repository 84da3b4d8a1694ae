// Lines that are asked of the device: a checkpoint, a close, and an opening anew.
ghost use Rattle.std.specs.Prelude.{◌≡◌, ◌||◌, ℕ, None, Some, slice_index_or, Ok, IfErr, IfSome, OnErr, OnOk, IsTrue};
ghost use Rattle.kv_model.specs.Decisions.{is_there};
ghost use Rattle.call_steps.specs.declared.stage.Target.{Target as ATarget};
ghost use Rattle.engine_world.specs.Stands.{Stands};
ghost use Rattle.engine_world.specs.Worlds.{World};
ghost use Rattle.engine.specs.Turning.{evicting_by, found_on};
ghost use Rattle.disk_model.specs.Crash.{SameDisk};
ghost use Rattle.engine_store.specs.Full.{count_of};
ghost use Rattle.engine_store.specs.Opened.{IsAtFault, IsReady};
ghost use Rattle.wt_code.specs.declared.refusals.Refusal.TheVariants.{Corrupt};
ghost use Rattle.script_text.specs.declared.line.Line.TheVariants.{Control as ControlLine};
ghost use Rattle.script_text.specs.declared.line.Control.TheVariants.{Checkpoint as CheckpointLine, Close as CloseLine, Crash as CrashLine, Frames as FramesLine};
ghost use Rattle.script_run.specs.Faults.{RepliesFault, TellsFaults};
ghost use Rattle.script_run.specs.Runs.{IsAt, IsTold, RepliedAs, frames_after};
ghost use Rattle.script_run.specs.Scripts.{Script, has_call_kept};

use crate::checkpointing::staged_call;
use crate::kept::Kept;
use crate::told::{Told, done, refused};
use disk_model::Disk;
use engine::{Evicting, first_found, is_evicting};
use engine_store::{Frames, Store};
use script_text::Control;
use std::alloc::Global;
use wt_code::{Busy, Invalid, Refusal};

// The error is why the device was not opened.
pub(crate) fn control<D: Disk>(
    alloc: Global,
    store: &mut Store,
    disk: &mut D,
    kept: &mut Kept,
    asked: Control,
) -> Result<Told, Refusal>
    requires ready { IsReady store.old }
    ensures replies { IsTrue (D.honest disk.old) → (first_disk : D) → (s : Script) → IsAt D.Disk first_disk store.old disk.old s → s.kept ≡ kept.old
        → RepliedAs D.Disk first_disk (ControlLine asked) s store.new disk.new kept.new result }
    ensures told { TellsFaults D.Disk store.old store.new disk.old disk.new (λ rose. RepliesFault result → rose) }
    ensures damage { IfErr result (λ r. (at want found : ℕ) → r ≡ Corrupt at want found → IsTrue (D.honest disk.old) → IsAtFault (D.seen disk.new) at want found) }
    ensures frames { count_of store.new.frames ≡ frames_after asked result (count_of store.old.frames) }
    ensures ready { IsReady store.new }
    ensures disk { SameDisk D.Disk disk.old disk.new }
{
    match asked {
        Control::Checkpoint => Ok(checkpoint(alloc, store, disk, kept)),
        Control::Close => close(alloc, store, disk, kept),
        Control::Crash => reopen_as_it_was(alloc, store, disk, kept),
        Control::Frames(frames) => reopen(alloc, store, disk, kept, frames),
    }
}

fn checkpoint<D: Disk>(alloc: Global, store: &mut Store, disk: &mut D, kept: &Kept) -> Told
    requires ready { IsReady store.old }
    ensures replies { IsTrue (D.honest disk.old) → (first_disk : D) → (s : Script) → IsAt D.Disk first_disk store.old disk.old s → s.kept ≡ kept.now → IsTold D.Disk first_disk (ControlLine CheckpointLine) s store.new disk.new s.kept result }
    ensures told { TellsFaults D.Disk store.old store.new disk.old disk.new (λ rose. RepliesFault (Ok result) → rose) }
    ensures frames { store.new.frames ≡ store.old.frames }
    ensures running { store.new.running ≡ store.old.running }
    ensures ready { IsReady store.new }
    ensures disk { SameDisk D.Disk disk.old disk.new }
{
    if is_busy(store, kept) {
        return refused(Refusal::Invalid(Invalid::InCall));
    }
    match store.checkpoint(alloc, disk) {
        Ok(()) => done(),
        Err(refusal) => refused(refusal),
    }
}

// Whether `sys` has a call that is not finished.
fn is_busy(store: &Store, kept: &Kept) -> bool
    ensures { (w : World) → Stands store.now.engine w → result ≡ (is_there (slice_index_or w.systems 0 None) || has_call_kept kept.now 0) }
{
    store.engine.has_started(0) || has_kept(kept, 0)
}

// Whether a call of the actor of the system of this number is kept.
fn has_kept(kept: &Kept, number: u32) -> bool
    ensures { result ≡ has_call_kept kept.now number }
{
    is_evicting(&kept.evicting, number) || staged_call(&kept.checkpointing, number).is_some()
}

// The frame of an eviction that has found its leaf, while the engine is up and no checkpoint runs.
fn busy_evicting(store: &Store, evicting: &[Option<Evicting>]) -> Option<u32>
    ensures some { IfSome result (λ frame. (store.now.engine.hub.fault ≡ None) × (store.now.running ≡ None) × ((number : ℕ) × (target : ATarget) × (found_on (evicting_by evicting.now number) ≡ Some target) × (target.frame ≡ frame))) }
    ensures none { result ≡ None → store.now.engine.hub.fault ≡ None → store.now.running ≡ None → (number : ℕ) → found_on (evicting_by evicting.now number) ≡ None }
{
    if is_barred(store) {
        return None;
    }
    first_found(evicting)
}

// Whether the engine is down or a checkpoint runs.
fn is_barred(store: &Store) -> bool
    ensures { result ≡ (is_there store.now.engine.hub.fault || is_there store.now.running) }
{
    store.engine.fault().is_some() || store.running.is_some()
}

// After a close the device is opened anew. None comes while a checkpoint runs, or an eviction has found
// its leaf.
fn close<D: Disk>(
    alloc: Global,
    store: &mut Store,
    disk: &mut D,
    kept: &mut Kept,
) -> Result<Told, Refusal>
    requires ready { IsReady store.old }
    ensures replies { IsTrue (D.honest disk.old) → (first_disk : D) → (s : Script) → IsAt D.Disk first_disk store.old disk.old s → s.kept ≡ kept.old
        → RepliedAs D.Disk first_disk (ControlLine CloseLine) s store.new disk.new kept.new result }
    ensures told { TellsFaults D.Disk store.old store.new disk.old disk.new (λ rose. RepliesFault result → rose) }
    ensures damage { IfErr result (λ r. (at want found : ℕ) → r ≡ Corrupt at want found → IsTrue (D.honest disk.old) → IsAtFault (D.seen disk.new) at want found) }
    ensures frames { count_of store.new.frames ≡ count_of store.old.frames }
    ensures ready { IsReady store.new }
    ensures disk { SameDisk D.Disk disk.old disk.new }
{
    if is_busy(store, kept) {
        return Ok(refused(Refusal::Invalid(Invalid::InCall)));
    }
    if let Some(frame) = busy_evicting(store, &kept.evicting) {
        return Ok(refused(Refusal::Busy(Busy::Evicting(frame))));
    }
    match store.close(alloc, disk) {
        Ok(()) => reopen_as_it_was(alloc, store, disk, kept),
        Err(refusal) => Ok(refused(refusal)),
    }
}

// Memory is forgotten, and the device opened anew with as many firm frames as there were, without a
// session.
fn reopen_as_it_was<D: Disk>(
    alloc: Global,
    store: &mut Store,
    disk: &mut D,
    kept: &mut Kept,
) -> Result<Told, Refusal>
    requires ready { IsReady store.old }
    ensures replies { IsTrue (D.honest disk.old) → (first_disk : D) → (s : Script) → IsAt D.Disk first_disk store.old disk.old s → RepliedAs D.Disk first_disk (ControlLine CrashLine) s store.new disk.new kept.new result }
    ensures frames { count_of store.new.frames ≡ count_of store.old.frames }
    ensures told { TellsFaults D.Disk store.old store.new disk.old disk.new (λ rose. RepliesFault result → rose) }
    ensures damage { IfErr result (λ r. (at want found : ℕ) → r ≡ Corrupt at want found → IsTrue (D.honest disk.old) → IsAtFault (D.seen disk.new) at want found) }
    ensures ready { IsReady store.new }
    ensures disk { SameDisk D.Disk disk.old disk.new }
{
    let frames = store.frames.count();
    reopen(alloc, store, disk, kept, frames)
}

// Memory is forgotten, and the device opened anew with so many firm frames, without a session.
fn reopen<D: Disk>(
    alloc: Global,
    store: &mut Store,
    disk: &mut D,
    kept: &mut Kept,
    frames: u32,
) -> Result<Told, Refusal>
    requires ready { IsReady store.old }
    ensures replies { IsTrue (D.honest disk.old) → (first_disk : D) → (s : Script) → IsAt D.Disk first_disk store.old disk.old s → RepliedAs D.Disk first_disk (ControlLine (FramesLine frames)) s store.new disk.new kept.new result }
    ensures frames { OnOk result (store.new.frames ≡ Frames.Firm frames) }
    ensures kept { OnErr result (store.new.frames ≡ store.old.frames) }
    ensures told { TellsFaults D.Disk store.old store.new disk.old disk.new (λ rose. RepliesFault result → rose) }
    ensures damage { IfErr result (λ r. (at want found : ℕ) → r ≡ Corrupt at want found → IsTrue (D.honest disk.old) → IsAtFault (D.seen disk.new) at want found) }
    ensures ready { IsReady store.new }
    ensures disk { SameDisk D.Disk disk.old disk.new }
{
    match store.reopen(alloc, disk, Frames::Firm(frames)) {
        Err(refusal) => Err(refusal),
        Ok(()) => {
            store.engine.actors();
            *kept = Kept::none();
            Ok(done())
        }
    }
}
