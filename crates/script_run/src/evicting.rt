// Lines that evict the leaf of a key, whole or by steps.
ghost use Rattle.std.specs.Prelude.{◌≡◌, ℕ, List, None, Some, Ok, true, IfSome, IsTrue, slice_index_or};
ghost use Rattle.failure.specs.Counts.{Rose};
ghost use Rattle.disk_model.specs.Crash.{SameDisk};
ghost use Rattle.wt_calls.specs.declared.call.Call.TheVariants.{System as SystemOf};
ghost use Rattle.wt_calls.specs.declared.system_call.SystemCall.TheVariants.{Evict as EvictOf};
ghost use Rattle.kv_model.specs.Decisions.{is_there};
ghost use Rattle.kv_model.specs.Machine.{Completed};
ghost use Rattle.engine_world.specs.Stands.{Stands};
ghost use Rattle.engine_world.specs.Worlds.{World};
ghost use Rattle.engine.specs.Turning.{evicting_by};
ghost use Rattle.engine.specs.declared.step.Actor.TheVariants as by;
ghost use Rattle.engine_store.specs.Calls.{StaysTold};
ghost use Rattle.engine_store.specs.Devices.{Installed};
ghost use Rattle.engine_store.specs.EvictSteps.{EvictsBeside};
ghost use Rattle.engine_store.specs.Held.{IsHeld};
ghost use Rattle.engine_store.specs.Opened.{IsReady};
ghost use Rattle.script_text.specs.declared.line.Actor.{Actor as AnActor};
ghost use Rattle.script_text.specs.declared.line.Line.TheVariants.{Whole as WholeLine, Start as StartLine, Step as StepLine, Finish as FinishLine};
ghost use Rattle.script_text.specs.declared.replies.Reply.TheVariants.{Answered};
ghost use Rattle.script_run.specs.Faults.{RepliesFault, TellsFaults};
ghost use Rattle.script_run.specs.Runs.{IsAt, IsCallLine, IsTold};
ghost use Rattle.script_run.specs.Scripts.{IsCheckpointCall, IsFree, IsLaterCall, IsUnbuilt, Script, StartsEvicting, actor_in, actor_of, caller, system_in, with_evicting};

use crate::kept::Kept;
use crate::one_line::formats_in;
use crate::told::{Told, more, refused, told_of};
use disk_model::Disk;
use engine::{EvictStage, Evicting, put_evicting, put_stage};
use engine_store::{EvictTurn, Store};
use item::Item;
use script_text::{Line, Reply, as_stored};
use std::alloc::Global;
use wt_calls::{Call, SystemCall};
use wt_code::{Answer, Invalid, Refusal};

// The whole call that evicts the leaf of a key, of an actor that has no eviction.
pub(crate) fn evict<D: Disk>(
    alloc: Global,
    store: &mut Store,
    disk: &mut D,
    kept: &Kept,
    call: Call,
) -> Told
    requires now { IsLaterCall call → ⊥ }
    requires evicts { IsUnbuilt call }
    requires other { IsCheckpointCall call → ⊥ }
    requires ready { IsReady store.old }
    ensures replies { IsTrue (D.honest disk.old) → (first_disk : D) → (s : Script) → IsAt D.Disk first_disk store.old disk.old s → s.kept ≡ kept.now → IsFree (caller call) s.kept
        → IsTold D.Disk first_disk (WholeLine call) s store.new disk.new s.kept result }
    ensures told { TellsFaults D.Disk store.old store.new disk.old disk.new (λ rose. RepliesFault (Ok result) → rose) }
    ensures ready { IsReady store.new }
    ensures disk { SameDisk D.Disk disk.old disk.new }
{
    let formats = formats_in(&store.engine, &call);
    match as_stored(alloc, call, formats) {
        Err(_) => refused(Refusal::NoMemory),
        Ok(call) => match eviction_in(call) {
            // It is one.
            None => refused(Refusal::NoMemory),
            Some(asked) => Told {
                reply: Reply::Answered(answer_to(
                    alloc,
                    store,
                    disk,
                    asked.number,
                    &asked.table,
                    &asked.key,
                    &kept.evicting,
                )),
                formats,
            },
        },
    }
}

// The eviction of the leaf of a key, by an actor of the system.
#[derive(Drop)]
struct Eviction {
    number: u32,
    table: Item,
    key: Item,
}

// The eviction that a call is, if it is one.
fn eviction_in(call: Call) -> Option<Eviction>
    ensures some { IfSome result (λ e. call ≡ SystemOf e.number (EvictOf e.table e.key)) }
    ensures none { result ≡ None → (number : ℕ) (table key : List ℕ) → call ≡ SystemOf number (EvictOf table key) → ⊥ }
{
    match call {
        Call::System(number, SystemCall::Evict { table, key }) => {
            Some(Eviction { number, table, key })
        }
        _ => None,
    }
}

// Its answer, of the key as the table stores it.
fn answer_to<D: Disk>(
    alloc: Global,
    store: &mut Store,
    disk: &mut D,
    number: u32,
    table: &Item,
    key: &Item,
    evicting: &[Option<Evicting>],
) -> Answer<Item>
    ensures evicts { IsTrue (D.honest disk.old) → (start : D) (w : World) (first : Completed) (made : List Installed) → IsHeld D.Disk start store.old disk.old w first made
        → EvictsBeside D.Disk start w first made store.old store.new disk.old disk.new evicting.now number table.now key.now None result }
    ensures fault { result ≡ Answer.Refused Refusal.DiskFault → Rose (D.faults disk.old) (D.faults disk.new) }
    ensures frames { store.new.frames ≡ store.old.frames }
    ensures running { store.new.running ≡ store.old.running }
    ensures ready { IsReady store.old → IsReady store.new }
    ensures told { StaysTold D.Disk store.old store.new disk.old disk.new }
    ensures disk { SameDisk D.Disk disk.old disk.new }
{
    match store.evict_beside(alloc, disk, number, table, key, evicting) {
        Ok(()) => Answer::Done,
        Err(refusal) => Answer::Refused(refusal),
    }
}

// ---- By steps.

// An eviction begins, of an actor that has none. The store and its disk are as they were.
pub(crate) fn start_evicting<D: Disk>(
    alloc: Global,
    store: &mut Store,
    disk: &mut D,
    kept: &mut Kept,
    call: Call,
) -> Told
    requires now { IsLaterCall call → ⊥ }
    requires evicts { IsUnbuilt call }
    requires other { IsCheckpointCall call → ⊥ }
    requires ready { IsReady store.old }
    ensures replies { IsTrue (D.honest disk.old) → (first_disk : D) → (s : Script) → IsAt D.Disk first_disk store.old disk.old s → s.kept ≡ kept.old → IsFree (caller call) s.kept
        → IsTold D.Disk first_disk (StartLine call) s store.new disk.new kept.new result }
    ensures told { TellsFaults D.Disk store.old store.new disk.old disk.new (λ rose. RepliesFault (Ok result) → rose) }
    ensures ready { IsReady store.new }
    ensures disk { SameDisk D.Disk disk.old disk.new }
{
    let formats = formats_in(&store.engine, &call);
    match as_stored(alloc, call, formats) {
        Err(_) => refused(Refusal::NoMemory),
        Ok(call) => match eviction_in(call) {
            // It is one.
            None => refused(Refusal::NoMemory),
            Some(asked) => Told {
                reply: begin_evicting(store, kept, asked),
                formats,
            },
        },
    }
}

// It begins, unless its actor has another call that is not finished.
fn begin_evicting(store: &Store, kept: &mut Kept, asked: Eviction) -> Reply
    ensures starts { (w : World) → Stands store.now.engine w → (s : Script) → s.world.systems ≡ w.systems → s.kept ≡ kept.old
        → (later : Script) × StartsEvicting (slice_index_or w.systems asked.number None) s asked.number asked.table asked.key result later × (later ≡ with_evicting s later.kept.evicting) × (later.kept ≡ kept.new) }
    ensures fault { result ≡ Answered (Answer.Refused Refusal.DiskFault) → ⊥ }
{
    if store.engine.has_started(asked.number) {
        return Reply::Answered(Answer::Refused(Refusal::Invalid(Invalid::InCall)));
    }
    let one = Evicting {
        table: asked.table,
        key: asked.key,
        stage: EvictStage::Find,
    };
    put_evicting(&mut kept.evicting, asked.number, Some(one));
    Reply::Started
}

// A line of an actor that has an eviction.
pub(crate) fn turn_evicting<D: Disk>(
    alloc: Global,
    store: &mut Store,
    disk: &mut D,
    kept: &mut Kept,
    number: u32,
    line: Line,
) -> Told
    requires now { IsCallLine line }
    requires ready { IsReady store.old }
    ensures replies { IsTrue (D.honest disk.old) → (first_disk : D) → (s : Script) → IsAt D.Disk first_disk store.old disk.old s → s.kept ≡ kept.old → system_in (actor_of line) ≡ Some number → is_there (evicting_by s.kept.evicting number) ≡ true
        → IsTold D.Disk first_disk line s store.new disk.new kept.new result }
    ensures told { TellsFaults D.Disk store.old store.new disk.old disk.new (λ rose. RepliesFault (Ok result) → rose) }
    ensures ready { IsReady store.new }
    ensures disk { SameDisk D.Disk disk.old disk.new }
{
    match line {
        Line::Step(_) => step_evicting(alloc, store, disk, kept, number),
        Line::Finish(_) => finish_evicting(alloc, store, disk, kept, number),
        _other => refused(Refusal::Invalid(Invalid::InCall)),
    }
}

// One step of it.
fn step_evicting<D: Disk>(
    alloc: Global,
    store: &mut Store,
    disk: &mut D,
    kept: &mut Kept,
    number: u32,
) -> Told
    requires ready { IsReady store.old }
    ensures replies { IsTrue (D.honest disk.old) → (first_disk : D) → (s : Script) → IsAt D.Disk first_disk store.old disk.old s → s.kept ≡ kept.old → (who : AnActor) → actor_in who ≡ by.System number → is_there (evicting_by s.kept.evicting number) ≡ true
        → IsTold D.Disk first_disk (StepLine who) s store.new disk.new kept.new result }
    ensures told { TellsFaults D.Disk store.old store.new disk.old disk.new (λ rose. RepliesFault (Ok result) → rose) }
    ensures ready { IsReady store.new }
    ensures disk { SameDisk D.Disk disk.old disk.new }
{
    match store.evict_step(alloc, disk, number, &kept.evicting) {
        EvictTurn::On(stage) => {
            put_stage(&mut kept.evicting, number, stage);
            more()
        }
        EvictTurn::Ended(result) => {
            put_evicting(&mut kept.evicting, number, None);
            told_of(result)
        }
    }
}

// All its steps that are left.
fn finish_evicting<D: Disk>(
    alloc: Global,
    store: &mut Store,
    disk: &mut D,
    kept: &mut Kept,
    number: u32,
) -> Told
    requires ready { IsReady store.old }
    ensures replies { IsTrue (D.honest disk.old) → (first_disk : D) → (s : Script) → IsAt D.Disk first_disk store.old disk.old s → s.kept ≡ kept.old → (who : AnActor) → actor_in who ≡ by.System number → is_there (evicting_by s.kept.evicting number) ≡ true
        → IsTold D.Disk first_disk (FinishLine who) s store.new disk.new kept.new result }
    ensures told { TellsFaults D.Disk store.old store.new disk.old disk.new (λ rose. RepliesFault (Ok result) → rose) }
    ensures ready { IsReady store.new }
    ensures disk { SameDisk D.Disk disk.old disk.new }
{
    let result = store.evict_rest(alloc, disk, number, &mut kept.evicting);
    put_evicting(&mut kept.evicting, number, None);
    told_of(result)
}
