// Lines of a checkpoint that runs beside other work.
ghost use Rattle.std.specs.Prelude.{◌≡◌, None, Ok, Some, IfSome, IsTrue, slice_set};
ghost use Rattle.disk_model.specs.Crash.{SameDisk};
ghost use Rattle.wt_calls.specs.declared.call.Call.TheVariants.{System as SystemOf};
ghost use Rattle.engine.specs.declared.step.Actor.TheVariants as by;
ghost use Rattle.engine_store.specs.Opened.{IsReady};
ghost use Rattle.engine_store.specs.Progress.{remains_answer};
ghost use Rattle.script_text.specs.declared.line.Line.TheVariants.{Start as StartLine, Whole as WholeLine};
ghost use Rattle.script_text.specs.declared.replies.Reply.TheVariants.{Answered};
ghost use Rattle.script_run.specs.Checkpointing.{asked_in, checkpointing_by, finds_leaf, turn_of};
ghost use Rattle.script_run.specs.Faults.{RepliesFault, TellsFaults};
ghost use Rattle.script_run.specs.Runs.{EndsSo, IsAt, IsCallLine, IsMadeSo, IsTold, TurnsSo};
ghost use Rattle.script_run.specs.Scripts.{IsCheckpointCall, IsFree, IsOfRunning, Script, actor_of, eviction_of, plain, system_in};

use crate::kept::Kept;
use crate::told::{PLAIN, Told, more, refused, started, told_of};
use disk_model::Disk;
use engine_store::{Remains, Store};
use item::Item;
use script_text::{Line, Reply};
use std::alloc::Global;
use wt_calls::{Call, SystemCall};
use wt_code::{Answer, Invalid, Refusal};

/// What is asked of a checkpoint that runs beside other work.
#[derive(Clone, Copy, PartialEq, Eq, Debug)]
pub enum CheckpointTurn {
    /// That it starts.
    Start,
    /// That it takes its next leaf.
    Step,
    /// That it is finished.
    Finish,
}

/// Where a call of a checkpoint stands that goes by steps.
#[derive(Clone, Copy, PartialEq, Eq, Debug)]
pub enum CheckpointStage {
    /// Nothing was made of it.
    Asked(CheckpointTurn),
    /// It asks for a step, and has found that a leaf is left.
    Found,
}

// A call of an actor of the system that asks it.
#[derive(Clone, Copy, PartialEq, Eq, Debug)]
pub(crate) struct CheckpointCall {
    pub(crate) number: u32,
    pub(crate) turn: CheckpointTurn,
}

// What a call asks of such a checkpoint, if it does.
pub(crate) fn checkpoint_call(call: &Call) -> Option<CheckpointCall>
    ensures some { IfSome result (λ asked. call.now ≡ SystemOf asked.number (asked_in asked.turn)) }
    ensures none { result ≡ None → IsCheckpointCall call.now → ⊥ }
{
    match call {
        Call::Session(_, _) => None,
        Call::System(number, call) => match turn_in(call) {
            None => None,
            Some(turn) => Some(CheckpointCall {
                number: *number,
                turn,
            }),
        },
    }
}

fn turn_in(call: &SystemCall) -> Option<CheckpointTurn>
    ensures some { IfSome result (λ turn. call.now ≡ asked_in turn) }
    ensures none { result ≡ None → IsOfRunning call.now → ⊥ }
{
    match call {
        SystemCall::StartCheckpoint => Some(CheckpointTurn::Start),
        SystemCall::StepCheckpoint => Some(CheckpointTurn::Step),
        SystemCall::FinishCheckpoint => Some(CheckpointTurn::Finish),
        _ => None,
    }
}

// The whole call, of an actor that has no other.
pub(crate) fn run_checkpoint<D: Disk>(
    alloc: Global,
    store: &mut Store,
    disk: &mut D,
    kept: &Kept,
    asked: CheckpointCall,
) -> Told
    requires ready { IsReady store.old }
    ensures replies { IsTrue (D.honest disk.old) → (first_disk : D) → (s : Script) → IsAt D.Disk first_disk store.old disk.old s → s.kept ≡ kept.now → IsFree (by.System asked.number) s.kept
        → IsTold D.Disk first_disk (WholeLine (SystemOf asked.number (asked_in asked.turn))) s store.new disk.new s.kept result }
    ensures told { TellsFaults D.Disk store.old store.new disk.old disk.new (λ rose. RepliesFault (Ok result) → rose) }
    ensures ready { IsReady store.new }
    ensures disk { SameDisk D.Disk disk.old disk.new }
{
    if store.engine.has_started(asked.number) {
        return refused(Refusal::Invalid(Invalid::InCall));
    }
    make(alloc, store, disk, asked.turn)
}

// What is asked is made.
fn make<D: Disk>(alloc: Global, store: &mut Store, disk: &mut D, turn: CheckpointTurn) -> Told
    requires ready { IsReady store.old }
    ensures runs { IsTrue (D.honest disk.old) → (first_disk : D) → (s : Script) → IsAt D.Disk first_disk store.old disk.old s → IsMadeSo D.Disk first_disk turn s store.new disk.new result }
    ensures told { TellsFaults D.Disk store.old store.new disk.old disk.new (λ rose. RepliesFault (Ok result) → rose) }
    ensures ready { IsReady store.new }
    ensures disk { SameDisk D.Disk disk.old disk.new }
{
    match turn {
        CheckpointTurn::Start => told_of(store.start_checkpoint::<D>(alloc)),
        CheckpointTurn::Step => told_remains(store.step_checkpoint::<D>(alloc)),
        CheckpointTurn::Finish => told_of(store.finish_checkpoint(alloc, disk)),
    }
}

// ---- By steps.

// A call begins, of an actor that has no other. The store and its disk are as they were.
pub(crate) fn start_call<D: Disk>(
    store: &mut Store,
    disk: &mut D,
    kept: &mut Kept,
    asked: CheckpointCall,
) -> Told
    requires ready { IsReady store.old }
    ensures replies { IsTrue (D.honest disk.old) → (first_disk : D) → (s : Script) → IsAt D.Disk first_disk store.old disk.old s → s.kept ≡ kept.old → IsFree (by.System asked.number) s.kept
        → IsTold D.Disk first_disk (StartLine (SystemOf asked.number (asked_in asked.turn))) s store.new disk.new kept.new result }
    ensures told { TellsFaults D.Disk store.old store.new disk.old disk.new (λ rose. RepliesFault (Ok result) → rose) }
    ensures ready { IsReady store.new }
    ensures disk { SameDisk D.Disk disk.old disk.new }
{
    if store.engine.has_started(asked.number) {
        return refused(Refusal::Invalid(Invalid::InCall));
    }
    let stage = CheckpointStage::Asked(asked.turn);
    put_call(&mut kept.checkpointing, asked.number, Some(stage));
    started()
}

// A line of an actor that has a call of a checkpoint at this stage.
pub(crate) fn turn_call<D: Disk>(
    alloc: Global,
    store: &mut Store,
    disk: &mut D,
    kept: &mut Kept,
    call: StagedCall,
    line: Line,
) -> Told
    requires now { IsCallLine line }
    requires ready { IsReady store.old }
    ensures replies { IsTrue (D.honest disk.old) → (first_disk : D) → (s : Script) → IsAt D.Disk first_disk store.old disk.old s → s.kept ≡ kept.old → eviction_of (actor_of line) s.kept.evicting ≡ None → system_in (actor_of line) ≡ Some call.number → checkpointing_by s.kept.checkpointing call.number ≡ Some call.stage
        → IsTold D.Disk first_disk line s store.new disk.new kept.new result }
    ensures told { TellsFaults D.Disk store.old store.new disk.old disk.new (λ rose. RepliesFault (Ok result) → rose) }
    ensures ready { IsReady store.new }
    ensures disk { SameDisk D.Disk disk.old disk.new }
{
    match line {
        Line::Step(_) => step_call(alloc, store, disk, kept, call),
        Line::Finish(_) => end_call(alloc, store, disk, kept, call),
        _other => refused(Refusal::Invalid(Invalid::InCall)),
    }
}

// One step of it.
fn step_call<D: Disk>(
    alloc: Global,
    store: &mut Store,
    disk: &mut D,
    kept: &mut Kept,
    call: StagedCall,
) -> Told
    requires ready { IsReady store.old }
    ensures turns { IsTrue (D.honest disk.old) → (first_disk : D) → (s : Script) → IsAt D.Disk first_disk store.old disk.old s → s.kept ≡ kept.old → TurnsSo D.Disk first_disk call.number call.stage s store.new disk.new kept.new result }
    ensures told { TellsFaults D.Disk store.old store.new disk.old disk.new (λ rose. RepliesFault (Ok result) → rose) }
    ensures ready { IsReady store.new }
    ensures disk { SameDisk D.Disk disk.old disk.new }
{
    if finds_leaf(call.stage, store.has_leaf_left::<D>()) {
        put_call(
            &mut kept.checkpointing,
            call.number,
            Some(CheckpointStage::Found),
        );
        more()
    } else {
        end_call(alloc, store, disk, kept, call)
    }
}

// All its steps that are left.
fn end_call<D: Disk>(
    alloc: Global,
    store: &mut Store,
    disk: &mut D,
    kept: &mut Kept,
    call: StagedCall,
) -> Told
    requires ready { IsReady store.old }
    ensures ends { IsTrue (D.honest disk.old) → (first_disk : D) → (s : Script) → IsAt D.Disk first_disk store.old disk.old s → s.kept ≡ kept.old → EndsSo D.Disk first_disk call.number call.stage s store.new disk.new kept.new result }
    ensures told { TellsFaults D.Disk store.old store.new disk.old disk.new (λ rose. RepliesFault (Ok result) → rose) }
    ensures ready { IsReady store.new }
    ensures disk { SameDisk D.Disk disk.old disk.new }
{
    put_call(&mut kept.checkpointing, call.number, None);
    make(alloc, store, disk, turn_of(call.stage))
}

// A call of a checkpoint that an actor of the system has, and where it stands.
#[derive(Clone, Copy, PartialEq, Eq, Debug)]
pub(crate) struct StagedCall {
    pub(crate) number: u32,
    pub(crate) stage: CheckpointStage,
}

// That of the actor of this number, where it has one.
pub(crate) fn staged_call(
    checkpointing: &[Option<CheckpointStage>],
    number: u32,
) -> Option<StagedCall>
    ensures some { IfSome result (λ call. (call.number ≡ number) × (checkpointing_by checkpointing.now number ≡ Some call.stage)) }
    ensures none { result ≡ None → checkpointing_by checkpointing.now number ≡ None }
{
    match stage_of(checkpointing, number) {
        None => None,
        Some(stage) => Some(StagedCall { number, stage }),
    }
}

fn stage_of(checkpointing: &[Option<CheckpointStage>], number: u32) -> Option<CheckpointStage>
    ensures { result ≡ checkpointing_by checkpointing.now number }
{
    match checkpointing.get(number as usize) {
        None => None,
        Some(stage) => *stage,
    }
}

fn put_call(
    checkpointing: &mut [Option<CheckpointStage>],
    number: u32,
    stage: Option<CheckpointStage>,
)
    ensures { checkpointing.new ≡ slice_set checkpointing.old number stage }
{
    let at = number as usize;
    if at < checkpointing.len() {
        checkpointing[at] = stage;
    }
}

// What a call at this stage asks.
fn turn_of(stage: CheckpointStage) -> CheckpointTurn
    ensures { result ≡ turn_of stage }
{
    match stage {
        CheckpointStage::Asked(turn) => turn,
        CheckpointStage::Found => CheckpointTurn::Step,
    }
}

// Whether its next step finds that a leaf is left, and takes none yet.
fn finds_leaf(stage: CheckpointStage, left: bool) -> bool
    ensures { result ≡ finds_leaf stage left }
{
    match stage {
        CheckpointStage::Asked(CheckpointTurn::Step) => left,
        CheckpointStage::Asked(_) | CheckpointStage::Found => false,
    }
}

// What is told of a step.
fn told_remains(taken: Result<Remains, Refusal>) -> Told
    ensures reply { result.reply ≡ Answered (remains_answer taken) }
    ensures formats { result.formats ≡ plain }
{
    match taken {
        Ok(Remains::Left) => told(Answer::Left),
        Ok(Remains::End) => told(Answer::End),
        Err(refusal) => refused(refusal),
    }
}

fn told(answer: Answer<Item>) -> Told
    ensures reply { result.reply ≡ Answered answer }
    ensures formats { result.formats ≡ plain }
{
    Told {
        reply: Reply::Answered(answer),
        formats: PLAIN,
    }
}
