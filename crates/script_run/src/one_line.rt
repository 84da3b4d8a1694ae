// One line of a script: what it asks for is made, and the line that tells its reply.
ghost use Rattle.std.specs.Prelude.{◌≡◌, ◌⊎◌, ◌↔◌, ◌<◌, ◌++◌, ◌∷◌, [], ℕ, List, None, Some, Ok, true, length, IsTrue, IfOk, IfErr, IfSome, OnErr};
ghost use Rattle.disk_model.specs.Crash.{SameDisk};
ghost use Rattle.engine_store.specs.Opened.{IsAtFault, IsReady};
ghost use Rattle.wt_code.specs.declared.refusals.Refusal.TheVariants.{Corrupt};
ghost use Rattle.script_text.specs.declared.line.Line.TheVariants.{Whole as WholeLine, Start as StartLine, Step as StepLine, Finish as FinishLine};
ghost use Rattle.script_text.specs.Replies.{line_of_reply};
ghost use Rattle.engine_world.specs.Stands.{Stands};
ghost use Rattle.engine_world.specs.Worlds.{World};
ghost use Rattle.kv_model.specs.Decisions.{is_there};
ghost use Rattle.engine.specs.Runs.{IsBuilt};
ghost use Rattle.engine.specs.Turning.{evicting_by};
ghost use Rattle.engine_store.specs.Calls.{CallKeeps, MayAnswerSo, StaysTold, TellsSo};
ghost use Rattle.script_run.specs.Checkpointing.{checkpointing_by, checkpointing_of};
ghost use Rattle.script_run.specs.Faults.{RepliesFault, TellsFaults};
ghost use Rattle.script_run.specs.Runs.{IsAnswerTo, IsAnswered, IsAt, IsBegun, IsCallLine, IsEnded, IsGone, IsKnown, IsNoSession, IsOfActor, IsOfKnown, IsReplied, IsTaken, IsThere, IsTold, LineMade, OpensAs, PrintsFault, RepliedAs, RepliesSo, Standing, StandingIn, StandsAt, StopsDamaged};
ghost use Rattle.script_run.specs.Scripts.{Script, IsLater, IsUnbuilt, IsFree, IsLaterCall, IsMade, actor_in, actor_of, caller, eviction_of, formats_in, in_script, kept_after, kept_formats, kept_more, listed, refusals_in, system_in};

use crate::checkpointing::{
    CheckpointStage, StagedCall, checkpoint_call, run_checkpoint, staged_call, start_call,
    turn_call,
};
use crate::control::control;
use crate::evicting::{evict, start_evicting, turn_evicting};
use crate::kept::Kept;
use crate::told::{PLAIN, Told, refused};
use disk_model::Disk;
use engine::{Actor, Evicting, Local, Step, is_evicting};
use engine_store::Store;
use failure::NoMemory;
use item::{Formats, Item};
use script_text::{
    Actor as LineActor, Line, Reply, as_stored, line_of_answer, parse_line, table_of_items,
};
use std::alloc::Global;
use wt_calls::{Call, SystemCall};
use wt_code::{Answer, Refusal};

/// What is printed of a line.
#[derive(Drop)]
pub struct Printed {
    /// The line that tells its reply, with its newline.
    pub line: Vec<u8>,
    /// The refusal that the reply tells, if it does.
    pub refusal: Option<Refusal>,
}

/// Why nothing is printed of a line, which ends its script.
#[derive(Clone, Copy, PartialEq, Eq, Debug)]
pub enum Stop {
    /// The bytes are no line, or one of a later stage. Nothing was made of it.
    NoLine,
    /// Memory is wanted. What the line asks for may be done.
    NoMemory,
    /// The device was not opened anew.
    Opening(Refusal),
}

/// Runs a line, and gives what is printed of it.
/// `kept` has what is kept of what lines before started: at first nothing (`Kept::none`).
pub fn run_line<D: Disk>(
    alloc: Global,
    store: &mut Store,
    disk: &mut D,
    kept: &mut Kept,
    text: &[u8],
) -> Result<Printed, Stop>
    requires ready { IsReady store.old }
    ensures made { IsTrue (D.honest disk.old) → (first_disk : D) → (s : Script) → IsAt D.Disk first_disk store.old disk.old s → s.kept ≡ kept.old → LineMade D.Disk first_disk text.now s store.new disk.new kept.new result }
    ensures told { TellsFaults D.Disk store.old store.new disk.old disk.new (λ rose. PrintsFault result → rose) }
    ensures damage { IsTrue (D.honest disk.old) → (at want found : ℕ) → StopsDamaged at want found result → IsAtFault (D.seen disk.new) at want found }
    ensures ready { IsReady store.new }
    ensures disk { SameDisk D.Disk disk.old disk.new }
{
    let line = match parse_line(alloc, text) {
        Err(_) => return Err(Stop::NoMemory),
        Ok(None) => return Err(Stop::NoLine),
        Ok(Some(line)) => line,
    };
    if is_later(&line) {
        return Err(Stop::NoLine);
    }
    match reply_to(alloc, store, disk, kept, line) {
        Err(refusal) => Err(Stop::Opening(refusal)),
        Ok(told) => print_of(alloc, &told),
    }
}

fn print_of(alloc: Global, told: &Told) -> Result<Printed, Stop>
    ensures line { IfOk result (λ p. p.line.items ≡ line_of_reply told.now.formats told.now.reply ++ 10 ∷ []) }
    ensures refusal { IfOk result (λ p. listed p.refusal ≡ refusals_in told.now.reply) }
    ensures short { IfErr result (λ e. e ≡ Stop.NoMemory) }
{
    match line_of(alloc, told) {
        Err(_) => Err(Stop::NoMemory),
        Ok(line) => Ok(Printed {
            line,
            refusal: refusal_in(&told.reply),
        }),
    }
}

fn line_of(alloc: Global, told: &Told) -> Result<Vec<u8>, NoMemory>
    ensures { IfOk result (λ line. line.items ≡ line_of_reply told.now.formats told.now.reply ++ 10 ∷ []) }
{
    let mut line = line_of_answer(alloc, &told.reply, told.formats)?;
    line.extend_from_slice(b"\n")?;
    Ok(line)
}

// The refusal that a reply tells, if it does.
fn refusal_in(reply: &Reply) -> Option<Refusal>
    ensures { listed result ≡ refusals_in reply.now }
{
    match reply {
        Reply::Answered(Answer::Refused(refusal)) => Some(*refusal),
        _ => None,
    }
}

fn is_built(call: &SystemCall) -> bool
    ensures { IsTrue result ↔ IsBuilt call.now }
{
    match call {
        SystemCall::Create { .. } => true,
        SystemCall::SetStamps { .. } => true,
        _ => false,
    }
}

// Whether a call of the system is made.
fn is_made(call: &SystemCall) -> bool
    ensures { IsTrue result ↔ IsMade call.now }
{
    match call {
        SystemCall::Create { .. } => true,
        SystemCall::SetStamps { .. } => true,
        SystemCall::Evict { .. } => true,
        SystemCall::StartCheckpoint => true,
        SystemCall::StepCheckpoint => true,
        SystemCall::FinishCheckpoint => true,
        _ => false,
    }
}

fn is_later_call(call: &Call) -> bool
    ensures { IsTrue result ↔ IsLaterCall call.now }
{
    match call {
        Call::Session(_, _) => false,
        Call::System(_, call) => !is_made(call),
    }
}

fn is_unbuilt(call: &Call) -> bool
    ensures { IsTrue result ↔ IsUnbuilt call.now }
{
    match call {
        Call::Session(_, _) => false,
        Call::System(_, call) => !is_built(call),
    }
}

fn is_later(line: &Line) -> bool
    ensures { IsTrue result ↔ IsLater line.now }
{
    match line {
        Line::Whole(call) => is_later_call(call),
        Line::Start(call) => is_later_call(call),
        Line::Step(_) => false,
        Line::Finish(_) => false,
        Line::Control(_) => false,
    }
}

// The error is why the device was not opened anew. Behind a line of an actor leaves may leave memory.
fn reply_to<D: Disk>(
    alloc: Global,
    store: &mut Store,
    disk: &mut D,
    kept: &mut Kept,
    line: Line,
) -> Result<Told, Refusal>
    requires now { IsLater line → ⊥ }
    requires actor { IsOfKnown line }
    requires ready { IsReady store.old }
    ensures replies { IsTrue (D.honest disk.old) → (first_disk : D) → (s : Script) → IsAt D.Disk first_disk store.old disk.old s → s.kept ≡ kept.old
        → RepliedAs D.Disk first_disk line s store.new disk.new kept.new result }
    ensures told { TellsFaults D.Disk store.old store.new disk.old disk.new (λ rose. RepliesFault result → rose) }
    ensures damage { IfErr result (λ r. (at want found : ℕ) → r ≡ Corrupt at want found → IsTrue (D.honest disk.old) → IsAtFault (D.seen disk.new) at want found) }
    ensures ready { IsReady store.new }
    ensures disk { SameDisk D.Disk disk.old disk.new }
{
    match line {
        Line::Control(asked) => control(alloc, store, disk, kept, asked),
        line => Ok(reply_to_call(alloc, store, disk, kept, line)),
    }
}

// The reply to a line that is no call of the device: by an eviction of its actor, where that has one.
fn reply_to_call<D: Disk>(
    alloc: Global,
    store: &mut Store,
    disk: &mut D,
    kept: &mut Kept,
    line: Line,
) -> Told
    requires now { IsCallLine line }
    requires actor { IsOfKnown line }
    requires ready { IsReady store.old }
    ensures replies { IsTrue (D.honest disk.old) → (first_disk : D) → (s : Script) → IsAt D.Disk first_disk store.old disk.old s → s.kept ≡ kept.old
        → IsTold D.Disk first_disk line s store.new disk.new kept.new result }
    ensures told { TellsFaults D.Disk store.old store.new disk.old disk.new (λ rose. RepliesFault (Ok result) → rose) }
    ensures ready { IsReady store.new }
    ensures disk { SameDisk D.Disk disk.old disk.new }
{
    match has_eviction(&line, &kept.evicting) {
        None => reply_to_calling(alloc, store, disk, kept, line),
        Some(number) => turn_evicting(alloc, store, disk, kept, number, line),
    }
}

// The reply to a line of an actor that has no eviction: by its call of a checkpoint that goes by steps,
// where it has one.
fn reply_to_calling<D: Disk>(
    alloc: Global,
    store: &mut Store,
    disk: &mut D,
    kept: &mut Kept,
    line: Line,
) -> Told
    requires now { IsCallLine line }
    requires actor { IsOfKnown line }
    requires ready { IsReady store.old }
    ensures replies { IsTrue (D.honest disk.old) → (first_disk : D) → (s : Script) → IsAt D.Disk first_disk store.old disk.old s → s.kept ≡ kept.old → eviction_of (actor_of line) s.kept.evicting ≡ None
        → IsTold D.Disk first_disk line s store.new disk.new kept.new result }
    ensures told { TellsFaults D.Disk store.old store.new disk.old disk.new (λ rose. RepliesFault (Ok result) → rose) }
    ensures ready { IsReady store.new }
    ensures disk { SameDisk D.Disk disk.old disk.new }
{
    match has_call(&line, &kept.checkpointing) {
        None => reply_to_free(alloc, store, disk, kept, line),
        Some(call) => turn_call(alloc, store, disk, kept, call, line),
    }
}

// The call of a checkpoint by steps of the actor whose line it is, where that has one.
fn has_call(line: &Line, checkpointing: &[Option<CheckpointStage>]) -> Option<StagedCall>
    ensures some { IfSome result (λ call. (system_in (actor_of line.now) ≡ Some call.number) × (checkpointing_by checkpointing.now call.number ≡ Some call.stage)) }
    ensures none { result ≡ None → checkpointing_of (actor_of line.now) checkpointing.now ≡ None }
{
    match actor_of(line) {
        Actor::Session(_) => None,
        Actor::System(number) => staged_call(checkpointing, number),
    }
}

// The actor of the system whose line it is, where that has an eviction.
fn has_eviction(line: &Line, evicting: &[Option<Evicting>]) -> Option<u32>
    ensures some { IfSome result (λ number. (system_in (actor_of line.now) ≡ Some number) × (is_there (evicting_by evicting.now number) ≡ true)) }
    ensures none { result ≡ None → eviction_of (actor_of line.now) evicting.now ≡ None }
{
    match actor_of(line) {
        Actor::Session(_) => None,
        Actor::System(number) => {
            if is_evicting(evicting, number) {
                Some(number)
            } else {
                None
            }
        }
    }
}

// Whose line it is; one that is asked of the device is of `sys`.
fn actor_of(line: &Line) -> Actor
    ensures { result ≡ actor_of line.now }
{
    match line {
        Line::Whole(call) => caller(call),
        Line::Start(call) => caller(call),
        Line::Step(who) => actor_in(*who),
        Line::Finish(who) => actor_in(*who),
        Line::Control(_) => Actor::System(0),
    }
}

// The reply to a line of an actor that has neither. One that evicts writes to the device, and so does one
// that finishes a checkpoint: no leaf leaves memory behind it, nor behind one that starts or steps one.
fn reply_to_free<D: Disk>(
    alloc: Global,
    store: &mut Store,
    disk: &mut D,
    kept: &mut Kept,
    line: Line,
) -> Told
    requires now { IsCallLine line }
    requires actor { IsOfKnown line }
    requires ready { IsReady store.old }
    ensures replies { IsTrue (D.honest disk.old) → (first_disk : D) → (s : Script) → IsAt D.Disk first_disk store.old disk.old s → s.kept ≡ kept.old → IsFree (actor_of line) s.kept
        → IsTold D.Disk first_disk line s store.new disk.new kept.new result }
    ensures told { TellsFaults D.Disk store.old store.new disk.old disk.new (λ rose. RepliesFault (Ok result) → rose) }
    ensures ready { IsReady store.new }
    ensures disk { SameDisk D.Disk disk.old disk.new }
{
    match line {
        Line::Whole(call) => reply_to_whole(alloc, store, disk, kept, call),
        Line::Start(call) => reply_to_start(alloc, store, disk, kept, call),
        line => reply_to_actor(alloc, store, disk, kept, line),
    }
}

// The reply to a whole call.
fn reply_to_whole<D: Disk>(
    alloc: Global,
    store: &mut Store,
    disk: &mut D,
    kept: &mut Kept,
    call: Call,
) -> Told
    requires now { IsLaterCall call → ⊥ }
    requires actor { IsKnown (caller call) }
    requires ready { IsReady store.old }
    ensures replies { IsTrue (D.honest disk.old) → (first_disk : D) → (s : Script) → IsAt D.Disk first_disk store.old disk.old s → s.kept ≡ kept.old → IsFree (caller call) s.kept
        → IsTold D.Disk first_disk (WholeLine call) s store.new disk.new kept.new result }
    ensures told { TellsFaults D.Disk store.old store.new disk.old disk.new (λ rose. RepliesFault (Ok result) → rose) }
    ensures ready { IsReady store.new }
    ensures disk { SameDisk D.Disk disk.old disk.new }
{
    if let Some(asked) = checkpoint_call(&call) {
        return run_checkpoint(alloc, store, disk, kept, asked);
    }
    if is_unbuilt(&call) {
        evict(alloc, store, disk, kept, call)
    } else {
        reply_to_actor(alloc, store, disk, kept, Line::Whole(call))
    }
}

// The reply to the start of a call.
fn reply_to_start<D: Disk>(
    alloc: Global,
    store: &mut Store,
    disk: &mut D,
    kept: &mut Kept,
    call: Call,
) -> Told
    requires now { IsLaterCall call → ⊥ }
    requires actor { IsKnown (caller call) }
    requires ready { IsReady store.old }
    ensures replies { IsTrue (D.honest disk.old) → (first_disk : D) → (s : Script) → IsAt D.Disk first_disk store.old disk.old s → s.kept ≡ kept.old → IsFree (caller call) s.kept
        → IsTold D.Disk first_disk (StartLine call) s store.new disk.new kept.new result }
    ensures told { TellsFaults D.Disk store.old store.new disk.old disk.new (λ rose. RepliesFault (Ok result) → rose) }
    ensures ready { IsReady store.new }
    ensures disk { SameDisk D.Disk disk.old disk.new }
{
    if let Some(asked) = checkpoint_call(&call) {
        return start_call(store, disk, kept, asked);
    }
    if is_unbuilt(&call) {
        start_evicting(alloc, store, disk, kept, call)
    } else {
        reply_to_actor(alloc, store, disk, kept, Line::Start(call))
    }
}

// The reply to a line of an actor, behind which leaves may leave memory where there is no eviction.
fn reply_to_actor<D: Disk>(
    alloc: Global,
    store: &mut Store,
    disk: &mut D,
    kept: &mut Kept,
    line: Line,
) -> Told
    requires now { IsOfActor line }
    requires actor { IsOfKnown line }
    requires ready { IsReady store.old }
    ensures replies { IsTrue (D.honest disk.old) → (first_disk : D) → (s : Script) → IsAt D.Disk first_disk store.old disk.old s → s.kept ≡ kept.old → IsFree (actor_of line) s.kept
        → IsTold D.Disk first_disk line s store.new disk.new kept.new result }
    ensures told { TellsFaults D.Disk store.old store.new disk.old disk.new (λ rose. RepliesFault (Ok result) → rose) }
    ensures ready { IsReady store.new }
    ensures disk { SameDisk D.Disk disk.old disk.new }
{
    let told = reply_of(alloc, store, disk, kept, line);
    store.make_room_beside(alloc, disk, &kept.evicting);
    told
}

// The reply to a line of an actor, for which the device is read at most.
fn reply_of<D: Disk>(
    alloc: Global,
    store: &mut Store,
    disk: &mut D,
    kept: &mut Kept,
    line: Line,
) -> Told
    requires now { IsOfActor line }
    requires actor { IsOfKnown line }
    ensures replied { Standing D.Disk store.old disk.old (λ first_disk s. s.kept ≡ kept.old → IsReplied D.Disk first_disk s store.new disk.new line kept.new result) }
    ensures told { RepliesSo D.Disk store.old store.new disk.old disk.new result }
    ensures keeps { CallKeeps D.Disk store.old store.new disk.old disk.new }
{
    match line {
        Line::Whole(call) => whole(alloc, store, disk, &kept.evicting, call),
        Line::Start(call) => start(alloc, store, disk, kept, call),
        Line::Step(who) => step(alloc, store, disk, kept, who),
        Line::Finish(who) => finish(alloc, store, disk, kept, who),
        Line::Control(_) => refused(Refusal::NoMemory),
    }
}

fn caller(call: &Call) -> Actor
    ensures { result ≡ caller call.now }
{
    match call {
        Call::Session(session, _) => Actor::Session(*session),
        Call::System(number, _) => Actor::System(*number),
    }
}

fn actor_in(who: LineActor) -> Actor
    ensures { result ≡ actor_in who }
{
    match who {
        LineActor::Session(session) => Actor::Session(session),
        LineActor::System(number) => Actor::System(number),
    }
}

// Opens a session that is used, with all below it.
fn open<D: Disk>(alloc: Global, store: &mut Store, who: Actor) -> Result<(), Refusal>
    requires { IsKnown who }
    ensures opens { (disk : D) → StandingIn D.Disk store.old disk (λ first_disk s w. OpensAs who w result (λ v. StandsAt D.Disk first_disk store.new disk s v)) }
    ensures refused { IfErr result IsNoSession }
    ensures there { IfOk result (λ _. IsThere who store.new.engine) }
    ensures told { (disk : D) → StaysTold D.Disk store.old store.new disk disk }
    ensures keeps { (disk : D) → CallKeeps D.Disk store.old store.new disk disk }
{
    match who {
        Actor::System(_) => Ok(()),
        Actor::Session(session) => open_up_to::<D>(alloc, store, session),
    }
}

fn open_up_to<D: Disk>(alloc: Global, store: &mut Store, session: u32) -> Result<(), Refusal>
    ensures opens { (disk : D) → StandingIn D.Disk store.old disk (λ first_disk s w. OpensAs (Actor.Session session) w result (λ v. StandsAt D.Disk first_disk store.new disk s v)) }
    ensures refused { IfErr result IsNoSession }
    ensures there { IfOk result (λ _. session < length store.new.engine.sessions) }
    ensures told { (disk : D) → StaysTold D.Disk store.old store.new disk disk }
    ensures keeps { (disk : D) → CallKeeps D.Disk store.old store.new disk disk }
{
    'opening: while store.engine.sessions() <= session {
        match store.open_session::<D>(alloc) {
            Ok(_) => {}
            Err(refusal) => return Err(refusal),
        }
    }
    Ok(())
}

// The formats of the items of a call, and of its answer.
pub(crate) fn formats_in(local: &Local, call: &Call) -> Formats
    ensures { (w : World) → Stands local.now w → result ≡ formats_in w.machine call.now }
{
    match table_of_items(call) {
        None => PLAIN,
        Some(table) => match local.formats_of(table.as_bytes()) {
            None => PLAIN,
            Some(formats) => formats,
        },
    }
}

// The formats that are kept of the call that an actor has started.
fn formats_of(kept: &Kept, who: Actor) -> Formats
    ensures { result ≡ kept_formats who kept.now }
{
    match who {
        Actor::System(_) => PLAIN,
        Actor::Session(session) => match kept.formats.get(session as usize) {
            None => PLAIN,
            Some(kept) => *kept,
        },
    }
}

fn keep_formats(kept: &mut Kept, who: Actor, those: Formats)
    ensures { kept.new ≡ kept_more who those kept.old }
{
    if let Actor::Session(session) = who {
        let at = session as usize;
        if at < kept.formats.len() {
            kept.formats[at] = those;
        }
    }
}

fn whole<D: Disk>(
    alloc: Global,
    store: &mut Store,
    disk: &mut D,
    evicting: &[Option<Evicting>],
    call: Call,
) -> Told
    requires built { IsUnbuilt call → ⊥ }
    requires actor { IsKnown (caller call) }
    ensures replied { Standing D.Disk store.old disk.old (λ first_disk s. s.kept.evicting ≡ evicting.now → IsReplied D.Disk first_disk s store.new disk.new (WholeLine call) s.kept result) }
    ensures told { RepliesSo D.Disk store.old store.new disk.old disk.new result }
    ensures keeps { CallKeeps D.Disk store.old store.new disk.old disk.new }
{
    match open::<D>(alloc, store, caller(&call)) {
        Err(refusal) => refused(refusal),
        Ok(()) => answer(alloc, store, disk, evicting, call),
    }
}

// The whole call, of an actor that is there.
fn answer<D: Disk>(
    alloc: Global,
    store: &mut Store,
    disk: &mut D,
    evicting: &[Option<Evicting>],
    call: Call,
) -> Told
    requires built { IsUnbuilt call → ⊥ }
    requires there { IsThere (caller call) store.old.engine }
    ensures replied { StandingIn D.Disk store.old disk.old (λ first_disk s w. s.kept.evicting ≡ evicting.now → IsAnswered D.Disk first_disk s store.new disk.new call w result) }
    ensures told { RepliesSo D.Disk store.old store.new disk.old disk.new result }
    ensures keeps { CallKeeps D.Disk store.old store.new disk.old disk.new }
{
    let formats = formats_in(&store.engine, &call);
    match as_stored(alloc, call, formats) {
        Err(_) => refused(Refusal::NoMemory),
        Ok(call) => Told {
            reply: Reply::Answered(answer_to(alloc, store, disk, evicting, call)),
            formats,
        },
    }
}

fn answer_to<D: Disk>(
    alloc: Global,
    store: &mut Store,
    disk: &mut D,
    evicting: &[Option<Evicting>],
    call: Call,
) -> Answer<Item>
    requires { IsTaken call store.old.engine }
    ensures replied { StandingIn D.Disk store.old disk.old (λ first_disk s w. s.kept.evicting ≡ evicting.now → IsAnswerTo D.Disk first_disk s store.new disk.new call w result) }
    ensures told { TellsSo D.Disk store.old store.new disk.old disk.new (λ basis start. MayAnswerSo D.Disk basis start disk.new result) }
    ensures keeps { CallKeeps D.Disk store.old store.new disk.old disk.new }
{
    match call {
        Call::Session(session, call) => store.call_beside(alloc, disk, session, call, evicting),
        Call::System(number, call) => store.call_system::<D>(alloc, number, call),
    }
}

fn start<D: Disk>(
    alloc: Global,
    store: &mut Store,
    disk: &mut D,
    kept: &mut Kept,
    call: Call,
) -> Told
    requires built { IsUnbuilt call → ⊥ }
    requires actor { IsKnown (caller call) }
    ensures replied { Standing D.Disk store.old disk.old (λ first_disk s. s.kept ≡ kept.old → IsReplied D.Disk first_disk s store.new disk.new (StartLine call) kept.new result) }
    ensures told { RepliesSo D.Disk store.old store.new disk.old disk.new result }
    ensures keeps { CallKeeps D.Disk store.old store.new disk.old disk.new }
{
    match open::<D>(alloc, store, caller(&call)) {
        Err(refusal) => refused(refusal),
        Ok(()) => begin(alloc, store, disk, kept, call),
    }
}

// The start of a call, of an actor that is there.
fn begin<D: Disk>(
    alloc: Global,
    store: &mut Store,
    disk: &mut D,
    kept: &mut Kept,
    call: Call,
) -> Told
    requires built { IsUnbuilt call → ⊥ }
    requires there { IsThere (caller call) store.old.engine }
    ensures replied { StandingIn D.Disk store.old disk.old (λ first_disk s w. s.kept ≡ kept.old → IsBegun D.Disk first_disk s store.new disk.new call w kept.new result) }
    ensures told { RepliesSo D.Disk store.old store.new disk.old disk.new result }
    ensures keeps { CallKeeps D.Disk store.old store.new disk.old disk.new }
{
    store.engine.actors();
    let who = caller(&call);
    let formats = formats_in(&store.engine, &call);
    match as_stored(alloc, call, formats) {
        Err(_) => refused(Refusal::NoMemory),
        Ok(call) => {
            let reply = store.step_beside(alloc, disk, Step::Start(call), &kept.evicting);
            keep_after(&reply, kept, who, formats);
            Told {
                reply: in_script(reply),
                formats,
            }
        }
    }
}

// The formats of a call that has started are kept.
fn keep_after(reply: &call_steps::Reply, kept: &mut Kept, who: Actor, those: Formats)
    ensures { kept.new ≡ kept_after reply.now who those kept.old }
{
    match reply {
        call_steps::Reply::Started => keep_formats(kept, who, those),
        call_steps::Reply::More => {}
        call_steps::Reply::Answer(_) => {}
    }
}

fn step<D: Disk>(
    alloc: Global,
    store: &mut Store,
    disk: &mut D,
    kept: &Kept,
    who: LineActor,
) -> Told
    requires actor { IsKnown (actor_in who) }
    ensures replied { Standing D.Disk store.old disk.old (λ first_disk s. s.kept ≡ kept.now → IsReplied D.Disk first_disk s store.new disk.new (StepLine who) kept.now result) }
    ensures told { RepliesSo D.Disk store.old store.new disk.old disk.new result }
    ensures keeps { CallKeeps D.Disk store.old store.new disk.old disk.new }
{
    let actor = actor_in(who);
    match open::<D>(alloc, store, actor) {
        Err(refusal) => refused(refusal),
        Ok(()) => go(alloc, store, disk, kept, actor),
    }
}

// A step of an actor that is there.
fn go<D: Disk>(alloc: Global, store: &mut Store, disk: &mut D, kept: &Kept, who: Actor) -> Told
    requires { IsThere who store.old.engine }
    ensures replied { StandingIn D.Disk store.old disk.old (λ first_disk s w. s.kept ≡ kept.now → IsGone D.Disk first_disk s store.new disk.new who w result) }
    ensures told { RepliesSo D.Disk store.old store.new disk.old disk.new result }
    ensures keeps { CallKeeps D.Disk store.old store.new disk.old disk.new }
{
    store.engine.actors();
    let formats = formats_of(kept, who);
    Told {
        reply: in_script(store.step_beside(alloc, disk, Step::Go(who), &kept.evicting)),
        formats,
    }
}

fn finish<D: Disk>(
    alloc: Global,
    store: &mut Store,
    disk: &mut D,
    kept: &Kept,
    who: LineActor,
) -> Told
    requires actor { IsKnown (actor_in who) }
    ensures replied { Standing D.Disk store.old disk.old (λ first_disk s. s.kept ≡ kept.now → IsReplied D.Disk first_disk s store.new disk.new (FinishLine who) kept.now result) }
    ensures told { RepliesSo D.Disk store.old store.new disk.old disk.new result }
    ensures keeps { CallKeeps D.Disk store.old store.new disk.old disk.new }
{
    let actor = actor_in(who);
    match open::<D>(alloc, store, actor) {
        Err(refusal) => refused(refusal),
        Ok(()) => end(alloc, store, disk, kept, actor),
    }
}

// The steps that are left, of an actor that is there.
fn end<D: Disk>(alloc: Global, store: &mut Store, disk: &mut D, kept: &Kept, who: Actor) -> Told
    requires { IsThere who store.old.engine }
    ensures replied { StandingIn D.Disk store.old disk.old (λ first_disk s w. s.kept ≡ kept.now → IsEnded D.Disk first_disk s store.new disk.new who w result) }
    ensures told { RepliesSo D.Disk store.old store.new disk.old disk.new result }
    ensures keeps { CallKeeps D.Disk store.old store.new disk.old disk.new }
{
    store.engine.actors();
    let formats = formats_of(kept, who);
    Told {
        reply: Reply::Answered(store.finish_beside(alloc, disk, who, &kept.evicting)),
        formats,
    }
}

fn in_script(reply: call_steps::Reply) -> Reply
    ensures { result ≡ in_script reply }
{
    match reply {
        call_steps::Reply::Started => Reply::Started,
        call_steps::Reply::More => Reply::More,
        call_steps::Reply::Answer(answer) => Reply::Answered(answer),
    }
}
