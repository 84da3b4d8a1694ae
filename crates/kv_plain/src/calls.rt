// Whole calls, with nobody between their events.

ghost use Rattle.std.specs.Prelude.{◌≡◌, IfOk};
ghost use Rattle.kv_model.specs.Decisions as answer;
ghost use Rattle.kv_model.specs.Calls as model;
ghost use Rattle.kv_model.specs.Calls.{Answers, OpensSession};
ghost use Rattle.kv_plain.specs.Machine.{machine_in};
ghost use Rattle.kv_plain.specs.Decisions.{storing_in};
ghost use Rattle.kv_plain.specs.Outcome.{outcome_in, decision_in};
ghost use Rattle.wt_calls.specs.Calls.{actor_in, call_in, session_call_in, system_call_in};
ghost use Rattle.kv_plain.specs.Calls.{Turns, Leads, Makes, Ends, Settles, step_request, Decides, SystemDecided, IsExact, around_in};

use crate::after::apply;
use crate::closing::close;
use crate::cursor_calls::{seek_key, step};
use crate::decisions::{
    Storing, decide_begin, decide_capture, decide_commit, decide_create, decide_end, decide_evict,
    decide_finish, decide_open, decide_prepare, decide_reset, decide_rollback, decide_rts,
    decide_set, decide_start, decide_step, new_table, transaction_at,
};
use crate::event::{Answered, Decision, Event, Turn};
use crate::key_calls::{get, put, remove};
use crate::machine::Machine;
use crate::outcome::{Outcome, told};
use failure::NoMemory;
use item::{Formats, Item};
use std::alloc::Global;
use wt_calls::{Call, SessionCall, SystemCall};
use wt_code::{Answer, Invalid, Refusal};

/// The calls that have begun and have not answered.
#[derive(Drop)]
pub struct Unfinished {
    /// The place of an eviction that has found what it evicts.
    pub eviction: Option<u32>,
    /// By session: whether it has such a call. A session past the end has none.
    pub calls: Vec<bool>,
}

/// What a call rests on outside the machine.
#[derive(Drop)]
pub struct Around {
    /// Who calls has a call that is not finished.
    pub in_call: bool,
    /// The calls of the others that are not.
    pub unfinished: Unfinished,
    /// The number of the last completed checkpoint, 0 where there is none.
    pub number: u64,
    /// The leaves of the running checkpoint's tables that are not captured yet, as the call begins.
    pub uncaptured: u64,
    /// How the device takes what the call writes for a checkpoint.
    pub storing: Storing,
}

/// A call of one event.
fn once(alloc: Global, m: Machine, d: Decision) -> Result<Turn, NoMemory>
    ensures { Leads (Makes (machine_in m) (decision_in d)) result }
{
    let Decision { outcome, event } = d;
    let machine = apply(alloc, m, event)?;
    Ok(Turn { outcome, machine })
}

/// Ends the session's transaction, if it has one, with the answer that was decided; a fault may
/// keep it from its end.
fn ended(alloc: Global, m: Machine, session: usize, decided: Outcome) -> Result<Turn, NoMemory>
    ensures { Leads (Ends session (machine_in m) (outcome_in decided)) result }
{
    if transaction_at(&m, session).is_none() {
        return Ok(Turn {
            outcome: decided,
            machine: m,
        });
    }
    let d = decide_end(&m, session, decided);
    once(alloc, m, d)
}

/// A commit or a rollback, from the event that decides it.
fn settle(alloc: Global, m: Machine, session: usize, d: Decision) -> Result<Turn, NoMemory>
    ensures { Leads (Settles session (machine_in m) (decision_in d)) result }
{
    let Decision { outcome, event } = d;
    match event {
        Event::StartLeaving(s) => {
            let leaving = apply(alloc, m, Event::StartLeaving(s))?;
            ended(alloc, leaving, session, outcome)
        }
        Event::Commit(s, commit, durable) => {
            let committed = apply(alloc, m, Event::Commit(s, commit, durable))?;
            ended(alloc, committed, session, outcome)
        }
        other => {
            let machine = apply(alloc, m, other)?;
            Ok(Turn { outcome, machine })
        }
    }
}

/// The outcome of a session's call.
fn session_turn(
    alloc: Global,
    m: Machine,
    session: usize,
    call: SessionCall,
) -> Result<Turn, NoMemory>
    ensures { Leads (model.Decided (machine_in m) session (session_call_in call)) result }
{
    match call {
        SessionCall::Begin(read) => {
            let d = decide_begin(&m, session, read);
            once(alloc, m, d)
        }
        SessionCall::Get { table, key } => get(alloc, m, session, table, key),
        SessionCall::Put {
            table,
            key,
            value,
            demand,
        } => { put(alloc, m, session, table, key, value, demand) }
        SessionCall::Remove { table, key } => remove(alloc, m, session, table, key),
        SessionCall::Seek { cursor, table, key } => {
            seek_key(alloc, m, session, cursor as usize, table, key)
        }
        SessionCall::Step { cursor, table, way } => {
            step(alloc, m, session, cursor as usize, table, way)
        }
        SessionCall::Reset(cursor) => {
            let d = decide_reset(&m, session, cursor as usize);
            once(alloc, m, d)
        }
        SessionCall::Prepare(stamp) => {
            let d = decide_prepare(&m, session, stamp);
            once(alloc, m, d)
        }
        SessionCall::Commit { commit, durable } => {
            let d = decide_commit(&m, session, commit, durable);
            settle(alloc, m, session, d)
        }
        SessionCall::Rollback => {
            let d = decide_rollback(&m, session);
            settle(alloc, m, session, d)
        }
    }
}

fn create(alloc: Global, m: Machine, name: Item, formats: Formats) -> Result<Turn, NoMemory>
    ensures { (around : Around) → Leads (SystemDecided around (machine_in m) (model.Create name formats)) result }
{
    let table = new_table(&m, name, formats)?;
    let d = decide_create(&m, table);
    once(alloc, m, d)
}

/// A step of a checkpoint: it captures a leaf where one is left.
fn decide_capture_or_end(m: &Machine, around: &Around) -> Decision
    ensures { decision_in result ≡ answer.decision (machine_in m.now) 0 (step_request around.now.uncaptured (storing_in around.now.storing)) }
{
    if 0 < around.uncaptured {
        decide_capture(m, 1 < around.uncaptured, around.storing)
    } else {
        decide_step(m, false)
    }
}

fn evict(m: Machine, table: &Item, key: &Item) -> Turn
    ensures { (around : Around) → Turns (SystemDecided around (machine_in m) (model.Evict table.now key.now)) result }
{
    let Decision { outcome, event: _ } = decide_evict(&m, table, key);
    Turn {
        outcome,
        machine: m,
    }
}

/// The outcome of a call of the system.
fn system_turn(
    alloc: Global,
    m: Machine,
    call: SystemCall,
    around: &Around,
) -> Result<Turn, NoMemory>
    ensures { Leads (SystemDecided around.now (machine_in m) (system_call_in call)) result }
{
    match call {
        SystemCall::Create { table, formats } => create(alloc, m, table, formats),
        SystemCall::SetStamps { oldest, stable } => {
            let d = decide_set(&m, oldest, stable);
            once(alloc, m, d)
        }
        SystemCall::RollbackToStable => {
            let d = decide_rts(&m)?;
            once(alloc, m, d)
        }
        SystemCall::StartCheckpoint => {
            let d = decide_start(&m, around.number)?;
            once(alloc, m, d)
        }
        SystemCall::StepCheckpoint => {
            let d = decide_capture_or_end(&m, around);
            once(alloc, m, d)
        }
        SystemCall::FinishCheckpoint => {
            let d = decide_finish(&m, 0 < around.uncaptured, around.storing);
            once(alloc, m, d)
        }
        SystemCall::Evict { table, key } => Ok(evict(m, &table, &key)),
        SystemCall::Close => close(alloc, m, around),
    }
}

/// The outcome of the call, by its events one after the other.
fn turn(alloc: Global, m: Machine, call: Call, around: &Around) -> Result<Turn, NoMemory>
    ensures { Leads (Decides around.now (machine_in m) (actor_in call) (call_in call)) result }
{
    match call {
        Call::Session(session, call) => session_turn(alloc, m, session as usize, call),
        Call::System(_, call) => system_turn(alloc, m, call, around),
    }
}

/// Opens a session, which takes the next number, from 0 upwards.
///
/// # Errors
///
/// Memory is wanted; the machine is gone then.
pub fn open_session(alloc: Global, m: Machine) -> Result<Answered, NoMemory>
    ensures { IfOk result (λ r. OpensSession (machine_in m) r.answer (machine_in r.machine)) }
{
    let d = decide_open(&m);
    let Turn { outcome, machine } = once(alloc, m, d)?;
    let answer = told(outcome)?;
    Ok(Answered { answer, machine })
}

fn answer_to(alloc: Global, m: Machine, call: Call, around: &Around) -> Result<Answered, NoMemory>
    ensures { IfOk result (λ r. IsExact around.now (machine_in m) (actor_in call) (call_in call) r.answer (machine_in r.machine)) }
{
    if around.in_call {
        return Ok(Answered {
            answer: Answer::Refused(Refusal::Invalid(Invalid::InCall)),
            machine: m,
        });
    }
    let Turn { outcome, machine } = turn(alloc, m, call, around)?;
    let answer = told(outcome)?;
    Ok(Answered { answer, machine })
}

/// Makes a whole call: its events one after the other, up to its answer, where the outside is as
/// `around` says, no page is kept from it, and no memory is short. Where the model leaves a choice
/// it takes one: a read of a key that a resolving transaction wrote gives the value, and a write of
/// it is judged as if that transaction had ended.
///
/// # Errors
///
/// Memory is wanted, or the machine is none that an opening and whole calls reach: a count is at
/// the end of its type, or a machine that is up has a transaction whose end was decided. The
/// machine is gone then.
pub fn run(alloc: Global, m: Machine, call: Call, around: &Around) -> Result<Answered, NoMemory>
    ensures answers { IfOk result (λ r. Answers (around_in around.now) (machine_in m) (actor_in call) (call_in call) r.answer (machine_in r.machine)) }
    ensures exact { IfOk result (λ r. IsExact around.now (machine_in m) (actor_in call) (call_in call) r.answer (machine_in r.machine)) }
{
    answer_to(alloc, m, call, around)
}
