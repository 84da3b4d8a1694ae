// Close.

ghost use Rattle.std.specs.Prelude.{◌≡◌, [], ◌∷◌, ◌++◌, IfOk, option_map, false, slice_index_or};
ghost use Rattle.kv_model.specs.Machine.{of_some};
ghost use Rattle.kv_model.specs.Closing as model;
ghost use Rattle.kv_plain.specs.Machine.{transaction_in, sessions_in, machine_in};
ghost use Rattle.kv_plain.specs.Outcome.{outcome_in, event_in};
ghost use Rattle.kv_plain.specs.Decisions.{storing_in};
ghost use Rattle.kv_plain.specs.Calls.{Leads, SystemDecided, unfinished_in, close_of};
ghost use Rattle.kv_plain.specs.Closing.{events_in, closing_in};
ghost use Rattle.kv_model.specs.Calls.{Close};

use crate::after::apply;
use crate::calls::{Around, Unfinished};
use crate::decisions::{Storing, session_after};
use crate::event::{Event, Turn};
use crate::machine::{Machine, Transaction};
use crate::outcome::Outcome;
use crate::reads::is_ending;
use failure::NoMemory;
use limits::NUMBER_MAX;
use std::alloc::Global;
use wt_code::{Busy, Limit, Refusal};

/// What a Close answers, and its events in order.
#[derive(Drop)]
struct Closing {
    outcome: Outcome,
    events: Vec<Event>,
}

/// What the events leave, one after the other.
#[tactic(auto, using(crate::proofs::ClosingEvents::after_one_more))]
fn apply_all(alloc: Global, m: Machine, events: Vec<Event>) -> Result<Machine, NoMemory>
    ensures { IfOk result (λ r. machine_in r ≡ model.after_all (machine_in m) (events_in events.items)) }
{
    let mut machine = m;
    for event in events {
        machine = apply(alloc, machine, event)?;
    }
    Ok(machine)
}

fn has_call(calls: &[bool], session: u32) -> bool
    ensures { result ≡ slice_index_or calls.now session false }
{
    match calls.get(session as usize) {
        None => false,
        Some(unfinished) => *unfinished,
    }
}

fn is_leaving(t: &Option<Transaction>) -> bool
    ensures { result ≡ of_some false (λ x. model.is_ending x.phase) (option_map transaction_in t.now) }
{
    match t {
        None => false,
        Some(t) => is_ending(t.phase),
    }
}

/// The lowest session whose call is unfinished, or whose transaction was decided.
fn first_held(
    calls: &[bool],
    at: u32,
    sessions: &[Option<Transaction>],
) -> Result<Option<u32>, NoMemory>
    ensures { IfOk result (λ r. r ≡ model.first_held calls.now at (sessions_in sessions.now)) }
{
    match sessions.split_first() {
        None => Ok(None),
        Some((t, later)) => {
            if has_call(calls, at) || is_leaving(t) {
                Ok(Some(at))
            } else {
                first_held(calls, session_after(at)?, later)
            }
        }
    }
}

/// Who keeps a Close from its work.
fn close_busy(m: &Machine, unfinished: &Unfinished) -> Result<Option<Busy>, NoMemory>
    ensures { IfOk result (λ r. r ≡ model.close_busy (machine_in m.now) (unfinished_in unfinished.now)) }
{
    if m.checkpoint.is_some() {
        return Ok(Some(Busy::Checkpoint));
    }
    if let Some(place) = unfinished.eviction {
        return Ok(Some(Busy::Evicting(place)));
    }
    match first_held(&unfinished.calls, 0, &m.sessions)? {
        None => Ok(None),
        Some(session) => Ok(Some(Busy::Resolving(session))),
    }
}

fn push_event(out: &mut Vec<Event>, event: Event) -> Result<(), NoMemory>
    ensures { IfOk result (λ _. events_in out.new.items ≡ events_in out.old.items ++ event_in event ∷ []) }
{
    match out.push(event) {
        Ok(()) => Ok(()),
        Err(_) => Err(NoMemory),
    }
}

/// Adds the rollback of each session's transaction, the lowest first.
fn push_rollbacks(
    out: &mut Vec<Event>,
    sessions: &[Option<Transaction>],
    at: u32,
) -> Result<(), NoMemory>
    ensures { IfOk result (λ _. events_in out.new.items ≡ events_in out.old.items ++ model.rolling_back at (sessions_in sessions.now)) }
{
    match sessions.split_first() {
        None => Ok(()),
        Some((None, later)) => push_rollbacks(out, later, session_after(at)?),
        Some((Some(_), later)) => {
            push_event(out, Event::StartLeaving(at as usize))?;
            push_event(out, Event::EndTransaction(at as usize))?;
            push_rollbacks(out, later, session_after(at)?)
        }
    }
}

/// The checkpoint of a Close: adds its events, and gives its answer.
fn push_checkpoint(out: &mut Vec<Event>, number: u64, storing: Storing) -> Result<Outcome, NoMemory>
    ensures outcome { IfOk result (λ r. outcome_in r ≡ (model.last_checkpoint number (storing_in storing)).0) }
    ensures events { IfOk result (λ _. events_in out.new.items ≡ events_in out.old.items ++ (model.last_checkpoint number (storing_in storing)).1) }
{
    if NUMBER_MAX <= number {
        return Ok(Outcome::Refused(Refusal::Limit(Limit::Checkpoints)));
    }
    match storing {
        Storing::Stored => {
            push_event(out, Event::CheckpointStart)?;
            push_event(out, Event::CheckpointFinish)?;
            Ok(Outcome::Done)
        }
        Storing::NoPlace => Ok(Outcome::Refused(Refusal::NoSpace)),
        Storing::ReadFailed => Ok(Outcome::Refused(Refusal::DiskFault)),
        Storing::Damaged {
            offset,
            want,
            found,
        } => Ok(Outcome::Refused(Refusal::Corrupt {
            offset,
            want,
            found,
        })),
        Storing::WriteFailed(fault) => {
            push_event(out, Event::GoDown(fault))?;
            Ok(Outcome::Refused(Refusal::DiskFault))
        }
    }
}

fn close_refused(alloc: Global, refusal: Refusal) -> Closing
    ensures { closing_in result ≡ model.close_refused refusal }
{
    Closing {
        outcome: Outcome::Refused(refusal),
        events: Vec::new(alloc),
    }
}

fn make_closing(alloc: Global, m: &Machine, around: &Around) -> Result<Closing, NoMemory>
    ensures { IfOk result (λ r. closing_in r ≡ model.closing (machine_in m.now) (model.last_checkpoint around.now.number (storing_in around.now.storing))) }
{
    let mut events = Vec::new(alloc);
    push_rollbacks(&mut events, &m.sessions, 0)?;
    let outcome = push_checkpoint(&mut events, around.number, around.storing)?;
    Ok(Closing { outcome, events })
}

fn decide_close(alloc: Global, m: &Machine, around: &Around) -> Result<Closing, NoMemory>
    ensures { IfOk result (λ r. closing_in r ≡ close_of around.now (machine_in m.now)) }
{
    match m.fault {
        Some(fault) => Ok(close_refused(alloc, Refusal::Panic { fault })),
        None => match close_busy(m, &around.unfinished)? {
            Some(busy) => Ok(close_refused(alloc, Refusal::Busy(busy))),
            None => make_closing(alloc, m, around),
        },
    }
}

/// Close: rolls back what is open, prepared too, the lowest session first, and takes a checkpoint.
pub(crate) fn close(alloc: Global, m: Machine, around: &Around) -> Result<Turn, NoMemory>
    ensures { Leads (SystemDecided around.now (machine_in m) Close) result }
{
    let Closing { outcome, events } = decide_close(alloc, &m, around)?;
    let machine = apply_all(alloc, m, events)?;
    Ok(Turn { outcome, machine })
}
