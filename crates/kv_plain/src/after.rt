// What each event leaves.

ghost use Rattle.std.specs.Prelude.{◌≡◌, length, option_map, IfOk, ◌+◌};
ghost use Rattle.kv_model.specs.Machine as model;
ghost use Rattle.kv_plain.specs.Plain.{table_in, history_in};
ghost use Rattle.kv_plain.specs.Outcome.{event_in};
ghost use Rattle.kv_plain.specs.Machine.{position_in, machine_in};
ghost use Rattle.kv_plain.specs.After.{rolled_back};

use crate::cuts::cut;
use crate::event::Event;
use crate::history::{Entry, Table};
use crate::machine::{Checkpoint, Completed, Machine, Phase, Position, Transaction};
use crate::seats::{
    fail_session, no_cursors, number_session, place_cursor, push_row, push_session, set_session,
    write_session,
};
use crate::settling::{commit, prepare, put_on, start_leaving, without_transaction};
use failure::NoMemory;
use item::{Change, Item};
use std::alloc::Global;
use wt_code::Fault;

fn entry_count(history: &[Entry]) -> usize
    ensures { result ≡ length (history_in history.now) }
{
    history.len()
}

fn open_session(alloc: Global, m: Machine) -> Result<Machine, NoMemory>
    ensures { IfOk result (λ r. machine_in r ≡ model.after (machine_in m) model.OpenSession) }
{
    let mut m = m;
    let row = no_cursors(alloc)?;
    push_session(&mut m.sessions)?;
    push_row(&mut m.cursors, row)?;
    Ok(m)
}

fn begin(alloc: Global, m: Machine, session: usize, read: u64) -> Machine
    ensures { machine_in result ≡ model.after (machine_in m) (model.BeginAt session read) }
{
    let mut m = m;
    let t = Transaction {
        id: 0,
        start: entry_count(&m.history),
        read,
        writes: Vec::new(alloc),
        phase: Phase::Running,
    };
    set_session(&mut m.sessions, session, Some(t));
    m
}

/// One more, where there is room for it.
fn count_after(count: u64) -> Result<u64, NoMemory>
    ensures { IfOk result (λ r. r ≡ count + 1) }
{
    match count.checked_add(1) {
        None => Err(NoMemory),
        Some(next) => Ok(next),
    }
}

fn draw_id(m: Machine, session: usize) -> Result<Machine, NoMemory>
    ensures { IfOk result (λ r. machine_in r ≡ model.after (machine_in m) (model.DrawId session)) }
{
    let mut m = m;
    let id = m.next;
    m.next = count_after(id)?;
    number_session(&mut m.sessions, session, id);
    Ok(m)
}

fn accept_write(
    alloc: Global,
    m: Machine,
    session: usize,
    table: u32,
    key: Item,
    change: Change,
) -> Result<Machine, NoMemory>
    ensures { IfOk result (λ r. machine_in r ≡ model.after (machine_in m) (model.AcceptWrite session table key change)) }
{
    let mut m = m;
    write_session(alloc, &mut m.sessions, session, table, key, change)?;
    Ok(m)
}

fn refuse_write(m: Machine, session: usize) -> Machine
    ensures { machine_in result ≡ model.after (machine_in m) (model.RefuseWrite session) }
{
    let mut m = m;
    fail_session(&mut m.sessions, session);
    m
}

fn move_cursor(m: Machine, session: usize, cursor: usize, position: Option<Position>) -> Machine
    ensures { machine_in result ≡ model.after (machine_in m) (model.PlaceCursor session cursor (option_map position_in position)) }
{
    let mut m = m;
    place_cursor(&mut m.cursors, session, cursor, position);
    m
}

fn create_table(m: Machine, table: Table) -> Result<Machine, NoMemory>
    ensures { IfOk result (λ r. machine_in r ≡ model.after (machine_in m) (model.CreateTable (table_in table))) }
{
    let mut m = m;
    put_on(&mut m.history, Entry::Create(table))?;
    Ok(m)
}

fn set_stamps(m: Machine, oldest: u64, stable: u64) -> Machine
    ensures { machine_in result ≡ model.after (machine_in m) (model.SetStamps oldest stable) }
{
    let mut m = m;
    m.oldest = m.oldest.max(oldest);
    m.stable = m.stable.max(stable);
    m
}

fn put_on_if_stable(history: &mut Vec<Entry>, stable: u64) -> Result<(), NoMemory>
    ensures { IfOk result (λ _. history_in history.new.items ≡ rolled_back stable (history_in history.old.items)) }
{
    if stable == 0 {
        Ok(())
    } else {
        put_on(history, Entry::Rts(stable))
    }
}

fn roll_back_to_stable(m: Machine) -> Result<Machine, NoMemory>
    ensures { IfOk result (λ r. machine_in r ≡ model.after (machine_in m) model.RollbackToStable) }
{
    let mut m = m;
    let stable = m.stable;
    m.rollbacks = count_after(m.rollbacks)?;
    put_on_if_stable(&mut m.history, stable)?;
    Ok(m)
}

fn start_checkpoint(m: Machine) -> Machine
    ensures { machine_in result ≡ model.after (machine_in m) model.CheckpointStart }
{
    let mut m = m;
    m.checkpoint = Some(Checkpoint {
        prefix: entry_count(&m.history),
        oldest: m.oldest,
        stable: m.stable,
    });
    m
}

fn drop_checkpoint(m: Machine) -> Machine
    ensures { machine_in result ≡ model.after (machine_in m) model.CheckpointDrop }
{
    let mut m = m;
    m.checkpoint = None;
    m
}

fn go_down(m: Machine, fault: Fault) -> Machine
    ensures { machine_in result ≡ model.after (machine_in m) (model.GoDown fault) }
{
    let mut m = m;
    m.fault = Some(fault);
    m
}

fn finish_checkpoint(alloc: Global, m: Machine) -> Result<Machine, NoMemory>
    ensures { IfOk result (λ r. machine_in r ≡ model.after (machine_in m) model.CheckpointFinish) }
{
    let mut m = m;
    match m.checkpoint {
        None => Ok(m),
        Some(c) => {
            let content = cut(alloc, &m.history, c.prefix, c.stable)?;
            m.completed = Completed {
                content,
                oldest: c.oldest,
                stable: c.stable,
            };
            m.checkpoint = None;
            Ok(m)
        }
    }
}

/// The machine after the event. The machine that was there is gone where memory is wanted.
pub fn apply(alloc: Global, m: Machine, event: Event) -> Result<Machine, NoMemory>
    ensures { IfOk result (λ r. machine_in r ≡ model.after (machine_in m) (event_in event)) }
{
    match event {
        Event::OpenSession => open_session(alloc, m),
        Event::Begin(session, read) => Ok(begin(alloc, m, session, read)),
        Event::DrawId(session) => draw_id(m, session),
        Event::AcceptWrite(session, table, key, change) => {
            accept_write(alloc, m, session, table, key, change)
        }
        Event::RefuseWrite(session) => Ok(refuse_write(m, session)),
        Event::Prepare(session, stamp) => prepare(m, session, stamp),
        Event::Commit(session, at, durable) => commit(alloc, m, session, at, durable),
        Event::StartLeaving(session) => start_leaving(m, session),
        Event::EndTransaction(session) => without_transaction(alloc, m, session),
        Event::PlaceCursor(session, cursor, position) => {
            Ok(move_cursor(m, session, cursor, position))
        }
        Event::CreateTable(table) => create_table(m, table),
        Event::SetStamps(oldest, stable) => Ok(set_stamps(m, oldest, stable)),
        Event::RollbackToStable => roll_back_to_stable(m),
        Event::CheckpointStart => Ok(start_checkpoint(m)),
        Event::CheckpointFinish => finish_checkpoint(alloc, m),
        Event::CheckpointDrop => Ok(drop_checkpoint(m)),
        Event::GoDown(fault) => Ok(go_down(m, fault)),
        Event::Nothing => Ok(m),
    }
}
