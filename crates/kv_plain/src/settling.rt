// What a prepare, a commit and a rollback leave.

ghost use Rattle.std.specs.Prelude.{◌≡◌, ◌∷◌, map, option_map, slice_set, IfOk};
ghost use Rattle.kv_model.specs.Machine as model;
ghost use Rattle.kv_plain.specs.Plain.{write_in, entry_in, history_in};
ghost use Rattle.kv_plain.specs.Machine.{phase_in, transaction_in, machine_in};
ghost use Rattle.kv_plain.specs.After.{left_taken};

use crate::history::{Entry, Write};
use crate::machine::{Machine, Phase, Transaction};
use crate::seats::{in_phase, no_cursors, set_row, set_session, take_session};
use crate::writes::stamped;
use failure::NoMemory;
use stamp::Name;
use std::alloc::Global;

pub(crate) fn put_on(history: &mut Vec<Entry>, entry: Entry) -> Result<(), NoMemory>
    ensures { IfOk result (λ _. history_in history.new.items ≡ entry_in entry ∷ history_in history.old.items) }
{
    match history.insert(0, entry) {
        Ok(()) => Ok(()),
        Err(_) => Err(NoMemory),
    }
}

/// Adds the entry where the transaction has writes.
fn put_on_unless_empty(
    history: &mut Vec<Entry>,
    writes: &[Write],
    entry: Entry,
) -> Result<(), NoMemory>
    ensures { IfOk result (λ _. history_in history.new.items ≡ model.appended (map write_in writes.now) (entry_in entry) (history_in history.old.items)) }
{
    match writes.split_first() {
        None => Ok(()),
        Some(_) => put_on(history, entry),
    }
}

/// A transaction, taken out of its session's place.
struct Taken {
    machine: Machine,
    transaction: Option<Transaction>,
}

fn take_transaction(m: Machine, session: usize) -> Taken
    ensures machine { machine_in result.machine ≡ record (machine_in m) { sessions = slice_set (machine_in m).sessions session None } }
    ensures transaction { option_map transaction_in result.transaction ≡ model.transaction_of (machine_in m) session }
{
    let mut m = m;
    let transaction = take_session(&mut m.sessions, session);
    Taken {
        machine: m,
        transaction,
    }
}

fn prepare_taken(
    m: Machine,
    session: usize,
    t: Transaction,
    stamp: u64,
) -> Result<Machine, NoMemory>
    ensures { IfOk result (λ r. machine_in r ≡ model.prepared (machine_in m) session stamp (transaction_in t)) }
{
    let mut m = m;
    let name = Name {
        run: m.run,
        id: t.id,
    };
    put_on_unless_empty(&mut m.history, &t.writes, Entry::Prepare(name, stamp))?;
    set_session(
        &mut m.sessions,
        session,
        Some(in_phase(t, Phase::Prepared(stamp))),
    );
    Ok(m)
}

pub(crate) fn prepare(m: Machine, session: usize, stamp: u64) -> Result<Machine, NoMemory>
    ensures { IfOk result (λ r. machine_in r ≡ model.after (machine_in m) (model.PrepareAt session stamp)) }
{
    let Taken {
        machine,
        transaction,
    } = take_transaction(m, session);
    match transaction {
        None => Ok(machine),
        Some(t) => prepare_taken(machine, session, t, stamp),
    }
}

pub(crate) fn without_transaction(
    alloc: Global,
    m: Machine,
    session: usize,
) -> Result<Machine, NoMemory>
    ensures { IfOk result (λ r. machine_in r ≡ model.without_transaction (machine_in m) session) }
{
    let mut m = m;
    let row = no_cursors(alloc)?;
    set_session(&mut m.sessions, session, None);
    set_row(&mut m.cursors, session, row);
    Ok(m)
}

fn commit_taken(
    alloc: Global,
    m: Machine,
    session: usize,
    t: Transaction,
    commit: u64,
    durable: u64,
) -> Result<Machine, NoMemory>
    ensures { IfOk result (λ r. machine_in r ≡ model.decided (phase_in t.phase) (machine_in m) session commit durable (transaction_in t)) }
{
    let mut m = m;
    let name = Name {
        run: m.run,
        id: t.id,
    };
    let writes = stamped(alloc, &t.writes, commit, durable)?;
    match t.phase {
        Phase::Prepared(_) => {
            put_on_unless_empty(&mut m.history, &t.writes, Entry::Resolve(name, writes))?;
            set_session(
                &mut m.sessions,
                session,
                Some(in_phase(t, Phase::Resolving)),
            );
            Ok(m)
        }
        _ => {
            put_on_unless_empty(&mut m.history, &t.writes, Entry::Commit(name, writes))?;
            without_transaction(alloc, m, session)
        }
    }
}

pub(crate) fn commit(
    alloc: Global,
    m: Machine,
    session: usize,
    commit: u64,
    durable: u64,
) -> Result<Machine, NoMemory>
    ensures { IfOk result (λ r. machine_in r ≡ model.after (machine_in m) (model.CommitAt session commit durable)) }
{
    let Taken {
        machine,
        transaction,
    } = take_transaction(m, session);
    match transaction {
        None => Ok(machine),
        Some(t) => commit_taken(alloc, machine, session, t, commit, durable),
    }
}

fn leave_taken(m: Machine, session: usize, t: Transaction) -> Result<Machine, NoMemory>
    ensures { IfOk result (λ r. machine_in r ≡ left_taken (phase_in t.phase) (machine_in m) session (transaction_in t)) }
{
    let mut m = m;
    let name = Name {
        run: m.run,
        id: t.id,
    };
    match t.phase {
        Phase::Prepared(_) => {
            put_on_unless_empty(&mut m.history, &t.writes, Entry::Undo(name))?;
            set_session(
                &mut m.sessions,
                session,
                Some(in_phase(t, Phase::Resolving)),
            );
            Ok(m)
        }
        Phase::Resolving => {
            set_session(&mut m.sessions, session, Some(t));
            Ok(m)
        }
        _ => {
            set_session(&mut m.sessions, session, Some(in_phase(t, Phase::Leaving)));
            Ok(m)
        }
    }
}

pub(crate) fn start_leaving(m: Machine, session: usize) -> Result<Machine, NoMemory>
    ensures { IfOk result (λ r. machine_in r ≡ model.after (machine_in m) (model.StartLeaving session)) }
{
    let Taken {
        machine,
        transaction,
    } = take_transaction(m, session);
    match transaction {
        None => Ok(machine),
        Some(t) => leave_taken(machine, session, t),
    }
}
