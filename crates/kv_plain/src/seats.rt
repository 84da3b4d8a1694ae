// The sessions' places: the transaction of each, and its cursors.

ghost use Rattle.std.specs.Prelude.{◌≡◌, [], ◌∷◌, ◌++◌, map, option_map, slice_index_or, slice_set, IfOk};
ghost use Rattle.kv_model.specs.Machine as model;
ghost use Rattle.kv_plain.specs.Machine.{phase_in, transaction_in, position_in, sessions_in, cursors_in, session_changed, cursor_placed};

use crate::machine::{Phase, Position, Transaction};
use crate::writes::joined;
use failure::NoMemory;
use item::{Change, Item};
use std::alloc::Global;

/// Puts the transaction, or none, into the session's place.
pub(crate) fn set_session(
    sessions: &mut [Option<Transaction>],
    session: usize,
    t: Option<Transaction>,
)
    ensures { sessions_in sessions.new ≡ slice_set (sessions_in sessions.old) session (option_map transaction_in t) }
{
    if session < sessions.len() {
        sessions[session] = t;
    }
}

/// Takes the transaction out of the session's place.
pub(crate) fn take_session(
    sessions: &mut [Option<Transaction>],
    session: usize,
) -> Option<Transaction>
    ensures taken { option_map transaction_in result ≡ slice_index_or (sessions_in sessions.old) session None }
    ensures left { sessions_in sessions.new ≡ slice_set (sessions_in sessions.old) session None }
{
    if session < sessions.len() {
        sessions[session].take()
    } else {
        None
    }
}

pub(crate) fn push_session(sessions: &mut Vec<Option<Transaction>>) -> Result<(), NoMemory>
    ensures { IfOk result (λ _. sessions_in sessions.new.items ≡ sessions_in sessions.old.items ++ None ∷ []) }
{
    match sessions.push(None) {
        Ok(()) => Ok(()),
        Err(_) => Err(NoMemory),
    }
}

pub(crate) fn no_cursors(alloc: Global) -> Result<Vec<Option<Position>>, NoMemory>
    ensures { IfOk result (λ r. map (option_map position_in) r.items ≡ model.no_cursors) }
{
    let mut out = Vec::new(alloc);
    push_cursor(&mut out)?;
    push_cursor(&mut out)?;
    push_cursor(&mut out)?;
    push_cursor(&mut out)?;
    Ok(out)
}

fn push_cursor(out: &mut Vec<Option<Position>>) -> Result<(), NoMemory>
    ensures { IfOk result (λ _. map (option_map position_in) out.new.items ≡ map (option_map position_in) out.old.items ++ None ∷ []) }
{
    match out.push(None) {
        Ok(()) => Ok(()),
        Err(_) => Err(NoMemory),
    }
}

pub(crate) fn push_row(
    cursors: &mut Vec<Vec<Option<Position>>>,
    row: Vec<Option<Position>>,
) -> Result<(), NoMemory>
    ensures { IfOk result (λ _. cursors_in cursors.new.items ≡ cursors_in cursors.old.items ++ map (option_map position_in) row.items ∷ []) }
{
    match cursors.push(row) {
        Ok(()) => Ok(()),
        Err(_) => Err(NoMemory),
    }
}

pub(crate) fn set_row(
    cursors: &mut [Vec<Option<Position>>],
    session: usize,
    row: Vec<Option<Position>>,
)
    ensures { cursors_in cursors.new ≡ slice_set (cursors_in cursors.old) session (map (option_map position_in) row.items) }
{
    if session < cursors.len() {
        cursors[session] = row;
    }
}

fn set_cursor(row: &mut [Option<Position>], cursor: usize, position: Option<Position>)
    ensures { map (option_map position_in) row.new ≡ slice_set (map (option_map position_in) row.old) cursor (option_map position_in position) }
{
    if cursor < row.len() {
        row[cursor] = position;
    }
}

/// Puts the session's cursor at the position, or at none.
pub(crate) fn place_cursor(
    cursors: &mut [Vec<Option<Position>>],
    session: usize,
    cursor: usize,
    position: Option<Position>,
)
    ensures { cursors_in cursors.new ≡ cursor_placed (option_map position_in position) session cursor (cursors_in cursors.old) }
{
    if session < cursors.len() {
        set_cursor(&mut cursors[session], cursor, position);
    }
}

fn with_id(t: Option<Transaction>, id: u64) -> Option<Transaction>
    ensures { option_map transaction_in result ≡ option_map (λ (x : model.Transaction). record x { id = id }) (option_map transaction_in t) }
{
    match t {
        None => None,
        Some(t) => Some(Transaction {
            id,
            start: t.start,
            read: t.read,
            writes: t.writes,
            phase: t.phase,
        }),
    }
}

pub(crate) fn in_phase(t: Transaction, phase: Phase) -> Transaction
    ensures { transaction_in result ≡ model.in_phase (phase_in phase) (transaction_in t) }
{
    Transaction {
        id: t.id,
        start: t.start,
        read: t.read,
        writes: t.writes,
        phase,
    }
}

fn maybe_in_phase(t: Option<Transaction>, phase: Phase) -> Option<Transaction>
    ensures { option_map transaction_in result ≡ option_map (model.in_phase (phase_in phase)) (option_map transaction_in t) }
{
    match t {
        None => None,
        Some(t) => Some(in_phase(t, phase)),
    }
}

fn with_write(
    alloc: Global,
    t: Option<Transaction>,
    table: u32,
    key: Item,
    change: Change,
) -> Result<Option<Transaction>, NoMemory>
    ensures { IfOk result (λ r. option_map transaction_in r ≡ option_map (model.written table key change) (option_map transaction_in t)) }
{
    match t {
        None => Ok(None),
        Some(t) => Ok(Some(Transaction {
            id: t.id,
            start: t.start,
            read: t.read,
            writes: joined(alloc, table, key, change, &t.writes)?,
            phase: t.phase,
        })),
    }
}

pub(crate) fn number_session(sessions: &mut [Option<Transaction>], session: usize, id: u64)
    ensures { sessions_in sessions.new ≡ session_changed (λ (x : model.Transaction). record x { id = id }) session (sessions_in sessions.old) }
{
    let t = take_session(sessions, session);
    set_session(sessions, session, with_id(t, id));
}

pub(crate) fn fail_session(sessions: &mut [Option<Transaction>], session: usize)
    ensures { sessions_in sessions.new ≡ session_changed (model.in_phase model.Failed) session (sessions_in sessions.old) }
{
    let t = take_session(sessions, session);
    set_session(sessions, session, maybe_in_phase(t, Phase::Failed));
}

pub(crate) fn write_session(
    alloc: Global,
    sessions: &mut [Option<Transaction>],
    session: usize,
    table: u32,
    key: Item,
    change: Change,
) -> Result<(), NoMemory>
    ensures { IfOk result (λ _. sessions_in sessions.new ≡ session_changed (model.written table key change) session (sessions_in sessions.old)) }
{
    let old = take_session(sessions, session);
    let new = with_write(alloc, old, table, key, change)?;
    set_session(sessions, session, new);
    Ok(())
}
