// Where a cursor goes: to the next and the previous row, and to the row of a key.

ghost use Rattle.std.specs.Prelude.{◌≡◌, map, option_map, Some, IfOk};
ghost use Rattle.kv_model.specs.Machine.{cursor_of};
ghost use Rattle.kv_model.specs.Reads.{ReadAnswer};
ghost use Rattle.kv_model.specs.Rows.{key_lt, comes_after, is_past, starts_at, row_event, seek_event, RowAnswer, NextAnswer, SeekAnswer};
ghost use Rattle.wt_calls.specs.Calls.{way_in};
ghost use Rattle.kv_plain.specs.Plain.{write_in, entry_in, history_in};
ghost use Rattle.kv_plain.specs.Machine.{transaction_in, position_in, sessions_in, machine_in};
ghost use Rattle.kv_plain.specs.Outcome.{outcome_in, event_in, Judges};
ghost use Rattle.kv_plain.specs.Answers.{read_in};
ghost use Rattle.kv_plain.specs.Walk.{walk_in, is_row, is_met, is_nearer, nearer, read_at, nearest_written, nearest_entered, nearest_stored, nearest_held, nearest_of, row_answer, answer_at};

use crate::event::{Decision, Event};
use crate::history::{Entry, Write};
use crate::machine::{Machine, Position, Transaction};
use crate::outcome::Outcome;
use crate::reads::{Reading, outcome_of, read};
use failure::NoMemory;
use item::Item;
use wt_calls::Way;
use wt_code::Refusal;

/// A transaction's way over a table, from a key or from the end.
#[derive(Clone, Copy)]
struct Walk<'a> {
    machine: &'a Machine,
    session: usize,
    transaction: &'a Transaction,
    table: u32,
    way: Way,
    from: Option<&'a Item>,
}

fn is_below(a: &Item, b: &Item) -> bool
    ensures { result ≡ key_lt a.now b.now }
{
    a.compare(b).is_lt()
}

/// Whether on this way `b` comes after `a`.
fn comes_after(way: Way, a: &Item, b: &Item) -> bool
    ensures { result ≡ comes_after (way_in way) a.now b.now }
{
    match way {
        Way::Up => is_below(a, b),
        Way::Down => is_below(b, a),
    }
}

/// Whether the key comes after where the way starts.
fn is_past(way: Way, from: Option<&Item>, key: &Item) -> bool
    ensures { result ≡ is_past (way_in way) (option_map (λ i. i.now) from.entry) key.now }
{
    match from {
        None => true,
        Some(from) => comes_after(way, from, key),
    }
}

/// Whether the key comes before the nearest one so far.
fn is_nearer(way: Way, key: &Item, nearest: Option<&Item>) -> bool
    ensures { result ≡ is_nearer (way_in way) key.now (option_map (λ i. i.now) nearest.entry) }
{
    match nearest {
        None => true,
        Some(nearest) => comes_after(way, key, nearest),
    }
}

fn is_row(found: Reading<'_>) -> bool
    ensures { result ≡ is_row (read_in found.entry) }
{
    match found {
        Reading::Value(None) => false,
        _ => true,
    }
}

fn read_at<'a>(walk: &Walk<'a>, key: &Item) -> Reading<'a>
    ensures { read_in result ≡ read_at (walk_in walk.now) key.now }
{
    read(
        walk.machine,
        walk.session,
        walk.transaction,
        walk.table,
        key,
    )
}

/// Whether the key is on the way and does not read as absent.
fn is_met(walk: &Walk<'_>, key: &Item) -> bool
    ensures { result ≡ is_met (walk_in walk.now) key.now }
{
    is_past(walk.way, walk.from, key) && is_row(read_at(walk, key))
}

fn nearer<'a>(walk: &Walk<'_>, nearest: Option<&'a Item>, key: &'a Item) -> Option<&'a Item>
    ensures { option_map (λ i. i.now) result ≡ nearer (walk_in walk.now) (option_map (λ i. i.now) nearest.entry) key.now }
{
    if is_met(walk, key) && is_nearer(walk.way, key, nearest) {
        Some(key)
    } else {
        nearest
    }
}

fn nearest_written<'a>(
    walk: &Walk<'_>,
    nearest: Option<&'a Item>,
    writes: &'a [Write],
) -> Option<&'a Item>
    ensures { option_map (λ i. i.now) result ≡ nearest_written (walk_in walk.now) (option_map (λ i. i.now) nearest.entry) (map write_in writes.now) }
{
    match writes.split_first() {
        None => nearest,
        Some((write, others)) => nearest_written(walk, nearer(walk, nearest, &write.key), others),
    }
}

fn nearest_entered<'a>(
    walk: &Walk<'_>,
    nearest: Option<&'a Item>,
    entry: &'a Entry,
) -> Option<&'a Item>
    ensures { option_map (λ i. i.now) result ≡ nearest_entered (walk_in walk.now) (option_map (λ i. i.now) nearest.entry) (entry_in entry.now) }
{
    match entry {
        Entry::Commit(_, writes) => nearest_written(walk, nearest, writes),
        Entry::Resolve(_, writes) => nearest_written(walk, nearest, writes),
        _ => nearest,
    }
}

fn nearest_stored<'a>(
    walk: &Walk<'_>,
    nearest: Option<&'a Item>,
    history: &'a [Entry],
) -> Option<&'a Item>
    ensures { option_map (λ i. i.now) result ≡ nearest_stored (walk_in walk.now) (option_map (λ i. i.now) nearest.entry) (history_in history.now) }
{
    match history.split_first() {
        None => nearest,
        Some((entry, older)) => nearest_stored(walk, nearest_entered(walk, nearest, entry), older),
    }
}

fn nearest_held<'a>(
    walk: &Walk<'_>,
    nearest: Option<&'a Item>,
    sessions: &'a [Option<Transaction>],
) -> Option<&'a Item>
    ensures { option_map (λ i. i.now) result ≡ nearest_held (walk_in walk.now) (option_map (λ i. i.now) nearest.entry) (sessions_in sessions.now) }
{
    match sessions.split_first() {
        None => nearest,
        Some((None, later)) => nearest_held(walk, nearest, later),
        Some((Some(x), later)) => {
            nearest_held(walk, nearest_written(walk, nearest, &x.writes), later)
        }
    }
}

/// The nearest key on the way that does not read as absent.
fn nearest_key<'a>(walk: &Walk<'a>) -> Option<&'a Item>
    ensures { option_map (λ i. i.now) result ≡ nearest_of (walk_in walk.now) }
{
    let own = nearest_written(walk, None, &walk.transaction.writes);
    let stored = nearest_stored(walk, own, &walk.machine.history);
    nearest_held(walk, stored, &walk.machine.sessions)
}

fn row_of(key: &Item, found: Reading<'_>) -> Result<Outcome, NoMemory>
    ensures { IfOk result (λ r. outcome_in r ≡ row_answer key.now (read_in found.entry)) }
{
    match found {
        Reading::Value(Some(v)) => Ok(Outcome::GivesRow(key.copy()?, v.copy()?)),
        Reading::Value(None) => Ok(Outcome::Refused(Refusal::NotFound)),
        Reading::Conflict(id) => Ok(Outcome::Refused(Refusal::PrepareConflict { id })),
    }
}

fn chosen_row(walk: &Walk<'_>) -> Result<Outcome, NoMemory>
    ensures { IfOk result (λ r. outcome_in r ≡ answer_at (walk_in walk.now) (nearest_of (walk_in walk.now))) }
{
    match nearest_key(walk) {
        None => Ok(Outcome::Refused(Refusal::NotFound)),
        Some(key) => row_of(key, read_at(walk, key)),
    }
}

/// The row, or the conflict, at the nearest key.
fn row_on(walk: &Walk<'_>) -> Result<Outcome, NoMemory>
    ensures { let w = walk_in walk.now in IfOk result (λ r. RowAnswer (ReadAnswer w.machine w.session w.transaction w.table) w.way w.from (outcome_in r)) }
{
    chosen_row(walk)
}

fn position_of(m: &Machine, session: usize, cursor: usize) -> Option<&Position>
    ensures { option_map (λ p. position_in p.now) result ≡ cursor_of (machine_in m.now) session cursor }
{
    let row = m.cursors.get(session)?;
    row.get(cursor)?.as_ref()
}

/// Where a cursor starts on the table.
fn start_of(table: u32, position: Option<&Position>) -> Option<&Item>
    ensures { option_map (λ i. i.now) result ≡ starts_at table (option_map (λ p. position_in p.now) position.entry) }
{
    match position {
        None => None,
        Some(p) => { if p.table == table { Some(&p.key) } else { None } }
    }
}

fn placed_at(table: u32, key: &Item) -> Result<Option<Position>, NoMemory>
    ensures { IfOk result (λ r. option_map position_in r ≡ Some (record { table = table; key = key.now })) }
{
    Ok(Some(Position {
        table,
        key: key.copy()?,
    }))
}

fn row_event(
    session: usize,
    cursor: usize,
    table: u32,
    outcome: &Outcome,
) -> Result<Event, NoMemory>
    ensures { IfOk result (λ r. event_in r ≡ row_event session cursor table (outcome_in outcome.now)) }
{
    match outcome {
        Outcome::GivesRow(key, _) => {
            Ok(Event::PlaceCursor(session, cursor, placed_at(table, key)?))
        }
        Outcome::Refused(Refusal::NotFound) => Ok(Event::PlaceCursor(session, cursor, None)),
        _ => Ok(Event::Nothing),
    }
}

fn seek_event(
    session: usize,
    cursor: usize,
    table: u32,
    key: &Item,
    outcome: &Outcome,
) -> Result<Event, NoMemory>
    ensures { IfOk result (λ r. event_in r ≡ seek_event session cursor table key.now (outcome_in outcome.now)) }
{
    match outcome {
        Outcome::Gives(_) => { Ok(Event::PlaceCursor(session, cursor, placed_at(table, key)?)) }
        Outcome::Refused(Refusal::NotFound) => Ok(Event::PlaceCursor(session, cursor, None)),
        _ => Ok(Event::Nothing),
    }
}

/// A read of the key for the session's transaction, which `read` answers, and the move of the
/// cursor.
pub(crate) fn seek(
    m: &Machine,
    session: usize,
    t: &Transaction,
    cursor: usize,
    table: u32,
    key: &Item,
) -> Result<Decision, NoMemory>
    ensures { IfOk result (λ r. Judges (SeekAnswer (machine_in m.now) session (transaction_in t.now) cursor table key.now) r) }
{
    let outcome = outcome_of(read(m, session, t, table, key))?;
    let event = seek_event(session, cursor, table, key, &outcome)?;
    Ok(Decision { outcome, event })
}

/// The next row of the table for the session's transaction and cursor, or the previous one: the
/// nearest key on the way whose read, which `read` answers, is not absent; and the move of the
/// cursor. It looks at each key that was written to any table.
pub(crate) fn next_row(
    m: &Machine,
    session: usize,
    t: &Transaction,
    cursor: usize,
    table: u32,
    way: Way,
) -> Result<Decision, NoMemory>
    ensures { IfOk result (λ r. Judges (NextAnswer (machine_in m.now) session (transaction_in t.now) cursor table (way_in way)) r) }
{
    let walk = Walk {
        machine: m,
        session,
        transaction: t,
        table,
        way,
        from: start_of(table, position_of(m, session, cursor)),
    };
    let outcome = row_on(&walk)?;
    let event = row_event(session, cursor, table, &outcome)?;
    Ok(Decision { outcome, event })
}
