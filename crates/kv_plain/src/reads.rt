// What a read of a key answers, and whether a write of it is accepted.

ghost use Rattle.std.specs.Prelude.{◌≡◌, ◌+◌, ◌^◌, ◌<◌, map, length, find, option_map, IfOk};
ghost use Rattle.kv_model.specs.History.{line, writes_at, admits};
ghost use Rattle.kv_model.specs.Reads.{own_write, is_own, prepared_in, ReadAnswer};
ghost use Rattle.kv_model.specs.Closing.{is_ending};
ghost use Rattle.kv_plain.specs.Plain.{entry_in, history_in, write_in, version_in};
ghost use Rattle.kv_plain.specs.Machine.{phase_in, transaction_in, sessions_in, machine_in};
ghost use Rattle.kv_plain.specs.Choices.{first_id, prepares, is_holding, is_met, read_of_others, read_of, unseen, refusal_of_others, refusal_of, MayWriteUnless};
ghost use Rattle.kv_plain.specs.Answers.{read_in};
ghost use Rattle.kv_plain.specs.Outcome.{outcome_in};
ghost use Rattle.kv_plain.specs.Calls.{read_answer};

use crate::history::{Entry, Found, Write};
use crate::looks::{is_admitted, is_released, is_same, is_write_of, newest, put_in, value};
use crate::machine::{Machine, Phase, Transaction};
use crate::outcome::Outcome;
use failure::NoMemory;
use item::Item;
use stamp::Name;
use wt_code::Refusal;

/// The answer to a read of a key, lent.
#[derive(Clone, Copy)]
pub(crate) enum Reading<'a> {
    /// The value, or none where the key is absent.
    Value(Option<&'a Item>),
    /// A transaction of this id has prepared an update of the key.
    Conflict(u64),
}

/// The transaction's own write of the key, among its writes.
pub(crate) fn own_write<'a>(writes: &'a [Write], table: u32, key: &Item) -> Option<&'a Write>
    ensures { option_map (λ w. write_in w.now) result ≡ find (writes_at table key.now) (map write_in writes.now) }
{
    match writes.split_first() {
        None => None,
        Some((write, others)) => {
            if is_write_of(write, table, key) {
                Some(write)
            } else {
                own_write(others, table, key)
            }
        }
    }
}

/// Whether the transaction wrote the key.
pub(crate) fn is_written(t: &Transaction, table: u32, key: &Item) -> bool
    ensures { result ≡ is_own (own_write (transaction_in t.now) table key.now) }
{
    match own_write(&t.writes, table, key) {
        None => false,
        Some(_) => true,
    }
}

/// Whether this name is prepared in the first `n` entries, at a stamp that the read stamp admits.
pub(crate) fn is_prepared(history: &[Entry], n: usize, read: u64, name: Name) -> bool
    ensures { result ≡ prepared_in (history_in history.now) n read name }
{
    match history.split_first() {
        None => false,
        Some((entry, older)) => {
            does_prepare(entry, older.len(), n, read, name) || is_prepared(older, n, read, name)
        }
    }
}

fn does_prepare(entry: &Entry, at: usize, n: usize, read: u64, name: Name) -> bool
    ensures { result ≡ prepares (entry_in entry.now) at n read name }
{
    match entry {
        Entry::Prepare(other, stamp) => {
            is_same(*other, name) && (at < n && is_admitted(read, *stamp))
        }
        _ => false,
    }
}

/// Whether a transaction in this phase was decided and has not ended.
pub(crate) fn is_ending(phase: Phase) -> bool
    ensures { result ≡ is_ending (phase_in phase) }
{
    match phase {
        Phase::Resolving => true,
        Phase::Leaving => true,
        _ => false,
    }
}

fn is_holding(session: usize, table: u32, key: &Item, other: usize, x: &Transaction) -> bool
    ensures { result ≡ is_holding session table key.now other (transaction_in x.now) }
{
    other != session && (is_written(x, table, key) && !is_ending(x.phase))
}

fn is_met(
    m: &Machine,
    session: usize,
    t: &Transaction,
    table: u32,
    key: &Item,
    other: usize,
    x: &Transaction,
) -> bool
    ensures { result ≡ is_met (machine_in m.now) session (transaction_in t.now) table key.now other (transaction_in x.now) }
{
    let name = Name {
        run: m.run,
        id: x.id,
    };
    is_holding(session, table, key, other, x) && is_prepared(&m.history, t.start, t.read, name)
}

fn find_met(
    m: &Machine,
    session: usize,
    t: &Transaction,
    table: u32,
    key: &Item,
    sessions: &[Option<Transaction>],
    at: usize,
) -> Option<u64>
    requires { at + length sessions.now < 2 ^ 64 }
    ensures { result ≡ first_id (is_met (machine_in m.now) session (transaction_in t.now) table key.now) at (sessions_in sessions.now) }
{
    match sessions.split_first() {
        None => None,
        Some((None, later)) => find_met(m, session, t, table, key, later, at + 1),
        Some((Some(x), later)) => {
            if is_met(m, session, t, table, key, at, x) {
                Some(x.id)
            } else {
                find_met(m, session, t, table, key, later, at + 1)
            }
        }
    }
}

fn find_holder(
    session: usize,
    table: u32,
    key: &Item,
    sessions: &[Option<Transaction>],
    at: usize,
) -> Option<u64>
    requires { at + length sessions.now < 2 ^ 64 }
    ensures { result ≡ first_id (is_holding session table key.now) at (sessions_in sessions.now) }
{
    match sessions.split_first() {
        None => None,
        Some((None, later)) => find_holder(session, table, key, later, at + 1),
        Some((Some(x), later)) => {
            if is_holding(session, table, key, at, x) {
                Some(x.id)
            } else {
                find_holder(session, table, key, later, at + 1)
            }
        }
    }
}

fn read_others<'a>(
    m: &'a Machine,
    session: usize,
    t: &Transaction,
    table: u32,
    key: &Item,
) -> Reading<'a>
    ensures { read_in result ≡ read_of_others (machine_in m.now) session (transaction_in t.now) table key.now }
{
    match find_met(m, session, t, table, key, &m.sessions, 0) {
        Some(id) => Reading::Conflict(id),
        None => Reading::Value(value(&m.history, t.start, t.read, table, key)),
    }
}

fn chosen_read<'a>(
    m: &'a Machine,
    session: usize,
    t: &'a Transaction,
    table: u32,
    key: &Item,
) -> Reading<'a>
    ensures { read_in result ≡ read_of (machine_in m.now) session (transaction_in t.now) table key.now }
{
    match own_write(&t.writes, table, key) {
        Some(write) => Reading::Value(put_in(&write.change)),
        None => read_others(m, session, t, table, key),
    }
}

/// What a read of the key answers a transaction of this session: its own write, else a conflict
/// with a transaction that it meets and that is not decided, else the value that its snapshot and
/// its read stamp admit.
pub(crate) fn read<'a>(
    m: &'a Machine,
    session: usize,
    t: &'a Transaction,
    table: u32,
    key: &Item,
) -> Reading<'a>
    ensures chosen { read_in result ≡ read_of (machine_in m.now) session (transaction_in t.now) table key.now }
    ensures answers { ReadAnswer (machine_in m.now) session (transaction_in t.now) table key.now (read_in result) }
{
    chosen_read(m, session, t, table, key)
}

/// The answer to a call that reads so.
pub(crate) fn outcome_of(found: Reading<'_>) -> Result<Outcome, NoMemory>
    ensures { IfOk result (λ r. outcome_in r ≡ read_answer (read_in found.entry)) }
{
    match found {
        Reading::Value(Some(v)) => Ok(Outcome::Gives(v.copy()?)),
        Reading::Value(None) => Ok(Outcome::Refused(Refusal::NotFound)),
        Reading::Conflict(id) => Ok(Outcome::Refused(Refusal::PrepareConflict { id })),
    }
}

fn is_seen(m: &Machine, t: &Transaction, found: &Found<'_>) -> bool
    ensures { result ≡ admits (machine_in m.now).history t.now.start t.now.read (version_in found.now) }
{
    is_released(&m.history, t.start, found.name) && is_admitted(t.read, found.write.commit)
}

fn unseen(m: &Machine, t: &Transaction, table: u32, key: &Item) -> Option<Name>
    ensures { result ≡ unseen (machine_in m.now) (transaction_in t.now) (line (machine_in m.now).history table key.now) }
{
    match newest(&m.history, table, key) {
        None => None,
        Some(found) => {
            if is_seen(m, t, &found) {
                None
            } else {
                Some(found.name)
            }
        }
    }
}

fn refused_by_others(
    m: &Machine,
    session: usize,
    t: &Transaction,
    table: u32,
    key: &Item,
) -> Option<Name>
    ensures { result ≡ refusal_of_others (machine_in m.now) session (transaction_in t.now) table key.now }
{
    match find_holder(session, table, key, &m.sessions, 0) {
        Some(id) => Some(Name { run: m.run, id }),
        None => unseen(m, t, table, key),
    }
}

fn chosen_refusal(
    m: &Machine,
    session: usize,
    t: &Transaction,
    table: u32,
    key: &Item,
) -> Option<Name>
    ensures { result ≡ refusal_of (machine_in m.now) session (transaction_in t.now) table key.now }
{
    match own_write(&t.writes, table, key) {
        Some(_) => None,
        None => refused_by_others(m, session, t, table, key),
    }
}

/// The name of the newest update for which a write of the key is refused to a transaction of this
/// session, or none where it is accepted.
pub(crate) fn write_refusal(
    m: &Machine,
    session: usize,
    t: &Transaction,
    table: u32,
    key: &Item,
) -> Option<Name>
    ensures chosen { result ≡ refusal_of (machine_in m.now) session (transaction_in t.now) table key.now }
    ensures answers { MayWriteUnless (machine_in m.now) session (transaction_in t.now) table key.now result }
{
    chosen_refusal(m, session, t, table, key)
}
