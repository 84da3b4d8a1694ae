// What each call answers where the machine determines it, with the event that it makes.

ghost use Rattle.std.specs.Prelude.{◌≡◌, ◌+◌, ◌≤◌, not, nat_lt, nat_le, true, [], ◌∷◌, length, option_map, IfOk, if◌then◌else◌};
ghost use Rattle.kv_model.specs.History.{Table as ModelTable, created, tables, named};
ghost use Rattle.kv_model.specs.Machine as model;
ghost use Rattle.kv_model.specs.Decisions as answer;
ghost use Rattle.kv_model.specs.Holds.{Member};
ghost use Rattle.kv_model.specs.Calls.{IsTableFor, evict_decision};
ghost use Rattle.kv_model.specs.Rows.{reset_decision};
ghost use Rattle.kv_plain.specs.Plain.{table_in, entry_in, history_in};
ghost use Rattle.kv_plain.specs.Machine.{phase_in, transaction_in, sessions_in, machine_in};
ghost use Rattle.kv_plain.specs.Outcome.{outcome_in, event_in, decision_in};
ghost use Rattle.kv_plain.specs.Checks.{check_in};
ghost use Rattle.kv_plain.specs.Decisions.{storing_in, run_or, created_with, create_of, roll_back_beside, start_beside};

use crate::checks::{
    Check, begin_rules, checked, commit_rules, durable_below, invalid, is_name, or_stamp,
    prepare_rules, refused, resolve_rules, ruled, set_rules, stamp_of,
};
use crate::event::{Decision, Event};
use crate::history::{Entry, Table};
use crate::machine::{Machine, Phase, Transaction};
use crate::outcome::Outcome;
use failure::NoMemory;
use item::{Change, Format, Formats, Item};
use limits::{KEY_MAX, NUMBER_MAX, SESSIONS_MAX, TABLES_MAX, VALUE_MAX};
use wt_code::{Busy, Fault, Invalid, Limit, Refusal};

/// How the device takes what a step or the finish of a checkpoint, or Close, writes.
#[derive(Clone, Copy, PartialEq, Eq, Debug)]
pub enum Storing {
    /// It has all of it.
    Stored,
    /// A block found no place.
    NoPlace,
    /// A read failed.
    ReadFailed,
    /// What was read at this offset in bytes is damaged: the sum that is wanted and that of the
    /// bytes.
    Damaged { offset: u64, want: u32, found: u32 },
    /// This write or sync failed, and the machine is down.
    WriteFailed(Fault),
}

/// The session's transaction.
pub(crate) fn transaction_at(m: &Machine, session: usize) -> Option<&Transaction>
    ensures { option_map (λ t. transaction_in t.now) result ≡ model.transaction_of (machine_in m.now) session }
{
    match m.sessions.get(session) {
        Some(Some(t)) => Some(t),
        _ => None,
    }
}

/// The table of this name.
pub(crate) fn table_named<'a>(history: &'a [Entry], name: &Item) -> Option<&'a Table>
    ensures { option_map (λ t. table_in t.now) result ≡ named name.now (tables (history_in history.now)) }
{
    match history.split_first() {
        None => None,
        Some((Entry::Create(table), older)) => {
            if table.name.same(name) {
                Some(table)
            } else {
                table_named(older, name)
            }
        }
        Some((_, older)) => table_named(older, name),
    }
}

/// How many tables there are.
pub(crate) fn table_count(history: &[Entry]) -> usize
    ensures count { result ≡ length (tables (history_in history.now)) }
    ensures bound { result ≤ length history.now }
{
    match history.split_first() {
        None => 0,
        Some((Entry::Create(_), older)) => table_count(older) + 1,
        Some((_, older)) => table_count(older),
    }
}

fn done(event: Event) -> Decision
    ensures { decision_in result ≡ (answer.Done, event_in event) }
{
    Decision {
        outcome: Outcome::Done,
        event,
    }
}

fn while_up(m: &Machine, go: Decision) -> Decision
    ensures { decision_in result ≡ answer.while_up (machine_in m.now) (decision_in go) }
{
    match m.fault {
        None => go,
        Some(fault) => refused(Refusal::Panic { fault }),
    }
}

fn running(m: &Machine, session: usize) -> Result<&Transaction, Invalid>
    ensures { (go : model.Transaction → answer.Outcome × model.Event) → answer.running_session (machine_in m.now) session go ≡ run_or go result }
{
    match transaction_at(m, session) {
        None => Err(Invalid::NoTxn),
        Some(t) => match t.phase {
            Phase::Running => Ok(t),
            Phase::Failed => Err(Invalid::FailedTxn),
            Phase::Leaving => Err(Invalid::FailedTxn),
            Phase::Prepared(_) => Err(Invalid::Prepared),
            Phase::Resolving => Err(Invalid::Prepared),
        },
    }
}

fn count(sessions: &[Option<Transaction>]) -> usize
    ensures { result ≡ length (sessions_in sessions.now) }
{
    sessions.len()
}

fn session_check(m: &Machine) -> Check
    ensures { check_in result ≡ (nat_le 64 (length (machine_in m.now).sessions), Refusal.Limit Limit.Sessions) }
{
    Check {
        holds: SESSIONS_MAX <= count(&m.sessions),
        refusal: Refusal::Limit(Limit::Sessions),
    }
}

/// The opening of a session.
pub(crate) fn decide_open(m: &Machine) -> Decision
    ensures { decision_in result ≡ answer.decision (machine_in m.now) 0 answer.OpenCall }
{
    while_up(m, checked(&[session_check(m)], done(Event::OpenSession)))
}

fn judge_begin(m: &Machine, session: usize, read: Option<u64>) -> Decision
    ensures { decision_in result ≡ answer.judged (machine_in m.now) session (answer.BeginCall read) }
{
    match transaction_at(m, session) {
        Some(_) => invalid(Invalid::InTxn),
        None => ruled(
            &begin_rules(m.oldest, read),
            Event::Begin(session, stamp_of(read)),
            Event::Nothing,
        ),
    }
}

/// Begin, at a read stamp.
pub(crate) fn decide_begin(m: &Machine, session: usize, read: Option<u64>) -> Decision
    ensures { decision_in result ≡ answer.decision (machine_in m.now) session (answer.BeginCall read) }
{
    while_up(m, judge_begin(m, session, read))
}

fn judge_prepare(m: &Machine, session: usize, stamp: u64) -> Decision
    ensures { decision_in result ≡ answer.judged (machine_in m.now) session (answer.PrepareCall stamp) }
{
    match running(m, session) {
        Err(reason) => invalid(reason),
        Ok(_) => ruled(
            &prepare_rules(m.stable, stamp),
            Event::Prepare(session, stamp),
            Event::Nothing,
        ),
    }
}

/// Prepare, at a stamp.
pub(crate) fn decide_prepare(m: &Machine, session: usize, stamp: u64) -> Decision
    ensures { decision_in result ≡ answer.decision (machine_in m.now) session (answer.PrepareCall stamp) }
{
    while_up(m, judge_prepare(m, session, stamp))
}

fn decide_decided(
    m: &Machine,
    session: usize,
    t: &Transaction,
    commit: Option<u64>,
    durable: Option<u64>,
) -> Decision
    ensures { decision_in result ≡ answer.commit_decision (phase_in t.now.phase) (machine_in m.now) session (transaction_in t.now) commit durable }
{
    let at = stamp_of(commit);
    let prev = durable_below(m, &t.writes);
    match t.phase {
        Phase::Running => ruled(
            &commit_rules(m.oldest, m.stable, commit, durable, prev),
            Event::Commit(session, at, at),
            Event::StartLeaving(session),
        ),
        Phase::Prepared(p) => ruled(
            &resolve_rules(m.oldest, m.stable, p, commit, durable, prev),
            Event::Commit(session, at, or_stamp(stamp_of(durable), at)),
            Event::Nothing,
        ),
        Phase::Failed => invalid(Invalid::FailedTxn),
        Phase::Resolving => resumes(),
        Phase::Leaving => resumes(),
    }
}

fn resumes() -> Decision
    ensures { decision_in result ≡ (answer.Resumes, model.Nothing) }
{
    Decision {
        outcome: Outcome::Resumes,
        event: Event::Nothing,
    }
}

fn judge_commit(m: &Machine, session: usize, commit: Option<u64>, durable: Option<u64>) -> Decision
    ensures { decision_in result ≡ answer.judged (machine_in m.now) session (answer.CommitCall commit durable) }
{
    match transaction_at(m, session) {
        None => invalid(Invalid::NoTxn),
        Some(t) => decide_decided(m, session, t, commit, durable),
    }
}

/// Commit, at a commit and a durable stamp.
pub(crate) fn decide_commit(
    m: &Machine,
    session: usize,
    commit: Option<u64>,
    durable: Option<u64>,
) -> Decision
    ensures { decision_in result ≡ answer.decision (machine_in m.now) session (answer.CommitCall commit durable) }
{
    while_up(m, judge_commit(m, session, commit, durable))
}

fn decide_left(session: usize, phase: Phase) -> Decision
    ensures { decision_in result ≡ answer.rollback_decision (phase_in phase) session }
{
    match phase {
        Phase::Resolving => resumes(),
        Phase::Leaving => resumes(),
        _ => done(Event::StartLeaving(session)),
    }
}

fn judge_rollback(m: &Machine, session: usize) -> Decision
    ensures { decision_in result ≡ answer.judged (machine_in m.now) session answer.RollbackCall }
{
    match transaction_at(m, session) {
        None => invalid(Invalid::NoTxn),
        Some(t) => decide_left(session, t.phase),
    }
}

/// Whether the first event of its rollback is on a page.
fn undoes_first(t: &Transaction) -> bool
    ensures { result ≡ answer.undoes_first (transaction_in t.now).phase (transaction_in t.now).writes }
{
    match t.phase {
        Phase::Running => !t.writes.is_empty(),
        Phase::Failed => !t.writes.is_empty(),
        _ => false,
    }
}

fn is_on_page(m: &Machine, session: usize) -> bool
    ensures { result ≡ answer.is_on_page (machine_in m.now) session answer.RollbackCall }
{
    match transaction_at(m, session) {
        None => false,
        Some(t) => undoes_first(t),
    }
}

/// Rollback. A machine that is down does not refuse its first event where that is on a page.
pub(crate) fn decide_rollback(m: &Machine, session: usize) -> Decision
    ensures { decision_in result ≡ answer.decision (machine_in m.now) session answer.RollbackCall }
{
    let go = judge_rollback(m, session);
    if is_on_page(m, session) {
        go
    } else {
        while_up(m, go)
    }
}

/// The last event of a commit or rollback that was decided, with its answer.
pub(crate) fn decide_end(m: &Machine, session: usize, decided: Outcome) -> Decision
    ensures { decision_in result ≡ answer.decision (machine_in m.now) session (answer.EndCall (outcome_in decided)) }
{
    let event = Event::EndTransaction(session);
    while_up(
        m,
        Decision {
            outcome: decided,
            event,
        },
    )
}

fn name_check(name: &Item) -> Check
    ensures { check_in result ≡ (not (answer.is_name name.now), Refusal.Invalid Invalid.BadName) }
{
    Check {
        holds: !is_name(name.as_bytes()),
        refusal: Refusal::Invalid(Invalid::BadName),
    }
}

fn key_check(key: &Item) -> Check
    ensures { check_in result ≡ (nat_lt KEY_MAX (length key.now), Refusal.Invalid (Invalid.KeyLong (length key.now))) }
{
    Check {
        holds: KEY_MAX < key.len(),
        refusal: Refusal::Invalid(Invalid::KeyLong {
            len: key.len() as u64,
        }),
    }
}

fn value_len(change: &Change) -> usize
    ensures { result ≡ answer.value_length change.now }
{
    match change {
        Change::Put(value) => value.len(),
        Change::Remove => 0,
    }
}

fn value_check(change: &Change) -> Check
    ensures { check_in result ≡ (nat_lt VALUE_MAX (answer.value_length change.now), Refusal.Invalid (Invalid.ValueLong (answer.value_length change.now))) }
{
    let len = value_len(change);
    Check {
        holds: VALUE_MAX < len,
        refusal: Refusal::Invalid(Invalid::ValueLong { len: len as u64 }),
    }
}

fn table_check(m: &Machine, name: &Item) -> Check
    ensures { check_in result ∷ [] ≡ answer.table_checks (machine_in m.now) name.now }
{
    Check {
        holds: table_named(&m.history, name).is_none(),
        refusal: Refusal::NoTable,
    }
}

fn judge_find(m: &Machine, session: usize, table: &Item, key: &Item) -> Decision
    ensures { decision_in result ≡ answer.judged (machine_in m.now) session (answer.FindKey table.now key.now) }
{
    match running(m, session) {
        Err(reason) => invalid(reason),
        Ok(_) => checked(
            &[name_check(table), key_check(key), table_check(m, table)],
            done(Event::Nothing),
        ),
    }
}

/// The first event of Get and Seek.
pub(crate) fn decide_find(m: &Machine, session: usize, table: &Item, key: &Item) -> Decision
    ensures { decision_in result ≡ answer.decision (machine_in m.now) session (answer.FindKey table.now key.now) }
{
    while_up(m, judge_find(m, session, table, key))
}

/// Evict of the leaf of a key, which changes nothing that a call can see.
pub(crate) fn decide_evict(m: &Machine, table: &Item, key: &Item) -> Decision
    ensures { decision_in result ≡ evict_decision (machine_in m.now) table.now key.now }
{
    let checks = [name_check(table), key_check(key), table_check(m, table)];
    while_up(m, checked(&checks, done(Event::Nothing)))
}

fn decide_id(m: &Machine, session: usize, t: &Transaction) -> Decision
    ensures { decision_in result ≡ answer.id_drawn (machine_in m.now) session (transaction_in t.now) }
{
    if t.id == 0 {
        let spent = Check {
            holds: NUMBER_MAX < m.next,
            refusal: Refusal::Limit(Limit::Ids),
        };
        checked(&[spent], done(Event::DrawId(session)))
    } else {
        done(Event::Nothing)
    }
}

fn judge_write(m: &Machine, session: usize, table: &Item, key: &Item, change: &Change) -> Decision
    ensures { decision_in result ≡ answer.judged (machine_in m.now) session (answer.FindToWrite table.now key.now change.now) }
{
    match running(m, session) {
        Err(reason) => invalid(reason),
        Ok(t) => checked(
            &[
                name_check(table),
                key_check(key),
                value_check(change),
                table_check(m, table),
            ],
            decide_id(m, session, t),
        ),
    }
}

/// The first event of Put and Remove.
pub(crate) fn decide_write(
    m: &Machine,
    session: usize,
    table: &Item,
    key: &Item,
    change: &Change,
) -> Decision
    ensures { decision_in result ≡ answer.decision (machine_in m.now) session (answer.FindToWrite table.now key.now change.now) }
{
    while_up(m, judge_write(m, session, table, key, change))
}

fn judge_row(m: &Machine, session: usize, table: &Item) -> Decision
    ensures { decision_in result ≡ answer.judged (machine_in m.now) session (answer.FindRow table.now) }
{
    match running(m, session) {
        Err(reason) => invalid(reason),
        Ok(_) => checked(
            &[name_check(table), table_check(m, table)],
            done(Event::Nothing),
        ),
    }
}

/// The first event of NextRow and PrevRow.
pub(crate) fn decide_row(m: &Machine, session: usize, table: &Item) -> Decision
    ensures { decision_in result ≡ answer.decision (machine_in m.now) session (answer.FindRow table.now) }
{
    while_up(m, judge_row(m, session, table))
}

/// Reset of a cursor. A machine that is down does not refuse it.
pub(crate) fn decide_reset(m: &Machine, session: usize, cursor: usize) -> Decision
    ensures { decision_in result ≡ reset_decision (machine_in m.now) session cursor }
{
    match running(m, session) {
        Err(reason) => invalid(reason),
        Ok(_) => done(Event::PlaceCursor(session, cursor, None)),
    }
}

fn same_format(a: Format, b: Format) -> bool
    ensures { result ≡ answer.same_format a b }
{
    match (a, b) {
        (Format::S, Format::S) => true,
        (Format::U, Format::U) => true,
        _ => false,
    }
}

fn same_formats(a: Formats, b: Formats) -> bool
    ensures { result ≡ answer.same_formats a b }
{
    same_format(a.key, b.key) && same_format(a.value, b.value)
}

fn decide_created(known: usize, table: Table, old: Option<Formats>) -> Decision
    ensures { decision_in result ≡ created_with known (table_in table) old }
{
    match old {
        None => {
            let full = Check {
                holds: TABLES_MAX <= known,
                refusal: Refusal::Limit(Limit::Tables),
            };
            checked(&[full], done(Event::CreateTable(table)))
        }
        Some(formats) => {
            if same_formats(table.formats, formats) {
                done(Event::Nothing)
            } else {
                refused(Refusal::Exists)
            }
        }
    }
}

fn formats_named(m: &Machine, name: &Item) -> Option<Formats>
    ensures { result ≡ option_map (λ (t : ModelTable). t.formats) (named name.now (tables (machine_in m.now).history)) }
{
    match table_named(&m.history, name) {
        None => None,
        Some(table) => Some(table.formats),
    }
}

fn judge_created(m: &Machine, table: Table) -> Decision
    ensures { decision_in result ≡ create_of (machine_in m.now) (table_in table) }
{
    let old = formats_named(m, &table.name);
    decide_created(table_count(&m.history), table, old)
}

/// The number of the table that the entry makes, 0 where it makes none.
fn number_of(entry: &Entry) -> u32
    ensures { (t : ModelTable) → Member t (created (entry_in entry.now ∷ [])) → t.number ≤ result }
{
    match entry {
        Entry::Create(table) => table.number,
        _ => 0,
    }
}

/// The greatest number of a table that was ever made, 0 where none was.
fn greatest_number(history: &[Entry]) -> u32
    ensures { (t : ModelTable) → Member t (created (history_in history.now)) → t.number ≤ result }
{
    match history.split_first() {
        None => 0,
        Some((entry, older)) => number_of(entry).max(greatest_number(older)),
    }
}

/// The table that Create would make, its number one above the greatest.
pub(crate) fn new_table(m: &Machine, name: Item, formats: Formats) -> Result<Table, NoMemory>
    ensures { IfOk result (λ t. IsTableFor (machine_in m.now) name formats (table_in t)) }
{
    match greatest_number(&m.history).checked_add(1) {
        None => Err(NoMemory),
        Some(number) => Ok(Table {
            number,
            name,
            formats,
        }),
    }
}

/// Create of a table, which bears the number that a new one would have.
pub(crate) fn decide_create(m: &Machine, table: Table) -> Decision
    ensures { decision_in result ≡ answer.decision (machine_in m.now) 0 (answer.CreateCall (table_in table)) }
{
    let bad = name_check(&table.name);
    while_up(m, checked(&[bad], judge_created(m, table)))
}

/// New stamps.
pub(crate) fn decide_set(m: &Machine, oldest: Option<u64>, stable: Option<u64>) -> Decision
    ensures { decision_in result ≡ answer.decision (machine_in m.now) 0 (answer.SetCall oldest stable) }
{
    let event = Event::SetStamps(stamp_of(oldest), stamp_of(stable));
    while_up(
        m,
        ruled(
            &set_rules(m.oldest, m.stable, oldest, stable),
            event,
            Event::Nothing,
        ),
    )
}

/// The number of the next session.
pub(crate) fn session_after(at: u32) -> Result<u32, NoMemory>
    ensures { IfOk result (λ r. r ≡ at + 1) }
{
    match at.checked_add(1) {
        None => Err(NoMemory),
        Some(next) => Ok(next),
    }
}

fn first_active(sessions: &[Option<Transaction>], at: u32) -> Result<Option<u32>, NoMemory>
    ensures { IfOk result (λ r. r ≡ answer.first_session (λ t. true) at (sessions_in sessions.now)) }
{
    match sessions.split_first() {
        None => Ok(None),
        Some((None, later)) => first_active(later, session_after(at)?),
        Some((Some(_), _)) => Ok(Some(at)),
    }
}

fn is_resolving(phase: Phase) -> bool
    ensures { result ≡ answer.is_resolving (phase_in phase) }
{
    match phase {
        Phase::Resolving => true,
        _ => false,
    }
}

fn first_resolving(sessions: &[Option<Transaction>], at: u32) -> Result<Option<u32>, NoMemory>
    ensures { IfOk result (λ r. r ≡ answer.first_session (λ t. answer.is_resolving t.phase) at (sessions_in sessions.now)) }
{
    match sessions.split_first() {
        None => Ok(None),
        Some((None, later)) => first_resolving(later, session_after(at)?),
        Some((Some(t), later)) => {
            if is_resolving(t.phase) {
                Ok(Some(at))
            } else {
                first_resolving(later, session_after(at)?)
            }
        }
    }
}

fn running_check(m: &Machine) -> Check
    ensures { check_in result ≡ (answer.is_there (machine_in m.now).checkpoint, Refusal.Busy Busy.Checkpoint) }
{
    Check {
        holds: m.checkpoint.is_some(),
        refusal: Refusal::Busy(Busy::Checkpoint),
    }
}

fn decide_idle(m: &Machine, active: Option<u32>) -> Decision
    ensures { decision_in result ≡ roll_back_beside (machine_in m.now) active }
{
    match active {
        Some(session) => refused(Refusal::Busy(Busy::Active(session))),
        None => {
            let spent = Check {
                holds: NUMBER_MAX <= m.rollbacks,
                refusal: Refusal::Limit(Limit::Rollbacks),
            };
            checked(&[running_check(m), spent], done(Event::RollbackToStable))
        }
    }
}

/// Rollback to stable.
pub(crate) fn decide_rts(m: &Machine) -> Result<Decision, NoMemory>
    ensures { IfOk result (λ d. decision_in d ≡ answer.decision (machine_in m.now) 0 answer.RtsCall) }
{
    let active = first_active(&m.sessions, 0)?;
    Ok(while_up(m, decide_idle(m, active)))
}

fn decide_started(resolving: Option<u32>, number: u64) -> Decision
    ensures { decision_in result ≡ start_beside number resolving }
{
    match resolving {
        Some(session) => refused(Refusal::Busy(Busy::Resolving(session))),
        None => {
            let spent = Check {
                holds: NUMBER_MAX <= number,
                refusal: Refusal::Limit(Limit::Checkpoints),
            };
            checked(&[spent], done(Event::CheckpointStart))
        }
    }
}

/// The start of a checkpoint; `number` is that of the last completed one, 0 where there is none.
pub(crate) fn decide_start(m: &Machine, number: u64) -> Result<Decision, NoMemory>
    ensures { IfOk result (λ d. decision_in d ≡ answer.decision (machine_in m.now) 0 (answer.StartCall number)) }
{
    let resolving = first_resolving(&m.sessions, 0)?;
    let go = decide_started(resolving, number);
    Ok(while_up(m, checked(&[running_check(m)], go)))
}

fn none_check(m: &Machine) -> Check
    ensures { check_in result ∷ [] ≡ answer.running_checkpoint (machine_in m.now) }
{
    Check {
        holds: m.checkpoint.is_none(),
        refusal: Refusal::Invalid(Invalid::NoCkpt),
    }
}

fn goes_on(left: bool) -> Decision
    ensures { decision_in result ≡ (if left then answer.Done else answer.End, model.Nothing) }
{
    if left {
        done(Event::Nothing)
    } else {
        Decision {
            outcome: Outcome::End,
            event: Event::Nothing,
        }
    }
}

fn left_or_end(left: bool) -> Decision
    ensures { decision_in result ≡ (answer.left_or_end left, model.Nothing) }
{
    if left {
        Decision {
            outcome: Outcome::Left,
            event: Event::Nothing,
        }
    } else {
        Decision {
            outcome: Outcome::End,
            event: Event::Nothing,
        }
    }
}

/// The first event of a step of a checkpoint; `left`: a leaf of its tables is not captured yet.
pub(crate) fn decide_step(m: &Machine, left: bool) -> Decision
    ensures { decision_in result ≡ answer.decision (machine_in m.now) 0 (answer.StepCall left) }
{
    while_up(m, checked(&[none_check(m)], goes_on(left)))
}

fn stored_as(storing: Storing, go: Decision) -> Decision
    ensures { decision_in result ≡ answer.stored_as (storing_in storing) (decision_in go) }
{
    match storing {
        Storing::Stored => go,
        Storing::NoPlace => Decision {
            outcome: Outcome::Refused(Refusal::NoSpace),
            event: Event::CheckpointDrop,
        },
        Storing::ReadFailed => refused(Refusal::DiskFault),
        Storing::Damaged {
            offset,
            want,
            found,
        } => refused(Refusal::Corrupt {
            offset,
            want,
            found,
        }),
        Storing::WriteFailed(fault) => Decision {
            outcome: Outcome::Refused(Refusal::DiskFault),
            event: Event::GoDown(fault),
        },
    }
}

/// The last event of a step that found a leaf; `left`: another one is not captured yet.
pub(crate) fn decide_capture(m: &Machine, left: bool, storing: Storing) -> Decision
    ensures { decision_in result ≡ answer.decision (machine_in m.now) 0 (answer.CaptureCall left (storing_in storing)) }
{
    while_up(
        m,
        checked(&[none_check(m)], stored_as(storing, left_or_end(left))),
    )
}

/// The finish of a checkpoint; `left`: a leaf of its tables is not captured yet.
pub(crate) fn decide_finish(m: &Machine, left: bool, storing: Storing) -> Decision
    ensures { decision_in result ≡ answer.decision (machine_in m.now) 0 (answer.FinishCall left (storing_in storing)) }
{
    let kept = Check {
        holds: left,
        refusal: Refusal::Invalid(Invalid::CkptLeft),
    };
    let go = stored_as(storing, done(Event::CheckpointFinish));
    while_up(m, checked(&[none_check(m), kept], go))
}
