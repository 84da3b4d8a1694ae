// Whole calls of one key.

ghost use Rattle.std.specs.Prelude.{◌≡◌, true, option_map, Some, IfOk};
ghost use Rattle.kv_model.specs.History.{tables, named};
ghost use Rattle.kv_model.specs.Machine.{transaction_of};
ghost use Rattle.kv_model.specs.Reads.{present as found_present};
ghost use Rattle.kv_model.specs.Decisions.{is_there, unmet as unmet_by, WriteAnswer};
ghost use Rattle.kv_model.specs.Calls as model;
ghost use Rattle.wt_calls.specs.Calls.{demand_in};
ghost use Rattle.kv_plain.specs.Plain.{table_in};
ghost use Rattle.kv_plain.specs.Machine.{transaction_in, machine_in};
ghost use Rattle.kv_plain.specs.Outcome.{outcome_in, Judges};
ghost use Rattle.kv_plain.specs.Calls.{Leads, LooksUp, Changes, WritesKey, IsFound};

use crate::after::apply;
use crate::decisions::{decide_find, decide_write, table_named, transaction_at};
use crate::event::{Decision, Event, Turn};
use crate::history::Table;
use crate::looks::{put_in, value};
use crate::machine::{Machine, Transaction};
use crate::outcome::Outcome;
use crate::reads::{outcome_of, own_write, read, write_refusal};
use failure::NoMemory;
use item::{Change, Item};
use std::alloc::Global;
use wt_calls::Demand;
use wt_code::Refusal;

/// The session's transaction.
pub(crate) fn seated(m: &Machine, session: usize) -> &Transaction
    requires { is_there (transaction_of (machine_in m.now) session) ≡ true }
    ensures { transaction_of (machine_in m.now) session ≡ Some (transaction_in result.now) }
{
    match transaction_at(m, session) {
        Some(t) => t,
        None => unreachable!(),
    }
}

/// The table of this name.
pub(crate) fn known_table<'a>(m: &'a Machine, name: &Item) -> &'a Table
    requires { is_there (named name.now (tables (machine_in m.now).history)) ≡ true }
    ensures { named name.now (tables (machine_in m.now).history) ≡ Some (table_in result.now) }
{
    match table_named(&m.history, name) {
        Some(table) => table,
        None => unreachable!(),
    }
}

/// The answer to a read whose leaf was found.
fn read_found(m: &Machine, session: usize, table: &Item, key: &Item) -> Result<Outcome, NoMemory>
    requires { IsFound (machine_in m.now) session table.now }
    ensures { IfOk result (λ r. LooksUp session table.now key.now (machine_in m.now) (outcome_in r)) }
{
    let t = seated(m, session);
    let number = known_table(m, table).number;
    outcome_of(read(m, session, t, number, key))
}

/// Get.
pub(crate) fn get(
    alloc: Global,
    m: Machine,
    session: usize,
    table: Item,
    key: Item,
) -> Result<Turn, NoMemory>
    ensures { Leads (model.Decided (machine_in m) session (model.GetKey table key)) result }
{
    let Decision { outcome, event } = decide_find(&m, session, &table, &key);
    match outcome {
        Outcome::Done => {
            let machine = apply(alloc, m, event)?;
            let outcome = read_found(&machine, session, &table, &key)?;
            Ok(Turn { outcome, machine })
        }
        outcome => Ok(Turn {
            outcome,
            machine: m,
        }),
    }
}

/// What the transaction finds at a key that it may write.
fn present<'a>(m: &'a Machine, t: &'a Transaction, table: u32, key: &Item) -> Option<&'a Item>
    ensures { option_map (λ i. i.now) result ≡ found_present (machine_in m.now) (transaction_in t.now) table key.now }
{
    match own_write(&t.writes, table, key) {
        Some(write) => put_in(&write.change),
        None => value(&m.history, t.start, t.read, table, key),
    }
}

fn unmet(demand: Demand, found: Option<&Item>) -> Option<Refusal>
    ensures { result ≡ unmet_by (demand_in demand) (option_map (λ i. i.now) found.entry) }
{
    match (demand, found) {
        (Demand::Vacant, Some(_)) => Some(Refusal::DuplicateKey),
        (Demand::Occupied, None) => Some(Refusal::NotFound),
        _ => None,
    }
}

/// The answer to a write of a transaction and a table, and its event.
fn judge_change(
    m: &Machine,
    session: usize,
    t: &Transaction,
    table: u32,
    key: Item,
    change: Change,
    demand: Demand,
) -> Decision
    ensures { Judges (WriteAnswer (machine_in m.now) session (transaction_in t.now) table key change (demand_in demand)) result }
{
    match write_refusal(m, session, t, table, &key) {
        Some(name) => Decision {
            outcome: Outcome::Refused(Refusal::Rollback {
                run: name.run,
                id: name.id,
            }),
            event: Event::RefuseWrite(session),
        },
        None => match unmet(demand, present(m, t, table, &key)) {
            Some(refusal) => Decision {
                outcome: Outcome::Refused(refusal),
                event: Event::Nothing,
            },
            None => Decision {
                outcome: Outcome::Done,
                event: Event::AcceptWrite(session, table, key, change),
            },
        },
    }
}

/// The answer to a write whose leaf was found, and its event.
fn judge_found(
    m: &Machine,
    session: usize,
    table: &Item,
    key: Item,
    change: Change,
    demand: Demand,
) -> Decision
    requires { IsFound (machine_in m.now) session table.now }
    ensures { Judges (Changes session table.now key change (demand_in demand) (machine_in m.now)) result }
{
    let t = seated(m, session);
    let number = known_table(m, table).number;
    judge_change(m, session, t, number, key, change, demand)
}

/// Put, or Remove.
fn write(
    alloc: Global,
    m: Machine,
    session: usize,
    table: Item,
    key: Item,
    change: Change,
    demand: Demand,
) -> Result<Turn, NoMemory>
    ensures { Leads (WritesKey (machine_in m) session table key change (demand_in demand)) result }
{
    let Decision { outcome, event } = decide_write(&m, session, &table, &key, &change);
    match outcome {
        Outcome::Done => {
            let found = apply(alloc, m, event)?;
            let Decision { outcome, event } = judge_found(
                &found, session, &table, key, change, demand,
            );
            let machine = apply(alloc, found, event)?;
            Ok(Turn { outcome, machine })
        }
        outcome => Ok(Turn {
            outcome,
            machine: m,
        }),
    }
}

/// Put.
pub(crate) fn put(
    alloc: Global,
    m: Machine,
    session: usize,
    table: Item,
    key: Item,
    value: Item,
    demand: Demand,
) -> Result<Turn, NoMemory>
    ensures { Leads (model.Decided (machine_in m) session (model.PutKey table key value (demand_in demand))) result }
{
    write(alloc, m, session, table, key, Change::Put(value), demand)
}

/// Remove.
pub(crate) fn remove(
    alloc: Global,
    m: Machine,
    session: usize,
    table: Item,
    key: Item,
) -> Result<Turn, NoMemory>
    ensures { Leads (model.Decided (machine_in m) session (model.RemoveKey table key)) result }
{
    let demand = Demand::Occupied;
    write(alloc, m, session, table, key, Change::Remove, demand)
}
