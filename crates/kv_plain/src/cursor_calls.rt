// Whole calls that move a cursor.

ghost use Rattle.std.specs.Prelude.{IfOk};
ghost use Rattle.kv_model.specs.Calls as model;
ghost use Rattle.kv_plain.specs.Machine.{machine_in};
ghost use Rattle.wt_calls.specs.Calls.{way_in};
ghost use Rattle.kv_plain.specs.Outcome.{Judges};
ghost use Rattle.kv_plain.specs.Calls.{Leads, Steps, Seeks, IsFound};

use crate::after::apply;
use crate::decisions::{decide_find, decide_row};
use crate::event::{Decision, Turn};
use crate::key_calls::{known_table, seated};
use crate::machine::Machine;
use crate::outcome::Outcome;
use crate::walk::{next_row, seek};
use failure::NoMemory;
use item::Item;
use std::alloc::Global;
use wt_calls::Way;

fn judge_step(
    m: &Machine,
    session: usize,
    cursor: usize,
    table: &Item,
    way: Way,
) -> Result<Decision, NoMemory>
    requires { IsFound (machine_in m.now) session table.now }
    ensures { IfOk result (λ r. Judges (Steps session cursor table.now (way_in way) (machine_in m.now)) r) }
{
    let t = seated(m, session);
    let number = known_table(m, table).number;
    next_row(m, session, t, cursor, number, way)
}

/// To the next row, or to the previous one.
pub(crate) fn step(
    alloc: Global,
    m: Machine,
    session: usize,
    cursor: usize,
    table: Item,
    way: Way,
) -> Result<Turn, NoMemory>
    ensures { Leads (model.Decided (machine_in m) session (model.NextRow cursor table (way_in way))) result }
{
    let Decision { outcome, event } = decide_row(&m, session, &table);
    match outcome {
        Outcome::Done => {
            let found = apply(alloc, m, event)?;
            let Decision { outcome, event } = judge_step(&found, session, cursor, &table, way)?;
            let machine = apply(alloc, found, event)?;
            Ok(Turn { outcome, machine })
        }
        outcome => Ok(Turn {
            outcome,
            machine: m,
        }),
    }
}

fn judge_seek(
    m: &Machine,
    session: usize,
    cursor: usize,
    table: &Item,
    key: &Item,
) -> Result<Decision, NoMemory>
    requires { IsFound (machine_in m.now) session table.now }
    ensures { IfOk result (λ r. Judges (Seeks session cursor table.now key.now (machine_in m.now)) r) }
{
    let t = seated(m, session);
    let number = known_table(m, table).number;
    seek(m, session, t, cursor, number, key)
}

/// To the row of a key.
pub(crate) fn seek_key(
    alloc: Global,
    m: Machine,
    session: usize,
    cursor: usize,
    table: Item,
    key: Item,
) -> Result<Turn, NoMemory>
    ensures { Leads (model.Decided (machine_in m) session (model.SeekKey cursor table key)) result }
{
    let Decision { outcome, event } = decide_find(&m, session, &table, &key);
    match outcome {
        Outcome::Done => {
            let found = apply(alloc, m, event)?;
            let Decision { outcome, event } = judge_seek(&found, session, cursor, &table, &key)?;
            let machine = apply(alloc, found, event)?;
            Ok(Turn { outcome, machine })
        }
        outcome => Ok(Turn {
            outcome,
            machine: m,
        }),
    }
}
