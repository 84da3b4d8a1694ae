// What a checkpoint keeps.

ghost use Rattle.std.specs.Prelude.{◌≡◌, [], ◌∷◌, ◌++◌, map, IfOk};
ghost use Rattle.kv_model.specs.History.{Create, tables, commit_of, cut as cut_of};
ghost use Rattle.kv_plain.specs.Plain.{table_in, entry_in, history_in, placed_in};

use crate::history::{Entry, Placed, Table, Write};
use crate::standing::{first_entries, standing_at};
use crate::writes::push_write;
use failure::NoMemory;
use std::alloc::Global;

pub(crate) fn push_entry(out: &mut Vec<Entry>, entry: Entry) -> Result<(), NoMemory>
    ensures { IfOk result (λ _. history_in out.new.items ≡ history_in out.old.items ++ entry_in entry ∷ []) }
{
    match out.push(entry) {
        Ok(()) => Ok(()),
        Err(_) => Err(NoMemory),
    }
}

fn commit_of(alloc: Global, p: &Placed) -> Result<Entry, NoMemory>
    ensures { IfOk result (λ r. entry_in r ≡ commit_of (placed_in p.now)) }
{
    let window = p.version.window;
    let mut writes = Vec::new(alloc);
    let write = Write {
        table: p.table,
        key: p.key.copy()?,
        change: p.version.change.copy()?,
        commit: window.commit,
        durable: window.durable,
    };
    push_write(&mut writes, write)?;
    Ok(Entry::Commit(window.name, writes))
}

pub(crate) fn push_commits(
    alloc: Global,
    out: &mut Vec<Entry>,
    placed: &[Placed],
) -> Result<(), NoMemory>
    ensures { IfOk result (λ _. history_in out.new.items ≡ history_in out.old.items ++ map commit_of (map placed_in placed.now)) }
{
    match placed.split_first() {
        None => Ok(()),
        Some((p, others)) => {
            push_entry(out, commit_of(alloc, p)?)?;
            push_commits(alloc, out, others)
        }
    }
}

pub(crate) fn copy_table(t: &Table) -> Result<Table, NoMemory>
    ensures { IfOk result (λ r. table_in r ≡ table_in t.now) }
{
    Ok(Table {
        number: t.number,
        name: t.name.copy()?,
        formats: t.formats,
    })
}

fn push_creates(out: &mut Vec<Entry>, history: &[Entry]) -> Result<(), NoMemory>
    ensures { IfOk result (λ _. history_in out.new.items ≡ history_in out.old.items ++ map Create (tables (history_in history.now))) }
{
    match history.split_first() {
        None => Ok(()),
        Some((Entry::Create(table), older)) => {
            push_entry(out, Entry::Create(copy_table(table)?))?;
            push_creates(out, older)
        }
        Some((_, older)) => push_creates(out, older),
    }
}

/// What a checkpoint of the first `n` entries keeps at the stable stamp, 0 for none.
pub(crate) fn cut(
    alloc: Global,
    history: &[Entry],
    n: usize,
    stable: u64,
) -> Result<Vec<Entry>, NoMemory>
    ensures { IfOk result (λ r. history_in r.items ≡ cut_of (history_in history.now) n stable) }
{
    let prefix = first_entries(history, n);
    let placed = standing_at(alloc, prefix, stable)?;
    let mut out = Vec::new(alloc);
    push_commits(alloc, &mut out, &placed)?;
    push_creates(&mut out, prefix)?;
    Ok(out)
}
