// The writes of a transaction: with the stamps of its commit, and with one more.

ghost use Rattle.std.specs.Prelude.{◌≡◌, [], ◌∷◌, ◌++◌, map, IfOk};
ghost use Rattle.kv_model.specs.Machine as model;
ghost use Rattle.kv_plain.specs.Plain.{write_in, writes_beside};

use crate::history::Write;
use crate::looks::is_write_of;
use failure::NoMemory;
use item::{Change, Item};
use std::alloc::Global;

fn copy_write(w: &Write, commit: u64, durable: u64) -> Result<Write, NoMemory>
    ensures { IfOk result (λ r. write_in r ≡ record (write_in w.now) { commit = commit; durable = durable }) }
{
    Ok(Write {
        table: w.table,
        key: w.key.copy()?,
        change: w.change.copy()?,
        commit,
        durable,
    })
}

pub(crate) fn push_write(out: &mut Vec<Write>, write: Write) -> Result<(), NoMemory>
    ensures { IfOk result (λ _. map write_in out.new.items ≡ map write_in out.old.items ++ write_in write ∷ []) }
{
    match out.push(write) {
        Ok(()) => Ok(()),
        Err(_) => Err(NoMemory),
    }
}

fn push_stamped(
    out: &mut Vec<Write>,
    writes: &[Write],
    commit: u64,
    durable: u64,
) -> Result<(), NoMemory>
    ensures { IfOk result (λ _. map write_in out.new.items ≡ map write_in out.old.items ++ model.stamped commit durable (map write_in writes.now)) }
{
    match writes.split_first() {
        None => Ok(()),
        Some((write, others)) => {
            push_write(out, copy_write(write, commit, durable)?)?;
            push_stamped(out, others, commit, durable)
        }
    }
}

pub(crate) fn stamped(
    alloc: Global,
    writes: &[Write],
    commit: u64,
    durable: u64,
) -> Result<Vec<Write>, NoMemory>
    ensures { IfOk result (λ r. map write_in r.items ≡ model.stamped commit durable (map write_in writes.now)) }
{
    let mut out = Vec::new(alloc);
    push_stamped(&mut out, writes, commit, durable)?;
    Ok(out)
}

fn push_others(
    out: &mut Vec<Write>,
    writes: &[Write],
    table: u32,
    key: &Item,
) -> Result<(), NoMemory>
    ensures { IfOk result (λ _. map write_in out.new.items ≡ map write_in out.old.items ++ writes_beside table key.now (map write_in writes.now)) }
{
    match writes.split_first() {
        None => Ok(()),
        Some((write, others)) => {
            if is_write_of(write, table, key) {
                push_others(out, others, table, key)
            } else {
                push_write(out, copy_write(write, write.commit, write.durable)?)?;
                push_others(out, others, table, key)
            }
        }
    }
}

pub(crate) fn joined(
    alloc: Global,
    table: u32,
    key: Item,
    change: Change,
    writes: &[Write],
) -> Result<Vec<Write>, NoMemory>
    ensures { IfOk result (λ r. map write_in r.items ≡ model.joined (model.unstamped table key change) (map write_in writes.now)) }
{
    let mut out = Vec::new(alloc);
    let own = Write {
        table,
        key: key.copy()?,
        change,
        commit: 0,
        durable: 0,
    };
    push_write(&mut out, own)?;
    push_others(&mut out, writes, table, &key)?;
    Ok(out)
}
