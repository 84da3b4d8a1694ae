// The versions that stand, newest first.

ghost use Rattle.std.specs.Prelude.{◌≡◌, ◌++◌, [], ◌∷◌, map, filter, IfOk};
ghost use Rattle.item.specs.declared.Change.{Change};
ghost use Rattle.stamp.specs.declared.Version.{Version};
ghost use Rattle.kv_model.specs.History.{standing, placed_of, first, is_stable};
ghost use Rattle.kv_plain.specs.Machine.{machine_in};
ghost use Rattle.kv_plain.specs.Plain.{entry_in, history_in, write_in, placed_in, is_within, within, standing_by, standing_of};

use crate::history::{Entry, Placed, Write};
use crate::looks::{bound_below, is_left};
use crate::machine::Machine;
use failure::NoMemory;
use stamp::{Name, Version, Window};
use std::alloc::Global;

fn placed(name: Name, write: &Write) -> Result<Placed, NoMemory>
    ensures { IfOk result (λ p. placed_in p ≡ placed_of name (write_in write.now)) }
{
    Ok(Placed {
        table: write.table,
        key: write.key.copy()?,
        version: Version {
            window: Window {
                name,
                commit: write.commit,
                durable: write.durable,
            },
            change: write.change.copy()?,
        },
    })
}

pub(crate) fn push(out: &mut Vec<Placed>, placed: Placed) -> Result<(), NoMemory>
    ensures { IfOk result (λ _. map placed_in out.new.items ≡ map placed_in out.old.items ++ placed_in placed ∷ []) }
{
    match out.push(placed) {
        Ok(()) => Ok(()),
        Err(_) => Err(NoMemory),
    }
}

fn push_write(
    out: &mut Vec<Placed>,
    name: Name,
    write: &Write,
    bound: Option<u64>,
) -> Result<(), NoMemory>
    ensures { IfOk result (λ _. map placed_in out.new.items ≡ map placed_in out.old.items ++ within bound (placed_of name (write_in write.now) ∷ [])) }
{
    if is_left(bound, write) {
        push(out, placed(name, write)?)?;
    }
    Ok(())
}

fn push_writes(
    out: &mut Vec<Placed>,
    name: Name,
    writes: &[Write],
    bound: Option<u64>,
) -> Result<(), NoMemory>
    ensures { IfOk result (λ _. map placed_in out.new.items ≡ map placed_in out.old.items ++ within bound (map (placed_of name) (map write_in writes.now))) }
{
    match writes.split_first() {
        None => Ok(()),
        Some((write, others)) => {
            push_write(out, name, write, bound)?;
            push_writes(out, name, others, bound)
        }
    }
}

fn push_entry(out: &mut Vec<Placed>, entry: &Entry, bound: Option<u64>) -> Result<(), NoMemory>
    ensures { IfOk result (λ _. map placed_in out.new.items ≡ map placed_in out.old.items ++ standing_of (entry_in entry.now) bound) }
{
    match entry {
        Entry::Commit(name, writes) => push_writes(out, *name, writes, bound),
        Entry::Resolve(name, writes) => push_writes(out, *name, writes, bound),
        _ => Ok(()),
    }
}

fn push_standing(
    out: &mut Vec<Placed>,
    history: &[Entry],
    bound: Option<u64>,
) -> Result<(), NoMemory>
    ensures { IfOk result (λ _. map placed_in out.new.items ≡ map placed_in out.old.items ++ standing_by (history_in history.now) bound) }
{
    match history.split_first() {
        None => Ok(()),
        Some((entry, older)) => {
            push_entry(out, entry, bound)?;
            push_standing(out, older, bound_below(entry, bound))
        }
    }
}

fn bound_of(stable: u64) -> Option<u64>
    ensures { (v : Version Change) → is_within result v ≡ is_stable stable v }
{
    if stable == 0 { None } else { Some(stable) }
}

/// The versions of all keys that stand and are durable at the stable stamp, or all that stand
/// where it is 0. It may always answer want of memory.
pub fn standing_at(alloc: Global, history: &[Entry], stable: u64) -> Result<Vec<Placed>, NoMemory>
    ensures { IfOk result (λ r. map placed_in r.items ≡ filter (λ p. is_stable stable p.version) (standing (history_in history.now))) }
{
    let mut out = Vec::new(alloc);
    push_standing(&mut out, history, bound_of(stable))?;
    Ok(out)
}

/// The first `n` entries.
pub(crate) fn first_entries(history: &[Entry], n: usize) -> &[Entry]
    ensures { history_in result.now ≡ first n (history_in history.now) }
{
    match history.split_first() {
        None => history,
        Some((_, older)) => {
            if older.len() < n {
                history
            } else {
                first_entries(older, n)
            }
        }
    }
}

/// The versions of all keys that stand, newest first: the reader of a machine.
///
/// # Errors
///
/// Memory is wanted.
pub fn standing_versions(alloc: Global, m: &Machine) -> Result<Vec<Placed>, NoMemory>
    ensures { IfOk result (λ r. map placed_in r.items ≡ standing (machine_in m.now).history) }
{
    standing_at(alloc, &m.history, 0)
}
