// `write`: each pair is put in a transaction of its own, and then a checkpoint taken.
ghost use Rattle.std.specs.Prelude.{◌≡◌, ◌<◌, ◌∷◌, ℕ, List, None, length, IfOk, IfErr, IsTrue};
ghost use Rattle.failure.specs.Counts.{Rose};
ghost use Rattle.disk_model.specs.Crash.{SameDisk};
ghost use Rattle.kv_model.specs.Calls.{Commit, Session as BySession};
ghost use Rattle.wt_calls.specs.Calls.{demand_in, session_call_in};
ghost use Rattle.engine_world.specs.Stands.{Stands};
ghost use Rattle.engine_world.specs.Worlds.{World};
ghost use Rattle.engine_store.specs.Opened.{IsReady};
ghost use Rattle.wt_line.specs.Line.{pair_texts};
ghost use Rattle.wt_tool.specs.Points.{Closes, WithSession};
ghost use Rattle.wt_tool.specs.Writes.{RunsWrite, PutsPairs, demand_of, the_put};
ghost use Rattle.wt_tool.specs.Parts.{IsOpenedOn, LeavesFrom, NoDamage, TellsSpoilt};
ghost use Rattle.wt_tool.specs.Led.{CallWent, DoneBy, IsWord, Leading, LedBy, PutsBegun};

use crate::closing::close;
use crate::names::{item_of, name_of, stored_as};
use crate::sessions::{call, formats_for, open};
use disk_model::Disk;
use engine_store::Store;
use std::alloc::Global;
use wt_calls::{Demand, SessionCall};
use wt_code::{Invalid, Refusal};

pub(crate) fn write<D: Disk>(
    alloc: Global,
    disk: &mut D,
    store: Store,
    overwrite: bool,
    uri: &str,
    pairs: &[(&str, &str)],
) -> Result<(), Refusal>
    requires ready { IsReady store }
    requires none { length store.engine.sessions ≡ 0 }
    requires on { IsTrue (D.honest disk.old) → IsOpenedOn D.Disk disk.old store }
    ensures run { LeavesFrom D.Disk (RunsWrite overwrite uri.now (pair_texts pairs.now)) disk.old disk.new result }
    ensures sound { IfErr result (TellsSpoilt (IsTrue (D.honest disk.old)) (D.seen disk.old)) }
    ensures fault { IfErr result (λ r. r ≡ Refusal.DiskFault → Rose (D.faults disk.old) (D.faults disk.new)) }
    ensures disk { SameDisk D.Disk disk.old disk.new }
{
    let mut store = store;
    let Some(name) = name_of(uri.as_bytes()) else {
        return Err(Refusal::Invalid(Invalid::BadName));
    };
    if pairs.is_empty() {
        return Ok(());
    }
    match put_all(alloc, disk, &mut store, overwrite, name, pairs) {
        Ok(()) => close(alloc, disk, store),
        Err(refusal) => Err(refusal),
    }
}

// Puts the pairs in their order, by a session of their own. It stops at the first refusal.
fn put_all<D: Disk>(
    alloc: Global,
    disk: &mut D,
    store: &mut Store,
    overwrite: bool,
    name: &[u8],
    pairs: &[(&str, &str)],
) -> Result<(), Refusal>
    requires none { length store.old.engine.sessions ≡ 0 }
    requires ready { IsReady store.old }
    ensures led { Leading D.Disk store.old disk.old (λ start first w. LedBy D.Disk start first w store.new disk.old disk.new (WithSession (PutsPairs name.now (demand_of overwrite) (pair_texts pairs.now))) Closes result) }
    ensures went { CallWent D.Disk store.old store.new disk.old disk.new result }
{
    match open::<D>(alloc, store) {
        Ok(()) => {}
        Err(refusal) => return Err(refusal),
    }
    for (key, value) in pairs {
        match put_one(alloc, disk, store, overwrite, name, key, value) {
            Ok(()) => {}
            Err(refusal) => return Err(refusal),
        }
    }
    Ok(())
}

// Puts one pair, in a transaction.
fn put_one<D: Disk>(
    alloc: Global,
    disk: &mut D,
    store: &mut Store,
    overwrite: bool,
    name: &[u8],
    key: &str,
    value: &str,
) -> Result<(), Refusal>
    requires there { 0 < length store.old.engine.sessions }
    requires ready { IsReady store.old }
    ensures led { (pairs : List (List ℕ × List ℕ)) → Leading D.Disk store.old disk.old (λ start first w. LedBy D.Disk start first w store.new disk.old disk.new (PutsPairs name.now (demand_of overwrite) ((key.now, value.now) ∷ pairs)) (PutsPairs name.now (demand_of overwrite) pairs) result) }
    ensures went { CallWent D.Disk store.old store.new disk.old disk.new result }
    ensures there { length store.new.engine.sessions ≡ length store.old.engine.sessions }
{
    match call(alloc, disk, store, SessionCall::Begin(None)) {
        Ok(()) => put_begun(alloc, disk, store, overwrite, name, key, value),
        Err(refusal) => Err(refusal),
    }
}

// Puts one pair, and commits.
fn put_begun<D: Disk>(
    alloc: Global,
    disk: &mut D,
    store: &mut Store,
    overwrite: bool,
    name: &[u8],
    key: &str,
    value: &str,
) -> Result<(), Refusal>
    requires there { 0 < length store.old.engine.sessions }
    requires ready { IsReady store.old }
    ensures led { (pairs : List (List ℕ × List ℕ)) → Leading D.Disk store.old disk.old (λ start first w. LedBy D.Disk start first w store.new disk.old disk.new (PutsBegun name.now (demand_of overwrite) (key.now, value.now) pairs) (PutsPairs name.now (demand_of overwrite) pairs) result) }
    ensures went { CallWent D.Disk store.old store.new disk.old disk.new result }
    ensures there { length store.new.engine.sessions ≡ length store.old.engine.sessions }
{
    let put = match put_of(alloc, store, overwrite, name, key, value) {
        Ok(put) => put,
        Err(refusal) => return Err(refusal),
    };
    match call(alloc, disk, store, put) {
        Ok(()) => commit(alloc, disk, store),
        Err(refusal) => Err(refusal),
    }
}

// Commits the transaction of the session.
pub(crate) fn commit<D: Disk>(alloc: Global, disk: &mut D, store: &mut Store) -> Result<(), Refusal>
    requires there { 0 < length store.old.engine.sessions }
    requires ready { IsReady store.old }
    ensures led { Leading D.Disk store.old disk.old (λ start first w. DoneBy D.Disk start first w store.new disk.old disk.new (BySession 0) (Commit None None) result) }
    ensures undamaged { Leading D.Disk store.old disk.old (λ start first w. IfErr result NoDamage) }
    ensures went { CallWent D.Disk store.old store.new disk.old disk.new result }
    ensures there { length store.new.engine.sessions ≡ length store.old.engine.sessions }
{
    let commit = SessionCall::Commit {
        commit: None,
        durable: None,
    };
    call(alloc, disk, store, commit)
}

// The put of a pair of words. The error is want of memory.
fn put_of(
    alloc: Global,
    store: &Store,
    overwrite: bool,
    name: &[u8],
    key: &str,
    value: &str,
) -> Result<SessionCall, Refusal>
    ensures put { (w : World) → Stands store.now.engine w → IfOk result (λ call. session_call_in call ≡ the_put w.machine name.now (demand_of overwrite) (key.now, value.now)) }
    ensures word { IfOk result (λ call. IsWord (session_call_in call)) }
    ensures short { IfErr result (λ r. r ≡ Refusal.NoMemory) }
{
    let formats = formats_for(store, name);
    let (Ok(table), Ok(key), Ok(value)) = (
        item_of(alloc, name),
        stored_as(alloc, formats.key, key),
        stored_as(alloc, formats.value, value),
    ) else {
        return Err(Refusal::NoMemory);
    };
    Ok(SessionCall::Put {
        table,
        key,
        value,
        demand: demand_for(overwrite),
    })
}

// What a put asks of its key: without -o, that it has no value.
pub(crate) fn demand_for(overwrite: bool) -> Demand
    ensures { demand_in result ≡ demand_of overwrite }
{
    if overwrite {
        Demand::Anything
    } else {
        Demand::Vacant
    }
}
