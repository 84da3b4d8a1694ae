//! What a checkpoint costs: it makes so many tables with so many rows each, takes a checkpoint, and
//! then, as often as its words say, changes one row in each of some tables and takes a further one
//! (`ckpt_bench 1000 10 1 50`: 1,000 tables of 10 rows, one changed, 50 times); without words a few
//! of each. It tells how often the disk was read, written and synced. What a checkpoint costs is the
//! difference of two runs.
#![tactic(auto)]

ghost use Rattle.std.specs.Prelude.{IsTrue};
ghost use Rattle.ckpt_step.specs.Trees.{AreLow};

mod counted;

use counted::Counted;
use engine_store::{FRAMES, Frames, Store, open_on};
use failure::NoMemory;
use item::{Format, Formats, Item};
use std::alloc::{AllocError, Global};
use std::{env, io};
use tree_open::TreePlace;
use wt_calls::{Demand, SessionCall, SystemCall};
use wt_code::{Answer, Invalid, Refusal};

/// What is done.
#[derive(Clone, Copy)]
struct Work {
    tables: u32,
    rows: u32,
    changed: u32,
    rounds: u32,
}

const BYTES: Formats = Formats {
    key: Format::U,
    value: Format::U,
};

// The size of a device on which nothing stands, in bytes.
const NEW: usize = 8_192;

// The n-th name or key: 8 bytes.
fn name_of(n: u32) -> [u8; 8] {
    let mut name = *b"n0000000";
    let mut rest = n;
    for i in 0..7usize {
        name[7 - i] = b'0' + (rest % 10) as u8;
        rest /= 10;
    }
    name
}

fn item(alloc: Global, bytes: &[u8]) -> Result<Item, NoMemory> {
    Ok(Item::new(Vec::from_slice(alloc, bytes)?))
}

// A whole call of the one session.
fn ask(alloc: Global, store: &mut Store, disk: &mut Counted, call: SessionCall) -> Answer<Item> {
    if store.engine.sessions() == 0 {
        return Answer::Refused(Refusal::Invalid(Invalid::NoCall));
    }
    store.call(alloc, disk, 0, call)
}

fn create(alloc: Global, store: &mut Store, table: u32) -> Result<bool, NoMemory> {
    let call = SystemCall::Create {
        table: item(alloc, name_of(table).as_slice())?,
        formats: BYTES,
    };
    let answer = store.call_system::<Counted>(alloc, 0, call);
    Ok(!matches!(answer, Answer::Refused(_)))
}

// A transaction with one put, of a value of 100 bytes.
fn put(
    alloc: Global,
    store: &mut Store,
    disk: &mut Counted,
    table: u32,
    row: u32,
    byte: u8,
) -> Result<bool, NoMemory> {
    let _begun = ask(alloc, store, disk, SessionCall::Begin(None));
    let call = SessionCall::Put {
        table: item(alloc, name_of(table).as_slice())?,
        key: item(alloc, name_of(row).as_slice())?,
        value: item(alloc, [byte; 100].as_slice())?,
        demand: Demand::Anything,
    };
    let made = ask(alloc, store, disk, call);
    let commit = SessionCall::Commit {
        commit: None,
        durable: None,
    };
    let ended = ask(alloc, store, disk, commit);
    Ok(!matches!(made, Answer::Refused(_)) && !matches!(ended, Answer::Refused(_)))
}

// Whether no tree has more levels than a record tells.
fn are_low(trees: &[TreePlace]) -> bool
    ensures { IsTrue result → AreLow trees.now }
{
    for tree in trees {
        if tree.root.level > 60 {
            return false;
        }
    }
    true
}

// A checkpoint, where the store is as one asks: calls leave it so.
fn checkpoint(alloc: Global, store: &mut Store, disk: &mut Counted) -> bool {
    let trees = &store.ground.trees;
    let known = trees.len() <= store.engine.tables().len() && are_low(trees);
    let run = store.engine.marks().run;
    if !known || run > store.ground.number.saturating_add(1) {
        return false;
    }
    store.checkpoint(alloc, disk).is_ok()
}

// The tables with their rows. How many puts were done.
fn fill(alloc: Global, store: &mut Store, disk: &mut Counted, work: Work) -> Result<u32, NoMemory> {
    let mut done = 0u32;
    for table in 0..work.tables {
        let _made = create(alloc, store, table)?;
        for row in 0..work.rows {
            if put(alloc, store, disk, table, row, 1)? {
                done = done.wrapping_add(1);
            }
        }
    }
    Ok(done)
}

// One row changes in each of the first tables.
fn change(
    alloc: Global,
    store: &mut Store,
    disk: &mut Counted,
    work: Work,
    round: u32,
) -> Result<(), NoMemory> {
    for table in 0..work.changed {
        let _put = put(alloc, store, disk, table, 0, (round % 256) as u8)?;
    }
    Ok(())
}

// The work that the words name; without words a few of each.
fn work_to_do(rt: &HostRuntime) -> io::Result<Work> {
    let mut args = env::args(rt)?;
    let _program = args.next();
    let few = Work {
        tables: 3,
        rows: 5,
        changed: 1,
        rounds: 2,
    };
    let (Some(tables), Some(rows), Some(changed), Some(rounds)) = (
        args.next(),
        args.next(),
        args.next(),
        args.next(),
    ) else {
        return Ok(few);
    };
    Ok(Work {
        tables: tables.parse().unwrap_or(0),
        rows: rows.parse().unwrap_or(0),
        changed: changed.parse().unwrap_or(0),
        rounds: rounds.parse().unwrap_or(0),
    })
}

fn no_memory(_: NoMemory) -> AllocError {
    AllocError
}

fn main(rt: HostRuntime) -> anyhow::Result<()> {
    let work = work_to_do(&rt)?;
    let alloc = rt.alloc();
    let mut disk = Counted {
        bytes: vec![in alloc; 0u8; NEW]?,
        reads: 0,
        writes: 0,
        syncs: 0,
    };
    let Ok(mut store) = open_on(alloc, &mut disk, Frames::Soft(FRAMES)) else {
        println!(rt; "not opened")?;
        return Ok(());
    };
    let _session = store.open_session::<Counted>(alloc);
    let puts = fill(alloc, &mut store, &mut disk, work).map_err(no_memory)?;
    let first = checkpoint(alloc, &mut store, &mut disk);
    let (reads, writes, syncs) = (disk.reads, disk.writes, disk.syncs);
    println!(rt;
        "{puts} puts, the first checkpoint {first}: {reads} reads, {writes} writes, {syncs} syncs"
    )?;
    let mut taken = 0u32;
    for round in 0..work.rounds {
        change(alloc, &mut store, &mut disk, work, round).map_err(no_memory)?;
        if checkpoint(alloc, &mut store, &mut disk) {
            taken = taken.wrapping_add(1);
        }
    }
    let (reads, writes, syncs) = (
        disk.reads.saturating_sub(reads),
        disk.writes.saturating_sub(writes),
        disk.syncs.saturating_sub(syncs),
    );
    println!(rt; "{taken} more: {reads} reads, {writes} writes, {syncs} syncs")?;
    Ok(())
}
