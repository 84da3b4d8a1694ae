//! What the calls of an engine cost: it fills a table with so many rows, each in a transaction of its
//! own, and then makes as many rounds of one kind as its words say (`sorted 1000 500`); without words
//! a few of each. Kinds are `sorted`, `random` and `again`, a transaction with one put, of the next
//! key in order, of a key at random, and of one that is there; `empty`, a transaction without a put;
//! `get` and `next`, a read in a transaction that goes on, and `into` and `row`, the same into a buffer
//! that is used again; `rows`, a read of the next hundred rows into one batch; and `key`, the making of
//! a key without a call, which is the program's own work in each round. Puts and gets lend their bytes.
//! What a call costs is the difference of two runs.
#![tactic(auto)]

use catalog::Catalog;
use engine::{Called, Got, Local, RowBatch};
use failure::NoMemory;
use item::{Format, Formats, Item};
use std::alloc::{AllocError, Global};
use std::mem::forget;
use std::{env, io};
use tree_dir::Dir;
use wt_calls::{Demand, SessionCall, SystemCall, Way};
use wt_code::{Answer, Invalid, Refusal};

/// What is done in each round.
#[derive(Clone, Copy, PartialEq, Eq)]
enum Kind {
    Sorted,
    Random,
    Again,
    Empty,
    Get,
    Next,
    Into,
    Row,
    Rows,
    Key,
}

/// How many rows there are first, and what is done then.
#[derive(Clone, Copy)]
struct Work {
    kind: Kind,
    rows: u32,
    rounds: u32,
}

// The number of the table, and what is read into, again and again.
#[derive(Drop)]
struct Buffers {
    table: u32,
    value: Vec<u8>,
    rows: RowBatch,
}

const TABLE: &[u8] = b"rows";

const BYTES: Formats = Formats {
    key: Format::U,
    value: Format::U,
};

// The next of numbers that look like chance.
fn draw(seed: &mut u64) -> u64 {
    *seed = seed
        .wrapping_mul(6_364_136_223_846_793_005)
        .wrapping_add(1_442_695_040_888_963_407);
    *seed >> 33
}

// The n-th key: 16 bytes, of which the first are those of all. Not inlined, so that its cost is the
// same in each kind of round.
#[inline(never)]
fn key_of(n: u64) -> [u8; 16] {
    let mut key = *b"key0000000000000";
    let mut rest = n;
    for i in 0..13usize {
        key[15 - i] = b'0' + (rest % 10) as u8;
        rest /= 10;
    }
    key
}

fn item(alloc: Global, bytes: &[u8]) -> Result<Item, NoMemory> {
    Ok(Item::new(Vec::from_slice(alloc, bytes)?))
}

// A whole call of the one session. Inlined, so that no second move of its items is counted.
#[inline(always)]
fn ask(alloc: Global, engine: &mut Local, call: SessionCall) -> Answer<Item> {
    if engine.sessions() == 0 {
        return no_session();
    }
    answer_of(engine.call(alloc, 0, call))
}

// Inlined, as the next: all that is wanted of the answer is whether it is a refusal.
#[inline(always)]
fn begin(alloc: Global, engine: &mut Local) -> Answer<Item> {
    ask(alloc, engine, SessionCall::Begin(None))
}

#[inline(always)]
fn commit(alloc: Global, engine: &mut Local) -> Answer<Item> {
    let call = SessionCall::Commit {
        commit: None,
        durable: None,
    };
    ask(alloc, engine, call)
}

// The answer of a call. None waits: the one leaf is in a frame from the start.
#[inline(always)]
fn answer_of(called: Called) -> Answer<Item> {
    match called {
        Called::Ended(answer) => answer,
        Called::Waits(_) => Answer::Refused(Refusal::CacheFull),
    }
}

fn no_session() -> Answer<Item> {
    Answer::Refused(Refusal::Invalid(Invalid::NoCall))
}

fn put(alloc: Global, engine: &mut Local, number: u64) -> Answer<Item> {
    if engine.sessions() == 0 {
        return no_session();
    }
    let key = key_of(number);
    let value = [7u8; 100];
    answer_of(engine.put(
        alloc,
        0,
        TABLE,
        key.as_slice(),
        value.as_slice(),
        Demand::Anything,
    ))
}

fn get(alloc: Global, engine: &mut Local, number: u64) -> Answer<Item> {
    if engine.sessions() == 0 {
        return no_session();
    }
    answer_of(engine.get(alloc, 0, TABLE, key_of(number).as_slice()))
}

fn next(alloc: Global, engine: &mut Local) -> Result<Answer<Item>, NoMemory> {
    let call = SessionCall::Step {
        cursor: 0,
        table: item(alloc, TABLE)?,
        way: Way::Up,
    };
    Ok(ask(alloc, engine, call))
}

// Whether a value stands in the buffer.
fn get_into(engine: &Local, number: u64, buffers: &mut Buffers) -> bool {
    if engine.sessions() == 0 {
        return false;
    }
    let key = key_of(number);
    let got = engine.get_into(0, buffers.table, key.as_slice(), &mut buffers.value);
    matches!(got, Got::Found)
}

// Whether there are further rows; at the end one call, by which the cursor begins anew.
fn next_rows(
    alloc: Global,
    engine: &mut Local,
    most: usize,
    buffers: &mut Buffers,
) -> Result<bool, NoMemory> {
    if engine.sessions() == 0 {
        return Ok(false);
    }
    let table = buffers.table;
    let _told = engine.next_rows(alloc, 0, 0, table, Way::Up, most, &mut buffers.rows);
    if buffers.rows.len() > 0 {
        return Ok(true);
    }
    let _end = next(alloc, engine)?;
    Ok(false)
}

fn next_into(alloc: Global, engine: &mut Local, buffers: &mut Buffers) -> Result<bool, NoMemory> {
    if engine.sessions() == 0 {
        return Ok(false);
    }
    let table = buffers.table;
    if let Ok(true) = engine.next_into(alloc, 0, 0, table, Way::Up, &mut buffers.rows) {
        return Ok(true);
    }
    let _end = next(alloc, engine)?;
    Ok(false)
}

fn is_refused(answer: &Answer<Item>) -> bool {
    matches!(answer, Answer::Refused(_))
}

// A transaction with one put. Whether all is answered.
fn put_alone(alloc: Global, engine: &mut Local, number: u64) -> bool {
    let begun = begin(alloc, engine);
    let made = put(alloc, engine, number);
    let ended = commit(alloc, engine);
    !is_refused(&begun) && !is_refused(&made) && !is_refused(&ended)
}

// A transaction without a put.
fn empty_alone(alloc: Global, engine: &mut Local) -> bool {
    let begun = begin(alloc, engine);
    let ended = commit(alloc, engine);
    !is_refused(&begun) && !is_refused(&ended)
}

// An engine on nothing, with one table, which is empty, and one session.
#[tactic(auto, using(crate::proofs::Bases::none_owned, crate::proofs::Bases::unset_fit))]
fn open(alloc: Global) -> Result<Local, NoMemory> {
    let tables = Catalog::new(alloc);
    let mut engine = Local::open(alloc, 1, 0, 0, tables, Dir::new(alloc))?;
    let create = SystemCall::Create {
        table: item(alloc, TABLE)?,
        formats: BYTES,
    };
    // That there is an actor of the system.
    let _actors = engine.actors();
    let _made = engine.call_system(alloc, 0, create);
    match engine.open_session(alloc) {
        Ok(_) => Ok(engine),
        Err(_) => Err(NoMemory),
    }
}

// The number of a row's key: in order, or at random.
fn number_of(kind: Kind, n: u32, seed: &mut u64) -> u64 {
    match kind {
        Kind::Random => draw(seed),
        _ => n as u64,
    }
}

fn fill(alloc: Global, engine: &mut Local, work: Work, seed: &mut u64) {
    for n in 0..work.rows {
        let _done = put_alone(alloc, engine, number_of(work.kind, n, seed));
    }
}

// One round, and whether it is answered and not refused.
fn round(
    alloc: Global,
    engine: &mut Local,
    work: Work,
    n: u32,
    seed: &mut u64,
    buffers: &mut Buffers,
) -> Result<bool, NoMemory> {
    let rows = (work.rows as u64).max(1);
    match work.kind {
        Kind::Sorted => Ok(put_alone(alloc, engine, work.rows as u64 + n as u64)),
        Kind::Random => Ok(put_alone(alloc, engine, draw(seed))),
        Kind::Again => Ok(put_alone(alloc, engine, draw(seed) % rows)),
        Kind::Empty => Ok(empty_alone(alloc, engine)),
        Kind::Get => Ok(!is_refused(&get(alloc, engine, draw(seed) % rows))),
        Kind::Next => Ok(!is_refused(&next(alloc, engine)?)),
        Kind::Into => Ok(get_into(engine, draw(seed) % rows, buffers)),
        Kind::Row => next_into(alloc, engine, buffers),
        Kind::Rows => next_rows(alloc, engine, 100, buffers),
        Kind::Key => Ok(key_of(n as u64) != [0u8; 16]),
    }
}

// All rounds, reads in a transaction; how many are answered.
fn rounds(alloc: Global, engine: &mut Local, work: Work, seed: &mut u64) -> Result<u32, NoMemory> {
    if matches!(
        work.kind,
        Kind::Get | Kind::Next | Kind::Into | Kind::Row | Kind::Rows
    ) {
        let _begun = begin(alloc, engine);
    }
    let mut buffers = Buffers {
        table: engine.table_number(TABLE).unwrap_or(0),
        value: Vec::new(alloc),
        rows: RowBatch::new(alloc),
    };
    let mut answered = 0u32;
    for n in 0..work.rounds {
        if round(alloc, engine, work, n, seed, &mut buffers)? {
            answered = answered.wrapping_add(1);
        }
    }
    Ok(answered)
}

fn measure(alloc: Global, work: Work) -> Result<u32, NoMemory> {
    let mut seed = 1u64;
    let mut engine = open(alloc)?;
    fill(alloc, &mut engine, work, &mut seed);
    let answered = rounds(alloc, &mut engine, work, &mut seed)?;
    // The rows stay, as in the program `wt`, whose memory goes back as a whole at its end.
    forget(engine);
    Ok(answered)
}

fn kind_of(word: &str) -> Kind {
    match word {
        "random" => Kind::Random,
        "again" => Kind::Again,
        "empty" => Kind::Empty,
        "get" => Kind::Get,
        "next" => Kind::Next,
        "into" => Kind::Into,
        "row" => Kind::Row,
        "rows" => Kind::Rows,
        "key" => Kind::Key,
        _ => Kind::Sorted,
    }
}

// The work that the words name.
fn work_to_do(rt: &HostRuntime) -> io::Result<Option<Work>> {
    let mut args = env::args(rt)?;
    let _program = args.next();
    let (Some(kind), Some(rows), Some(rounds)) = (args.next(), args.next(), args.next()) else {
        return Ok(None);
    };
    Ok(Some(Work {
        kind: kind_of(&kind),
        rows: rows.parse().unwrap_or(0),
        rounds: rounds.parse().unwrap_or(0),
    }))
}

fn no_memory(_: NoMemory) -> AllocError {
    AllocError
}

fn tell(rt: &HostRuntime, word: &str, rows: u32, rounds: u32) -> anyhow::Result<()> {
    let kind = kind_of(word);
    let answered = measure(rt.alloc(), Work { kind, rows, rounds }).map_err(no_memory)?;
    println!(rt; "{word} over {rows}: {answered} of {rounds} answered")?;
    Ok(())
}

fn main(rt: HostRuntime) -> anyhow::Result<()> {
    match work_to_do(&rt)? {
        Some(work) => {
            let answered = measure(rt.alloc(), work).map_err(no_memory)?;
            println!(rt; "{answered} of {} answered", work.rounds)?;
        }
        None => {
            for word in [
                "sorted", "random", "again", "empty", "get", "next", "into", "row", "rows", "key",
            ] {
                tell(&rt, word, 1000, 500)?;
            }
        }
    }
    Ok(())
}
