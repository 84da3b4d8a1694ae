// What a close and a checkpoint in one go do to an engine with two transactions under way; calls whose
// items are lent, of which some wait for a leaf that is in no frame; and reads into the caller's buffers.
ghost use Rattle.std.specs.Prelude.{◌≡◌, [], IfOk};
ghost use Rattle.std.specs.List.{Contains};
ghost use Rattle.leaf_rows.specs.Rows.{AreFit};
ghost use Rattle.tree_dir.specs.declared.leaf.Leaf.{Leaf as ALeaf};

use catalog::Catalog;
use device_layout::{Addr, Link};
use engine::{Called, EngineMarks, Got, Local, RowBatch};
use failure::{Fault, NoMemory};
use inner_page::Entry;
use item::{Format, Formats, Item};
use leaf_frame::LeafFrame;
use limits::TABLES_MAX;
use row_page::Leaf;
use stamp::Name;
use std::alloc::Global;
use std::process::Abort;
use tree_dir::Dir;
use wt_calls::{Demand, SessionCall, SystemCall, Way};
use wt_code::{Answer, Busy, Invalid, Refusal};

const BYTES: Formats = Formats {
    key: Format::U,
    value: Format::U,
};

fn item(alloc: Global, bytes: &[u8]) -> Result<Item, NoMemory> {
    Ok(Item::new(Vec::from_slice(alloc, bytes)?))
}

// An engine on nothing, with the table `t`, which is empty, and three sessions.
#[tactic(auto, using(crate::proofs::Bases::none_owned, crate::proofs::Bases::unset_fit))]
fn engine(alloc: Global) -> Result<Local, NoMemory> {
    let tables = Catalog::new(alloc);
    let mut engine = Local::open(alloc, 1, 0, 0, tables, Dir::new(alloc))?;
    let create = SystemCall::Create {
        table: item(alloc, b"t")?,
        formats: BYTES,
    };
    // That there is an actor of the system.
    let _actors = engine.actors();
    let _made = engine.call_system(alloc, 0, create);
    for _ in 0..3u32 {
        if engine.open_session(alloc).is_err() {
            return Err(NoMemory);
        }
    }
    Ok(engine)
}

// The answer of a call that has ended.
fn answer_of(called: Called) -> Option<Answer<Item>> {
    match called {
        Called::Ended(answer) => Some(answer),
        Called::Waits(_) => None,
    }
}

// The answer to a whole call of a session that is open.
fn ask(alloc: Global, engine: &mut Local, session: u32, call: SessionCall) -> Option<Answer<Item>> {
    if session < engine.sessions() {
        answer_of(engine.call(alloc, session, call))
    } else {
        None
    }
}

// Whether a transaction of the session begins, and puts the key.
fn begin_put(
    alloc: Global,
    engine: &mut Local,
    session: u32,
    key: &[u8],
) -> Result<bool, NoMemory> {
    let begun = ask(alloc, engine, session, SessionCall::Begin(None));
    let put = SessionCall::Put {
        table: item(alloc, b"t")?,
        key: item(alloc, key)?,
        value: item(alloc, b"new")?,
        demand: Demand::Anything,
    };
    let made = ask(alloc, engine, session, put);
    Ok(begun == Some(Answer::Done) && made == Some(Answer::Done))
}

fn get(
    alloc: Global,
    engine: &mut Local,
    session: u32,
    key: &[u8],
) -> Result<Option<Answer<Item>>, NoMemory> {
    let call = SessionCall::Get {
        table: item(alloc, b"t")?,
        key: item(alloc, key)?,
    };
    Ok(ask(alloc, engine, session, call))
}

// Whether session 0 puts this value, lent, and a lent get reads it.
fn keeps_lent(
    alloc: Global,
    engine: &mut Local,
    key: &[u8],
    value: &[u8],
) -> Result<bool, NoMemory> {
    if engine.sessions() == 0 {
        return Ok(false);
    }
    let made = answer_of(engine.put(alloc, 0, b"t", key, value, Demand::Anything));
    let read = answer_of(engine.get(alloc, 0, b"t", key));
    Ok(made == Some(Answer::Done) && read == Some(Answer::Value(item(alloc, value)?)))
}

// What leads to the block of the leaf below.
const LINK: Link = Link {
    addr: Addr {
        offset: 8_192,
        size: 4_096,
        sum: 0,
    },
    greatest: Name { run: 1, id: 1 },
    durable: 5,
};

// The leaf of one row: of run 1, at stamp 5, the key `k` has the value `v`.
fn page(alloc: Global) -> Result<Leaf, NoMemory>
    ensures { IfOk result AreFit }
{
    let mut block = Vec::from_slice(alloc, &[1u8, 1, 1, 0, 57, 0, 0, 0, 0, 0, 0, 0, 0, 0, 0, 0])?;
    block.extend_from_slice(&[1, 0, 1, 1, 0, 0, 0])?;
    for number in [1u64, 1, 5, 5] {
        block.extend_from_slice(&number.to_le_bytes())?;
    }
    block.extend_from_slice(b"kv")?;
    block.resize(4_096, 0)?;
    match Leaf::of_block(alloc, block)? {
        None => Err(NoMemory),
        Some(leaf) => Ok(leaf),
    }
}

// A directory whose only leaf is of this table, in no frame.
fn one_leaf(alloc: Global, table: u32) -> Result<Dir, NoMemory>
    ensures { IfOk result (λ d. (l : ALeaf) → Contains d.leaves l → l.table ≡ table) }
{
    let mut entries = Vec::with_capacity(alloc, 1)?;
    entries.push_reserved(Entry {
        key: Item::new(Vec::new(alloc)),
        link: LINK,
    });
    let mut dir = Dir::new(alloc);
    dir.add_table(table, entries)?;
    Ok(dir)
}

// The run after that of the row, with the table `t`, whose leaf is on the device alone.
#[tactic(auto, using(crate::proofs::Bases::unset_fit))]
fn on_device(alloc: Global) -> Result<Local, NoMemory> {
    let mut tables = Catalog::new(alloc);
    if tables.create(alloc, b"t", BYTES).is_err() {
        return Err(NoMemory);
    }
    let number = match tables.table(0) {
        None => return Err(NoMemory),
        Some(table) => table.number,
    };
    let dir = one_leaf(alloc, number)?;
    if tables.next_number() as usize + TABLES_MAX >= (1 << 32) + tables.len() {
        return Err(NoMemory);
    }
    let mut engine = Local::open(alloc, 2, 0, 0, tables, dir)?;
    match engine.open_session(alloc) {
        Err(_) => Err(NoMemory),
        Ok(_) => Ok(engine),
    }
}

// The answer of session 0 to a get of `k`, whose leaf is kept from it.
fn kept_from(alloc: Global, engine: &mut Local) -> Option<Answer<Item>> {
    if engine.sessions() == 0 {
        return None;
    }
    match engine.get(alloc, 0, b"t", b"k") {
        Called::Ended(_) => None,
        Called::Waits(_) => {
            engine.keep_out(0, Refusal::DiskFault);
            answer_of(engine.resume(alloc, 0))
        }
    }
}

// The same, where the leaf comes into a frame.
#[tactic(auto, using(crate::proofs::Bases::bare_fits))]
fn filled(
    alloc: Global,
    engine: &mut Local,
    page: LeafFrame,
) -> Result<Option<Answer<Item>>, NoMemory>
    requires { page.chains ≡ [] }
{
    if engine.sessions() == 0 {
        return Ok(None);
    }
    match engine.get(alloc, 0, b"t", b"k") {
        Called::Ended(_) => Ok(None),
        Called::Waits(leaf) => {
            engine.fill(leaf, page)?;
            Ok(answer_of(engine.resume(alloc, 0)))
        }
    }
}

// How many ids the snapshot of a checkpoint lists.
fn listed(alloc: Global, engine: &Local) -> Result<usize, NoMemory> {
    let snapshot = engine.checkpoint_snapshot(alloc)?;
    let view = snapshot.view(0, 0);
    Ok(view.list.len())
}

// How many keys have a chain in the leaf in a frame.
fn keys(engine: &Local, frame: u32) -> Option<usize> {
    match engine.leaf_in(frame) {
        None => None,
        Some(leaf) => Some(leaf.chains().len()),
    }
}

// Session 0 runs with a put, session 1 is prepared with another one.
fn begin_both(alloc: Global, rt: &impl Abort, engine: &mut Local) -> Result<(), NoMemory> {
    assert!(rt; begin_put(alloc, engine, 0, b"a")?);
    assert!(rt; begin_put(alloc, engine, 1, b"b")?);
    let prepared = ask(alloc, engine, 1, SessionCall::Prepare(5));
    assert!(rt; prepared == Some(Answer::Done));
    assert!(rt; listed(alloc, engine)? == 2);
    Ok(())
}

// The puts of the two are gone, for session 2.
fn has_neither(alloc: Global, rt: &impl Abort, engine: &mut Local) -> Result<(), NoMemory> {
    assert!(rt; ask(alloc, engine, 2, SessionCall::Begin(None)) == Some(Answer::Done));
    let absent = Some(Answer::Refused(Refusal::NotFound));
    assert!(rt; get(alloc, engine, 2, b"a")? == absent);
    assert!(rt; get(alloc, engine, 2, b"b")? == absent);
    Ok(())
}

// A checkpoint may come that lists no id, of two keys.
fn may_take(alloc: Global, rt: &impl Abort, engine: &Local) -> Result<(), NoMemory> {
    assert!(rt; engine.may_checkpoint(0) == Ok(()));
    assert!(rt; listed(alloc, engine)? == 0);
    assert!(rt; keys(engine, 0) == Some(2));
    assert!(rt;
        engine.marks()
            == EngineMarks {
                run: 1,
                next: 3,
                oldest: 0,
                stable: 0
            }
    );
    Ok(())
}

// The engine goes down after a checkpoint, and takes no other one.
fn goes_down(rt: &impl Abort, engine: &mut Local) {
    engine.checkpointed();
    engine.go_down(Fault::Sync);
    let down = Err(Refusal::Panic { fault: Fault::Sync });
    assert!(rt; engine.may_checkpoint(1) == down);
}

#[test]
fn a_close_rolls_back_all(rt: HostRuntime) -> Result<(), NoMemory> {
    let alloc = rt.alloc();
    let mut engine = engine(alloc)?;
    begin_both(alloc, &rt, &mut engine)?;
    assert!(rt; engine.may_close() == Ok(()));
    engine.roll_back_all(alloc);
    has_neither(alloc, &rt, &mut engine)?;
    may_take(alloc, &rt, &engine)?;
    goes_down(&rt, &mut engine);
    Ok(())
}

#[test]
fn items_that_are_lent_are_kept(rt: HostRuntime) -> Result<(), NoMemory> {
    let alloc = rt.alloc();
    let mut engine = engine(alloc)?;
    assert!(rt; ask(alloc, &mut engine, 0, SessionCall::Begin(None)) == Some(Answer::Done));
    assert!(rt; keeps_lent(alloc, &mut engine, b"longer", b"1")?);
    assert!(rt; keeps_lent(alloc, &mut engine, b"k", b"22")?);
    let one = Some(Answer::Value(item(alloc, b"1")?));
    assert!(rt; get(alloc, &mut engine, 0, b"longer")? == one);
    Ok(())
}

// The leaf comes into a frame, and a get reads its row.
fn reads_filled(alloc: Global, rt: &impl Abort, away: &mut Local) -> Result<(), NoMemory> {
    let value = Some(Answer::Value(item(alloc, b"v")?));
    let frame = LeafFrame::of_page(alloc, page(alloc)?);
    assert!(rt; filled(alloc, away, frame)? == value);
    assert!(rt; get(alloc, away, 0, b"k")? == value);
    Ok(())
}

// What session 0 reads of a key of the table `t`, into the buffer.
fn read_into(engine: &Local, key: &[u8], value: &mut Vec<u8>) -> Option<Got> {
    let table = engine.table_number(b"t")?;
    if engine.sessions() == 0 {
        return None;
    }
    Some(engine.get_into(0, table, key, value))
}

#[test]
fn a_value_is_read_into_a_buffer_that_is_used_again(rt: HostRuntime) -> Result<(), NoMemory> {
    let alloc = rt.alloc();
    let mut engine = engine(alloc)?;
    assert!(rt; ask(alloc, &mut engine, 0, SessionCall::Begin(None)) == Some(Answer::Done));
    assert!(rt; keeps_lent(alloc, &mut engine, b"k", b"longer")?);
    assert!(rt; keeps_lent(alloc, &mut engine, b"l", b"2")?);
    let mut value = Vec::new(alloc);
    assert!(rt; read_into(&engine, b"k", &mut value) == Some(Got::Found));
    assert!(rt; read_into(&engine, b"l", &mut value) == Some(Got::Found));
    assert!(rt; value.as_slice() == b"2".as_slice());
    let absent = Some(Got::Refused(Refusal::NotFound));
    assert!(rt; read_into(&engine, b"m", &mut value) == absent);
    Ok(())
}

// The keys and values of a batch, one behind the other.
fn text_of(alloc: Global, rows: &RowBatch) -> Result<Vec<u8>, NoMemory> {
    let mut text = Vec::new(alloc);
    for at in 0..rows.len() {
        if let Some(row) = rows.row(at) {
            text.extend_from_slice(row.key)?;
            text.extend_from_slice(row.value)?;
        }
    }
    Ok(text)
}

// How session 0 reads on in the table `t`, by its first cursor.
fn read_on(
    alloc: Global,
    engine: &mut Local,
    way: Way,
    most: usize,
    rows: &mut RowBatch,
) -> Option<Result<(), Refusal>> {
    let table = engine.table_number(b"t")?;
    if engine.sessions() == 0 {
        return None;
    }
    Some(engine.next_rows(alloc, 0, 0, table, way, most, rows))
}

#[test]
fn a_cursor_reads_on_from_the_last_row_of_a_batch(rt: HostRuntime) -> Result<(), NoMemory> {
    let alloc = rt.alloc();
    let mut engine = engine(alloc)?;
    let mut rows = RowBatch::new(alloc);
    let idle = Some(Err(Refusal::Invalid(Invalid::NoTxn)));
    assert!(rt; read_on(alloc, &mut engine, Way::Up, 9, &mut rows) == idle);
    assert!(rt; ask(alloc, &mut engine, 0, SessionCall::Begin(None)) == Some(Answer::Done));
    for key in [b"a", b"b", b"c", b"d"] {
        assert!(rt; keeps_lent(alloc, &mut engine, key.as_slice(), b"-")?);
    }
    for (way, most, read) in [
        (Way::Up, 2, b"a-b-".as_slice()),
        (Way::Up, 1, b"c-".as_slice()),
        (Way::Up, 9, b"d-".as_slice()),
        (Way::Up, 9, b"".as_slice()),
        (Way::Down, 2, b"c-b-".as_slice()),
        (Way::Up, 0, b"".as_slice()),
        (Way::Down, 9, b"a-".as_slice()),
    ] {
        let told = read_on(alloc, &mut engine, way, most, &mut rows);
        assert!(rt; told == Some(Ok(())));
        assert!(rt; text_of(alloc, &rows)?.as_slice() == read);
    }
    Ok(())
}

#[test]
fn a_lent_get_waits_for_its_leaf(rt: HostRuntime) -> Result<(), NoMemory> {
    let alloc = rt.alloc();
    let mut away = on_device(alloc)?;
    assert!(rt; ask(alloc, &mut away, 0, SessionCall::Begin(None)) == Some(Answer::Done));
    let mut value = Vec::new(alloc);
    assert!(rt; read_into(&away, b"k", &mut value) == Some(Got::Away));
    let mut rows = RowBatch::new(alloc);
    assert!(rt; read_on(alloc, &mut away, Way::Up, 9, &mut rows) == Some(Ok(())));
    assert!(rt; rows.len() == 0);
    let kept = Some(Answer::Refused(Refusal::DiskFault));
    assert!(rt; kept_from(alloc, &mut away) == kept);
    reads_filled(alloc, &rt, &mut away)
}
