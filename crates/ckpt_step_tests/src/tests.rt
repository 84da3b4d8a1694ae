// Checkpoints of an engine on a disk in memory: the bytes that they write, the room that they take,
// and what a failing call leaves.
ghost use Rattle.std.specs.Prelude.{IsTrue};
ghost use Rattle.ckpt_step.specs.Trees.{AreLow};

use block_sum::sum;
use catalog::Catalog;
use checkpoint_record::Record;
use ckpt_step::{Evicted, Ground, Lives, Parts, checkpoint, evict, finish, start};
use device_layout::Addr;
use disk_model::{Call as DiskCall, Look, MemDisk};
use engine::{Called, Local, RunningCheckpoint, Stays};
use hist_open::History;
use item::{Change, Format, Formats, Item};
use plain_disk::PlainDisk;
use recover_open::{Kept, Recovered, SurveyedWhole, recover, survey_whole};
use row_page::CellChange;
use stamp::Name;
use std::alloc::Global;
use std::process::Abort;
use tree_dir::{Dir, Leaf};
use tree_open::TreePlace;
use wt_calls::{Demand, SessionCall, SystemCall};
use wt_code::{Answer, Refusal};

const BYTES: Formats = Formats {
    key: Format::U,
    value: Format::U,
};

const COMMIT: SessionCall = SessionCall::Commit {
    commit: None,
    durable: None,
};

const ROOM: u64 = 1 << 20; // bytes

// An engine, its disk, and what its next checkpoint stands on.
#[derive(Drop)]
struct Bench {
    disk: PlainDisk,
    ground: Ground,
    engine: Local,
}

fn item(rt: &impl Abort, alloc: Global, bytes: &[u8]) -> Item {
    Item::new(Vec::from_slice(alloc, bytes).expect(rt, "there is memory"))
}

#[tactic(auto, using(crate::proofs::Bases::none_owned, crate::proofs::Bases::unset_fit))]
fn engine_on_nothing(rt: &impl Abort, alloc: Global) -> Local {
    let tables = Catalog::new(alloc);
    let opened = Local::open(alloc, 1, 0, 0, tables, Dir::new(alloc));
    opened.expect(rt, "there is memory")
}

// So many bytes, each of them this one.
fn bytes_of(rt: &impl Abort, alloc: Global, len: usize, byte: u8) -> Vec<u8> {
    let mut bytes = Vec::new(alloc);
    bytes.resize(len, byte).expect(rt, "there is memory");
    bytes
}

// A new device. The calls of the disk of these numbers fail, the first being 0.
fn new_disk(rt: &impl Abort, alloc: Global, capacity: u64, failing: &[u64]) -> PlainDisk {
    let content = bytes_of(rt, alloc, 8_192, 0);
    let failing = Vec::from_slice(alloc, failing).expect(rt, "there is memory");
    let medium = MemDisk::new(alloc, content, capacity, failing).expect(rt, "there is memory");
    PlainDisk { medium }
}

// What a checkpoint of a new device stands on.
fn ground_on(alloc: Global, found: Recovered) -> Ground {
    let Recovered { place, kept: _ } = found;
    Ground {
        place,
        number: 0,
        trees: Vec::new(alloc),
        parts: Parts::new(alloc),
        lives: Lives::new(alloc),
        history: Vec::new(alloc),
        kept: ckpt_step::Kept::new(alloc),
        floor: Name { run: 0, id: 0 },
    }
}

// An engine that has these tables and a session.
fn engine_with(rt: &impl Abort, alloc: Global, tables: &[&[u8]]) -> Local {
    let mut engine = engine_on_nothing(rt, alloc);
    assert!(rt; engine.open_session(alloc).is_ok());
    for name in tables {
        create(rt, alloc, &mut engine, name);
    }
    engine
}

// A new device, and an engine on it that has these tables and a session.
fn new_bench(
    rt: &impl Abort,
    alloc: Global,
    capacity: u64,
    failing: &[u64],
    tables: &[&[u8]],
) -> Bench {
    let mut disk = new_disk(rt, alloc, capacity, failing);
    let found = recover(alloc, &mut disk).expect(rt, "a new device");
    Bench {
        disk,
        ground: ground_on(alloc, found),
        engine: engine_with(rt, alloc, tables),
    }
}

// The same with room enough, no call that fails, and the table `a`.
fn new_table(rt: &impl Abort, alloc: Global) -> Bench {
    new_bench(rt, alloc, ROOM, &[], &[b"a"])
}

fn create(rt: &impl Abort, alloc: Global, engine: &mut Local, name: &[u8]) {
    let call = SystemCall::Create {
        table: item(rt, alloc, name),
        formats: BYTES,
    };
    // That there is an actor of the system.
    let _actors = engine.actors();
    assert!(rt; engine.call_system(alloc, 0, call) == Answer::Done);
}

fn ask(rt: &impl Abort, alloc: Global, engine: &mut Local, session: u32, call: SessionCall) {
    assert!(rt; session < engine.sessions());
    assert!(rt; engine.call(alloc, session, call) == Called::Ended(Answer::Done));
}

// A transaction of one call.
fn ask_whole(rt: &impl Abort, alloc: Global, bench: &mut Bench, call: SessionCall) {
    let engine = &mut bench.engine;
    ask(rt, alloc, engine, 0, SessionCall::Begin(None));
    ask(rt, alloc, engine, 0, call);
    ask(rt, alloc, engine, 0, COMMIT);
}

// A second session, with a transaction.
fn begin_beside(rt: &impl Abort, alloc: Global, engine: &mut Local) {
    assert!(rt; engine.open_session(alloc).is_ok());
    ask(rt, alloc, engine, 1, SessionCall::Begin(None));
}

fn put_call(
    rt: &impl Abort,
    alloc: Global,
    (table, key, value): (&[u8], &[u8], &[u8]),
) -> SessionCall {
    SessionCall::Put {
        table: item(rt, alloc, table),
        key: item(rt, alloc, key),
        value: item(rt, alloc, value),
        demand: Demand::Anything,
    }
}

// A transaction that gives the key `k` of a table a value.
fn put(rt: &impl Abort, alloc: Global, bench: &mut Bench, table: &[u8], value: &[u8]) {
    ask_whole(rt, alloc, bench, put_call(rt, alloc, (table, b"k", value)));
}

// A transaction that gives a key of the table `a` a value of so many bytes.
fn put_at(rt: &impl Abort, alloc: Global, bench: &mut Bench, key: u16, (len, byte): (usize, u8)) {
    let value = bytes_of(rt, alloc, len, byte);
    let put = put_call(rt, alloc, (b"a", &key.to_be_bytes(), &value));
    ask_whole(rt, alloc, bench, put);
}

// Whether no tree has more levels than a record tells.
fn are_low(trees: &[TreePlace]) -> bool
    ensures { IsTrue result → AreLow trees.now }
{
    for tree in trees {
        if tree.root.level > 60 {
            return false;
        }
    }
    true
}

fn take(rt: &impl Abort, alloc: Global, bench: &mut Bench) -> Result<(), Refusal> {
    let marks = bench.engine.marks();
    assert!(rt; marks.run.saturating_sub(1) <= bench.ground.number);
    assert!(rt; bench.ground.trees.len() <= bench.engine.tables().len());
    assert!(rt; are_low(&bench.ground.trees));
    checkpoint(alloc, &mut bench.disk, &mut bench.ground, &mut bench.engine)
}

fn start_one(rt: &impl Abort, alloc: Global, bench: &Bench) -> RunningCheckpoint {
    let running = start(alloc, &bench.ground, &bench.engine);
    running.expect(rt, "it starts")
}

fn finish_one(
    rt: &impl Abort,
    alloc: Global,
    bench: &mut Bench,
    running: &RunningCheckpoint,
) -> Result<(), Refusal> {
    let marks = bench.engine.marks();
    assert!(rt; marks.run.saturating_sub(1) <= bench.ground.number);
    assert!(rt; bench.ground.trees.len() <= bench.engine.tables().len());
    assert!(rt; are_low(&bench.ground.trees));
    finish(
        alloc,
        &mut bench.disk,
        &mut bench.ground,
        &mut bench.engine,
        running,
    )
}

fn take_whole(rt: &impl Abort, alloc: Global, bench: &mut Bench) {
    assert!(rt; take(rt, alloc, bench) == Ok(()));
}

fn check_len(rt: &impl Abort, bench: &Bench, wanted: usize) {
    assert_eq!(rt; bench.disk.medium.bytes().len(), wanted);
}

// Takes a checkpoint, the one of this number, behind which the device has so many bytes at most.
fn take_within(rt: &impl Abort, alloc: Global, bench: &mut Bench, number: usize, most: usize) {
    assert!(rt; take(rt, alloc, bench) == Ok(()), "checkpoint {number}");
    let len = bench.disk.medium.bytes().len();
    assert!(rt; len <= most, "checkpoint {number}: {len}");
}

// Checkpoints for which there is no room.
fn take_none(rt: &impl Abort, alloc: Global, bench: &mut Bench, count: u32) {
    for _ in 0..count {
        assert!(rt; take(rt, alloc, bench) == Err(Refusal::NoSpace));
    }
}

// Sequence 1, of the record at 16,384; its sum stands at 32.
const SLOT: [u8; 36] = [
    0xa5, b'W', b'T', b'T', b'U', b'R', b'T', b'L', 1, 0, 0, 0, 1, 0, 0, 0, 0, 0, 0, 0, 0, 0x40, 0,
    0, 0, 0, 0, 0, 0, 0x10, 0, 0, 0, 0, 0, 0,
];

// One row: key k, value 1, run 1, id 1.
const LEAF: [u8; 57] = [
    1, 1, 1, 0, 57, 0, 0, 0, 0, 0, 0, 0, 0, 0, 0, 0, 1, 0, 1, 1, 0, 0, 0, 1, 0, 0, 0, 0, 0, 0, 0,
    1, 0, 0, 0, 0, 0, 0, 0, 0, 0, 0, 0, 0, 0, 0, 0, 0, 0, 0, 0, 0, 0, 0, 0, b'k', b'1',
];

const RECORD: [u8; 209] = [
    // 0: kind 5, format 1, two tables, used 209, level 0
    0x05, 0x01, 0x02, 0x00, 0xd1, 0x00, 0x00, 0x00, 0x00, 0x00, 0x00, 0x00, 0x00, 0x00, 0x00, 0x00,
    // 16: sequence 1, run 1
    0x01, 0x00, 0x00, 0x00, 0x00, 0x00, 0x00, 0x00, 0x01, 0x00, 0x00, 0x00, 0x00, 0x00, 0x00, 0x00,
    // 32: oldest and stable are unset
    0x00, 0x00, 0x00, 0x00, 0x00, 0x00, 0x00, 0x00, 0x00, 0x00, 0x00, 0x00, 0x00, 0x00, 0x00, 0x00,
    // 48: snapshot min 3, max 3
    0x03, 0x00, 0x00, 0x00, 0x00, 0x00, 0x00, 0x00, 0x03, 0x00, 0x00, 0x00, 0x00, 0x00, 0x00, 0x00,
    // 64: no ids; the next table's number is 3; the history has level 0
    0x00, 0x00, 0x03, 0x00, 0x00, 0x00, 0x00,
    // 71: and stands nowhere
    0x00, 0x00, 0x00, 0x00, 0x00, 0x00, 0x00, 0x00, 0x00, 0x00, 0x00, 0x00, 0x00, 0x00, 0x00, 0x00,
    0x00, 0x00, 0x00, 0x00, 0x00, 0x00, 0x00, 0x00, 0x00, 0x00, 0x00, 0x00, 0x00, 0x00, 0x00, 0x00,
    0x00, 0x00, 0x00, 0x00, 0x00, 0x00, 0x00, 0x00,
    // 111: table 2, level 0, a name of 1 byte
    0x02, 0x00, 0x00, 0x00, 0x75, 0x75, 0x00, 0x01,
    // 119: offset 12,288, size 4,096, the sum of the leaf, run 1, id 2, durable 0
    0x00, 0x30, 0x00, 0x00, 0x00, 0x00, 0x00, 0x00, 0x00, 0x10, 0x00, 0x00, 0x00, 0x00, 0x00, 0x00,
    0x01, 0x00, 0x00, 0x00, 0x00, 0x00, 0x00, 0x00, 0x02, 0x00, 0x00, 0x00, 0x00, 0x00, 0x00, 0x00,
    0x00, 0x00, 0x00, 0x00, 0x00, 0x00, 0x00, 0x00, 0x61,
    // 160: table 1, level 0, a name of 1 byte
    0x01, 0x00, 0x00, 0x00, 0x75, 0x75, 0x00, 0x01,
    // 168: offset 8,192, size 4,096, the sum of the leaf, run 1, id 1, durable 0
    0x00, 0x20, 0x00, 0x00, 0x00, 0x00, 0x00, 0x00, 0x00, 0x10, 0x00, 0x00, 0x00, 0x00, 0x00, 0x00,
    0x01, 0x00, 0x00, 0x00, 0x00, 0x00, 0x00, 0x00, 0x01, 0x00, 0x00, 0x00, 0x00, 0x00, 0x00, 0x00,
    0x00, 0x00, 0x00, 0x00, 0x00, 0x00, 0x00, 0x00, 0x62,
];

// What is written at an offset, with bytes of it that are other ones.
type Piece<'a> = (usize, &'a [u8], &'a [(usize, u8)]);

// The length of the device after a checkpoint, what it writes, and where the sum of a block of 4,096
// bytes at an offset stands.
type Written<'a> = (usize, &'a [Piece<'a>], &'a [(usize, usize)]);

const FIRST: Written<'static> = (
    20_480,
    &[
        (0, &SLOT, &[]),
        (8_192, &LEAF, &[]),
        (12_288, &LEAF, &[(31, 2)]),
        (16_384, &RECORD, &[]),
    ],
    &[(12_288, 16_515), (8_192, 16_564), (16_384, 32)],
);

// Table 1 changed: value 2, id 3.
const SECOND: Written<'static> = (
    28_672,
    &[
        (4_096, &SLOT, &[(12, 2), (21, 0x60)]),
        (20_480, &LEAF, &[(31, 3), (56, b'2')]),
        (
            24_576,
            &RECORD,
            &[(16, 2), (48, 4), (56, 4), (169, 0x50), (192, 3)],
        ),
    ],
    &[(12_288, 24_707), (20_480, 24_756), (24_576, 4_128)],
);

// Nothing changed.
const THIRD: Written<'static> = (
    28_672,
    &[
        (0, &SLOT, &[(12, 3), (21, 0x20)]),
        (
            8_192,
            &RECORD,
            &[(16, 3), (48, 4), (56, 4), (169, 0x50), (192, 3)],
        ),
    ],
    &[(12_288, 8_323), (20_480, 8_372), (8_192, 32)],
);

fn lay(rt: &impl Abort, content: &mut [u8], at: usize, bytes: &[u8]) {
    for (i, byte) in bytes.iter().enumerate() {
        let place = content.get_mut(at.saturating_add(i));
        *place.expect(rt, "a place") = *byte;
    }
}

fn lay_piece(rt: &impl Abort, content: &mut [u8], (at, bytes, changes): &Piece<'_>) {
    lay(rt, content, *at, bytes);
    for (place, byte) in *changes {
        lay(rt, content, at.saturating_add(*place), &[*byte]);
    }
}

fn lay_sum(rt: &impl Abort, content: &mut [u8], block: usize, at: usize) {
    let bytes = content.get(block..block.saturating_add(4_096));
    let sum = sum(bytes.expect(rt, "a block"));
    lay(rt, content, at, &sum.to_le_bytes());
}

fn lay_pieces(rt: &impl Abort, content: &mut [u8], pieces: &[Piece<'_>]) {
    for piece in pieces {
        lay_piece(rt, content, piece);
    }
}

fn lay_sums(rt: &impl Abort, content: &mut [u8], sums: &[(usize, usize)]) {
    for (block, at) in sums {
        lay_sum(rt, content, *block, *at);
    }
}

// The content of the device after one checkpoint more.
fn add_written(rt: &impl Abort, content: &mut Vec<u8>, written: &Written<'_>) {
    let (len, pieces, sums) = written;
    content.resize(*len, 0).expect(rt, "there is memory");
    lay_pieces(rt, content, pieces);
    lay_sums(rt, content, sums);
}

// The first place at which two contents differ.
fn first_difference(content: &[u8], other: &[u8]) -> Option<usize> {
    for i in 0..content.len().max(other.len()) {
        if content.get(i) != other.get(i) {
            return Some(i);
        }
    }
    None
}

fn reads_block(call: &DiskCall) -> bool {
    matches!(call, DiskCall::Looked(Look::Read(at)) if *at >= 8_192)
}

// How many blocks were read, leaving out so many calls at the front.
fn blocks_read(disk: &MemDisk, first: usize) -> usize {
    let mut count = 0usize;
    for call in disk.calls().iter().skip(first) {
        if reads_block(call) {
            count = count.saturating_add(1);
        }
    }
    count
}

fn check_content(rt: &impl Abort, bench: &Bench, content: &[u8]) {
    let bytes = bench.disk.medium.bytes();
    assert_eq!(rt; first_difference(bytes, content), None);
}

// Takes a checkpoint that reads no block and writes this, the content of the device being known.
fn take_written(
    rt: &impl Abort,
    alloc: Global,
    two: &mut Bench,
    content: &mut Vec<u8>,
    written: &Written<'_>,
) {
    let first = two.disk.medium.calls().len();
    take_whole(rt, alloc, two);
    assert!(rt; blocks_read(&two.disk.medium, first) == 0);
    add_written(rt, content, written);
    check_content(rt, two, content);
}

fn check_written(rt: &impl Abort, alloc: Global, two: &mut Bench) {
    put(rt, alloc, two, b"b", b"1");
    put(rt, alloc, two, b"a", b"1");
    let mut content = bytes_of(rt, alloc, 8_192, 0);
    take_written(rt, alloc, two, &mut content, &FIRST);
    put(rt, alloc, two, b"b", b"2");
    take_written(rt, alloc, two, &mut content, &SECOND);
    take_written(rt, alloc, two, &mut content, &THIRD);
}

#[test]
fn a_checkpoint_writes_what_changed_and_its_record(rt: HostRuntime) {
    let alloc = rt.alloc();
    let mut two = new_bench(&rt, alloc, ROOM, &[], &[b"b", b"a"]);
    check_written(&rt, alloc, &mut two);
}

const TABLES: [&[u8]; 3] = [b"a", b"b", b"c"];

fn put_in_turn(rt: &impl Abort, alloc: Global, three: &mut Bench, i: usize) {
    put(rt, alloc, three, TABLES[i % 3], &i.to_le_bytes());
}

fn take_many(rt: &impl Abort, alloc: Global, three: &mut Bench) {
    for i in 0..1_000usize {
        put_in_turn(rt, alloc, three, i);
        take_within(rt, alloc, three, i, 32_768);
    }
    check_len(rt, three, 32_768);
}

// Three leaves and the record of the checkpoint before, a new leaf and a new record.
#[test]
fn the_room_of_older_checkpoints_is_used_again(rt: HostRuntime) {
    let alloc = rt.alloc();
    let mut three = new_bench(&rt, alloc, ROOM, &[], &TABLES);
    take_many(&rt, alloc, &mut three);
}

// A bench of two tables that has taken so many checkpoints, and whose table `b` has changed since.
fn changed_after(rt: &impl Abort, alloc: Global, count: u8, failing: &[u64]) -> Bench {
    let mut two = new_bench(rt, alloc, ROOM, failing, &[b"b", b"a"]);
    take_and_change(rt, alloc, &mut two, count);
    two
}

fn take_and_change(rt: &impl Abort, alloc: Global, two: &mut Bench, count: u8) {
    put(rt, alloc, two, b"a", b"\0");
    for i in 0..count {
        put(rt, alloc, two, b"b", &[i]);
        take_whole(rt, alloc, two);
    }
    put(rt, alloc, two, b"b", &[count]);
}

// What the last checkpoint on a device has.
fn kept_on(rt: &impl Abort, alloc: Global, mut disk: MemDisk) -> Option<Kept> {
    let Recovered { place: _, kept } = recover(alloc, &mut disk).expect(rt, "it opens");
    kept
}

fn byte_of(change: &CellChange<Item>) -> Option<u8> {
    match change {
        CellChange::Put(value) => value.as_bytes().first().copied(),
        CellChange::Remove => None,
    }
}

// The value of the key of table `b`. Table `a` has its row.
fn value_in(rt: &impl Abort, kept: Kept) -> Option<u8> {
    let Kept {
        record: _,
        trees: _,
        leaves,
    } = kept;
    let mut leaves = leaves.into_iter();
    let first = leaves.next().expect(rt, "table a").into_rows();
    assert!(rt; !first.is_empty());
    let second = leaves.next().expect(rt, "table b").into_rows();
    match second.first() {
        Some((_, cell)) => byte_of(&cell.change),
        None => None,
    }
}

// The same on an image that a crash leaves of a device, none where no checkpoint was completed.
fn value_left(rt: &impl Abort, alloc: Global, two: Bench, pick: u64) -> Option<u8> {
    let left = two.disk.medium.crash(pick).expect(rt, "there is memory");
    match kept_on(rt, alloc, left) {
        Some(kept) => value_in(rt, kept),
        None => None,
    }
}

// How many rows the first table has.
fn rows_in(rt: &impl Abort, kept: Kept) -> usize {
    let Kept {
        record: _,
        trees: _,
        leaves,
    } = kept;
    let mut leaves = leaves.into_iter();
    leaves.next().expect(rt, "a table").into_rows().len()
}

// The first table on what a crash leaves of the device has so many rows.
fn check_rows(rt: &impl Abort, alloc: Global, bench: Bench, wanted: usize) {
    let left = bench.disk.medium.crash(0).expect(rt, "there is memory");
    let kept = kept_on(rt, alloc, left).expect(rt, "a checkpoint");
    assert_eq!(rt; rows_in(rt, kept), wanted);
}

// Whether the call of this number is a write or a sync that failed.
fn takes_down(rt: &impl Abort, disk: &MemDisk, call: u64) -> bool {
    let failed = disk.calls().get(call as usize).expect(rt, "a call");
    matches!(
        failed,
        DiskCall::Missed(_, _) | DiskCall::Looked(Look::SyncFailed)
    )
}

// The call of this number fails in a checkpoint.
fn fail(rt: &impl Abort, alloc: Global, two: &mut Bench, count: u8, call: u64) {
    let taken = take(rt, alloc, two);
    assert!(rt; taken == Err(Refusal::DiskFault), "{count}: call {call}");
}

// The same, and the next checkpoint. Whether the engine is down then.
fn fail_and_take(rt: &impl Abort, alloc: Global, two: &mut Bench, count: u8, call: u64) -> bool {
    fail(rt, alloc, two, count, call);
    take_again(rt, alloc, two, count, call)
}

// The next checkpoint goes on where the engine is up. Whether it is down.
fn take_again(rt: &impl Abort, alloc: Global, two: &mut Bench, count: u8, call: u64) -> bool {
    let again = take(rt, alloc, two);
    let is_down = takes_down(rt, &two.disk.medium, call);
    assert!(rt; matches!(again, Err(Refusal::Panic { fault: _ })) == is_down);
    assert!(rt; again.is_ok() != is_down, "{count}: call {call}");
    is_down
}

// What a crash then leaves: the last two calls write the gate of the slot, which is one byte, and sync
// it; other bytes in its place are an open gate.
fn value_after(count: u8, is_down: bool, left: u64, pick: u64) -> Option<u8> {
    let opens_gate = left <= 2 && matches!(pick, 1 | 3 | 4 | 6);
    if !is_down || opens_gate {
        Some(count)
    } else {
        count.checked_sub(1)
    }
}

// The call of this number fails in a checkpoint that would end so many calls behind it.
fn fails(rt: &impl Abort, alloc: Global, count: u8, call: u64, left: u64, pick: u64) {
    let mut two = changed_after(rt, alloc, count, &[call]);
    let is_down = fail_and_take(rt, alloc, &mut two, count, call);
    let want = value_after(count, is_down, left, pick);
    let found = value_left(rt, alloc, two, pick);
    assert_eq!(rt; found, want, "{count}: call {call}, {pick}");
}

// All outcomes of the gate's byte, and four of what is before it.
fn fails_by_picks(rt: &impl Abort, alloc: Global, count: u8, call: u64, left: u64) {
    let picks = if left <= 2 { 8 } else { 4 };
    for pick in 0..picks {
        fails(rt, alloc, count, call, left, pick);
    }
}

// The number of the first call of the next checkpoint, and that of the one behind its last.
fn bounds(rt: &impl Abort, alloc: Global, count: u8) -> (u64, u64) {
    let mut two = changed_after(rt, alloc, count, &[]);
    bounds_on(rt, alloc, &mut two)
}

fn bounds_on(rt: &impl Abort, alloc: Global, two: &mut Bench) -> (u64, u64) {
    let first = two.disk.medium.calls().len() as u64;
    take_whole(rt, alloc, two);
    (first, two.disk.medium.calls().len() as u64)
}

// The checkpoint behind so many others makes so many calls, each of which fails in turn.
fn each_fails(rt: &impl Abort, alloc: Global, count: u8, calls: u64) {
    let (first, end) = bounds(rt, alloc, count);
    assert_eq!(rt; end.saturating_sub(first), calls, "{count}");
    for call in first..end {
        fails_by_picks(rt, alloc, count, call, end.saturating_sub(call));
    }
}

#[test]
fn a_failing_call_leaves_the_checkpoint_before_or_the_new_one(rt: HostRuntime) {
    for (count, calls) in [(0, 12), (1, 10), (2, 12)] {
        each_fails(&rt, rt.alloc(), count, calls);
    }
}

fn check_only_length(rt: &impl Abort, calls: &[DiskCall]) {
    assert!(rt; calls.len() == 1);
    let only = calls.first().expect(rt, "a call");
    assert!(rt; matches!(only, DiskCall::Looked(Look::Len)));
}

fn check_short(rt: &impl Abort, alloc: Global, two: &mut Bench) {
    two.disk = new_disk(rt, alloc, ROOM, &[]);
    assert!(rt; take(rt, alloc, two) == Err(Refusal::NoMemory));
    check_only_length(rt, two.disk.medium.calls());
}

// The blocks of the checkpoint before are gone: the length is asked for, and nothing is written.
#[test]
fn a_device_shorter_than_its_blocks_is_left_alone(rt: HostRuntime) {
    let alloc = rt.alloc();
    let mut two = changed_after(&rt, alloc, 1, &[]);
    check_short(&rt, alloc, &mut two);
}

fn put_long(rt: &impl Abort, alloc: Global, bench: &mut Bench) {
    let long = bytes_of(rt, alloc, 5_000, b'1');
    put(rt, alloc, bench, b"a", &long);
}

fn check_room(rt: &impl Abort, alloc: Global, bench: &mut Bench) {
    put_long(rt, alloc, bench);
    take_none(rt, alloc, bench, 3);
    put(rt, alloc, bench, b"a", b"1");
    take_whole(rt, alloc, bench);
    check_len(rt, bench, 16_384);
    take_none(rt, alloc, bench, 1);
}

// Two units have room for a leaf and a record, and not for a leaf of two and a record.
#[test]
fn a_checkpoint_without_room_gives_back_what_it_wrote(rt: HostRuntime) {
    let alloc = rt.alloc();
    let mut bench = new_bench(&rt, alloc, 16_384, &[], &[b"a"]);
    check_room(&rt, alloc, &mut bench);
}

// Gives each of 300 keys a value of so many bytes.
fn put_rows(rt: &impl Abort, alloc: Global, bench: &mut Bench, len: usize) {
    for key in 0..300u16 {
        put_at(rt, alloc, bench, key, (len, b'1'));
    }
}

// A bench with the rows of 200 bytes: two leaves of 135 rows, which take 32,768 bytes, one of 30, which
// takes 8,192, an inner page, and the record.
fn with_rows(rt: &impl Abort, alloc: Global) -> Bench {
    let mut bench = new_table(rt, alloc);
    put_rows(rt, alloc, &mut bench, 200);
    bench
}

// The offsets of the leaves of the first table.
fn leaf_offsets(rt: &impl Abort, alloc: Global, bench: &Bench) -> Vec<u64> {
    let mut offsets = Vec::new(alloc);
    let tree = bench.ground.trees.get(0).expect(rt, "a tree");
    for link in &tree.leaves {
        offsets.push(link.addr.offset).expect(rt, "there is memory");
    }
    offsets
}

// Takes a checkpoint, behind which the leaves of the first table stand there.
fn take_at(rt: &impl Abort, alloc: Global, bench: &mut Bench, wanted: &[u64]) {
    take_whole(rt, alloc, bench);
    assert_eq!(rt; leaf_offsets(rt, alloc, bench).as_slice(), wanted);
}

// Changes 20 rows one by one. What the checkpoints before had alone is free again.
fn change_rows(rt: &impl Abort, alloc: Global, bench: &mut Bench) {
    for i in 0..20u16 {
        let key = i.saturating_mul(10).saturating_add(100);
        put_at(rt, alloc, bench, key, (200, b'2'));
        take_within(rt, alloc, bench, usize::from(key), 167_936);
    }
}

fn take_first(rt: &impl Abort, alloc: Global, bench: &mut Bench) {
    take_at(rt, alloc, bench, &[8_192, 40_960, 73_728]);
    check_len(rt, bench, 90_112);
}

// The middle leaf changes: it, the inner page and the record are written behind the others.
fn take_second(rt: &impl Abort, alloc: Global, bench: &mut Bench) {
    put_at(rt, alloc, bench, 200, (200, b'2'));
    take_at(rt, alloc, bench, &[8_192, 90_112, 73_728]);
    check_len(rt, bench, 131_072);
}

fn take_changed(rt: &impl Abort, alloc: Global, bench: &mut Bench) {
    take_first(rt, alloc, bench);
    take_second(rt, alloc, bench);
    change_rows(rt, alloc, bench);
}

#[test]
fn a_table_past_one_leaf_keeps_the_leaves_that_are_the_same(rt: HostRuntime) {
    let alloc = rt.alloc();
    let mut bench = with_rows(&rt, alloc);
    take_changed(&rt, alloc, &mut bench);
    check_rows(&rt, alloc, bench, 300);
}

// Evicts a leaf beside this checkpoint, if one runs.
fn let_out(
    alloc: Global,
    bench: &mut Bench,
    running: Option<&RunningCheckpoint>,
    leaf: u64,
) -> Result<Evicted, Refusal> {
    evict(
        alloc,
        &mut bench.disk,
        &mut bench.ground,
        &mut bench.engine,
        running,
        leaf,
    )
}

// Evicts the first leaf that was made.
fn check_let_out(rt: &impl Abort, alloc: Global, bench: &mut Bench, wanted: Evicted) {
    assert!(rt; let_out(alloc, bench, None, 0) == Ok(wanted));
}

fn part(rt: &impl Abort, alloc: Global, bench: &mut Bench) {
    begin_beside(rt, alloc, &mut bench.engine);
    check_let_out(rt, alloc, bench, Evicted::Parted);
    check_let_out(rt, alloc, bench, Evicted::Stays(Stays::Away));
    check_len(rt, bench, 81_920);
    take_at(rt, alloc, bench, &[8_192, 40_960, 73_728]);
}

// The leaf of these rows parts while a transaction runs, and the checkpoint keeps its three blocks as
// they stand.
#[test]
fn a_leaf_of_three_blocks_parts_beside_a_transaction(rt: HostRuntime) {
    let alloc = rt.alloc();
    let mut bench = with_rows(&rt, alloc);
    part(&rt, alloc, &mut bench);
    check_rows(&rt, alloc, bench, 300);
}

fn is_first(change: &Change) -> bool {
    matches!(change, Change::Put(value) if value.as_bytes() == b"first".as_slice())
}

// The first value alone is kept of the leaf.
fn check_first_kept(rt: &impl Abort, alloc: Global, ground: &Ground) {
    let moved = ground.kept.copy_of(alloc, 0);
    let moved = moved.expect(rt, "there is memory");
    assert!(rt; moved.len() == 1);
    for one in &moved {
        assert!(rt; is_first(&one.version.change));
    }
}

fn check_none_kept(rt: &impl Abort, alloc: Global, ground: &Ground) {
    let moved = ground.kept.copy_of(alloc, 0);
    assert!(rt; moved.expect(rt, "there is memory").is_empty());
}

fn check_removed(rt: &impl Abort, alloc: Global, bench: &mut Bench) {
    put(rt, alloc, bench, b"a", b"first");
    begin_beside(rt, alloc, &mut bench.engine);
    remove(rt, alloc, bench);
    check_let_out(rt, alloc, bench, Evicted::Done);
    check_first_kept(rt, alloc, &bench.ground);
    bench.ground.kept.forget(0);
    check_none_kept(rt, alloc, &bench.ground);
}

// A reader may still want the value under a removal: the leaf goes out with the removal as its row, and
// the value is kept. What comes back has both, newest first.
#[test]
fn what_a_reader_may_want_of_an_evicted_leaf_is_kept(rt: HostRuntime) {
    let alloc = rt.alloc();
    let mut bench = new_table(&rt, alloc);
    check_removed(&rt, alloc, &mut bench);
}

// How many versions are kept of a leaf, each of a key that lies in it.
fn kept_of(rt: &impl Abort, alloc: Global, bench: &Bench, leaf: &Leaf) -> usize {
    let kept = bench.ground.kept.copy_of(alloc, leaf.id);
    let kept = kept.expect(rt, "there is memory");
    for one in &kept {
        let found = bench
            .engine
            .leaves()
            .leaf_for(leaf.table, one.key.as_bytes());
        assert!(rt; found == Some(leaf.id));
    }
    kept.len()
}

// So many versions are kept of each leaf of the first table.
fn check_kept(rt: &impl Abort, alloc: Global, bench: &Bench, wanted: &[usize]) {
    let table = bench.engine.tables().table(0).expect(rt, "a table").number;
    let mut leaves = bench.engine.leaves().leaves_of(table);
    for count in wanted {
        let leaf = leaves.next_leaf().expect(rt, "a leaf");
        assert!(rt; kept_of(rt, alloc, bench, leaf) == *count);
    }
    assert!(rt; leaves.next_leaf().is_none());
}

fn check_parted(rt: &impl Abort, alloc: Global, bench: &mut Bench) {
    put_rows(rt, alloc, bench, 100);
    begin_beside(rt, alloc, &mut bench.engine);
    put_rows(rt, alloc, bench, 200);
    check_let_out(rt, alloc, bench, Evicted::Parted);
    check_kept(rt, alloc, bench, &[135, 135, 30]);
}

// A reader may still want the first value of each row of a leaf that parts into three. Each of these
// keeps the first values of its own rows.
#[test]
fn what_a_reader_may_want_of_a_leaf_that_parts_is_kept_by_leaf(rt: HostRuntime) {
    let alloc = rt.alloc();
    let mut bench = new_table(&rt, alloc);
    check_parted(&rt, alloc, &mut bench);
}

fn check_empty(rt: &impl Abort, alloc: Global, bench: &mut Bench) {
    check_let_out(rt, alloc, bench, Evicted::Empty);
    take_whole(rt, alloc, bench);
    check_let_out(rt, alloc, bench, Evicted::Emptied);
    check_let_out(rt, alloc, bench, Evicted::Stays(Stays::Away));
    take_whole(rt, alloc, bench);
}

// A leaf without keys stays where no checkpoint has its table, and leaves its frame where one has.
#[test]
fn a_leaf_without_keys_leaves_its_frame_behind_a_checkpoint(rt: HostRuntime) {
    let alloc = rt.alloc();
    let mut bench = new_table(&rt, alloc);
    check_empty(&rt, alloc, &mut bench);
}

// A transaction that removes the key `k` of the table `a`.
fn remove(rt: &impl Abort, alloc: Global, bench: &mut Bench) {
    let call = SessionCall::Remove {
        table: item(rt, alloc, b"a"),
        key: item(rt, alloc, b"k"),
    };
    ask_whole(rt, alloc, bench, call);
}

fn check_given_back(rt: &impl Abort, alloc: Global, bench: &mut Bench) {
    put_rows(rt, alloc, bench, 200);
    take_none(rt, alloc, bench, 3);
    put_rows(rt, alloc, bench, 1);
    take_whole(rt, alloc, bench);
}

// There is room for the tree, and not for the record behind it.
#[test]
fn a_tree_without_a_record_is_given_back(rt: HostRuntime) {
    let alloc = rt.alloc();
    let mut bench = new_bench(&rt, alloc, 86_016, &[], &[b"a"]);
    check_given_back(&rt, alloc, &mut bench);
}

// A transaction that gives the key `k` of the table `a` a value, with a commit stamp.
fn put_stamped(rt: &impl Abort, alloc: Global, bench: &mut Bench, (value, stamp): (u8, u64)) {
    let engine = &mut bench.engine;
    ask(rt, alloc, engine, 0, SessionCall::Begin(None));
    ask(
        rt,
        alloc,
        engine,
        0,
        put_call(rt, alloc, (b"a", b"k", &[value])),
    );
    let commit = SessionCall::Commit {
        commit: Some(stamp),
        durable: None,
    };
    ask(rt, alloc, engine, 0, commit);
}

// The history that the device has.
fn history_on(rt: &impl Abort, alloc: Global, disk: &mut PlainDisk) -> History {
    let SurveyedWhole { place: _, whole } = survey_whole(alloc, disk).expect(rt, "it opens");
    whole.expect(rt, "a checkpoint").history
}

// It has these values of the key, with their commit stamps, and stands where the ground tells.
fn check_history(rt: &impl Abort, alloc: Global, bench: &mut Bench, wanted: &[(u8, u64)]) {
    let history = history_on(rt, alloc, &mut bench.disk);
    assert_eq!(rt; history.records.len(), wanted.len());
    for (one, (value, stamp)) in history.records.iter().zip(wanted) {
        assert_eq!(rt; byte_of(&one.version.change), Some(*value));
        assert_eq!(rt; one.version.window.commit, *stamp);
    }
    assert!(rt; history.addrs.as_slice() == bench.ground.history.as_slice());
}

fn take_older(rt: &impl Abort, alloc: Global, bench: &mut Bench, wanted: &[(u8, u64)]) {
    take_whole(rt, alloc, bench);
    check_history(rt, alloc, bench, wanted);
}

// Where the block of the history stands.
fn history_block(rt: &impl Abort, bench: &Bench) -> Addr {
    *bench.ground.history.first().expect(rt, "a history")
}

// Takes a checkpoint that writes the same history at another place, where the one before is free again.
fn take_moved(rt: &impl Abort, alloc: Global, bench: &mut Bench, wanted: &[(u8, u64)]) {
    let was = history_block(rt, bench);
    take_older(rt, alloc, bench, wanted);
    let blocks = &bench.ground.place.blocks;
    assert!(rt; !blocks.is_live(was) && !blocks.is_last(was));
}

// Of a leaf in its frame, of one that was evicted since the last checkpoint, and of one that it has.
fn check_older(rt: &impl Abort, alloc: Global, bench: &mut Bench) {
    put_stamped(rt, alloc, bench, (b'1', 10));
    take_older(rt, alloc, bench, &[]);
    put_stamped(rt, alloc, bench, (b'2', 20));
    take_older(rt, alloc, bench, &[(b'1', 10)]);
    put_stamped(rt, alloc, bench, (b'3', 30));
    check_let_out(rt, alloc, bench, Evicted::Done);
    take_moved(rt, alloc, bench, &[(b'1', 10), (b'2', 20)]);
    take_moved(rt, alloc, bench, &[(b'1', 10), (b'2', 20)]);
}

// What a read at an earlier stamp can want of a key stands in the history, below the newest version in
// the row.
#[test]
fn older_versions_that_a_read_can_want_stand_in_the_history(rt: HostRuntime) {
    let alloc = rt.alloc();
    let mut bench = new_table(&rt, alloc);
    check_older(&rt, alloc, &mut bench);
}

// What others do while a checkpoint runs.
#[derive(Clone, Copy)]
enum Between {
    // The key of the table `a` gets a value, with a commit stamp.
    Put(u8, u64),
    // The leaf of the table `a` is evicted.
    Evict,
    // The table `b` is made, and gets a row.
    Make,
    // Its leaf is evicted.
    EvictMade,
}

fn go_between(
    rt: &impl Abort,
    alloc: Global,
    bench: &mut Bench,
    running: &RunningCheckpoint,
    what: Between,
) {
    match what {
        Between::Put(value, stamp) => put_stamped(rt, alloc, bench, (value, stamp)),
        Between::Evict => evict_beside(rt, alloc, bench, running, 0),
        Between::Make => {
            create(rt, alloc, &mut bench.engine, b"b");
            put(rt, alloc, bench, b"b", b"1");
        }
        Between::EvictMade => {
            let leaf = leaf_in(rt, bench, 1).id;
            evict_beside(rt, alloc, bench, running, leaf);
        }
    }
}

fn evict_beside(
    rt: &impl Abort,
    alloc: Global,
    bench: &mut Bench,
    running: &RunningCheckpoint,
    leaf: u64,
) {
    assert_eq!(rt;
        let_out(alloc, bench, Some(running), leaf),
        Ok(Evicted::Done)
    );
}

// What is done between the start and the finish; then the stamp of the row that the device has of the
// key, which may be too new, the history below it, and how many tables the next checkpoint has.
type Beside<'a> = (&'a [Between], u64, &'a [(u8, u64)], usize);

const BESIDE: [Beside<'static>; 5] = [
    (&[], 10, &[], 1),
    (&[Between::Put(b'2', 20)], 20, &[(b'1', 10)], 1),
    (
        &[Between::Put(b'2', 20), Between::Evict],
        20,
        &[(b'1', 10)],
        1,
    ),
    (
        &[Between::Put(b'2', 20), Between::Put(b'3', 30)],
        30,
        &[(b'1', 10), (b'2', 20)],
        1,
    ),
    (
        &[Between::Make, Between::Put(b'2', 20)],
        20,
        &[(b'1', 10)],
        2,
    ),
];

// The record of the last checkpoint on the device.
fn record_on(rt: &impl Abort, alloc: Global, disk: &mut PlainDisk) -> Record {
    let SurveyedWhole { place: _, whole } = survey_whole(alloc, disk).expect(rt, "it opens");
    whole.expect(rt, "a checkpoint").record
}

// The one table that stood as it started has a row of this stamp, and the snapshot is of that time.
fn check_finished(rt: &impl Abort, alloc: Global, bench: &mut Bench, next: u64, stamp: u64) {
    let record = record_on(rt, alloc, &mut bench.disk);
    assert_eq!(rt; record.snapshot.max, next);
    assert_eq!(rt; record.tables.len(), 1);
    let table = record.tables.first().expect(rt, "a table");
    assert_eq!(rt; table.root.link.durable, stamp);
}

fn check_beside(rt: &impl Abort, alloc: Global, bench: &mut Bench, case: &Beside<'_>) {
    let (between, stamp, history, tables) = case;
    put_stamped(rt, alloc, bench, (b'1', 10));
    let next = bench.engine.marks().next;
    let running = start_one(rt, alloc, bench);
    for what in *between {
        go_between(rt, alloc, bench, &running, *what);
    }
    assert!(rt; finish_one(rt, alloc, bench, &running) == Ok(()));
    check_finished(rt, alloc, bench, next, *stamp);
    check_history(rt, alloc, bench, history);
    take_whole(rt, alloc, bench);
    let record = record_on(rt, alloc, &mut bench.disk);
    assert_eq!(rt; record.tables.len(), *tables);
}

// The device has the snapshot and the tables of the start, and what a read at that moment can want,
// whatever others did until the finish.
#[test]
fn a_checkpoint_has_what_stood_as_it_started(rt: HostRuntime) {
    let alloc = rt.alloc();
    for case in &BESIDE {
        let mut bench = new_table(&rt, alloc);
        check_beside(&rt, alloc, &mut bench, case);
    }
}

// The only leaf of the table at a place.
fn leaf_in<'a>(rt: &impl Abort, bench: &'a Bench, place: u32) -> &'a Leaf {
    let table = bench.engine.tables().table(place).expect(rt, "a table");
    let mut leaves = bench.engine.leaves().leaves_of(table.number);
    leaves.next_leaf().expect(rt, "a leaf")
}

// Where it leads, and whether it was written since the last checkpoint.
fn leaf_at(rt: &impl Abort, bench: &Bench, place: u32) -> (Addr, bool) {
    let leaf = leaf_in(rt, bench, place);
    (leaf.entry.link.addr, bench.ground.lives.is_live(leaf))
}

fn check_made(rt: &impl Abort, alloc: Global, bench: &mut Bench) {
    put(rt, alloc, bench, b"a", b"1");
    let running = start_one(rt, alloc, bench);
    go_between(rt, alloc, bench, &running, Between::Make);
    go_between(rt, alloc, bench, &running, Between::EvictMade);
    let (made, _) = leaf_at(rt, bench, 1);
    assert!(rt; finish_one(rt, alloc, bench, &running) == Ok(()));
    assert!(rt; leaf_at(rt, bench, 1) == (made, true));
    take_whole(rt, alloc, bench);
    assert!(rt; leaf_at(rt, bench, 1) == (made, false));
}

// The block of a leaf of a table that was made since the start stays, and the next checkpoint has it.
#[test]
fn leaves_of_tables_that_were_made_since_the_start_stay(rt: HostRuntime) {
    let alloc = rt.alloc();
    let mut bench = new_table(&rt, alloc);
    check_made(&rt, alloc, &mut bench);
}

// A bench with a checkpoint that runs beside a later value. The calls of the disk of these numbers fail.
fn started(rt: &impl Abort, alloc: Global, failing: &[u64]) -> (Bench, RunningCheckpoint) {
    let mut bench = new_bench(rt, alloc, ROOM, failing, &[b"a"]);
    put_stamped(rt, alloc, &mut bench, (b'1', 10));
    let running = start_one(rt, alloc, &bench);
    put_stamped(rt, alloc, &mut bench, (b'2', 20));
    (bench, running)
}

// The call of this number is the first one of the finish, which only looks at the disk.
fn check_unfinished(rt: &impl Abort, alloc: Global, first: u64) {
    let (mut bench, running) = started(rt, alloc, &[first]);
    assert!(rt; finish_one(rt, alloc, &mut bench, &running) == Err(Refusal::DiskFault));
    assert!(rt; finish_one(rt, alloc, &mut bench, &running) == Ok(()));
    check_history(rt, alloc, &mut bench, &[(b'1', 10)]);
}

// A failed read leaves the engine up and the checkpoint running, and it may be finished later.
#[test]
fn a_checkpoint_that_was_not_finished_may_be_later(rt: HostRuntime) {
    let alloc = rt.alloc();
    let (bench, _) = started(&rt, alloc, &[]);
    check_unfinished(&rt, alloc, bench.disk.medium.calls().len() as u64);
}
