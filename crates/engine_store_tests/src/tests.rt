// Two tables of one leaf each, whose order by name is not that by number, read by a session.
ghost use Rattle.std.specs.Prelude.{◌≡◌, IsTrue};
ghost use Rattle.ckpt_step.specs.Trees.{AreLow};

mod bench;
mod checkpoints;
mod closings;
mod leaves;
mod older;
mod room;
mod spoilt;
mod started;
mod started_failing;
mod written_out;

use bench::Row;
use block_sum::sum;
use disk_model::MemDisk;
use engine_store::{FRAMES, Frames, Store, open_on};
use item::Item;
use std::alloc::Global;
use std::process::Abort;
use tree_open::TreePlace;
use wt_calls::SessionCall;
use wt_code::{Answer, Refusal};

// Sequence 3 by run 2, whose ids below 9 had ended but 5; the record's sum stands at 32.
const SLOT: [u8; 36] = [
    0xa5, b'W', b'T', b'T', b'U', b'R', b'T', b'L', 1, 0, 0, 0, 3, 0, 0, 0, 0, 0, 0, 0, 0, 0x20, 0,
    0, 0, 0, 0, 0, 0, 0x10, 0, 0, 0, 0, 0, 0,
];

const RECORD: [u8; 217] = [
    // 0: kind 5, format 1, two tables, used 217, level 0
    0x05, 0x01, 0x02, 0x00, 0xd9, 0x00, 0x00, 0x00, 0x00, 0x00, 0x00, 0x00, 0x00, 0x00, 0x00, 0x00,
    // 16: sequence 3, run 2
    0x03, 0x00, 0x00, 0x00, 0x00, 0x00, 0x00, 0x00, 0x02, 0x00, 0x00, 0x00, 0x00, 0x00, 0x00, 0x00,
    // 32: oldest and stable are unset
    0x00, 0x00, 0x00, 0x00, 0x00, 0x00, 0x00, 0x00, 0x00, 0x00, 0x00, 0x00, 0x00, 0x00, 0x00, 0x00,
    // 48: snapshot min 4, max 9
    0x04, 0x00, 0x00, 0x00, 0x00, 0x00, 0x00, 0x00, 0x09, 0x00, 0x00, 0x00, 0x00, 0x00, 0x00, 0x00,
    // 64: one id: 5
    0x01, 0x00, 0x05, 0x00, 0x00, 0x00, 0x00, 0x00, 0x00, 0x00,
    // 74: the next table's number is 3; the history has level 0
    0x03, 0x00, 0x00, 0x00, 0x00,
    // 79: and stands nowhere
    0x00, 0x00, 0x00, 0x00, 0x00, 0x00, 0x00, 0x00, 0x00, 0x00, 0x00, 0x00, 0x00, 0x00, 0x00, 0x00,
    0x00, 0x00, 0x00, 0x00, 0x00, 0x00, 0x00, 0x00, 0x00, 0x00, 0x00, 0x00, 0x00, 0x00, 0x00, 0x00,
    0x00, 0x00, 0x00, 0x00, 0x00, 0x00, 0x00, 0x00,
    // 119: table 2, level 0, a name of 1 byte
    0x02, 0x00, 0x00, 0x00, 0x53, 0x53, 0x00, 0x01,
    // 127: offset 12,288, size 4,096, the sum of the leaf, run 2, id 1, durable 0
    0x00, 0x30, 0x00, 0x00, 0x00, 0x00, 0x00, 0x00, 0x00, 0x10, 0x00, 0x00, 0x00, 0x00, 0x00, 0x00,
    0x02, 0x00, 0x00, 0x00, 0x00, 0x00, 0x00, 0x00, 0x01, 0x00, 0x00, 0x00, 0x00, 0x00, 0x00, 0x00,
    0x00, 0x00, 0x00, 0x00, 0x00, 0x00, 0x00, 0x00, 0x61,
    // 168: table 1, level 0, a name of 1 byte
    0x01, 0x00, 0x00, 0x00, 0x75, 0x75, 0x00, 0x01,
    // 176: offset 16,384, size 4,096, the sum of the leaf, run 2, id 6, durable 0
    0x00, 0x40, 0x00, 0x00, 0x00, 0x00, 0x00, 0x00, 0x00, 0x10, 0x00, 0x00, 0x00, 0x00, 0x00, 0x00,
    0x02, 0x00, 0x00, 0x00, 0x00, 0x00, 0x00, 0x00, 0x06, 0x00, 0x00, 0x00, 0x00, 0x00, 0x00, 0x00,
    0x00, 0x00, 0x00, 0x00, 0x00, 0x00, 0x00, 0x00, 0x62,
];

// One row: key a, value 1, run 2, id 1.
const FIRST: [u8; 59] = [
    1, 1, 1, 0, 59, 0, 0, 0, 0, 0, 0, 0, 0, 0, 0, 0, 2, 0, 1, 2, 0, 0, 0, 2, 0, 0, 0, 0, 0, 0, 0,
    1, 0, 0, 0, 0, 0, 0, 0, 0, 0, 0, 0, 0, 0, 0, 0, 0, 0, 0, 0, 0, 0, 0, 0, b'a', 0, b'1', 0,
];

// One row: key b, value 2, run 2, id 6.
const SECOND: [u8; 59] = [
    1, 1, 1, 0, 59, 0, 0, 0, 0, 0, 0, 0, 0, 0, 0, 0, 2, 0, 1, 2, 0, 0, 0, 2, 0, 0, 0, 0, 0, 0, 0,
    6, 0, 0, 0, 0, 0, 0, 0, 0, 0, 0, 0, 0, 0, 0, 0, 0, 0, 0, 0, 0, 0, 0, 0, b'b', 0, b'2', 0,
];

fn put(rt: &impl Abort, content: &mut [u8], at: usize, bytes: &[u8]) {
    for (i, byte) in bytes.iter().enumerate() {
        let place = content.get_mut(at.saturating_add(i));
        *place.expect(rt, "a place") = *byte;
    }
}

// Puts the sum of the block at an offset where it belongs.
fn put_sum(rt: &impl Abort, content: &mut [u8], block: usize, at: usize) {
    let bytes = content.get(block..block.saturating_add(4_096));
    let sum = sum(bytes.expect(rt, "a block"));
    put(rt, content, at, &sum.to_le_bytes());
}

// What is written at each offset.
const PIECES: [(usize, &[u8]); 4] = [
    (0, &SLOT),
    (8_192, &RECORD),
    (12_288, &FIRST),
    (16_384, &SECOND),
];

// Where the sum of each block stands.
const SUMS: [(usize, usize); 3] = [(12_288, 8_331), (16_384, 8_380), (8_192, 32)];

fn put_pieces(rt: &impl Abort, content: &mut [u8]) {
    for (at, bytes) in PIECES {
        put(rt, content, at, bytes);
    }
}

fn put_sums(rt: &impl Abort, content: &mut [u8]) {
    for (block, at) in SUMS {
        put_sum(rt, content, block, at);
    }
}

fn content(rt: &impl Abort, alloc: Global) -> Vec<u8> {
    let mut content = bench::bytes_of(rt, alloc, 20_480, 0);
    put_pieces(rt, &mut content);
    put_sums(rt, &mut content);
    content
}

fn device(rt: &impl Abort, alloc: Global, content: Vec<u8>) -> MemDisk {
    let made = MemDisk::new(alloc, content, 1 << 20, Vec::new(alloc));
    made.expect(rt, "there is memory")
}

fn item(rt: &impl Abort, alloc: Global, bytes: &[u8]) -> Item
    ensures { result ≡ bytes.now }
{
    Item::new(Vec::from_slice(alloc, bytes).expect(rt, "there is memory"))
}

// A store with a session.
fn open(rt: &impl Abort, alloc: Global, disk: &mut MemDisk) -> Store {
    let mut store = open_on(alloc, disk, Frames::Soft(FRAMES)).expect(rt, "it opens");
    assert!(rt; store.open_session::<MemDisk>(alloc).is_ok());
    store
}

fn ask(
    rt: &impl Abort,
    alloc: Global,
    store: &mut Store,
    disk: &mut MemDisk,
    call: SessionCall,
) -> Answer<Item> {
    assert!(rt; store.engine.sessions() > 0);
    store.call(alloc, disk, 0, call)
}

fn begin(rt: &impl Abort, alloc: Global, store: &mut Store, disk: &mut MemDisk) {
    let _begun = ask(rt, alloc, store, disk, SessionCall::Begin(None));
}

fn get(
    rt: &impl Abort,
    alloc: Global,
    store: &mut Store,
    disk: &mut MemDisk,
    (table, key): (&[u8], &[u8]),
) -> Answer<Item> {
    let call = SessionCall::Get {
        table: item(rt, alloc, table),
        key: item(rt, alloc, key),
    };
    ask(rt, alloc, store, disk, call)
}

// A value, or in words what is not one.
fn told(answer: &Answer<Item>) -> &[u8] {
    match answer {
        Answer::Value(value) => value.as_bytes(),
        Answer::Refused(Refusal::NotFound) => b"not found",
        _ => b"else",
    }
}

// Whether this is read at the key of a table.
fn reads(
    rt: &impl Abort,
    alloc: Global,
    store: &mut Store,
    disk: &mut MemDisk,
    (table, key, wanted): Row<'_>,
) -> bool {
    let answer = get(rt, alloc, store, disk, (table, key));
    told(&answer) == wanted
}

// Whether no tree has more levels than a record tells.
fn are_low(trees: &[TreePlace]) -> bool
    ensures { IsTrue result → AreLow trees.now }
{
    for tree in trees {
        if tree.root.level > 60 {
            return false;
        }
    }
    true
}

fn offset_at(trees: &[TreePlace], place: usize) -> u64 {
    match trees.get(place) {
        Some(tree) => tree.root.link.addr.offset,
        None => 0,
    }
}

// What is read at each key of each table.
const READS: [Row<'static>; 4] = [
    (b"a", b"a\0", b"1\0"),
    (b"a", b"b\0", b"not found"),
    (b"b", b"a\0", b"not found"),
    (b"b", b"b\0", b"2\0"),
];

fn check_offsets(rt: &impl Abort, trees: &[TreePlace]) {
    assert_eq!(rt; offset_at(trees, 0), 16_384);
    assert_eq!(rt; offset_at(trees, 1), 12_288);
}

fn check_reads(rt: &impl Abort, alloc: Global, store: &mut Store, disk: &mut MemDisk) {
    begin(rt, alloc, store, disk);
    for read in READS {
        assert!(rt; reads(rt, alloc, store, disk, read));
    }
}

#[test]
fn each_table_has_its_own_rows(rt: HostRuntime) {
    let alloc = rt.alloc();
    let mut disk = device(&rt, alloc, content(&rt, alloc));
    let mut store = open(&rt, alloc, &mut disk);
    check_offsets(&rt, &store.ground.trees);
    check_reads(&rt, alloc, &mut store, &mut disk);
}
