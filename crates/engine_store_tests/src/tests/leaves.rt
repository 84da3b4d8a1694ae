// A table of many leaves, which are read one by one as a cursor comes to them.
use super::bench::{
    Bench, ask, begin, bytes_of, close, commit, content_closed, copy, create, disk_of, framed,
    gives, new_device, open, open_one, put, take,
};
use super::item;
use disk_model::Disk;
use engine_store::{FRAMES, Frames};
use item::Item;
use plain_disk::PlainDisk;
use std::alloc::Global;
use std::process::Abort;
use wt_calls::{SessionCall, Way};
use wt_code::{Answer, Refusal};

// How many rows there are: each has 12,000 bytes, so a leaf has two of them.
const ROWS: u8 = 5;

fn put_rows(rt: &impl Abort, alloc: Global, bench: &mut Bench) {
    for row in 0..ROWS {
        let key = [b'a'.wrapping_add(row)];
        let value = bytes_of(rt, alloc, 12_000, row);
        put(rt, alloc, bench, 0, (b"a", &key, &value));
    }
}

fn fill(rt: &impl Abort, alloc: Global, bench: &mut Bench) {
    create(rt, alloc, bench, b"a");
    begin(rt, alloc, bench, 0);
    put_rows(rt, alloc, bench);
    commit(rt, alloc, bench, 0);
}

// A store with the rows, each of whose keys is one letter.
fn filled(rt: &impl Abort, alloc: Global) -> Bench {
    let mut bench = open(rt, alloc, new_device(rt, alloc, &[]));
    fill(rt, alloc, &mut bench);
    bench
}

fn step_call(rt: &impl Abort, alloc: Global, cursor: u32, way: Way) -> SessionCall {
    SessionCall::Step {
        cursor,
        table: item(rt, alloc, b"a"),
        way,
    }
}

// The letter of the row that a step answers, none where there is none, or a refusal.
fn letter_in(rt: &impl Abort, answer: Answer<Item>) -> Result<Option<u8>, Refusal> {
    match answer {
        Answer::Row(key, value) => {
            assert!(rt; value.as_bytes().len() == 12_000);
            Ok(key.as_bytes().first().copied())
        }
        Answer::Refused(Refusal::NotFound) => Ok(None),
        Answer::Refused(refusal) => Err(refusal),
        _ => Err(Refusal::NoTable),
    }
}

// The letter of the row to which a step of the cursor comes.
fn step(
    rt: &impl Abort,
    alloc: Global,
    bench: &mut Bench,
    way: Way,
) -> Result<Option<u8>, Refusal> {
    let next = step_call(rt, alloc, 0, way);
    letter_in(rt, ask(rt, alloc, bench, 0, next))
}

// The same. A step that a fault of the disk refuses is made again, and counted.
fn step_on(
    rt: &impl Abort,
    alloc: Global,
    bench: &mut Bench,
    way: Way,
    refused: &mut u64,
) -> Result<Option<u8>, Refusal> {
    let found = step(rt, alloc, bench, way);
    if found != Err(Refusal::DiskFault) {
        return found;
    }
    *refused = refused.wrapping_add(1);
    step(rt, alloc, bench, way)
}

// The letter of the row that comes behind so many others.
fn letter_at(row: u8, way: Way) -> u8 {
    match way {
        Way::Up => b'a'.wrapping_add(row),
        Way::Down => b'a'.wrapping_add((ROWS - 1).wrapping_sub(row)),
    }
}

// All rows one way. How many steps were refused.
fn walk(rt: &impl Abort, alloc: Global, bench: &mut Bench, way: Way) -> u64 {
    let mut refused = 0u64;
    for row in 0..ROWS {
        let found = step_on(rt, alloc, bench, way, &mut refused);
        assert!(rt; found == Ok(Some(letter_at(row, way))));
    }
    assert!(rt; step(rt, alloc, bench, way) == Ok(None));
    refused
}

// How many steps are refused where the device opens.
fn walk_counted(rt: &impl Abort, alloc: Global, mut bench: Bench, way: Way) -> u64 {
    begin(rt, alloc, &mut bench, 0);
    let refused = walk(rt, alloc, &mut bench, way);
    assert_eq!(rt; refused, bench.disk.faults());
    refused
}

// The same where the call of this number fails, none where the opening is refused.
fn walk_failing(
    rt: &impl Abort,
    alloc: Global,
    content: &[u8],
    call: u64,
    way: Way,
) -> Option<u64> {
    let disk = disk_of(rt, alloc, copy(rt, alloc, content), 1 << 20, &[call]);
    match open_one(rt, alloc, disk, Frames::Soft(FRAMES)) {
        None => None,
        Some(bench) => Some(walk_counted(rt, alloc, bench, way)),
    }
}

// How many calls fail in the opening, and how many as a leaf is read.
fn count_failing(rt: &impl Abort, alloc: Global, content: &[u8], way: Way) -> (u64, u64) {
    let mut openings = 0u64;
    let mut reads = 0u64;
    for call in 0..100u64 {
        match walk_failing(rt, alloc, content, call, way) {
            None => openings = openings.wrapping_add(1),
            Some(0) => break,
            Some(_) => reads = reads.wrapping_add(1),
        }
    }
    (openings, reads)
}

// Each call of the disk fails in turn: in the opening, which is refused then, or as a leaf is read. In
// the end none does.
#[test]
fn a_leaf_that_is_not_read_is_read_again(rt: HostRuntime) {
    let alloc = rt.alloc();
    let content = content_closed(&rt, alloc, filled(&rt, alloc));
    for way in [Way::Up, Way::Down] {
        let (openings, reads) = count_failing(&rt, alloc, &content, way);
        // The length and two slots; the record and an inner page, each by two calls; and the length.
        assert!(rt; openings == 8);
        // Three leaves, each by two calls.
        assert!(rt; reads == 6);
    }
}

// Takes a checkpoint, behind which so many frames have a leaf.
fn take_framed(rt: &impl Abort, alloc: Global, bench: &mut Bench, count: usize) {
    assert!(rt; take(rt, alloc, bench) == Ok(()));
    assert!(rt; framed(bench) == count);
}

// The leaf stays in its frame while a transaction is open.
fn part(rt: &impl Abort, alloc: Global, bench: &mut Bench) {
    begin(rt, alloc, bench, 1);
    take_framed(rt, alloc, bench, 1);
    commit(rt, alloc, bench, 1);
    take_framed(rt, alloc, bench, 0);
}

// Reads the rows both ways, and puts one more behind them.
fn read_and_add(rt: &impl Abort, alloc: Global, bench: &mut Bench) {
    begin(rt, alloc, bench, 0);
    for way in [Way::Up, Way::Down] {
        assert!(rt; walk(rt, alloc, bench, way) == 0);
    }
    put(rt, alloc, bench, 0, (b"a", b"z", b"last"));
    commit(rt, alloc, bench, 0);
}

fn take_added(rt: &impl Abort, alloc: Global, bench: &mut Bench) {
    assert!(rt; framed(bench) == 3);
    let before = bench.disk.medium.bytes().len();
    take_framed(rt, alloc, bench, 3);
    // The leaf of the last row, an inner page and the record, of which two find room that was let go.
    assert_eq!(rt;
        bench.disk.medium.bytes().len(),
        before.saturating_add(16_384)
    );
}

fn part_and_add(rt: &impl Abort, alloc: Global, bench: &mut Bench) {
    part(rt, alloc, bench);
    read_and_add(rt, alloc, bench);
    take_added(rt, alloc, bench);
}

fn check_steps(rt: &impl Abort, alloc: Global, bench: &mut Bench) {
    begin(rt, alloc, bench, 0);
    for row in 0..ROWS {
        let found = step(rt, alloc, bench, Way::Up);
        assert!(rt; found == Ok(Some(letter_at(row, Way::Up))));
    }
}

// That the rows are on the device, in their order.
fn check_rows(rt: &impl Abort, alloc: Global, content: Vec<u8>) {
    let mut bench = open(rt, alloc, disk_of(rt, alloc, content, 1 << 20, &[]));
    check_steps(rt, alloc, &mut bench);
}

// A leaf that grew to three images leaves its frame once a checkpoint is taken while nobody is at work,
// and is read again as three. One more row is put into the last of them.
#[test]
fn a_leaf_that_grew_is_parted_by_a_checkpoint(rt: HostRuntime) {
    let alloc = rt.alloc();
    let mut bench = filled(&rt, alloc);
    part_and_add(&rt, alloc, &mut bench);
    check_rows(&rt, alloc, content_closed(&rt, alloc, bench));
}

// So many rows of 12,000 bytes lie in twice as many leaves as frames keep.
const MANY: u16 = 256;

fn put_many(rt: &impl Abort, alloc: Global, bench: &mut Bench) {
    for row in 0..MANY {
        let key = row.to_be_bytes();
        let value = bytes_of(rt, alloc, 12_000, 7);
        put(rt, alloc, bench, 0, (b"a", &key, &value));
    }
}

fn fill_many(rt: &impl Abort, alloc: Global, bench: &mut Bench) {
    create(rt, alloc, bench, b"a");
    begin(rt, alloc, bench, 0);
    put_many(rt, alloc, bench);
    commit(rt, alloc, bench, 0);
    close(rt, alloc, bench);
}

// A device with so many rows.
fn device_of_many(rt: &impl Abort, alloc: Global) -> PlainDisk {
    let disk = disk_of(rt, alloc, bytes_of(rt, alloc, 8_192, 0), 1 << 23, &[]);
    let mut bench = open(rt, alloc, disk);
    fill_many(rt, alloc, &mut bench);
    bench.disk
}

// The second byte of a row's key.
fn low_byte(answer: &Answer<Item>) -> Option<u8> {
    match answer {
        Answer::Row(key, _) => key.as_bytes().get(1).copied(),
        _ => None,
    }
}

// The second byte of the key of the row to which a cursor comes.
fn key_at(rt: &impl Abort, alloc: Global, bench: &mut Bench, cursor: u32, way: Way) -> Option<u8> {
    let next = step_call(rt, alloc, cursor, way);
    low_byte(&ask(rt, alloc, bench, 0, next))
}

// The second byte of the key of the row that comes behind so many others.
fn key_wanted(row: u16, way: Way) -> u8 {
    let place = match way {
        Way::Up => row,
        Way::Down => (MANY - 1).wrapping_sub(row),
    };
    let [_, low] = place.to_be_bytes();
    low
}

// The key whose row is changed.
const CHANGED: [u8; 2] = [0, 3];

// One cursor stands on the first leaf, and a row in another one is changed.
fn stand_and_change(rt: &impl Abort, alloc: Global, bench: &mut Bench) {
    begin(rt, alloc, bench, 0);
    assert!(rt; key_at(rt, alloc, bench, 1, Way::Up) == Some(0));
    put(rt, alloc, bench, 0, (b"a", &CHANGED, b"new"));
}

// All rows one way.
fn walk_many(rt: &impl Abort, alloc: Global, bench: &mut Bench, way: Way, frames: usize) {
    for row in 0..MANY {
        let found = key_at(rt, alloc, bench, 0, way);
        assert!(rt; found == Some(key_wanted(row, way)));
        assert!(rt; framed(bench) <= frames.saturating_add(1));
    }
    assert!(rt; key_at(rt, alloc, bench, 0, way) == None);
}

// The row that was changed, and the one behind that on which the cursor stands.
fn check_changed(rt: &impl Abort, alloc: Global, bench: &mut Bench) {
    let wanted = Some(b"new".as_slice());
    assert!(rt; gives(rt, alloc, bench, 0, (b"a", &CHANGED), wanted));
    assert!(rt; key_at(rt, alloc, bench, 1, Way::Up) == Some(1));
}

fn walk_all(rt: &impl Abort, alloc: Global, bench: &mut Bench, frames: usize) {
    stand_and_change(rt, alloc, bench);
    for way in [Way::Up, Way::Down, Way::Up] {
        walk_many(rt, alloc, bench, way, frames);
    }
    assert!(rt; framed(bench) >= frames);
    check_changed(rt, alloc, bench);
}

// Walks over the rows with so many frames.
fn walk_with(rt: &impl Abort, alloc: Global, disk: PlainDisk, frames: Frames) -> PlainDisk {
    let mut bench = open_one(rt, alloc, disk, frames).expect(rt, "it opens");
    walk_all(rt, alloc, &mut bench, frames.count() as usize);
    bench.disk
}

// A walk over more leaves than there are frames for, both ways. Those that nobody is at go out of their
// frames; the one that another cursor stands on stays, and one whose row was changed.
#[test]
fn leaves_go_out_as_others_are_read(rt: HostRuntime) {
    let alloc = rt.alloc();
    let mut disk = device_of_many(&rt, alloc);
    for frames in [Frames::Soft(FRAMES), Frames::Soft(4), Frames::Firm(4)] {
        disk = walk_with(&rt, alloc, disk, frames);
    }
}
