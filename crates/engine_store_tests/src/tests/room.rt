// Leaves that are evicted behind calls, in more leaves than there are frames.
use super::bench::{
    Bench, COMMIT, ask, begin, bytes_of, commit, content_closed, copy, crash, create, disk_of,
    framed, gives, new_device, open, open_two, put, put_call, try_close,
};
use disk_model::Disk;
use engine_store::Frames;
use plain_disk::PlainDisk;
use std::alloc::Global;
use std::process::Abort;
use wt_calls::SessionCall;
use wt_code::{Answer, Refusal};

// So many rows of 12,000 bytes: a leaf has two of them.
const ROWS: u8 = 12;

// So many frames there are.
const KEPT: u32 = 2;

// In what a call of the disk failed.
#[derive(Clone, Copy, PartialEq, Eq)]
enum Met {
    Opening,
    Put,
    // Leaves were to be evicted behind a call. The next one is refused.
    Room,
    Close,
    None,
}

// The row of a step, in an order by which its leaf is another one than that of the step before.
fn row_at(step: u8) -> u8 {
    step.wrapping_mul(7) % ROWS
}

// The bytes of a value.
fn value(rt: &impl Abort, alloc: Global, byte: u8) -> Vec<u8> {
    bytes_of(rt, alloc, 12_000, byte)
}

fn put_rows(rt: &impl Abort, alloc: Global, bench: &mut Bench) {
    for row in 0..ROWS {
        let old = value(rt, alloc, row);
        put(rt, alloc, bench, 0, (b"a", &[row], &old));
    }
}

fn fill(rt: &impl Abort, alloc: Global, bench: &mut Bench) {
    create(rt, alloc, bench, b"a");
    begin(rt, alloc, bench, 0);
    put_rows(rt, alloc, bench);
    commit(rt, alloc, bench, 0);
}

// The content of a device with the rows.
fn content_of_rows(rt: &impl Abort, alloc: Global) -> Vec<u8> {
    let mut bench = open(rt, alloc, new_device(rt, alloc, &[]));
    fill(rt, alloc, &mut bench);
    content_closed(rt, alloc, bench)
}

// The device with these bytes, of whose calls those of these numbers fail.
fn open_with(rt: &impl Abort, alloc: Global, content: &[u8], failing: &[u64]) -> Option<Bench> {
    let content = copy(rt, alloc, content);
    let disk = disk_of(rt, alloc, content, 1 << 23, failing);
    open_two(rt, alloc, disk, Frames::Soft(KEPT))
}

// A store on a device with the rows, all of whose calls are answered.
fn opened(rt: &impl Abort, alloc: Global) -> Bench {
    let content = content_of_rows(rt, alloc);
    open_with(rt, alloc, &content, &[]).expect(rt, "it opens")
}

// What a crash leaves, opened.
fn crashed(rt: &impl Abort, alloc: Global, disk: PlainDisk) -> Bench {
    let image = open_two(rt, alloc, crash(rt, disk, 1), Frames::Soft(KEPT));
    image.expect(rt, "it opens")
}

// A call, and what goes behind it.
fn call(
    rt: &impl Abort,
    alloc: Global,
    bench: &mut Bench,
    call: SessionCall,
) -> Result<(), Refusal> {
    let told = ask(rt, alloc, bench, 0, call);
    bench.store.make_room(alloc, &mut bench.disk);
    match told {
        Answer::Refused(refusal) => Err(refusal),
        _ => Ok(()),
    }
}

// A call that puts a row.
fn put_value(rt: &impl Abort, alloc: Global, key: &[u8], byte: u8) -> SessionCall {
    let value = value(rt, alloc, byte);
    put_call(rt, alloc, (b"a", key, &value))
}

// A row is written, in a transaction of its own.
fn write(
    rt: &impl Abort,
    alloc: Global,
    bench: &mut Bench,
    key: &[u8],
    byte: u8,
) -> Result<(), Refusal> {
    let put = put_value(rt, alloc, key, byte);
    call(rt, alloc, bench, SessionCall::Begin(None))?;
    call(rt, alloc, bench, put)?;
    call(rt, alloc, bench, COMMIT)
}

// A row is written over, in a transaction of its own.
fn write_over(rt: &impl Abort, alloc: Global, bench: &mut Bench, row: u8) -> Result<(), Refusal> {
    write(rt, alloc, bench, &[row], row.wrapping_add(100))
}

// Whether the row of this key has the value in the transaction of this session.
fn has(
    rt: &impl Abort,
    alloc: Global,
    bench: &mut Bench,
    session: u32,
    key: &[u8],
    byte: u8,
) -> bool {
    let value = value(rt, alloc, byte);
    gives(rt, alloc, bench, session, (b"a", key), Some(&value))
}

// Whether each row has its value in the transaction of this session, with so much added to its byte.
fn all_have(rt: &impl Abort, alloc: Global, bench: &mut Bench, session: u32, more: u8) -> bool {
    let mut all = true;
    for row in 0..ROWS {
        let is_there = has(rt, alloc, bench, session, &[row], row.wrapping_add(more));
        all = all && is_there;
    }
    all
}

// The same in a transaction of its own.
fn have(rt: &impl Abort, alloc: Global, bench: &mut Bench, more: u8) -> bool {
    begin(rt, alloc, bench, 0);
    let all = all_have(rt, alloc, bench, 0, more);
    commit(rt, alloc, bench, 0);
    all
}

fn close(rt: &impl Abort, alloc: Global, bench: &mut Bench) -> Met {
    match try_close(rt, alloc, bench) {
        Ok(()) => Met::None,
        Err(_) => Met::Close,
    }
}

fn check_framed(rt: &impl Abort, bench: &Bench) {
    assert!(rt; framed(bench) <= KEPT as usize + 1);
}

// In what a call failed, as a row was written over.
fn met_in(rt: &impl Abort, written: Result<(), Refusal>) -> Met {
    match written {
        Ok(()) => Met::None,
        Err(Refusal::DiskFault) => Met::Put,
        Err(refusal) => {
            assert!(rt; matches!(refusal, Refusal::Panic { .. }));
            Met::Room
        }
    }
}

// Each row is written over.
fn run(rt: &impl Abort, alloc: Global, bench: &mut Bench) -> Met {
    for step in 0..ROWS {
        let met = met_in(rt, write_over(rt, alloc, bench, row_at(step)));
        if met != Met::None {
            return met;
        }
        check_framed(rt, bench);
    }
    close(rt, alloc, bench)
}

// What a crash leaves has the rows as they were, and after the checkpoint as they were written over; one
// that fails in the checkpoint may leave either.
fn check_image(rt: &impl Abort, alloc: Global, image: &mut Bench, end: Met) {
    let old = have(rt, alloc, image, 0);
    let new = have(rt, alloc, image, 100);
    match end {
        Met::None => assert!(rt; new),
        Met::Close => assert!(rt; old != new),
        _ => assert!(rt; old),
    }
}

// In what a call of the disk failed, if one did.
fn run_and_crash(rt: &impl Abort, alloc: Global, mut bench: Bench) -> Option<Met> {
    let end = run(rt, alloc, &mut bench);
    let faults = bench.disk.faults();
    let mut image = crashed(rt, alloc, bench.disk);
    check_image(rt, alloc, &mut image, end);
    if faults == 0 { None } else { Some(end) }
}

// The call of this number fails, where there are so many.
fn try_call(rt: &impl Abort, alloc: Global, content: &[u8], number: u64) -> Option<Met> {
    match open_with(rt, alloc, content, &[number]) {
        None => Some(Met::Opening),
        Some(bench) => run_and_crash(rt, alloc, bench),
    }
}

// How many calls failed in a put, and how many behind one, where some number is that of no call.
fn count_failing(rt: &impl Abort, alloc: Global, content: &[u8]) -> Option<(usize, usize)> {
    let mut puts = 0usize;
    let mut rooms = 0usize;
    for number in 0..300u64 {
        match try_call(rt, alloc, content, number) {
            Some(Met::Put) => puts = puts.saturating_add(1),
            Some(Met::Room) => rooms = rooms.saturating_add(1),
            Some(_) => {}
            None => return Some((puts, rooms)),
        }
    }
    None
}

// Each call of the disk fails in turn, in the end none does. Where a read fails as a leaf is to be
// evicted, it stays, and nobody is told.
#[test]
fn leaves_that_were_written_go_out_of_memory_behind_calls(rt: HostRuntime) {
    let alloc = rt.alloc();
    let content = content_of_rows(&rt, alloc);
    match count_failing(&rt, alloc, &content) {
        Some((puts, rooms)) => assert!(rt; puts > 0 && rooms > 0),
        None => assert!(rt; false),
    }
}

// Each row is written over, and its leaf goes.
fn write_all_over(rt: &impl Abort, alloc: Global, bench: &mut Bench) {
    for step in 0..ROWS {
        assert!(rt; write_over(rt, alloc, bench, row_at(step)) == Ok(()));
        check_framed(rt, bench);
    }
}

fn write_over_beside(rt: &impl Abort, alloc: Global, bench: &mut Bench) {
    begin(rt, alloc, bench, 1);
    write_all_over(rt, alloc, bench);
    assert!(rt; all_have(rt, alloc, bench, 1, 0));
    commit(rt, alloc, bench, 1);
}

// Leaves go whose older versions a transaction may ask for, and come back with them.
#[test]
fn leaves_come_back_with_versions_that_are_wanted(rt: HostRuntime) {
    let alloc = rt.alloc();
    let mut bench = opened(&rt, alloc);
    write_over_beside(&rt, alloc, &mut bench);
    assert!(rt; have(&rt, alloc, &mut bench, 100));
}

// A row of two bytes is put behind each row, which has this byte and so much more.
fn put_behind(rt: &impl Abort, alloc: Global, bench: &mut Bench, row: u8, more: u8) {
    let told = write(rt, alloc, bench, &[row, 0], row.wrapping_add(more));
    assert!(rt; told == Ok(()));
    check_framed(rt, bench);
}

// Each row is written over, and one more put behind it.
fn write_both(rt: &impl Abort, alloc: Global, bench: &mut Bench) {
    for step in 0..ROWS {
        let row = row_at(step);
        assert!(rt; write_over(rt, alloc, bench, row) == Ok(()));
        put_behind(rt, alloc, bench, row, 0);
    }
}

// That session 1 reads the rows as they were, and none of those behind them.
fn check_reader(rt: &impl Abort, alloc: Global, bench: &mut Bench) {
    for row in 0..ROWS {
        assert!(rt; has(rt, alloc, bench, 1, &[row], row));
        assert!(rt; !has(rt, alloc, bench, 1, &[row, 0], row));
    }
}

fn write_both_beside(rt: &impl Abort, alloc: Global, bench: &mut Bench) {
    begin(rt, alloc, bench, 1);
    write_both(rt, alloc, bench);
    check_reader(rt, alloc, bench);
    commit(rt, alloc, bench, 1);
}

// A leaf has room for two rows, and grows by two, while a transaction may ask for the older versions of
// the first two. It parts, and the leaves in its place come back with them.
#[test]
fn leaves_part_and_come_back_with_versions_that_are_wanted(rt: HostRuntime) {
    let alloc = rt.alloc();
    let mut bench = opened(&rt, alloc);
    write_both_beside(&rt, alloc, &mut bench);
    assert!(rt; have(&rt, alloc, &mut bench, 100));
}

// Whether a row, and the one behind it, has its value.
fn has_both(rt: &impl Abort, alloc: Global, bench: &mut Bench, row: u8) -> bool {
    has(rt, alloc, bench, 0, &[row], row)
        && has(rt, alloc, bench, 0, &[row, 0], row.wrapping_add(100))
}

// Whether each row, and one more behind it, has its value.
fn have_both(rt: &impl Abort, alloc: Global, bench: &mut Bench) -> bool {
    begin(rt, alloc, bench, 0);
    let mut all = true;
    for row in 0..ROWS {
        all = all && has_both(rt, alloc, bench, row);
    }
    commit(rt, alloc, bench, 0);
    all
}

fn put_all_behind(rt: &impl Abort, alloc: Global, bench: &mut Bench) {
    for step in 0..ROWS {
        put_behind(rt, alloc, bench, row_at(step), 100);
    }
}

fn put_and_close(rt: &impl Abort, alloc: Global, bench: &mut Bench) {
    put_all_behind(rt, alloc, bench);
    assert!(rt; have_both(rt, alloc, bench));
    assert!(rt; close(rt, alloc, bench) == Met::None);
}

// A leaf has room for two rows, and grows by two. It parts, and the leaves in its place are read again.
#[test]
fn leaves_that_grew_past_one_block_part_behind_calls(rt: HostRuntime) {
    let alloc = rt.alloc();
    let mut bench = opened(&rt, alloc);
    put_and_close(&rt, alloc, &mut bench);
    let mut image = crashed(&rt, alloc, bench.disk);
    assert!(rt; have_both(&rt, alloc, &mut image));
}
