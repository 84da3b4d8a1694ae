// Rows that go out of memory between two checkpoints, where a call of the disk fails.
use super::bench::{
    Bench, ask, begin, commit, crash, create, framed, get, new_device, open_one, put_call,
    try_close,
};
use disk_model::Disk;
use engine_store::{CHANGED_LEAST, FRAMES, Frames};
use item::Item;
use plain_disk::PlainDisk;
use std::alloc::Global;
use std::process::Abort;
use wt_code::{Answer, Refusal};

// So many rows are put at a time, each behind those that are there: as many as make a leaf go.
const ROUND: u16 = 1_000;

// The rows that are asked for.
const ASKED: [u16; 4] = [0, ROUND - 1, ROUND, 2 * ROUND - 1];

// In what a call of the disk failed.
#[derive(Clone, Copy, PartialEq, Eq)]
enum Met {
    Opening,
    Put,
    Out,
    Get,
    Close,
    None,
}

// Puts a row whose value is its key. Whether no call of the disk failed.
fn put_row(rt: &impl Abort, alloc: Global, bench: &mut Bench, row: u16) -> bool {
    let key = row.to_be_bytes();
    let put = put_call(rt, alloc, (b"a", &key, &key));
    let done = ask(rt, alloc, bench, 0, put);
    if done == Answer::Refused(Refusal::DiskFault) {
        return false;
    }
    assert!(rt; done == Answer::Done);
    true
}

// Rows in a transaction. The leaf of the first one is read for it, where it went out of memory.
fn put_round(rt: &impl Abort, alloc: Global, bench: &mut Bench, first: u16) -> bool {
    begin(rt, alloc, bench, 0);
    for row in 0..ROUND {
        if !put_row(rt, alloc, bench, first.wrapping_add(row)) {
            return false;
        }
    }
    commit(rt, alloc, bench, 0);
    true
}

// Whether an answer is the value of the row of this key, or that a call of the disk failed.
fn is_row(answer: &Answer<Item>, key: &[u8]) -> Result<bool, Refusal> {
    match answer {
        Answer::Value(value) => Ok(value.as_bytes() == key),
        Answer::Refused(Refusal::DiskFault) => Err(Refusal::DiskFault),
        _ => Ok(false),
    }
}

// Whether the row is there.
fn has_row(rt: &impl Abort, alloc: Global, bench: &mut Bench, row: u16) -> Result<bool, Refusal> {
    let key = row.to_be_bytes();
    let answer = get(rt, alloc, bench, 0, (b"a", &key));
    is_row(&answer, &key)
}

// How many of the rows are there.
fn count_rows(rt: &impl Abort, alloc: Global, bench: &mut Bench) -> Result<usize, Refusal> {
    let mut found = 0usize;
    for row in ASKED {
        if has_row(rt, alloc, bench, row)? {
            found = found.saturating_add(1);
        }
    }
    Ok(found)
}

// Whether the rows are there, none of them or all, in a transaction of their own.
fn has(rt: &impl Abort, alloc: Global, bench: &mut Bench) -> Result<bool, Refusal> {
    begin(rt, alloc, bench, 0);
    let found = count_rows(rt, alloc, bench)?;
    commit(rt, alloc, bench, 0);
    assert!(rt; found == 0 || found == ASKED.len());
    Ok(found == ASKED.len())
}

// All leaves go out of memory. Whether no call of the disk failed.
fn write_out(rt: &impl Abort, alloc: Global, bench: &mut Bench) -> bool {
    assert!(rt; framed(bench) > 0);
    match bench.store.write_out(alloc, &mut bench.disk) {
        Ok(()) => {
            assert!(rt; framed(bench) == 0);
            true
        }
        Err(refusal) => {
            assert!(rt; refusal == Refusal::DiskFault);
            false
        }
    }
}

// Rows are put, and go out of memory.
fn run_round(rt: &impl Abort, alloc: Global, bench: &mut Bench, first: u16) -> Met {
    if !put_round(rt, alloc, bench, first) {
        Met::Put
    } else if !write_out(rt, alloc, bench) {
        Met::Out
    } else {
        Met::None
    }
}

fn run_rounds(rt: &impl Abort, alloc: Global, bench: &mut Bench) -> Met {
    for first in [0, ROUND] {
        let met = run_round(rt, alloc, bench, first);
        if met != Met::None {
            return met;
        }
    }
    Met::None
}

fn read_rows(rt: &impl Abort, alloc: Global, bench: &mut Bench) -> Met {
    match has(rt, alloc, bench) {
        Ok(all) => {
            assert!(rt; all);
            Met::None
        }
        Err(_) => Met::Get,
    }
}

fn close(rt: &impl Abort, alloc: Global, bench: &mut Bench) -> Met {
    match try_close(rt, alloc, bench) {
        Ok(()) => Met::None,
        Err(_) => Met::Close,
    }
}

// The rows go out of memory once they are put; some are read, and a checkpoint is taken.
fn run(rt: &impl Abort, alloc: Global, bench: &mut Bench) -> Met {
    create(rt, alloc, bench, b"a");
    let put = run_rounds(rt, alloc, bench);
    if put != Met::None {
        return put;
    }
    let read = read_rows(rt, alloc, bench);
    if read != Met::None {
        return read;
    }
    close(rt, alloc, bench)
}

// Whether what a crash leaves has the rows.
fn has_crashed(rt: &impl Abort, alloc: Global, disk: PlainDisk) -> Result<bool, Refusal> {
    let image = open_one(rt, alloc, crash(rt, disk, 1), Frames::Soft(FRAMES));
    has(rt, alloc, &mut image.expect(rt, "it opens"))
}

// What a crash leaves has no row, and after the checkpoint all of them; one that fails in the checkpoint
// may leave either.
fn check_image(rt: &impl Abort, alloc: Global, disk: PlainDisk, call: u64, end: Met) {
    let found = has_crashed(rt, alloc, disk);
    assert!(rt;
        end == Met::Close || found == Ok(end == Met::None),
        "call {call}"
    );
}

fn run_and_crash(rt: &impl Abort, alloc: Global, mut bench: Bench, call: u64) -> Met {
    let end = run(rt, alloc, &mut bench);
    assert!(rt; (end == Met::None) == (bench.disk.faults() == 0));
    check_image(rt, alloc, bench.disk, call, end);
    end
}

// The call of this number fails.
fn try_call(rt: &impl Abort, alloc: Global, call: u64) -> Met {
    match open_one(
        rt,
        alloc,
        new_device(rt, alloc, &[call]),
        Frames::Soft(FRAMES),
    ) {
        None => Met::Opening,
        Some(bench) => run_and_crash(rt, alloc, bench, call),
    }
}

// In what each call of the disk fails, up to a number that is that of none.
fn all_ends(rt: &impl Abort, alloc: Global) -> Vec<Met> {
    let mut ends = Vec::new(alloc);
    for call in 0..100u64 {
        let end = try_call(rt, alloc, call);
        if end == Met::None {
            break;
        }
        ends.push(end).expect(rt, "there is memory");
    }
    ends
}

fn count(ends: &[Met], wanted: Met) -> usize {
    let mut count = 0usize;
    for end in ends {
        if *end == wanted {
            count = count.saturating_add(1);
        }
    }
    count
}

fn check_ends(rt: &impl Abort, ends: &[Met]) {
    // The length and two slots.
    assert!(rt; count(ends, Met::Opening) == 3);
    // The last leaf, by two calls.
    assert!(rt; count(ends, Met::Put) == 2);
    // The length, a sync and two leaves, and then the length and two leaves.
    assert!(rt; count(ends, Met::Out) == 7);
    assert!(rt; count(ends, Met::Get) > 0 && count(ends, Met::Close) > 0);
}

// Each call of the disk fails in turn, in the end none does.
#[test]
fn rows_that_went_out_of_memory_are_kept_by_a_checkpoint_alone(rt: HostRuntime) {
    assert!(rt; usize::from(ROUND) >= CHANGED_LEAST);
    let ends = all_ends(&rt, rt.alloc());
    check_ends(&rt, &ends);
}
