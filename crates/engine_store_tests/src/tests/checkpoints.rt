// What an opening finds of what two checkpoints left, where a call of the disk fails.
use super::bench::{
    Bench, add_session, begin, commit, crash, create, get, new_device, open_one, put, reopen, take,
};
use engine_store::{FRAMES, Frames};
use item::Item;
use plain_disk::PlainDisk;
use std::alloc::Global;
use std::process::Abort;
use wt_code::{Answer, Refusal};

fn open(rt: &impl Abort, alloc: Global, disk: PlainDisk) -> Bench {
    open_one(rt, alloc, disk, Frames::Soft(FRAMES)).expect(rt, "it opens")
}

// A transaction that gives the one key a value. Its table is made where it is absent.
fn change(rt: &impl Abort, alloc: Global, bench: &mut Bench, value: u8) {
    create(rt, alloc, bench, b"a");
    begin(rt, alloc, bench, 0);
    put(rt, alloc, bench, 0, (b"a", b"k", &[value]));
    commit(rt, alloc, bench, 0);
}

// The first byte of a value.
fn byte_in(answer: &Answer<Item>) -> Option<u8> {
    match answer {
        Answer::Value(value) => value.as_bytes().first().copied(),
        _ => None,
    }
}

// The value of the key, none where the table is absent.
fn value(rt: &impl Abort, alloc: Global, bench: &mut Bench) -> Option<u8> {
    begin(rt, alloc, bench, 0);
    let answer = get(rt, alloc, bench, 0, (b"a", b"k"));
    commit(rt, alloc, bench, 0);
    byte_in(&answer)
}

// What a crash leaves, opened.
fn crashed(rt: &impl Abort, alloc: Global, bench: Bench, pick: u64) -> Bench {
    open(rt, alloc, crash(rt, bench.disk, pick))
}

fn calls(bench: &Bench) -> u64 {
    bench.disk.medium.calls().len() as u64
}

// A checkpoint of the value that ends.
fn complete(rt: &impl Abort, alloc: Global, bench: &mut Bench, value: u8) {
    change(rt, alloc, bench, value);
    assert!(rt; take(rt, alloc, bench) == Ok(()));
}

// Two checkpoints, of the values 1 and 2: the numbers of the disk's calls at which the first begins,
// the second begins and the second has ended.
fn bounds(rt: &impl Abort, alloc: Global) -> (u64, u64, u64) {
    let mut bench = open(rt, alloc, new_device(rt, alloc, &[]));
    bounds_on(rt, alloc, &mut bench)
}

fn bounds_on(rt: &impl Abort, alloc: Global, bench: &mut Bench) -> (u64, u64, u64) {
    let first = calls(bench);
    complete(rt, alloc, bench, 1);
    let second = calls(bench);
    complete(rt, alloc, bench, 2);
    (first, second, calls(bench))
}

// A failing call, and the checkpoint that it is met in.
#[derive(Clone, Copy)]
struct Failing {
    // The number of the call.
    call: u64,
    // The value of the checkpoint.
    met: u8,
    // The number of calls at its end.
    last: u64,
}

fn failing_at(call: u64, second: u64, end: u64) -> Failing {
    let (met, last) = if call < second { (1, second) } else { (2, end) };
    Failing { call, met, last }
}

fn run_on(rt: &impl Abort, alloc: Global, bench: &mut Bench, at: Failing) {
    for value in 1..at.met {
        complete(rt, alloc, bench, value);
    }
    change(rt, alloc, bench, at.met);
    check_taken(rt, alloc, bench, at.call, Err(Refusal::DiskFault));
}

// The same up to the checkpoint in which the call fails.
fn run(rt: &impl Abort, alloc: Global, at: Failing) -> Bench {
    let mut bench = open(rt, alloc, new_device(rt, alloc, &[at.call]));
    run_on(rt, alloc, &mut bench, at);
    bench
}

fn check_taken(
    rt: &impl Abort,
    alloc: Global,
    bench: &mut Bench,
    call: u64,
    wanted: Result<(), Refusal>,
) {
    let taken = take(rt, alloc, bench);
    assert!(rt; taken == wanted, "call {call}");
}

fn check_value(rt: &impl Abort, alloc: Global, bench: &mut Bench, call: u64, wanted: Option<u8>) {
    let found = value(rt, alloc, bench);
    assert_eq!(rt; found, wanted, "call {call}");
}

// The new value, or that of the checkpoint before, where there is one.
fn value_after(at: Failing, is_new: bool) -> Option<u8> {
    if is_new {
        Some(at.met)
    } else if at.met == 1 {
        None
    } else {
        Some(1)
    }
}

// The last two calls of a checkpoint write the gate of its slot, which is one byte, and sync it.
fn is_at_gate(at: Failing) -> bool {
    at.last.saturating_sub(at.call) <= 2
}

// The value in this image of what the failing call leaves.
fn value_left(rt: &impl Abort, alloc: Global, at: Failing, pick: u64) -> Option<u8> {
    let mut image = crashed(rt, alloc, run(rt, alloc, at), pick);
    value(rt, alloc, &mut image)
}

// Other bytes in the place of the gate are an open one.
fn check_image(rt: &impl Abort, alloc: Global, at: Failing, pick: u64) {
    let opens_gate = is_at_gate(at) && matches!(pick, 1 | 3 | 4 | 6);
    let found = value_left(rt, alloc, at, pick);
    let wanted = value_after(at, opens_gate);
    let call = at.call;
    assert_eq!(rt; found, wanted, "call {call}, {pick}");
}

fn check_images(rt: &impl Abort, alloc: Global, at: Failing) {
    let picks = if is_at_gate(at) { 8 } else { 4 };
    for pick in 0..picks {
        check_image(rt, alloc, at, pick);
    }
}

#[test]
fn an_image_has_the_checkpoint_before_or_the_new_one(rt: HostRuntime) {
    let alloc = rt.alloc();
    let (first, second, end) = bounds(&rt, alloc);
    for call in first..end {
        check_images(&rt, alloc, failing_at(call, second, end));
    }
}

// A failed write leaves nothing, and the last call is the sync of a gate that was written.
fn open_anew(rt: &impl Abort, alloc: Global, bench: &mut Bench, at: Failing) {
    reopen(rt, alloc, bench);
    add_session(rt, alloc, bench, 0);
    let is_last = at.last.saturating_sub(at.call) == 1;
    check_value(rt, alloc, bench, at.call, value_after(at, is_last));
}

fn go_on(rt: &impl Abort, alloc: Global, bench: &mut Bench, at: Failing) {
    open_anew(rt, alloc, bench, at);
    change(rt, alloc, bench, 9);
    check_taken(rt, alloc, bench, at.call, Ok(()));
}

fn goes_on(rt: &impl Abort, alloc: Global, at: Failing) {
    let mut bench = run(rt, alloc, at);
    go_on(rt, alloc, &mut bench, at);
    let mut image = crashed(rt, alloc, bench, 1);
    check_value(rt, alloc, &mut image, at.call, Some(9));
}

#[test]
fn a_store_opens_its_device_anew_and_goes_on(rt: HostRuntime) {
    let alloc = rt.alloc();
    let (first, second, end) = bounds(&rt, alloc);
    for call in first..end {
        goes_on(&rt, alloc, failing_at(call, second, end));
    }
}
