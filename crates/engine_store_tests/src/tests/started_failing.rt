// What an opening finds of a checkpoint by steps, beside other work, where a call of the disk fails.
use super::bench::{
    Bench, COMMIT, ask, begin, commit, crash, create, finish, gives, new_device, open, put,
    put_call, start, step, take,
};
use super::item;
use disk_model::Disk;
use std::alloc::Global;
use std::process::Abort;
use wt_calls::SessionCall;

// What is done between the start and the finish: none of it is in the checkpoint.
#[derive(Clone, Copy)]
enum Did {
    Step,
    // The key of each table gets another value.
    Change,
    // The leaf of the first table is evicted.
    Evict,
}

const CASES: [&[Did]; 3] = [
    &[Did::Step, Did::Step],
    &[Did::Change, Did::Step, Did::Evict, Did::Step],
    &[Did::Evict, Did::Step, Did::Change, Did::Evict, Did::Step],
];

const TABLES: [&[u8]; 2] = [b"b", b"a"];

// A transaction that gives the key of each table a value.
fn write(rt: &impl Abort, alloc: Global, bench: &mut Bench, value: u8) {
    begin(rt, alloc, bench, 0);
    for table in TABLES {
        put(rt, alloc, bench, 0, (table, b"k", &[value]));
    }
    commit(rt, alloc, bench, 0);
}

// The same, whatever is answered.
fn try_write(rt: &impl Abort, alloc: Global, bench: &mut Bench, value: u8) {
    let _begun = ask(rt, alloc, bench, 0, SessionCall::Begin(None));
    for table in TABLES {
        let call = put_call(rt, alloc, (table, b"k", &[value]));
        let _put = ask(rt, alloc, bench, 0, call);
    }
    let _committed = ask(rt, alloc, bench, 0, COMMIT);
}

fn try_evict(rt: &impl Abort, alloc: Global, bench: &mut Bench) {
    let (table, key) = (item(rt, alloc, b"b"), item(rt, alloc, b"k"));
    let _evicted = bench.store.evict(alloc, &mut bench.disk, 0, &table, &key);
}

// A checkpoint of the values 1 is taken, and one of the values 2 has started.
fn begun(rt: &impl Abort, alloc: Global, failing: &[u64]) -> Bench {
    let mut bench = open(rt, alloc, new_device(rt, alloc, failing));
    for table in TABLES {
        create(rt, alloc, &mut bench, table);
    }
    write(rt, alloc, &mut bench, 1);
    assert!(rt; take(rt, alloc, &mut bench) == Ok(()));
    write(rt, alloc, &mut bench, 2);
    assert!(rt; start(alloc, &mut bench) == Ok(()));
    bench
}

fn make(rt: &impl Abort, alloc: Global, bench: &mut Bench, did: Did) {
    match did {
        Did::Step => {
            let _taken = step(alloc, bench);
        }
        Did::Change => try_write(rt, alloc, bench, 3),
        Did::Evict => try_evict(rt, alloc, bench),
    }
}

// Whether the checkpoint is finished then.
fn finishes(rt: &impl Abort, alloc: Global, bench: &mut Bench, case: &[Did]) -> bool {
    for did in case {
        make(rt, alloc, bench, *did);
    }
    finish(rt, alloc, bench).is_ok()
}

fn calls(bench: &Bench) -> u64 {
    bench.disk.medium.calls().len() as u64
}

// The numbers of the disk's calls at the start and behind the finish.
fn bounds(rt: &impl Abort, alloc: Global, case: &[Did]) -> (u64, u64) {
    let mut bench = begun(rt, alloc, &[]);
    let first = calls(&bench);
    assert!(rt; finishes(rt, alloc, &mut bench, case));
    (first, calls(&bench))
}

fn check_values(rt: &impl Abort, alloc: Global, bench: &mut Bench, call: u64, wanted: u8) {
    begin(rt, alloc, bench, 0);
    for table in TABLES {
        let found = gives(rt, alloc, bench, 0, (table, b"k"), Some(&[wanted]));
        assert!(rt; found, "call {call}");
    }
}

// The last two calls write the gate of the slot, which is one byte, and sync it: other bytes in its place
// are an open one.
fn check_image(rt: &impl Abort, alloc: Global, case: &[Did], call: u64, left: u64, pick: u64) {
    let mut bench = begun(rt, alloc, &[call]);
    let is_finished = finishes(rt, alloc, &mut bench, case);
    assert_eq!(rt; bench.disk.faults(), left.min(1), "call {call}");
    let opens_gate = left <= 2 && matches!(pick, 1 | 3 | 4 | 6);
    let wanted = if is_finished || opens_gate { 2 } else { 1 };
    let mut image = open(rt, alloc, crash(rt, bench.disk, pick));
    check_values(rt, alloc, &mut image, call, wanted);
}

fn check_images(rt: &impl Abort, alloc: Global, case: &[Did], call: u64, left: u64) {
    let picks = if left <= 2 { 8 } else { 4 };
    for pick in 0..picks {
        check_image(rt, alloc, case, call, left, pick);
    }
}

#[test]
fn one_by_steps_whose_disk_fails_leaves_the_one_before_or_itself(rt: HostRuntime) {
    let alloc = rt.alloc();
    for case in CASES {
        let (first, end) = bounds(&rt, alloc, case);
        for call in first..end.saturating_add(1) {
            check_images(&rt, alloc, case, call, end.saturating_sub(call));
        }
    }
}
