// Checkpoints that run while others are at work.
use super::bench::{
    Bench, begin, bytes_of, commit, crash, create, disk_of, finish, gives, new_device, open, put,
    start, step, take, try_close,
};
use super::item;
use engine_store::Remains;
use plain_disk::PlainDisk;
use std::alloc::Global;
use std::process::Abort;
use wt_code::{Busy, Invalid, Refusal};

// What is done, one after the other.
#[derive(Clone, Copy)]
enum Did {
    // The key of the first table gets this value. The table is made where it is absent.
    Write(u8),
    // So does that of the second table.
    WriteOther(u8),
    // The leaf of the first table is evicted.
    Evict,
    Start,
    // A step, behind which a leaf is left.
    StepLeft,
    // One behind which none is.
    StepEnd,
    // The finish, while a leaf is left.
    FinishLeft,
    // The finish, once steps have taken each leaf.
    Finish,
}

// What is done, and the values of the two tables that a crash leaves behind it, none where the table is
// absent.
struct Case {
    did: &'static [Did],
    first: Option<u8>,
    other: Option<u8>,
}

const CASES: [Case; 11] = [
    // What is committed since the start is not captured.
    Case {
        did: &[Did::Write(1), Did::Start, Did::Write(2), Did::Finish],
        first: Some(1),
        other: None,
    },
    // Nor where the leaf leaves memory, before it and behind it.
    Case {
        did: &[
            Did::Write(1),
            Did::Start,
            Did::Evict,
            Did::Write(2),
            Did::Evict,
            Did::Finish,
        ],
        first: Some(1),
        other: None,
    },
    // A table that was made since is none of the checkpoint's.
    Case {
        did: &[Did::Write(1), Did::Start, Did::WriteOther(2), Did::Finish],
        first: Some(1),
        other: None,
    },
    // The next one has it, and what was committed meanwhile.
    Case {
        did: &[
            Did::Write(1),
            Did::Start,
            Did::WriteOther(2),
            Did::Write(3),
            Did::Finish,
            Did::Start,
            Did::Write(4),
            Did::Finish,
        ],
        first: Some(3),
        other: Some(2),
    },
    // A crash drops one that runs.
    Case {
        did: &[
            Did::Write(1),
            Did::Start,
            Did::Finish,
            Did::Write(2),
            Did::Start,
        ],
        first: Some(1),
        other: None,
    },
    // One that captured nothing.
    Case {
        did: &[Did::Start, Did::Write(1), Did::Finish],
        first: None,
        other: None,
    },
    // A leaf that was evicted since the last one keeps its block.
    Case {
        did: &[
            Did::Write(1),
            Did::Start,
            Did::Finish,
            Did::Write(2),
            Did::Evict,
            Did::Start,
            Did::Write(3),
            Did::Finish,
        ],
        first: Some(2),
        other: None,
    },
    // Each table has a leaf to take, and it is not finished before.
    Case {
        did: &[
            Did::Write(1),
            Did::WriteOther(2),
            Did::Start,
            Did::FinishLeft,
            Did::StepLeft,
            Did::FinishLeft,
            Did::StepEnd,
            Did::StepEnd,
            Did::Finish,
        ],
        first: Some(1),
        other: Some(2),
    },
    // A leaf that was taken, and one that was not, are changed and evicted.
    Case {
        did: &[
            Did::Write(1),
            Did::WriteOther(2),
            Did::Start,
            Did::StepLeft,
            Did::Write(3),
            Did::WriteOther(4),
            Did::Evict,
            Did::StepEnd,
            Did::Finish,
        ],
        first: Some(1),
        other: Some(2),
    },
    // A table that was made since has none to take.
    Case {
        did: &[
            Did::Write(1),
            Did::Start,
            Did::WriteOther(2),
            Did::StepEnd,
            Did::Finish,
        ],
        first: Some(1),
        other: None,
    },
    // Without a table nothing is left at once.
    Case {
        did: &[Did::Start, Did::Write(1), Did::StepEnd, Did::Finish],
        first: None,
        other: None,
    },
];

fn write(rt: &impl Abort, alloc: Global, bench: &mut Bench, table: &[u8], value: u8) {
    create(rt, alloc, bench, table);
    begin(rt, alloc, bench, 0);
    put(rt, alloc, bench, 0, (table, b"k", &[value]));
    commit(rt, alloc, bench, 0);
}

fn evict(rt: &impl Abort, alloc: Global, bench: &mut Bench) {
    let (table, key) = (item(rt, alloc, b"a"), item(rt, alloc, b"k"));
    let evicted = bench.store.evict(alloc, &mut bench.disk, 0, &table, &key);
    assert!(rt; evicted == Ok(()));
}

// Steps until no leaf is left, of the few that the tests have.
fn take_leaves(rt: &impl Abort, alloc: Global, bench: &mut Bench) {
    for _ in 0..4 {
        assert!(rt; step(alloc, bench).is_ok());
    }
}

fn finish_taken(rt: &impl Abort, alloc: Global, bench: &mut Bench) -> Result<(), Refusal> {
    take_leaves(rt, alloc, bench);
    finish(rt, alloc, bench)
}

fn finish_left(rt: &impl Abort, alloc: Global, bench: &mut Bench) {
    let left = Err(Refusal::Invalid(Invalid::CkptLeft));
    assert!(rt; finish(rt, alloc, bench) == left);
}

fn make(rt: &impl Abort, alloc: Global, bench: &mut Bench, did: Did) {
    match did {
        Did::Write(value) => write(rt, alloc, bench, b"a", value),
        Did::WriteOther(value) => write(rt, alloc, bench, b"b", value),
        Did::Evict => evict(rt, alloc, bench),
        Did::Start => assert!(rt; start(alloc, bench) == Ok(())),
        Did::StepLeft => assert!(rt; step(alloc, bench) == Ok(Remains::Left)),
        Did::StepEnd => assert!(rt; step(alloc, bench) == Ok(Remains::End)),
        Did::FinishLeft => finish_left(rt, alloc, bench),
        Did::Finish => assert!(rt; finish_taken(rt, alloc, bench) == Ok(())),
    }
}

// That the key of a table has this value, none where the table is absent.
fn check(rt: &impl Abort, alloc: Global, bench: &mut Bench, table: &[u8], wanted: Option<u8>) {
    let Some(value) = wanted else {
        assert!(rt; bench.store.engine.table_number(table).is_none());
        return;
    };
    begin(rt, alloc, bench, 0);
    assert!(rt; gives(rt, alloc, bench, 0, (table, b"k"), Some(&[value])));
    commit(rt, alloc, bench, 0);
}

fn check_case(rt: &impl Abort, alloc: Global, case: &Case) {
    let mut bench = open(rt, alloc, new_device(rt, alloc, &[]));
    for did in case.did {
        make(rt, alloc, &mut bench, *did);
    }
    let mut image = open(rt, alloc, crash(rt, bench.disk, 1));
    check(rt, alloc, &mut image, b"a", case.first);
    check(rt, alloc, &mut image, b"b", case.other);
}

#[test]
fn a_checkpoint_has_what_was_committed_when_it_started(rt: HostRuntime) {
    let alloc = rt.alloc();
    for case in &CASES {
        check_case(&rt, alloc, case);
    }
}

fn check_busy(rt: &impl Abort, alloc: Global, bench: &mut Bench) {
    let busy = Err(Refusal::Busy(Busy::Checkpoint));
    assert!(rt; start(alloc, bench) == busy);
    assert!(rt; take(rt, alloc, bench) == busy);
    assert!(rt; try_close(rt, alloc, bench) == busy);
}

#[test]
fn one_checkpoint_runs_at_a_time(rt: HostRuntime) {
    let alloc = rt.alloc();
    let none = Err(Refusal::Invalid(Invalid::NoCkpt));
    let mut bench = open(&rt, alloc, new_device(&rt, alloc, &[]));
    assert!(rt; finish(&rt, alloc, &mut bench) == none);
    assert!(rt; step(alloc, &mut bench) == Err(Refusal::Invalid(Invalid::NoCkpt)));
    assert!(rt; start(alloc, &mut bench) == Ok(()));
    check_busy(&rt, alloc, &mut bench);
    assert!(rt; finish(&rt, alloc, &mut bench) == Ok(()));
    assert!(rt; finish(&rt, alloc, &mut bench) == none);
    assert!(rt; take(&rt, alloc, &mut bench) == Ok(()));
}

// A device that takes no block.
fn full_device(rt: &impl Abort, alloc: Global) -> PlainDisk {
    disk_of(rt, alloc, bytes_of(rt, alloc, 8_192, 0), 8_192, &[])
}

#[test]
fn one_without_room_ends(rt: HostRuntime) {
    let alloc = rt.alloc();
    let mut bench = open(&rt, alloc, full_device(&rt, alloc));
    assert!(rt; start(alloc, &mut bench) == Ok(()));
    assert!(rt; finish(&rt, alloc, &mut bench) == Err(Refusal::NoSpace));
    assert!(rt; start(alloc, &mut bench) == Ok(()));
}

// The store is open after so many calls of the disk.
fn calls_at_start(rt: &impl Abort, alloc: Global) -> u64 {
    let mut bench = open(rt, alloc, new_device(rt, alloc, &[]));
    write(rt, alloc, &mut bench, b"a", 1);
    bench.disk.medium.calls().len() as u64
}

// The finish asks for the length first.
#[test]
fn one_whose_read_fails_still_runs(rt: HostRuntime) {
    let alloc = rt.alloc();
    let failing = calls_at_start(&rt, alloc);
    let mut bench = open(&rt, alloc, new_device(&rt, alloc, &[failing]));
    write(&rt, alloc, &mut bench, b"a", 1);
    assert!(rt; start(alloc, &mut bench) == Ok(()));
    write(&rt, alloc, &mut bench, b"a", 2);
    take_leaves(&rt, alloc, &mut bench);
    assert!(rt; finish(&rt, alloc, &mut bench) == Err(Refusal::DiskFault));
    assert!(rt; finish(&rt, alloc, &mut bench) == Ok(()));
    let mut image = open(&rt, alloc, crash(&rt, bench.disk, 1));
    check(&rt, alloc, &mut image, b"a", Some(1));
}

// Three rows, of which a leaf has two.
fn write_rows(rt: &impl Abort, alloc: Global, bench: &mut Bench) {
    create(rt, alloc, bench, b"a");
    begin(rt, alloc, bench, 0);
    for row in 0..3u8 {
        let value = bytes_of(rt, alloc, 12_000, row);
        put(rt, alloc, bench, 0, (b"a", &[row], &value));
    }
    commit(rt, alloc, bench, 0);
}

// The leaf of the rows parts in two by an eviction, before the start or behind it.
fn check_parted(rt: &impl Abort, alloc: Global, before: bool) {
    let mut bench = open(rt, alloc, new_device(rt, alloc, &[]));
    write_rows(rt, alloc, &mut bench);
    if before {
        evict(rt, alloc, &mut bench);
    }
    assert!(rt; start(alloc, &mut bench) == Ok(()));
    if !before {
        evict(rt, alloc, &mut bench);
    }
    assert!(rt; step(alloc, &mut bench) == Ok(Remains::Left));
    finish_left(rt, alloc, &mut bench);
    assert!(rt; step(alloc, &mut bench) == Ok(Remains::End));
    assert!(rt; finish(rt, alloc, &mut bench) == Ok(()));
}

#[test]
fn each_leaf_of_a_table_is_taken(rt: HostRuntime) {
    let alloc = rt.alloc();
    check_parted(&rt, alloc, true);
    check_parted(&rt, alloc, false);
}
