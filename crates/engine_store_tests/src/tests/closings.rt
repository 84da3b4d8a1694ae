// What an opening finds of what a close left, on a disk in memory.
use super::bench::{
    Bench, Row, begin, close, commit, create, gives, new_device, open, prepare, put,
};
use plain_disk::PlainDisk;
use std::alloc::Global;
use std::process::Abort;

const FIRST: [Row<'static>; 2] = [(b"b", b"k", b"1"), (b"a", b"k", b"2")];

const SECOND: [Row<'static>; 1] = [(b"a", b"k", b"3")];

// What two transactions put that are not finished, the second of them prepared.
const UNFINISHED: [Row<'static>; 2] = [(b"b", b"m", b"4"), (b"a", b"m", b"4")];

const PREPARED: [Row<'static>; 2] = [(b"b", b"n", b"5"), (b"a", b"n", b"5")];

// What each opening finds but of the row of table `a`: what was not committed is absent.
const FOUND: [(&[u8], &[u8], Option<&[u8]>); 5] = [
    (b"b", b"k", Some(b"1")),
    (b"b", b"m", None),
    (b"b", b"n", None),
    (b"a", b"m", None),
    (b"a", b"n", None),
];

// A transaction with these rows.
fn begin_with(rt: &impl Abort, alloc: Global, bench: &mut Bench, session: u32, rows: &[Row<'_>]) {
    begin(rt, alloc, bench, session);
    for row in rows {
        put(rt, alloc, bench, session, *row);
    }
}

// A transaction with these rows that is committed.
fn put_all(rt: &impl Abort, alloc: Global, bench: &mut Bench, rows: &[Row<'_>]) {
    begin_with(rt, alloc, bench, 0, rows);
    commit(rt, alloc, bench, 0);
}

// Leaves a transaction open in each of two sessions, and closes the store.
fn leave_open(rt: &impl Abort, alloc: Global, bench: &mut Bench) {
    begin_with(rt, alloc, bench, 0, &UNFINISHED);
    begin_with(rt, alloc, bench, 1, &PREPARED);
    prepare(rt, alloc, bench, 1);
    close(rt, alloc, bench);
}

// Two tables, the order of whose names is not that of their numbers, with a row each.
fn make_tables(rt: &impl Abort, alloc: Global, bench: &mut Bench) {
    create(rt, alloc, bench, b"b");
    create(rt, alloc, bench, b"a");
    put_all(rt, alloc, bench, &FIRST);
    leave_open(rt, alloc, bench);
}

// A device with them.
fn first_device(rt: &impl Abort, alloc: Global) -> PlainDisk {
    let mut bench = open(rt, alloc, new_device(rt, alloc, &[]));
    make_tables(rt, alloc, &mut bench);
    bench.disk
}

// The same device with another row in table `a`.
fn second_device(rt: &impl Abort, alloc: Global) -> PlainDisk {
    let mut bench = open_again(rt, alloc, first_device(rt, alloc), b"2");
    put_all(rt, alloc, &mut bench, &SECOND);
    leave_open(rt, alloc, &mut bench);
    bench.disk
}

fn check_found(rt: &impl Abort, alloc: Global, bench: &mut Bench) {
    for (table, key, wanted) in FOUND {
        assert!(rt; gives(rt, alloc, bench, 0, (table, key), wanted));
    }
}

// The row of table `b` is there, and that of table `a` has the value.
fn check_rows(rt: &impl Abort, alloc: Global, bench: &mut Bench, value: &[u8]) {
    begin(rt, alloc, bench, 0);
    check_found(rt, alloc, bench);
    assert!(rt; gives(rt, alloc, bench, 0, (b"a", b"k"), Some(value)));
    commit(rt, alloc, bench, 0);
}

// Opens the device again.
fn open_again(rt: &impl Abort, alloc: Global, disk: PlainDisk, value: &[u8]) -> Bench {
    let mut bench = open(rt, alloc, disk);
    check_rows(rt, alloc, &mut bench, value);
    bench
}

#[test]
fn what_was_committed_is_there_again(rt: HostRuntime) {
    let alloc = rt.alloc();
    let bench = open_again(&rt, alloc, second_device(&rt, alloc), b"3");
    // Two leaves and a record, and of the second close the leaf that changed and a record.
    assert_eq!(rt; bench.disk.medium.bytes().len(), 28_672);
}
