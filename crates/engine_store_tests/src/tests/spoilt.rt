// The same two tables, where a leaf is at fault.
use super::{begin, content, device, get, open, put, reads};
use disk_model::MemDisk;
use engine_store::{FRAMES, Frames, Store, open_on};
use std::alloc::Global;
use std::process::Abort;
use wt_code::{Answer, Refusal};

const FIRST_FAULT: Refusal = Refusal::Corrupt {
    offset: 12_288,
    want: 8_748,
    found: 9_212,
};

const SECOND_FAULT: Refusal = Refusal::Corrupt {
    offset: 16_384,
    want: 9_022,
    found: 9_428,
};

// A device on which the value of the row in this block is another one.
fn spoilt(rt: &impl Abort, alloc: Global, block: usize) -> MemDisk {
    let mut content = content(rt, alloc);
    put(rt, &mut content, block.saturating_add(57), b"9");
    device(rt, alloc, content)
}

// The leaf of one table is read, and that of the other is at fault.
fn check_fault(rt: &impl Abort, alloc: Global, store: &mut Store, disk: &mut MemDisk) {
    let second = (b"b".as_slice(), b"b\0".as_slice(), b"2\0".as_slice());
    assert!(rt; reads(rt, alloc, store, disk, second));
    let answer = get(rt, alloc, store, disk, (b"a", b"a\0"));
    assert!(rt; answer == Answer::Refused(FIRST_FAULT));
}

// The same twice in a transaction.
fn check_faults(rt: &impl Abort, alloc: Global, store: &mut Store, disk: &mut MemDisk) {
    begin(rt, alloc, store, disk);
    for _ in 0..2 {
        check_fault(rt, alloc, store, disk);
    }
}

// No version of the first leaf is taken out, so an opening does not read it.
#[test]
fn a_leaf_at_fault_is_told_where_a_call_needs_it(rt: HostRuntime) {
    let alloc = rt.alloc();
    let mut disk = spoilt(&rt, alloc, 12_288);
    let mut store = open(&rt, alloc, &mut disk);
    check_faults(&rt, alloc, &mut store, &mut disk);
}

fn opening_refused(alloc: Global, disk: &mut MemDisk) -> Option<Refusal> {
    match open_on(alloc, disk, Frames::Soft(FRAMES)) {
        Ok(_store) => None,
        Err(refusal) => Some(refusal),
    }
}

// The second leaf says an id that the checkpoint may not have seen, so an opening reads it.
#[test]
fn a_marked_leaf_at_fault_is_told_by_the_opening(rt: HostRuntime) {
    let alloc = rt.alloc();
    let mut disk = spoilt(&rt, alloc, 16_384);
    assert_eq!(rt; opening_refused(alloc, &mut disk), Some(SECOND_FAULT));
}
