// What no clause says of the slots: their bytes, that calls succeed, and which calls are made.

use crate::slot::body_of;
use crate::{Slot, choose, install};
use disk_model::{Disk, MemDisk};
use std::alloc::Global;
use std::process::Abort;
use wt_code::Refusal;

fn slot(sequence: u64) -> Slot {
    Slot {
        sequence,
        offset: 8192,
        size: 4096,
        sum: 39222,
    }
}

fn zeros(rt: &impl Abort, alloc: Global, length: usize) -> Vec<u8> {
    let mut content = Vec::new(alloc);
    content.resize(length, 0).expect(rt, "there is memory");
    content
}

fn disk_of(rt: &impl Abort, alloc: Global, content: Vec<u8>, failing: u64) -> MemDisk {
    let failing = Vec::from_slice(alloc, &[failing]).expect(rt, "there is memory");
    MemDisk::new(alloc, content, 1 << 20, failing).expect(rt, "there is memory")
}

fn puts(rt: &impl Abort, content: &mut [u8], at: usize, slot: Slot) {
    assert!(rt; content.len() == 8192);
    assert!(rt; at <= 4096);
    content[at] = 0xa5;
    content[at + 1..at + 36].copy_from_slice(&body_of(slot));
}

fn installs(rt: &impl Abort, disk: &mut MemDisk, slot: Slot) -> bool {
    assert!(rt; 8192 <= disk.bytes().len());
    install(disk, slot).is_ok()
}

fn begins(rt: &impl Abort, bytes: &[u8], front: &[u8]) -> bool {
    assert!(rt; front.len() <= bytes.len());
    &bytes[..front.len()] == front
}

fn corrupt(offset: u64) -> Refusal {
    Refusal::Corrupt {
        offset,
        want: 0,
        found: 0,
    }
}

#[test]
fn the_first_slot_has_these_bytes(rt: HostRuntime) {
    let mut disk = disk_of(&rt, rt.alloc(), zeros(&rt, rt.alloc(), 8192), 99);
    assert!(rt; matches!(choose(&mut disk), Ok(None)));
    let before = disk.calls().len();
    assert!(rt; installs(&rt, &mut disk, slot(1)));
    // Two looks, then body, sync, gate, sync: a shut gate is not written.
    assert!(rt; disk.calls().len() >= before);
    assert_eq!(rt; disk.calls().len() - before, 6);
    let front = [
        0xa5, 0x57, 0x54, 0x54, 0x55, 0x52, 0x54, 0x4c, 1, 0, 0, 0, 1, 0, 0, 0, 0, 0, 0, 0, 0,
        0x20, 0, 0, 0, 0, 0, 0, 0, 0x10, 0, 0, 0x36, 0x99, 0, 0,
    ];
    assert!(rt; begins(&rt, disk.bytes(), &front));
    assert!(rt; choose(&mut disk) == Ok(Some(slot(1))));
    assert!(rt; installs(&rt, &mut disk, slot(2)));
    assert!(rt; choose(&mut disk) == Ok(Some(slot(2))));
    assert!(rt; begins(&rt, disk.bytes(), &front));
}

#[test]
fn slots_out_of_form_are_named(rt: HostRuntime) {
    let mut short = disk_of(&rt, rt.alloc(), zeros(&rt, rt.alloc(), 8191), 99);
    assert!(rt; choose(&mut short) == Err(corrupt(0)));
    // A byte that is changed in a device with sequence 1 in slot A and 2 in slot B.
    let rows = [
        (0, 0xa5, Ok(Some(slot(2)))),
        (4096, 0xa4, Ok(Some(slot(1)))),
        (7, 0x4d, Err(corrupt(0))),
        (8, 2, Err(corrupt(0))),
        (12, 0, Err(corrupt(0))),
        (12, 2, Err(corrupt(4096))),
        (12, 3, Ok(Some(slot(3)))),
        (19, 0x40, Err(corrupt(0))),
        (4097, 0, Err(corrupt(4096))),
        (4096 + 19, 0x40, Err(corrupt(4096))),
    ];
    for (at, byte, want) in rows {
        let mut content = zeros(&rt, rt.alloc(), 8192);
        puts(&rt, &mut content, 0, slot(1));
        puts(&rt, &mut content, 4096, slot(2));
        assert!(rt; at < content.len());
        content[at] = byte;
        let mut disk = disk_of(&rt, rt.alloc(), content, 99);
        assert!(rt; choose(&mut disk) == want, "at {at}");
    }
}

// What is chosen after the third slot was installed over the first, with one call failing, and a
// crash.
fn chosen_after(rt: &impl Abort, alloc: Global, failing: u64, pick: u64) -> Option<Slot> {
    let mut content = zeros(rt, alloc, 8192);
    puts(rt, &mut content, 0, slot(1));
    puts(rt, &mut content, 4096, slot(2));
    let mut disk = disk_of(rt, alloc, content, failing);
    assert_eq!(rt;
        installs(rt, &mut disk, slot(3)),
        failing == 8,
        "at {failing}"
    );
    let mut left = disk.crash(pick).expect(rt, "there is memory");
    choose(&mut left).expect(rt, "the slots are in form")
}

#[test]
fn a_crash_around_any_failing_call_leaves_the_old_slot_or_the_new(rt: HostRuntime) {
    // Calls 0 and 1 look, 2 and 3 shut the gate, 4 and 5 put the body, 6 and 7 open the gate.
    for failing in 0..9 {
        let mut is_old_left = false;
        let mut is_new_left = false;
        for pick in 0..16 {
            let chosen = chosen_after(&rt, rt.alloc(), failing, pick);
            let is_old = chosen == Some(slot(2));
            let is_new = chosen == Some(slot(3));
            assert!(rt; is_old || is_new, "at {failing}, {pick}");
            is_old_left = is_old_left || is_old;
            is_new_left = is_new_left || is_new;
        }
        assert_eq!(rt; is_old_left, failing < 8, "at {failing}");
        assert_eq!(rt; is_new_left, 6 <= failing, "at {failing}");
    }
}
