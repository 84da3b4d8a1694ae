// Devices with a history, and those that a store refuses as it opens them, with what `verify` tells of
// them, which opens none.
use super::{ROOM, Row, bytes_of, disk_of, runs, with_byte, written};
use std::alloc::Global;
use std::process::Abort;

// Each command on an engine tells this, and `verify` that; both leave the device as it is.
fn each_is_refused(
    rt: &impl Abort,
    alloc: Global,
    content: Vec<u8>,
    told: &str,
    verified: (u8, &str),
) {
    let disk = disk_of(rt, alloc, content, ROOM, &[]);
    let before = bytes_of(rt, alloc, &disk);
    let rows = [
        ("read|t|a", 1, told, ""),
        ("write|t|b|2", 1, told, ""),
        ("create|u", 1, told, ""),
        ("list", 1, told, ""),
        ("verify", verified.0, verified.1, ""),
        ("script", 1, told, ""),
    ];
    let disk = runs(rt, alloc, disk, &rows);
    assert!(rt; disk.bytes() == before.as_slice());
}

// A leaf of the history: of table 1 the key a with value 0, by run 1 and id 1. Its sum is 9,210.
const HISTORY: [u8; 61] = [
    3, 1, 1, 0, 61, 0, 0, 0, 0, 0, 0, 0, 0, 0, 0, 0, 1, 0, 0, 0, 1, 0, 1, 1, 0, 0, 0, 1, 0, 0, 0,
    0, 0, 0, 0, 1, 0, 0, 0, 0, 0, 0, 0, 0, 0, 0, 0, 0, 0, 0, 0, 0, 0, 0, 0, 0, 0, 0, 0, b'a', b'0',
];

// What the record says of it from its 72nd byte on: 20,480, 4,096 bytes, its sum, run 1 and id 1. The
// slot has the sum of that, 89,283.
const LED_THERE: [(usize, u8, u8); 9] = [
    (16384 + 72, 0, 0x50),
    (16384 + 80, 0, 0x10),
    (16384 + 83, 0, 0xfa),
    (16384 + 84, 0, 0x23),
    (16384 + 87, 0, 1),
    (16384 + 95, 0, 1),
    (4096 + 32, 0x84, 0xc3),
    (4096 + 33, 0xe2, 0x5c),
    (4096 + 34, 0, 1),
];

fn with_history(rt: &impl Abort, content: Vec<u8>) -> Vec<u8> {
    let mut content = content;
    content
        .extend_from_slice(&HISTORY)
        .expect(rt, "there is memory");
    content.resize(24576, 0).expect(rt, "there is memory");
    for (at, old, new) in LED_THERE {
        content = with_byte(rt, content, at, old, new);
    }
    content
}

const OPENED: &[Row<'static>] = &[
    ("verify", 0, "", ""),
    ("list", 0, "", "table:t\n"),
    ("read|t|a", 0, "", "1\n"),
    ("write|t|a|2", 1, "-31801 duplicate key\n", ""),
    ("write|-o|t|a|2|b|3", 0, "", ""),
    ("verify|t", 0, "", ""),
    ("read|t|a|b", 0, "", "2\n3\n"),
];

#[test]
fn a_device_with_a_history_is_opened(rt: HostRuntime) {
    let alloc = rt.alloc();
    let content = bytes_of(&rt, alloc, &written(&rt, alloc));
    let content = with_history(&rt, content);
    let disk = disk_of(&rt, alloc, content, ROOM, &[]);
    let _ = runs(&rt, alloc, disk, OPENED);
}

// The second byte of its leaf is 2 in place of 1.
#[test]
fn damage_of_a_history_is_told(rt: HostRuntime) {
    let alloc = rt.alloc();
    let content = bytes_of(&rt, alloc, &written(&rt, alloc));
    let content = with_history(&rt, content);
    let content = with_byte(&rt, content, 20481, 1, 2);
    let damage = "-31802 corrupt at 20480 want 9210 found 9212\n";
    each_is_refused(&rt, alloc, content, damage, (1, damage));
}

// The number of the next table is 2^32 - 766, which leaves none for 1,024 tables. It stands from the
// record's 67th byte on, and the slot has the sum of that, 110,637.
#[test]
fn a_device_that_lacks_numbers_for_tables_is_refused(rt: HostRuntime) {
    let alloc = rt.alloc();
    let content = bytes_of(&rt, alloc, &written(&rt, alloc));
    let content = with_byte(&rt, content, 16384 + 67, 0, 0xfd);
    let content = with_byte(&rt, content, 16384 + 68, 0, 0xff);
    let content = with_byte(&rt, content, 16384 + 69, 0, 0xff);
    let content = with_byte(&rt, content, 4096 + 32, 0x84, 0x2d);
    let content = with_byte(&rt, content, 4096 + 33, 0xe2, 0xb0);
    let content = with_byte(&rt, content, 4096 + 34, 0, 1);
    each_is_refused(&rt, alloc, content, "75 limit tables\n", (0, ""));
}
