// One changed byte of a block is told where the block is needed, and no value of it is printed.
use super::scripts::Case;
use super::{
    FORMATS, ROOM, State, bytes_of, disk_of, expect, new_device, run, runs, scripts, state_of,
    written,
};
use disk_model::MemDisk;
use std::alloc::Global;
use std::iter::StepBy;
use std::ops::Range;
use std::process::Abort;

// A block of the written device that its last checkpoint has: its offset and its sum.
#[derive(Drop)]
struct Block {
    offset: usize,
    sum: u32,
}

const RECORD: Block = Block {
    offset: 16384,
    sum: 57988,
};

const LEAF: Block = Block {
    offset: 12288,
    sum: 8748,
};

// Each byte counts in the sum of its block as often as its place says, the first at place 1.
fn sum_after(sum: u32, place: usize, old: u8, new: u8) -> u32 {
    let times = (place % 4096) as u32 + 1;
    let added = times.wrapping_mul(new as u32);
    let taken = times.wrapping_mul(old as u32);
    sum.wrapping_add(added).wrapping_sub(taken)
}

// These bits are turned in the byte at this place of the block, and `read t a` tells the sums, and
// no value.
fn change_is_told(
    rt: &impl Abort,
    alloc: Global,
    device: &MemDisk,
    block: &Block,
    place: usize,
    flips: u8,
) {
    let mut content = bytes_of(rt, alloc, device);
    assert!(rt; block.offset < 20480 && place < 4096);
    let at = block.offset + place;
    assert!(rt; at < content.len());
    let old = content[at];
    let new = old ^ flips;
    content[at] = new;
    let disk = disk_of(rt, alloc, content, ROOM, &[]);
    let ran = run(rt, alloc, disk, &["read", "t", "a"]);
    let (offset, want) = (block.offset, block.sum);
    let found = sum_after(want, place, old, new);
    let told = format!(in alloc; "-31802 corrupt at {offset} want {want} found {found}\n");
    let told = told.expect(rt, "there is memory");
    assert_eq!(rt; ran.status, 1, "at {at}, {flips}");
    assert!(rt; ran.printed.bytes().is_empty(), "at {at}, {flips}");
    assert!(rt; ran.told.bytes() == told.as_bytes(), "at {at}, {flips}");
}

fn changes_are_told(
    rt: &impl Abort,
    alloc: Global,
    block: &Block,
    places: StepBy<Range<usize>>,
    ways: &[u8],
) {
    let device = written(rt, alloc);
    for place in places {
        for flips in ways {
            change_is_told(rt, alloc, &device, block, place, *flips);
        }
    }
}

// Each byte of the image, and one in 64 of those behind it. That each other one is told too is
// proved of the sum.
#[test]
fn a_changed_byte_of_a_block_is_told(rt: HostRuntime) {
    let alloc = rt.alloc();
    let ways = [0x01, 0x80, 0xff].as_slice();
    changes_are_told(&rt, alloc, &RECORD, (0..160).step_by(1), ways);
    changes_are_told(&rt, alloc, &RECORD, (160..4096).step_by(64), ways);
    changes_are_told(&rt, alloc, &LEAF, (0..59).step_by(1), ways);
    changes_are_told(&rt, alloc, &LEAF, (59..4096).step_by(64), ways);
}

// Every command that needs the leaf tells it, and leaves the device as it is. A script goes on. One that
// takes a checkpoint without a need of the leaf keeps its block, unread.
#[test]
fn damage_is_told_where_it_is_needed(rt: HostRuntime) {
    let alloc = rt.alloc();
    let device = written(&rt, alloc);
    let mut content = bytes_of(&rt, alloc, &device);
    assert_eq!(rt; content.len(), 20480);
    assert_eq!(rt; content[12345], 0x31);
    content[12345] = 0x32;
    let told = "-31802 corrupt at 12288 want 8748 found 8806\n";
    let disk = disk_of(&rt, alloc, content, ROOM, &[]);
    let before = bytes_of(&rt, alloc, &disk);
    let rows = [
        ("read|t|a", 1, told, ""),
        ("read|u|a", 1, "2 no table\n", ""),
        ("dump|t", 1, told, ""),
        ("write|t|b|2", 1, told, ""),
        ("list", 0, "", "table:t\n"),
        ("verify", 1, told, ""),
        ("verify|u", 1, told, ""),
    ];
    let disk = runs(&rt, alloc, disk, &rows);
    let case = Case {
        text: "s1 begin\ns1 get t a\ns1 get u a\n",
        reads: &[],
        writes: &[],
        status: 0,
        told: "",
        printed: "ok\n-31802 corrupt at 12288 want 8748 found 8806\n2 no table\n",
    };
    let ran = scripts::run(&rt, alloc, disk, case);
    let disk = expect(&rt, ran, case.text, case.status, case.told, case.printed);
    assert!(rt; disk.bytes() == before.as_slice());
    let rows = [
        ("create|-c|key_format=S,value_format=S|t", 0, "", ""),
        ("create|u", 0, "", ""),
        ("list", 0, "", "table:t\ntable:u\n"),
        ("read|t|a", 1, told, ""),
        ("verify", 1, told, ""),
    ];
    let _ = runs(&rt, alloc, disk, &rows);
}

// So many bytes of a letter.
fn letters(rt: &impl Abort, alloc: Global, letter: &str, count: usize) -> String {
    let mut text = String::new(alloc);
    for _ in 0..count {
        text.push_str(letter).expect(rt, "there is memory");
    }
    text
}

// The sum of the block of so many bytes at an offset.
fn sum_at(rt: &impl Abort, content: &[u8], offset: usize, size: u32) -> u32 {
    let mut sum: u32 = 0;
    for place in 0..size {
        let byte = content.get(offset.saturating_add(place as usize));
        let byte = *byte.expect(rt, "a byte of the block");
        sum = sum.wrapping_add(place.wrapping_add(1).wrapping_mul(byte as u32));
    }
    sum
}

// The unit in which this letter stands first in a row of 100.
fn unit_of(rt: &impl Abort, content: &[u8], letter: u8) -> usize {
    let mut row: usize = 0;
    for (at, byte) in content.iter().enumerate() {
        row = if *byte == letter {
            row.saturating_add(1)
        } else {
            0
        };
        if row == 100 {
            return at / 4096 * 4096;
        }
    }
    assert!(rt; false);
    0
}

// A table t of two leaves, the rows a and b on the left and c on the right, which has another byte,
// and a table u. What does not need the right leaf goes on as if all were there.
#[test]
fn a_leaf_at_fault_is_met_where_it_is_needed(rt: HostRuntime) {
    let alloc = rt.alloc();
    let (x, y, z) = (
        letters(&rt, alloc, "x", 16_000),
        letters(&rt, alloc, "y", 16_000),
        letters(&rt, alloc, "z", 16_000),
    );
    let puts = format!(in alloc; "write|t|a|{x}|b|{y}|c|{z}").expect(&rt, "there is memory");
    let create_t = format!(in alloc; "create|-c|{FORMATS}|t").expect(&rt, "there is memory");
    let create_u = format!(in alloc; "create|-c|{FORMATS}|u").expect(&rt, "there is memory");
    let device = runs(
        &rt,
        alloc,
        new_device(&rt, alloc),
        &[
            (create_t.as_str(), 0, "", ""),
            (create_u.as_str(), 0, "", ""),
            ("write|u|k|7", 0, "", ""),
            (puts.as_str(), 0, "", ""),
        ],
    );
    let mut content = bytes_of(&rt, alloc, &device);
    let offset = unit_of(&rt, &content, b'z');
    let want = sum_at(&rt, &content, offset, 16_384);
    let at = offset.saturating_add(100);
    assert!(rt; at < content.len());
    assert_eq!(rt; content[at], b'z');
    content[at] = b'Z';
    let found = sum_after(want, 100, b'z', b'Z');
    let told = format!(in alloc; "-31802 corrupt at {offset} want {want} found {found}\n");
    let told = told.expect(&rt, "there is memory");
    let absent_told = format!(in alloc; "-31803 not found\n{told}").expect(&rt, "there is memory");
    let value = format!(in alloc; "{x}\n").expect(&rt, "there is memory");
    let other =
        "WiredTiger Dump (row store 1)\nFormat=print\nHeader\ntable:u\nkey_format=S,value_format=S\nData\nk\\00\n7\\00\n";
    let rows = [
        ("read|t|a", 0, "", value.as_str()),
        ("read|t|c", 1, told.as_str(), ""),
        // above c, and below a
        ("read|t|d", 1, told.as_str(), ""),
        ("read|t|A", 1, "-31803 not found\n", ""),
        // up to the key whose leaf it is
        ("read|t|a|A|c|b", 1, absent_told.as_str(), value.as_str()),
        ("read|u|k", 0, "", "7\n"),
        // the rows before it waited for a piece to be full
        ("dump|t", 1, told.as_str(), ""),
        ("dump|-r|t", 1, told.as_str(), ""),
        ("dump|u", 0, "", other),
        ("list", 0, "", "table:t\ntable:u\n"),
        ("verify", 1, told.as_str(), ""),
        ("write|t|c|9", 1, told.as_str(), ""),
    ];
    let disk = disk_of(&rt, alloc, content, ROOM, &[]);
    let before = bytes_of(&rt, alloc, &disk);
    let disk = runs(&rt, alloc, disk, &rows);
    assert!(rt; disk.bytes() == before.as_slice());
    let rows = [
        ("write|u|l|8", 0, "", ""),
        ("write|-o|t|b|5", 0, "", ""),
        ("read|u|k|l", 0, "", "7\n8\n"),
        ("read|t|b", 0, "", "5\n"),
        ("read|t|c", 1, told.as_str(), ""),
    ];
    let _ = runs(&rt, alloc, disk, &rows);
}

#[test]
fn a_changed_byte_of_a_free_unit_or_behind_a_slot_is_not_read(rt: HostRuntime) {
    let alloc = rt.alloc();
    let device = written(&rt, alloc);
    for (from, to) in [
        (36, 100),
        (4000, 4096),
        (4132, 4196),
        (8100, 8360),
        (12200, 12288),
    ] {
        for at in from..to {
            let mut content = bytes_of(&rt, alloc, &device);
            assert!(rt; at < content.len());
            content[at] ^= 0xff;
            assert_eq!(rt; state_of(&rt, alloc, content), State::One, "at {at}");
        }
    }
}

#[test]
fn a_device_that_ends_early_is_told(rt: HostRuntime) {
    let alloc = rt.alloc();
    let device = written(&rt, alloc);
    let slots = "-31802 corrupt at 0 want 0 found 0\n";
    let record = "-31802 corrupt at 16384 want 57988 found 57988\n";
    let cases = [
        (0, slots),
        (8191, slots),
        (8192, record),
        (16384, record),
        (20479, record),
    ];
    for (len, told) in cases {
        let mut content = bytes_of(&rt, alloc, &device);
        content.truncate(len);
        let disk = disk_of(&rt, alloc, content, ROOM, &[]);
        let ran = run(&rt, alloc, disk, &["read", "t", "a"]);
        assert_eq!(rt; ran.status, 1, "at {len}");
        assert!(rt; ran.printed.bytes().is_empty(), "at {len}");
        assert!(rt; ran.told.bytes() == told.as_bytes(), "at {len}");
    }
}
