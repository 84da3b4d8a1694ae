// The bytes of a device, whole units of them, after each command that writes.
use super::{created, new_device, runs};
use std::process::Abort;

// Slot A after the first command: sequence 1, a record of 4,096 bytes at 8,192, sum 39,222.
const FIRST_SLOT: &[u8; 36] = b"\xa5WTTURTL\x01\0\0\0\
    \x01\0\0\0\0\0\0\0\
    \x00\x20\0\0\0\0\0\0\x00\x10\0\0\x36\x99\0\0";

// The record that it names: run 1, and a table without rows.
const FIRST_RECORD: &[u8; 160] = b"\x05\x01\x01\0\xa0\0\0\0\0\0\0\0\0\0\0\0\
    \x01\0\0\0\0\0\0\0\x01\0\0\0\0\0\0\0\
    \0\0\0\0\0\0\0\0\0\0\0\0\0\0\0\0\
    \x01\0\0\0\0\0\0\0\x01\0\0\0\0\0\0\0\
    \0\0\x02\0\0\0\
    \0\
    \0\0\0\0\0\0\0\0\0\0\0\0\0\0\0\0\0\0\0\0\0\0\0\0\0\0\0\0\0\0\0\0\0\0\0\0\0\0\0\0\
    \x01\0\0\0SS\0\x01\
    \0\0\0\0\0\0\0\0\0\0\0\0\0\0\0\0\0\0\0\0\0\0\0\0\0\0\0\0\0\0\0\0\0\0\0\0\0\0\0\0\
    t";

// The leaf after the first write: key `a`, value `1`, by transaction 1 of run 2.
const LEAF: &[u8; 59] = b"\x01\x01\x01\0\x3b\0\0\0\0\0\0\0\0\0\0\0\
    \x02\0\x01\x02\0\0\0\
    \x02\0\0\0\0\0\0\0\x01\0\0\0\0\0\0\0\
    \0\0\0\0\0\0\0\0\0\0\0\0\0\0\0\0\
    a\x001\0";

// Slot B: sequence 2, a record of 4,096 bytes at 16,384, sum 57,988.
const SECOND_SLOT: &[u8; 36] = b"\xa5WTTURTL\x01\0\0\0\
    \x02\0\0\0\0\0\0\0\
    \x00\x40\0\0\0\0\0\0\x00\x10\0\0\x84\xe2\0\0";

// The record that it names: run 2, next id 2, and a link to the leaf: 4,096 bytes at 12,288, sum
// 8,748, the greatest name 2, 1.
const SECOND_RECORD: &[u8; 160] = b"\x05\x01\x01\0\xa0\0\0\0\0\0\0\0\0\0\0\0\
    \x02\0\0\0\0\0\0\0\x02\0\0\0\0\0\0\0\
    \0\0\0\0\0\0\0\0\0\0\0\0\0\0\0\0\
    \x02\0\0\0\0\0\0\0\x02\0\0\0\0\0\0\0\
    \0\0\x02\0\0\0\
    \0\
    \0\0\0\0\0\0\0\0\0\0\0\0\0\0\0\0\0\0\0\0\0\0\0\0\0\0\0\0\0\0\0\0\0\0\0\0\0\0\0\0\
    \x01\0\0\0SS\0\x01\
    \x00\x30\0\0\0\0\0\0\x00\x10\0\0\x2c\x22\0\0\
    \x02\0\0\0\0\0\0\0\x01\0\0\0\0\0\0\0\0\0\0\0\0\0\0\0\
    t";

// The leaf of the third checkpoint: value `2`, by transaction 1 of run 3. Its sum is 8,830.
const THIRD_LEAF: &[u8; 59] = b"\x01\x01\x01\0\x3b\0\0\0\0\0\0\0\0\0\0\0\
    \x02\0\x01\x02\0\0\0\
    \x03\0\0\0\0\0\0\0\x01\0\0\0\0\0\0\0\
    \0\0\0\0\0\0\0\0\0\0\0\0\0\0\0\0\
    a\x002\0";

// Slot A of the third checkpoint: sequence 3, a record of 4,096 bytes at 20,480, sum 67,054.
const THIRD_SLOT: &[u8; 36] = b"\xa5WTTURTL\x01\0\0\0\
    \x03\0\0\0\0\0\0\0\
    \x00\x50\0\0\0\0\0\0\x00\x10\0\0\xee\x05\x01\0";

// The leaf of `b`, `2` and `a`, `1`: the first pair is written by transaction 1, the second by 2.
const TWO_ROWS: &[u8; 102] = b"\x01\x01\x02\0\x66\0\0\0\0\0\0\0\0\0\0\0\
    \x02\0\x01\x02\0\0\0\
    \x02\0\0\0\0\0\0\0\x02\0\0\0\0\0\0\0\
    \0\0\0\0\0\0\0\0\0\0\0\0\0\0\0\0\
    a\x001\0\
    \x02\0\x01\x02\0\0\0\
    \x02\0\0\0\0\0\0\0\x01\0\0\0\0\0\0\0\
    \0\0\0\0\0\0\0\0\0\0\0\0\0\0\0\0\
    b\x002\0";

// The record of run 2 after `a`, of texts, and `B`, of plain items, were made: the next table has the
// number 3, and the two stand in the order of their names.
const TWO_TABLES: &[u8; 209] = b"\x05\x01\x02\0\xd1\0\0\0\0\0\0\0\0\0\0\0\
    \x02\0\0\0\0\0\0\0\x02\0\0\0\0\0\0\0\
    \0\0\0\0\0\0\0\0\0\0\0\0\0\0\0\0\
    \x01\0\0\0\0\0\0\0\x01\0\0\0\0\0\0\0\
    \0\0\x03\0\0\0\
    \0\
    \0\0\0\0\0\0\0\0\0\0\0\0\0\0\0\0\0\0\0\0\0\0\0\0\0\0\0\0\0\0\0\0\0\0\0\0\0\0\0\0\
    \x02\0\0\0uu\0\x01\
    \0\0\0\0\0\0\0\0\0\0\0\0\0\0\0\0\0\0\0\0\0\0\0\0\0\0\0\0\0\0\0\0\0\0\0\0\0\0\0\0\
    B\
    \x01\0\0\0SS\0\x01\
    \0\0\0\0\0\0\0\0\0\0\0\0\0\0\0\0\0\0\0\0\0\0\0\0\0\0\0\0\0\0\0\0\0\0\0\0\0\0\0\0\
    a";

// The unit at an offset has these bytes, and zeros behind them.
fn unit_is(rt: &impl Abort, bytes: &[u8], at: usize, used: &[u8]) {
    assert!(rt; bytes.len() >= 4096);
    assert!(rt; at <= bytes.len() - 4096, "at {at}");
    assert!(rt; used.len() <= 4096, "at {at}");
    let unit = &bytes[at..at + 4096];
    assert!(rt; unit.starts_with(used), "at {at}");
    assert!(rt;
        unit[used.len()..].iter().all(|b| *b == 0),
        "behind, at {at}"
    );
}

#[test]
fn each_command_that_writes_leaves_these_bytes(rt: HostRuntime) {
    let alloc = rt.alloc();
    let disk = created(&rt, alloc);
    let bytes = disk.bytes();
    assert_eq!(rt; bytes.len(), 12288);
    unit_is(&rt, bytes, 0, FIRST_SLOT.as_slice());
    unit_is(&rt, bytes, 4096, &[]);
    unit_is(&rt, bytes, 8192, FIRST_RECORD.as_slice());

    // A write leaves the first checkpoint as it was.
    let disk = runs(&rt, alloc, disk, &[("write|t|a|1", 0, "", "")]);
    let bytes = disk.bytes();
    assert_eq!(rt; bytes.len(), 20480);
    unit_is(&rt, bytes, 0, FIRST_SLOT.as_slice());
    unit_is(&rt, bytes, 4096, SECOND_SLOT.as_slice());
    unit_is(&rt, bytes, 8192, FIRST_RECORD.as_slice());
    unit_is(&rt, bytes, 12288, LEAF.as_slice());
    unit_is(&rt, bytes, 16384, SECOND_RECORD.as_slice());

    // The third checkpoint takes the units of the first.
    let disk = runs(&rt, alloc, disk, &[("write|-o|t|a|2", 0, "", "")]);
    let bytes = disk.bytes();
    assert_eq!(rt; bytes.len(), 24576);
    unit_is(&rt, bytes, 0, THIRD_SLOT.as_slice());
    unit_is(&rt, bytes, 4096, SECOND_SLOT.as_slice());
    unit_is(&rt, bytes, 8192, THIRD_LEAF.as_slice());
    unit_is(&rt, bytes, 12288, LEAF.as_slice());
    unit_is(&rt, bytes, 16384, SECOND_RECORD.as_slice());

    // Rows stand in the order of their keys.
    let disk = runs(
        &rt,
        alloc,
        created(&rt, alloc),
        &[("write|t|b|2|a|1", 0, "", "")],
    );
    let bytes = disk.bytes();
    assert_eq!(rt; bytes.len(), 20480);
    unit_is(&rt, bytes, 12288, TWO_ROWS.as_slice());
}

#[test]
fn a_record_has_its_tables_in_the_order_of_their_names(rt: HostRuntime) {
    let alloc = rt.alloc();
    let rows = [
        ("create|-c|key_format=S,value_format=S|a", 0, "", ""),
        ("create|B", 0, "", ""),
    ];
    let disk = runs(&rt, alloc, new_device(&rt, alloc), &rows);
    let bytes = disk.bytes();
    assert_eq!(rt; bytes.len(), 16384);
    unit_is(&rt, bytes, 12288, TWO_TABLES.as_slice());
}
