// How keys and values of each format are stored and printed.
use super::{ROOM, bytes_of, disk_of, new_device, runs, with_byte};
use std::process::Abort;

const NOT_FOUND: &str = "-31803 not found\n";

// The bytes of the first leaf begin so.
fn leaf_is(rt: &impl Abort, bytes: &[u8], image: &[u8]) {
    assert!(rt; bytes.len() >= 12288);
    assert!(rt; bytes[12288..].starts_with(image));
}

#[test]
fn an_item_of_the_format_s_has_a_zero_byte_more(rt: HostRuntime) {
    let alloc = rt.alloc();
    let plain = b"\x01\x01\x01\0\x39\0\0\0\0\0\0\0\0\0\0\0\x01\0\x01\x01\0\0\0\
        \x02\0\0\0\0\0\0\0\x01\0\0\0\0\0\0\0\0\0\0\0\0\0\0\0\0\0\0\0\0\0\0\0a1\0";
    let value = b"\x01\x01\x01\0\x3a\0\0\0\0\0\0\0\0\0\0\0\x01\0\x01\x02\0\0\0\
        \x02\0\0\0\0\0\0\0\x01\0\0\0\0\0\0\0\0\0\0\0\0\0\0\0\0\0\0\0\0\0\0\0a1\0\0";
    let key = b"\x01\x01\x01\0\x3a\0\0\0\0\0\0\0\0\0\0\0\x02\0\x01\x01\0\0\0\
        \x02\0\0\0\0\0\0\0\x01\0\0\0\0\0\0\0\0\0\0\0\0\0\0\0\0\0\0\0\0\0\0\0a\x001\0";
    let both = b"\x01\x01\x01\0\x3b\0\0\0\0\0\0\0\0\0\0\0\x02\0\x01\x02\0\0\0\
        \x02\0\0\0\0\0\0\0\x01\0\0\0\0\0\0\0\0\0\0\0\0\0\0\0\0\0\0\0\0\0\0\0a\x001\0\0";
    let cases = [
        ("create|-c|key_format=u,value_format=u|t", plain.as_slice()),
        ("create|-c|key_format=u,value_format=S|t", value.as_slice()),
        ("create|-c|key_format=S,value_format=u|t", key.as_slice()),
        ("create|-c|key_format=S,value_format=S|t", both.as_slice()),
    ];
    for (made, image) in cases {
        let rows = [
            (made, 0, "", ""),
            ("write|t|a|1", 0, "", ""),
            ("read|t|a", 0, "", "1\n"),
            ("read|t|a\0", 1, NOT_FOUND, ""),
        ];
        let disk = runs(&rt, alloc, new_device(&rt, alloc), &rows);
        leaf_is(&rt, disk.bytes(), image);
        // A word with a zero byte is printed as it was written.
        let rows = [
            ("write|t|a\0|1\0", 0, "", ""),
            ("read|t|a\0", 0, "", "1\0\n"),
            ("read|t|a", 0, "", "1\n"),
            ("read|t|a\0\0", 1, NOT_FOUND, ""),
        ];
        runs(&rt, alloc, disk, &rows);
    }
}

// No command stores a value of the format S without a zero byte behind it. Here the record of a
// table of plain items is made to say `S` of the values, in the 117th byte, and the slot to have
// the sum of that, 82,919.
#[test]
fn a_value_without_a_zero_byte_is_printed_whole(rt: HostRuntime) {
    let alloc = rt.alloc();
    let rows = [("create|t", 0, "", ""), ("write|t|a|1", 0, "", "")];
    let disk = runs(&rt, alloc, new_device(&rt, alloc), &rows);
    let content = bytes_of(&rt, alloc, &disk);
    let content = with_byte(&rt, content, 16384 + 116, b'u', b'S');
    let content = with_byte(&rt, content, 4096 + 32, 0x71, 0xe7);
    let content = with_byte(&rt, content, 4096 + 33, 0x53, 0x43);
    let disk = disk_of(&rt, alloc, content, ROOM, &[]);
    let rows = [
        ("read|t|a", 0, "", "1\n"),
        ("write|-o|t|a|2", 0, "", ""),
        ("read|t|a", 0, "", "2\n"),
    ];
    runs(&rt, alloc, disk, &rows);
}
