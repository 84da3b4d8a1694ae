// One changed byte of a slot: the older checkpoint's answer, or a refusal, or nothing at all.
//
// The last checkpoint is named by slot B, sequence 2, its record at 16,384 with the sum 57,988; the
// one before by slot A, sequence 1. Both slots are looked at, and of slot A no more than its form
// and its sequence.
use super::{ROOM, State, bytes_of, disk_of, run, runs, state_of, written};
use disk_model::MemDisk;
use std::alloc::Global;
use std::ops::Range;
use std::process::Abort;

const SLOT_A: &str = "-31802 corrupt at 0 want 0 found 0\n";

const SLOT_B: &str = "-31802 corrupt at 4096 want 0 found 0\n";

const NOT_FOUND: &str = "-31803 not found\n";

const RECORD: &str = "-31802 corrupt at 16384 want 57988 found 57988\n";

const RECORD_BEFORE: &str = "-31802 corrupt at 8192 want 39222 found 39222\n";

// The bytes of the device, with these bits turned in one of them.
fn changed(rt: &impl Abort, alloc: Global, device: &MemDisk, at: usize, flips: u8) -> Vec<u8> {
    let mut content = bytes_of(rt, alloc, device);
    assert!(rt; at < content.len());
    content[at] ^= flips;
    content
}

// With these bits turned in this byte of the device, `read t a` tells this and prints nothing.
fn tells_at(rt: &impl Abort, alloc: Global, device: &MemDisk, at: usize, flips: u8, told: &str) {
    let content = changed(rt, alloc, device, at, flips);
    let disk = disk_of(rt, alloc, content, ROOM, &[]);
    let ran = run(rt, alloc, disk, &["read", "t", "a"]);
    assert_eq!(rt; ran.status, 1, "at {at}, {flips}");
    assert!(rt; ran.printed.bytes().is_empty(), "at {at}, {flips}");
    assert!(rt; ran.told.bytes() == told.as_bytes(), "at {at}, {flips}");
}

// The same of each of these bytes of the written device.
fn tells(rt: &impl Abort, alloc: Global, bytes: Range<usize>, flips: u8, told: &str) {
    let device = written(rt, alloc);
    for at in bytes {
        tells_at(rt, alloc, &device, at, flips, told);
    }
}

#[test]
fn any_other_gate_is_shut(rt: HostRuntime) {
    let alloc = rt.alloc();
    let device = written(&rt, alloc);
    for flips in 1..=255 {
        // Without slot B the checkpoint before is the last one; without slot A nothing changes.
        let content = changed(&rt, alloc, &device, 4096, flips);
        assert_eq!(rt; state_of(&rt, alloc, content), State::NoRow, "B, {flips}");
        let content = changed(&rt, alloc, &device, 0, flips);
        assert_eq!(rt; state_of(&rt, alloc, content), State::One, "A, {flips}");
    }
}

#[test]
fn a_device_without_an_open_gate_has_no_table(rt: HostRuntime) {
    let alloc = rt.alloc();
    let device = written(&rt, alloc);
    let mut content = changed(&rt, alloc, &device, 4096, 0xa5);
    assert!(rt; content.len() >= 4096);
    content[0] = 0;
    let disk = disk_of(&rt, alloc, content, ROOM, &[]);
    let rows = [
        ("read|t|a", 1, "2 no table\n", ""),
        ("create|u", 0, "", ""),
        ("read|u|a", 1, NOT_FOUND, ""),
    ];
    runs(&rt, alloc, disk, &rows);
}

// Of each of these bytes, with each of these bits turned: letters and version; a sequence that none
// has, 2^62 and more, 0, the other slot's; a sequence that the record does not have, up to 2^62 - 1;
// a size; the place of the leaf, and of the record before.
#[test]
fn a_slot_out_of_form_or_at_odds_is_refused(rt: HostRuntime) {
    let alloc = rt.alloc();
    let leaf = "-31802 corrupt at 12288 want 57988 found 8748\n";
    let before = "-31802 corrupt at 8192 want 57988 found 39222\n";
    let cases = [
        (1, 12, [0x01, 0x20, 0x80, 0xff].as_slice(), SLOT_A),
        (4097, 4108, [0x01, 0x20, 0x80, 0xff].as_slice(), SLOT_B),
        (19, 20, [0x40, 0x80].as_slice(), SLOT_A),
        (4115, 4116, [0x40, 0x80].as_slice(), SLOT_B),
        (12, 13, [0x01].as_slice(), SLOT_A),
        (4108, 4109, [0x02, 0x03].as_slice(), SLOT_B),
        (12, 13, [0x03].as_slice(), SLOT_B),
        (12, 19, [0x04, 0x20, 0x80].as_slice(), RECORD_BEFORE),
        (4108, 4115, [0x04, 0x20, 0x80].as_slice(), RECORD),
        (19, 20, [0x20].as_slice(), RECORD_BEFORE),
        (4115, 4116, [0x20].as_slice(), RECORD),
        (
            4124,
            4128,
            [0x01, 0x10, 0x30, 0x80, 0xff].as_slice(),
            RECORD,
        ),
        (4117, 4118, [0x70].as_slice(), leaf),
        (4117, 4118, [0x60].as_slice(), before),
    ];
    for (from, to, ways, told) in cases {
        for flips in ways {
            tells(&rt, alloc, from..to, *flips, told);
        }
    }
}

#[test]
fn the_slot_that_is_not_chosen_may_name_anything(rt: HostRuntime) {
    let alloc = rt.alloc();
    let device = written(&rt, alloc);
    for at in 20..36 {
        for flips in [0x01, 0x10, 0x80, 0xff] {
            let content = changed(&rt, alloc, &device, at, flips);
            assert_eq!(rt;
                state_of(&rt, alloc, content),
                State::One,
                "at {at}, {flips}"
            );
        }
    }
}

#[test]
fn a_slot_that_names_another_place_is_corrupt_there(rt: HostRuntime) {
    let alloc = rt.alloc();
    let device = written(&rt, alloc);
    // The offset is 16,384: no place of a block, or one behind the device's end.
    let places = [
        (4116, 0x01, "16385"),
        (4116, 0x80, "16512"),
        (4117, 0x01, "16640"),
        (4117, 0x40, "0"),
        (4117, 0x80, "49152"),
        (4118, 0x01, "81920"),
        (4118, 0x80, "8404992"),
        (4119, 0x01, "16793600"),
        (4119, 0x80, "2147500032"),
        (4120, 0x01, "4294983680"),
        (4120, 0x80, "549755830272"),
        (4121, 0x01, "1099511644160"),
        (4121, 0x80, "140737488371712"),
        (4122, 0x01, "281474976727040"),
        (4122, 0x80, "36028797018980352"),
        (4123, 0x01, "72057594037944320"),
        (4123, 0x80, "9223372036854792192"),
    ];
    for (at, flips, place) in places {
        let told = format!(in alloc; "-31802 corrupt at {place} want 57988 found 57988\n");
        let told = told.expect(&rt, "there is memory");
        tells_at(&rt, alloc, &device, at, flips, told.as_str());
    }
}

#[test]
fn a_slot_that_names_another_sum_is_corrupt(rt: HostRuntime) {
    let alloc = rt.alloc();
    let device = written(&rt, alloc);
    let sums = [
        (4128, 0x01, "57989"),
        (4128, 0x80, "57860"),
        (4129, 0x01, "58244"),
        (4129, 0x80, "25220"),
        (4130, 0x01, "123524"),
        (4130, 0x80, "8446596"),
        (4131, 0x01, "16835204"),
        (4131, 0x80, "2147541636"),
    ];
    for (at, flips, sum) in sums {
        let told = format!(in alloc; "-31802 corrupt at 16384 want {sum} found 57988\n");
        let told = told.expect(&rt, "there is memory");
        tells_at(&rt, alloc, &device, at, flips, told.as_str());
    }
}
