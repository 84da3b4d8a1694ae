// What is told of devices in memory.
use block_sum::sum;
use disk_model::MemDisk;
use std::alloc::Global;
use std::process::Abort;
use verify_dev::{Report, verify};
use wt_code::Refusal;

// Sequence 3 by run 2, whose ids below 9 had ended but 5; the record's sum stands at 32.
const SLOT: [u8; 36] = [
    0xa5, b'W', b'T', b'T', b'U', b'R', b'T', b'L', 1, 0, 0, 0, 3, 0, 0, 0, 0, 0, 0, 0, 0, 0x20, 0,
    0, 0, 0, 0, 0, 0, 0x10, 0, 0, 0, 0, 0, 0,
];

const RECORD: [u8; 266] = [
    // 0: kind 5, format 1, three tables, used 266, level 0
    0x05, 0x01, 0x03, 0x00, 0x0a, 0x01, 0x00, 0x00, 0x00, 0x00, 0x00, 0x00, 0x00, 0x00, 0x00, 0x00,
    // 16: sequence 3, run 2
    0x03, 0x00, 0x00, 0x00, 0x00, 0x00, 0x00, 0x00, 0x02, 0x00, 0x00, 0x00, 0x00, 0x00, 0x00, 0x00,
    // 32: oldest and stable are unset
    0x00, 0x00, 0x00, 0x00, 0x00, 0x00, 0x00, 0x00, 0x00, 0x00, 0x00, 0x00, 0x00, 0x00, 0x00, 0x00,
    // 48: snapshot min 4, max 9
    0x04, 0x00, 0x00, 0x00, 0x00, 0x00, 0x00, 0x00, 0x09, 0x00, 0x00, 0x00, 0x00, 0x00, 0x00, 0x00,
    // 64: one id: 5
    0x01, 0x00, 0x05, 0x00, 0x00, 0x00, 0x00, 0x00, 0x00, 0x00,
    // 74: the next table's number is 4; the history has level 0
    0x04, 0x00, 0x00, 0x00, 0x00,
    // 79: and stands nowhere
    0x00, 0x00, 0x00, 0x00, 0x00, 0x00, 0x00, 0x00, 0x00, 0x00, 0x00, 0x00, 0x00, 0x00, 0x00, 0x00,
    0x00, 0x00, 0x00, 0x00, 0x00, 0x00, 0x00, 0x00, 0x00, 0x00, 0x00, 0x00, 0x00, 0x00, 0x00, 0x00,
    0x00, 0x00, 0x00, 0x00, 0x00, 0x00, 0x00, 0x00,
    // 119: table 1, level 0, a name of 1 byte
    0x01, 0x00, 0x00, 0x00, 0x53, 0x53, 0x00, 0x01,
    // 127: offset 12,288, size 4,096, the sum of the leaf, run 2, id 1, durable 0
    0x00, 0x30, 0x00, 0x00, 0x00, 0x00, 0x00, 0x00, 0x00, 0x10, 0x00, 0x00, 0x00, 0x00, 0x00, 0x00,
    0x02, 0x00, 0x00, 0x00, 0x00, 0x00, 0x00, 0x00, 0x01, 0x00, 0x00, 0x00, 0x00, 0x00, 0x00, 0x00,
    0x00, 0x00, 0x00, 0x00, 0x00, 0x00, 0x00, 0x00, 0x61,
    // 168: table 2, level 0, a name of 1 byte
    0x02, 0x00, 0x00, 0x00, 0x75, 0x75, 0x00, 0x01,
    // 176: offset 16,384, size 4,096, the sum of the leaf, run 2, id 5, durable 0
    0x00, 0x40, 0x00, 0x00, 0x00, 0x00, 0x00, 0x00, 0x00, 0x10, 0x00, 0x00, 0x00, 0x00, 0x00, 0x00,
    0x02, 0x00, 0x00, 0x00, 0x00, 0x00, 0x00, 0x00, 0x05, 0x00, 0x00, 0x00, 0x00, 0x00, 0x00, 0x00,
    0x00, 0x00, 0x00, 0x00, 0x00, 0x00, 0x00, 0x00, 0x62,
    // 217: table 3, level 1, a name of 1 byte
    0x03, 0x00, 0x00, 0x00, 0x53, 0x53, 0x01, 0x01,
    // 225: offset 20,480, size 4,096, the sum of the inner page, run 2, id 3, durable 0
    0x00, 0x50, 0x00, 0x00, 0x00, 0x00, 0x00, 0x00, 0x00, 0x10, 0x00, 0x00, 0x00, 0x00, 0x00, 0x00,
    0x02, 0x00, 0x00, 0x00, 0x00, 0x00, 0x00, 0x00, 0x03, 0x00, 0x00, 0x00, 0x00, 0x00, 0x00, 0x00,
    0x00, 0x00, 0x00, 0x00, 0x00, 0x00, 0x00, 0x00, 0x63,
];

// Level 1 with two entries: the empty key leads to 24,576, run 2, id 1, and d to 28,672, run 2, id 3.
const INNER: [u8; 101] = [
    2, 1, 2, 0, 101, 0, 0, 0, 1, 0, 0, 0, 0, 0, 0, 0, 0, 0, 0, 0x60, 0, 0, 0, 0, 0, 0, 0, 0x10, 0,
    0, 0, 0, 0, 0, 2, 0, 0, 0, 0, 0, 0, 0, 1, 0, 0, 0, 0, 0, 0, 0, 0, 0, 0, 0, 0, 0, 0, 0, 1, 0, 0,
    0x70, 0, 0, 0, 0, 0, 0, 0, 0x10, 0, 0, 0, 0, 0, 0, 2, 0, 0, 0, 0, 0, 0, 0, 3, 0, 0, 0, 0, 0, 0,
    0, 0, 0, 0, 0, 0, 0, 0, 0, b'd',
];

// One row: key a, value 1, run 2, id 1.
const FIRST: [u8; 59] = [
    1, 1, 1, 0, 59, 0, 0, 0, 0, 0, 0, 0, 0, 0, 0, 0, 2, 0, 1, 2, 0, 0, 0, 2, 0, 0, 0, 0, 0, 0, 0,
    1, 0, 0, 0, 0, 0, 0, 0, 0, 0, 0, 0, 0, 0, 0, 0, 0, 0, 0, 0, 0, 0, 0, 0, b'a', 0, b'1', 0,
];

// Two rows: key b, value 2, run 2, id 5, and key c, value 3, run 2, id 1.
const SECOND: [u8; 102] = [
    1, 1, 2, 0, 102, 0, 0, 0, 0, 0, 0, 0, 0, 0, 0, 0, 2, 0, 1, 2, 0, 0, 0, 2, 0, 0, 0, 0, 0, 0, 0,
    5, 0, 0, 0, 0, 0, 0, 0, 0, 0, 0, 0, 0, 0, 0, 0, 0, 0, 0, 0, 0, 0, 0, 0, b'b', 0, b'2', 0, 2, 0,
    1, 2, 0, 0, 0, 2, 0, 0, 0, 0, 0, 0, 0, 1, 0, 0, 0, 0, 0, 0, 0, 0, 0, 0, 0, 0, 0, 0, 0, 0, 0, 0,
    0, 0, 0, 0, 0, b'c', 0, b'3', 0,
];

// One record: table 1, key a, value 0, run 2, id 1.
const HISTORY: [u8; 63] = [
    3, 1, 1, 0, 63, 0, 0, 0, 0, 0, 0, 0, 0, 0, 0, 0, 1, 0, 0, 0, 2, 0, 1, 2, 0, 0, 0, 2, 0, 0, 0,
    0, 0, 0, 0, 1, 0, 0, 0, 0, 0, 0, 0, 0, 0, 0, 0, 0, 0, 0, 0, 0, 0, 0, 0, 0, 0, 0, 0, b'a', 0,
    b'0', 0,
];

#[derive(Clone, Copy, Debug, PartialEq, Eq)]
enum Told {
    // tables, leaves, versions
    Counts(u32, u64, u64),
    // the offset, and the sum that is wanted and that is found
    Corrupt(u64, u32, u32),
    Refused(Refusal),
}

// What is changed before the sums are made, and behind that, and what is told. A sum is each byte
// times its place, from 1 on.
const CASES: [(&[(usize, u8)], &[(usize, u8)], Told); 24] = [
    // one leaf, one leaf of two rows, and two leaves below an inner page
    (&[], &[], Told::Counts(3, 4, 5)),
    // the first table is empty, and its leaf stands nowhere
    (
        &[(8_320, 0), (8_328, 0), (8_335, 0), (8_343, 0)],
        &[],
        Told::Counts(3, 3, 4),
    ),
    // no checkpoint: both gates are shut
    (&[(0, 0)], &[], Told::Counts(0, 0, 0)),
    // the last run
    (
        &[
            (12, 255),
            (13, 255),
            (14, 255),
            (15, 255),
            (16, 255),
            (17, 255),
            (18, 255),
            (19, 63),
            (8_208, 255),
            (8_209, 255),
            (8_210, 255),
            (8_211, 255),
            (8_212, 255),
            (8_213, 255),
            (8_214, 255),
            (8_215, 63),
            (8_216, 255),
            (8_217, 255),
            (8_218, 255),
            (8_219, 255),
            (8_220, 255),
            (8_221, 255),
            (8_222, 255),
            (8_223, 63),
        ],
        &[],
        Told::Counts(3, 4, 5),
    ),
    // the slot is out of form
    (&[(1, 0)], &[], Told::Corrupt(0, 0, 0)),
    // byte 9 of the record is 1 in place of 0
    (&[], &[(8_200, 1)], Told::Corrupt(8_192, 322_154, 322_163)),
    // no record: table 2 has the number 0, which takes 2 times 169 from the sum
    (&[(8_360, 0)], &[], Told::Corrupt(8_192, 321_816, 321_816)),
    // a record of sequence 4, which adds 17
    (&[(8_208, 4)], &[], Told::Corrupt(8_192, 322_171, 322_171)),
    // the history has level 1, and its root stands nowhere
    (&[(8_270, 1)], &[], Told::Corrupt(0, 0, 0)),
    // table 2 has a tree of level 1, whose root is a leaf
    (&[(8_366, 1)], &[], Told::Corrupt(16_384, 24_677, 24_677)),
    // byte 11 of the inner page is 1 in place of 0, and the leaf on its right has another sum too
    (
        &[],
        &[(20_490, 1), (28_672, 2)],
        Told::Corrupt(20_480, 35_699, 35_710),
    ),
    // no block stands at 16,385
    (&[(8_368, 1)], &[], Told::Corrupt(16_385, 24_677, 24_677)),
    // the device ends where the second leaf should begin
    (&[(8_369, 0x80)], &[], Told::Corrupt(32_768, 24_677, 24_677)),
    // both links lead to the first leaf
    (
        &[(8_369, 0x30), (8_392, 1)],
        &[],
        Told::Corrupt(12_288, 8_748, 8_748),
    ),
    // the same, which is told before the sum that this leaf has
    (
        &[(8_369, 0x30), (8_392, 1)],
        &[(12_288, 2)],
        Told::Corrupt(12_288, 8_748, 8_748),
    ),
    // byte 1 of the first leaf is 2 in place of 1
    (&[], &[(12_288, 2)], Told::Corrupt(12_288, 8_748, 8_749)),
    // the first leaf stands nowhere, but has a sum, a size and a greatest name
    (&[(8_320, 0)], &[], Told::Corrupt(0, 8_748, 8_748)),
    // no leaf: of kind 2
    (&[(16_384, 2)], &[], Told::Corrupt(16_384, 24_678, 24_678)),
    // a leaf of three rows, of which two are there
    (&[(16_386, 3)], &[], Told::Corrupt(16_384, 24_680, 24_680)),
    // the link to the second leaf says the id 4
    (&[(8_392, 4)], &[], Told::Corrupt(16_384, 24_677, 24_677)),
    // and the durable stamp 1
    (&[(8_400, 1)], &[], Told::Corrupt(16_384, 24_677, 24_677)),
    // the leaf on the right has another sum
    (&[], &[(28_672, 2)], Told::Corrupt(28_672, 9_036, 9_037)),
    // the leaf on the left goes on to the right one's keys, and that one begins below them
    (&[(24_631, b'd')], &[], Told::Corrupt(24_576, 8_916, 8_916)),
    (&[(28_727, b'c')], &[], Told::Corrupt(28_672, 8_924, 8_924)),
];

// The same of a device with a history, whose one leaf stands behind the others.
const HISTORIES: [(&[(usize, u8)], &[(usize, u8)], Told); 6] = [
    (&[], &[], Told::Counts(3, 4, 6)),
    // byte 1 of the leaf is 2 in place of 1
    (&[], &[(32_769, 2)], Told::Corrupt(32_768, 9_341, 9_343)),
    // no leaf of the history: of kind 1
    (&[(32_768, 1)], &[], Told::Corrupt(32_768, 9_339, 9_339)),
    // the link says the id 2, and the durable stamp 1
    (&[(8_295, 2)], &[], Told::Corrupt(32_768, 9_341, 9_341)),
    (&[(8_303, 1)], &[], Told::Corrupt(32_768, 9_341, 9_341)),
    // a leaf of a table is at fault too, which is told behind the history
    (
        &[(32_768, 1)],
        &[(12_288, 2)],
        Told::Corrupt(32_768, 9_339, 9_339),
    ),
];

fn put(rt: &impl Abort, content: &mut [u8], at: usize, bytes: &[u8]) {
    for (i, byte) in bytes.iter().enumerate() {
        let place = content.get_mut(at.saturating_add(i));
        *place.expect(rt, "a place") = *byte;
    }
}

fn change(rt: &impl Abort, content: &mut [u8], changes: &[(usize, u8)]) {
    for (at, byte) in changes {
        *content.get_mut(*at).expect(rt, "a place") = *byte;
    }
}

// Puts the sum of the block at an offset where it belongs.
fn put_sum(rt: &impl Abort, content: &mut [u8], block: usize, at: usize) {
    let bytes = content.get(block..block.saturating_add(4_096));
    let sum = sum(bytes.expect(rt, "a block"));
    put(rt, content, at, &sum.to_le_bytes());
}

fn device(
    rt: &impl Abort,
    alloc: Global,
    before: &[(usize, u8)],
    behind: &[(usize, u8)],
) -> MemDisk {
    let mut content = tables(rt, alloc);
    change(rt, &mut content, before);
    disk_of(rt, alloc, content, behind)
}

fn device_with_history(
    rt: &impl Abort,
    alloc: Global,
    before: &[(usize, u8)],
    behind: &[(usize, u8)],
) -> MemDisk {
    let mut content = tables(rt, alloc);
    content.resize(36_864, 0).expect(rt, "there is memory");
    put(rt, &mut content, 32_768, &HISTORY);
    let link = [(8_272, 0x80), (8_280, 0x10), (8_287, 2), (8_295, 1)];
    change(rt, &mut content, &link);
    change(rt, &mut content, before);
    put_sum(rt, &mut content, 32_768, 8_283);
    disk_of(rt, alloc, content, behind)
}

fn tables(rt: &impl Abort, alloc: Global) -> Vec<u8> {
    let mut content = Vec::new(alloc);
    content.resize(32_768, 0).expect(rt, "there is memory");
    put(rt, &mut content, 0, &SLOT);
    put(rt, &mut content, 8_192, &RECORD);
    put(rt, &mut content, 12_288, &FIRST);
    put(rt, &mut content, 16_384, &SECOND);
    put(rt, &mut content, 20_480, &INNER);
    put(rt, &mut content, 24_576, &FIRST);
    put(rt, &mut content, 28_672, &FIRST);
    change(
        rt,
        &mut content,
        &[(24_631, b'c'), (28_703, 3), (28_727, b'e')],
    );
    content
}

// Makes the sums.
fn disk_of(rt: &impl Abort, alloc: Global, content: Vec<u8>, behind: &[(usize, u8)]) -> MemDisk {
    let mut content = content;
    if content.get(8_328) != Some(&0) {
        put_sum(rt, &mut content, 12_288, 8_331);
    }
    let second = second_leaf(&content);
    put_sum(rt, &mut content, second, 8_380);
    put_sum(rt, &mut content, 24_576, 20_510);
    put_sum(rt, &mut content, 28_672, 20_552);
    put_sum(rt, &mut content, 20_480, 8_429);
    put_sum(rt, &mut content, 8_192, 32);
    change(rt, &mut content, behind);
    let made = MemDisk::new(alloc, content, 1 << 20, Vec::new(alloc));
    made.expect(rt, "there is memory")
}

// The leaf whose sum the second link says.
fn second_leaf(content: &[u8]) -> usize {
    match content.get(8_369) {
        Some(0x30) => 12_288,
        _ => 16_384,
    }
}

fn answer_of(alloc: Global, disk: &mut MemDisk) -> Told {
    match verify(alloc, disk) {
        Ok(
            Report {
                tables,
                leaves,
                versions,
            },
        ) => Told::Counts(tables, leaves, versions),
        Err(
            Refusal::Corrupt {
                offset,
                want,
                found,
            },
        ) => Told::Corrupt(offset, want, found),
        Err(refusal) => Told::Refused(refusal),
    }
}

#[test]
fn each_device_is_told_with_its_counts_or_its_damage(rt: HostRuntime) {
    for (before, behind, want) in CASES {
        let mut disk = device(&rt, rt.alloc(), before, behind);
        assert_eq!(rt; answer_of(rt.alloc(), &mut disk), want);
    }
    for (before, behind, want) in HISTORIES {
        let mut disk = device_with_history(&rt, rt.alloc(), before, behind);
        assert_eq!(rt; answer_of(rt.alloc(), &mut disk), want);
    }
    // the length and two slots, then the length and a block for each of six, and the length once more
    for calls in 0..16 {
        let mut disk = device(&rt, rt.alloc(), &[], &[]);
        disk.stop_after(calls);
        let want = Told::Refused(Refusal::DiskFault);
        assert_eq!(rt; answer_of(rt.alloc(), &mut disk), want, "{calls}");
    }
}
