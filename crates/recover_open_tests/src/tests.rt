// What a recovery answers on devices in memory.
use block_sum::sum;
use disk_model::MemDisk;
use item::Item;
use leaf_rows::Rows;
use recover_open::{Kept, Recovered, recover};
use std::alloc::Global;
use std::process::Abort;
use wt_code::{Limit, Refusal};

// Sequence 3 by run 2, whose ids below 9 had ended but 5; the record's sum stands at 32.
const SLOT: [u8; 36] = [
    0xa5, b'W', b'T', b'T', b'U', b'R', b'T', b'L', 1, 0, 0, 0, 3, 0, 0, 0, 0, 0, 0, 0, 0, 0x20, 0,
    0, 0, 0, 0, 0, 0, 0x10, 0, 0, 0, 0, 0, 0,
];

const RECORD: [u8; 266] = [
    // 0: kind 5, format 1, three tables, used 266, level 0
    0x05, 0x01, 0x03, 0x00, 0x0a, 0x01, 0x00, 0x00, 0x00, 0x00, 0x00, 0x00, 0x00, 0x00, 0x00, 0x00,
    // 16: sequence 3, run 2
    0x03, 0x00, 0x00, 0x00, 0x00, 0x00, 0x00, 0x00, 0x02, 0x00, 0x00, 0x00, 0x00, 0x00, 0x00, 0x00,
    // 32: oldest and stable are unset
    0x00, 0x00, 0x00, 0x00, 0x00, 0x00, 0x00, 0x00, 0x00, 0x00, 0x00, 0x00, 0x00, 0x00, 0x00, 0x00,
    // 48: snapshot min 4, max 9
    0x04, 0x00, 0x00, 0x00, 0x00, 0x00, 0x00, 0x00, 0x09, 0x00, 0x00, 0x00, 0x00, 0x00, 0x00, 0x00,
    // 64: one id: 5
    0x01, 0x00, 0x05, 0x00, 0x00, 0x00, 0x00, 0x00, 0x00, 0x00,
    // 74: the next table's number is 4; the history has level 0
    0x04, 0x00, 0x00, 0x00, 0x00,
    // 79: and stands nowhere
    0x00, 0x00, 0x00, 0x00, 0x00, 0x00, 0x00, 0x00, 0x00, 0x00, 0x00, 0x00, 0x00, 0x00, 0x00, 0x00,
    0x00, 0x00, 0x00, 0x00, 0x00, 0x00, 0x00, 0x00, 0x00, 0x00, 0x00, 0x00, 0x00, 0x00, 0x00, 0x00,
    0x00, 0x00, 0x00, 0x00, 0x00, 0x00, 0x00, 0x00,
    // 119: table 1, level 0, a name of 1 byte
    0x01, 0x00, 0x00, 0x00, 0x53, 0x53, 0x00, 0x01,
    // 127: offset 12,288, size 4,096, the sum of the leaf, run 2, id 1, durable 0
    0x00, 0x30, 0x00, 0x00, 0x00, 0x00, 0x00, 0x00, 0x00, 0x10, 0x00, 0x00, 0x00, 0x00, 0x00, 0x00,
    0x02, 0x00, 0x00, 0x00, 0x00, 0x00, 0x00, 0x00, 0x01, 0x00, 0x00, 0x00, 0x00, 0x00, 0x00, 0x00,
    0x00, 0x00, 0x00, 0x00, 0x00, 0x00, 0x00, 0x00, 0x61,
    // 168: table 2, level 0, a name of 1 byte
    0x02, 0x00, 0x00, 0x00, 0x75, 0x75, 0x00, 0x01,
    // 176: offset 16,384, size 4,096, the sum of the leaf, run 2, id 5, durable 0
    0x00, 0x40, 0x00, 0x00, 0x00, 0x00, 0x00, 0x00, 0x00, 0x10, 0x00, 0x00, 0x00, 0x00, 0x00, 0x00,
    0x02, 0x00, 0x00, 0x00, 0x00, 0x00, 0x00, 0x00, 0x05, 0x00, 0x00, 0x00, 0x00, 0x00, 0x00, 0x00,
    0x00, 0x00, 0x00, 0x00, 0x00, 0x00, 0x00, 0x00, 0x62,
    // 217: table 3, level 1, a name of 1 byte
    0x03, 0x00, 0x00, 0x00, 0x53, 0x53, 0x01, 0x01,
    // 225: offset 20,480, size 4,096, the sum of the inner page, run 2, id 3, durable 0
    0x00, 0x50, 0x00, 0x00, 0x00, 0x00, 0x00, 0x00, 0x00, 0x10, 0x00, 0x00, 0x00, 0x00, 0x00, 0x00,
    0x02, 0x00, 0x00, 0x00, 0x00, 0x00, 0x00, 0x00, 0x03, 0x00, 0x00, 0x00, 0x00, 0x00, 0x00, 0x00,
    0x00, 0x00, 0x00, 0x00, 0x00, 0x00, 0x00, 0x00, 0x63,
];

// Level 1 with two entries: the empty key leads to 24,576, run 2, id 1, and d to 28,672, run 2, id 3.
const INNER: [u8; 101] = [
    2, 1, 2, 0, 101, 0, 0, 0, 1, 0, 0, 0, 0, 0, 0, 0, 0, 0, 0, 0x60, 0, 0, 0, 0, 0, 0, 0, 0x10, 0,
    0, 0, 0, 0, 0, 2, 0, 0, 0, 0, 0, 0, 0, 1, 0, 0, 0, 0, 0, 0, 0, 0, 0, 0, 0, 0, 0, 0, 0, 1, 0, 0,
    0x70, 0, 0, 0, 0, 0, 0, 0, 0x10, 0, 0, 0, 0, 0, 0, 2, 0, 0, 0, 0, 0, 0, 0, 3, 0, 0, 0, 0, 0, 0,
    0, 0, 0, 0, 0, 0, 0, 0, 0, b'd',
];

// One row: key a, value 1, run 2, id 1.
const FIRST: [u8; 59] = [
    1, 1, 1, 0, 59, 0, 0, 0, 0, 0, 0, 0, 0, 0, 0, 0, 2, 0, 1, 2, 0, 0, 0, 2, 0, 0, 0, 0, 0, 0, 0,
    1, 0, 0, 0, 0, 0, 0, 0, 0, 0, 0, 0, 0, 0, 0, 0, 0, 0, 0, 0, 0, 0, 0, 0, b'a', 0, b'1', 0,
];

// One row: key b, value 2, run 2, id 5.
const SECOND: [u8; 59] = [
    1, 1, 1, 0, 59, 0, 0, 0, 0, 0, 0, 0, 0, 0, 0, 0, 2, 0, 1, 2, 0, 0, 0, 2, 0, 0, 0, 0, 0, 0, 0,
    5, 0, 0, 0, 0, 0, 0, 0, 0, 0, 0, 0, 0, 0, 0, 0, 0, 0, 0, 0, 0, 0, 0, 0, b'b', 0, b'2', 0,
];

#[derive(Clone, Copy, Debug, PartialEq, Eq)]
enum Told {
    Nothing,
    // whether the key of each leaf is there, and with what the keys of the tree begin
    Rows(bool, bool, [u8; 2]),
    // where, and whether the sum that is there is the one that should be
    Corrupt(u64, bool),
    Refused(Refusal),
}

// What is changed before the sums are made, and behind that, and what is told.
const CASES: [(&[(usize, u8)], &[(usize, u8)], Told); 21] = [
    (&[], &[], Told::Rows(true, false, [b'c', b'e'])),
    // an id that had ended
    (
        &[(16_415, 6), (8_392, 6)],
        &[],
        Told::Rows(true, true, [b'c', b'e']),
    ),
    // both gates are shut
    (&[(0, 0)], &[], Told::Nothing),
    // the slot is out of form
    (&[(1, 0)], &[], Told::Corrupt(0, true)),
    // the record has another sum
    (&[], &[(8_200, 1)], Told::Corrupt(8_192, false)),
    // no record: table 2 has the number 0
    (&[(8_360, 0)], &[], Told::Corrupt(8_192, true)),
    // a record of sequence 4
    (&[(8_208, 4)], &[], Told::Corrupt(8_192, true)),
    // table 2 has a tree of level 1, whose root is a leaf
    (&[(8_366, 1)], &[], Told::Corrupt(16_384, true)),
    // the history has level 1
    (
        &[(8_270, 1)],
        &[],
        Told::Refused(Refusal::Limit(Limit::Image)),
    ),
    // the first leaf has another sum
    (&[], &[(12_288, 2)], Told::Corrupt(12_288, false)),
    // no leaf
    (&[(16_384, 2)], &[], Told::Corrupt(16_384, true)),
    // the link to the second says the id 4
    (&[(8_392, 4)], &[], Told::Corrupt(16_384, true)),
    // no block stands at 16,385
    (&[(8_368, 1)], &[], Told::Corrupt(16_385, true)),
    // both links lead to the first leaf
    (
        &[(8_369, 0x30), (8_392, 1)],
        &[],
        Told::Corrupt(12_288, true),
    ),
    // the same, which is told before the sum that this leaf has
    (
        &[(8_369, 0x30), (8_392, 1)],
        &[(12_288, 2)],
        Told::Corrupt(12_288, true),
    ),
    // the last run
    (
        &[
            (12, 255),
            (13, 255),
            (14, 255),
            (15, 255),
            (16, 255),
            (17, 255),
            (18, 255),
            (19, 63),
            (8_208, 255),
            (8_209, 255),
            (8_210, 255),
            (8_211, 255),
            (8_212, 255),
            (8_213, 255),
            (8_214, 255),
            (8_215, 63),
            (8_216, 255),
            (8_217, 255),
            (8_218, 255),
            (8_219, 255),
            (8_220, 255),
            (8_221, 255),
            (8_222, 255),
            (8_223, 63),
        ],
        &[],
        Told::Refused(Refusal::Limit(Limit::Checkpoints)),
    ),
    // the device ends where the second leaf should begin
    (&[(8_369, 0x80)], &[], Told::Corrupt(32_768, true)),
    // the inner page has another sum, and the leaf on its right too
    (
        &[],
        &[(20_490, 1), (28_672, 2)],
        Told::Corrupt(20_480, false),
    ),
    (&[], &[(28_672, 2)], Told::Corrupt(28_672, false)),
    // the leaf on the left goes on to the right one's keys, and that one begins below them
    (&[(24_631, b'd')], &[], Told::Corrupt(24_576, true)),
    (&[(28_727, b'c')], &[], Told::Corrupt(28_672, true)),
];

fn put(rt: &impl Abort, content: &mut [u8], at: usize, bytes: &[u8]) {
    for (i, byte) in bytes.iter().enumerate() {
        let place = content.get_mut(at.saturating_add(i));
        *place.expect(rt, "a place") = *byte;
    }
}

fn change(rt: &impl Abort, content: &mut [u8], changes: &[(usize, u8)]) {
    for (at, byte) in changes {
        *content.get_mut(*at).expect(rt, "a place") = *byte;
    }
}

// Puts the sum of the block at an offset where it belongs.
fn put_sum(rt: &impl Abort, content: &mut [u8], block: usize, at: usize) {
    let bytes = content.get(block..block.saturating_add(4_096));
    let sum = sum(bytes.expect(rt, "a block"));
    put(rt, content, at, &sum.to_le_bytes());
}

fn device(
    rt: &impl Abort,
    alloc: Global,
    before: &[(usize, u8)],
    behind: &[(usize, u8)],
) -> MemDisk {
    let mut content = Vec::new(alloc);
    content.resize(32_768, 0).expect(rt, "there is memory");
    put(rt, &mut content, 0, &SLOT);
    put(rt, &mut content, 8_192, &RECORD);
    put(rt, &mut content, 12_288, &FIRST);
    put(rt, &mut content, 16_384, &SECOND);
    put(rt, &mut content, 20_480, &INNER);
    put(rt, &mut content, 24_576, &FIRST);
    put(rt, &mut content, 28_672, &FIRST);
    change(
        rt,
        &mut content,
        &[(24_631, b'c'), (28_703, 3), (28_727, b'e')],
    );
    change(rt, &mut content, before);
    put_sum(rt, &mut content, 12_288, 8_331);
    let second = second_leaf(&content);
    put_sum(rt, &mut content, second, 8_380);
    put_sum(rt, &mut content, 24_576, 20_510);
    put_sum(rt, &mut content, 28_672, 20_552);
    put_sum(rt, &mut content, 20_480, 8_429);
    put_sum(rt, &mut content, 8_192, 32);
    change(rt, &mut content, behind);
    let made = MemDisk::new(alloc, content, 1 << 20, Vec::new(alloc));
    made.expect(rt, "there is memory")
}

// The leaf whose sum the second link says.
fn second_leaf(content: &[u8]) -> usize {
    match content.get(8_369) {
        Some(0x30) => 12_288,
        _ => 16_384,
    }
}

fn answer_of(alloc: Global, disk: &mut MemDisk) -> Told {
    match recover(alloc, disk) {
        Err(
            Refusal::Corrupt {
                offset,
                want,
                found,
            },
        ) => Told::Corrupt(offset, want == found),
        Err(refusal) => Told::Refused(refusal),
        Ok(Recovered { place: _, kept }) => match kept {
            None => Told::Nothing,
            Some(Kept { leaves, .. }) => {
                let mut leaves = leaves.into_iter();
                match (leaves.next(), leaves.next(), leaves.next()) {
                    (Some(first), Some(second), Some(third)) => {
                        Told::Rows(has(first, b"a\0"), has(second, b"b\0"), begins(third))
                    }
                    _ => Told::Nothing,
                }
            }
        },
    }
}

// Whether a leaf has a row of the key.
fn has(rows: Rows, key: &[u8]) -> bool {
    rows.into_rows().iter().any(|row| row.0.as_bytes() == key)
}

// With what two keys begin.
fn begins(rows: Rows) -> [u8; 2] {
    match rows.into_rows().as_slice() {
        [first, second] => [byte_of(&first.0), byte_of(&second.0)],
        _ => [0, 0],
    }
}

fn byte_of(key: &Item) -> u8 {
    key.as_bytes().first().copied().unwrap_or(0)
}

#[test]
fn each_device_is_told_as_what_it_is(rt: HostRuntime) {
    for (before, behind, want) in CASES {
        let mut disk = device(&rt, rt.alloc(), before, behind);
        assert_eq!(rt; answer_of(rt.alloc(), &mut disk), want);
    }
}

#[test]
fn a_fault_of_the_disk_is_told(rt: HostRuntime) {
    let mut disk = device(&rt, rt.alloc(), &[], &[]);
    disk.stop_after(6);
    let want = Told::Refused(Refusal::DiskFault);
    assert_eq!(rt; answer_of(rt.alloc(), &mut disk), want);
}
