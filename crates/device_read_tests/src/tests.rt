// What is read of devices in memory.
use block_sum::sum;
use device_read::{LeafRows, Lookup, OpenedLeaf, Reader, open};
use disk_model::MemDisk;
use item::Item;
use std::alloc::Global;
use std::process::Abort;
use wt_code::{Limit, Refusal};

// Sequence 3 by run 2, whose ids below 9 had ended but 5; the record's sum stands at 32.
const SLOT: [u8; 36] = [
    0xa5, b'W', b'T', b'T', b'U', b'R', b'T', b'L', 1, 0, 0, 0, 3, 0, 0, 0, 0, 0, 0, 0, 0, 0x20, 0,
    0, 0, 0, 0, 0, 0, 0x10, 0, 0, 0, 0, 0, 0,
];

const RECORD: [u8; 266] = [
    // 0: kind 5, format 1, three tables, used 266, level 0
    0x05, 0x01, 0x03, 0x00, 0x0a, 0x01, 0x00, 0x00, 0x00, 0x00, 0x00, 0x00, 0x00, 0x00, 0x00, 0x00,
    // 16: sequence 3, run 2
    0x03, 0x00, 0x00, 0x00, 0x00, 0x00, 0x00, 0x00, 0x02, 0x00, 0x00, 0x00, 0x00, 0x00, 0x00, 0x00,
    // 32: oldest and stable are unset
    0x00, 0x00, 0x00, 0x00, 0x00, 0x00, 0x00, 0x00, 0x00, 0x00, 0x00, 0x00, 0x00, 0x00, 0x00, 0x00,
    // 48: snapshot min 4, max 9
    0x04, 0x00, 0x00, 0x00, 0x00, 0x00, 0x00, 0x00, 0x09, 0x00, 0x00, 0x00, 0x00, 0x00, 0x00, 0x00,
    // 64: one id: 5
    0x01, 0x00, 0x05, 0x00, 0x00, 0x00, 0x00, 0x00, 0x00, 0x00,
    // 74: the next table's number is 4; the history has level 0
    0x04, 0x00, 0x00, 0x00, 0x00,
    // 79: and stands nowhere
    0x00, 0x00, 0x00, 0x00, 0x00, 0x00, 0x00, 0x00, 0x00, 0x00, 0x00, 0x00, 0x00, 0x00, 0x00, 0x00,
    0x00, 0x00, 0x00, 0x00, 0x00, 0x00, 0x00, 0x00, 0x00, 0x00, 0x00, 0x00, 0x00, 0x00, 0x00, 0x00,
    0x00, 0x00, 0x00, 0x00, 0x00, 0x00, 0x00, 0x00,
    // 119: table 1, level 0, a name of 1 byte
    0x01, 0x00, 0x00, 0x00, 0x53, 0x53, 0x00, 0x01,
    // 127: offset 12,288, size 4,096, the sum of the leaf, run 2, id 1, durable 0
    0x00, 0x30, 0x00, 0x00, 0x00, 0x00, 0x00, 0x00, 0x00, 0x10, 0x00, 0x00, 0x00, 0x00, 0x00, 0x00,
    0x02, 0x00, 0x00, 0x00, 0x00, 0x00, 0x00, 0x00, 0x01, 0x00, 0x00, 0x00, 0x00, 0x00, 0x00, 0x00,
    0x00, 0x00, 0x00, 0x00, 0x00, 0x00, 0x00, 0x00, 0x61,
    // 168: table 2, level 0, a name of 1 byte
    0x02, 0x00, 0x00, 0x00, 0x75, 0x75, 0x00, 0x01,
    // 176: offset 16,384, size 4,096, the sum of the leaf, run 2, id 5, durable 0
    0x00, 0x40, 0x00, 0x00, 0x00, 0x00, 0x00, 0x00, 0x00, 0x10, 0x00, 0x00, 0x00, 0x00, 0x00, 0x00,
    0x02, 0x00, 0x00, 0x00, 0x00, 0x00, 0x00, 0x00, 0x05, 0x00, 0x00, 0x00, 0x00, 0x00, 0x00, 0x00,
    0x00, 0x00, 0x00, 0x00, 0x00, 0x00, 0x00, 0x00, 0x62,
    // 217: table 3, level 1, a name of 1 byte
    0x03, 0x00, 0x00, 0x00, 0x53, 0x53, 0x01, 0x01,
    // 225: offset 20,480, size 4,096, the sum of the inner page, run 2, id 3, durable 0
    0x00, 0x50, 0x00, 0x00, 0x00, 0x00, 0x00, 0x00, 0x00, 0x10, 0x00, 0x00, 0x00, 0x00, 0x00, 0x00,
    0x02, 0x00, 0x00, 0x00, 0x00, 0x00, 0x00, 0x00, 0x03, 0x00, 0x00, 0x00, 0x00, 0x00, 0x00, 0x00,
    0x00, 0x00, 0x00, 0x00, 0x00, 0x00, 0x00, 0x00, 0x63,
];

// Level 1 with two entries: the empty key leads to 24,576, run 2, id 1, and d to 28,672, run 2, id 3.
const INNER: [u8; 101] = [
    2, 1, 2, 0, 101, 0, 0, 0, 1, 0, 0, 0, 0, 0, 0, 0, 0, 0, 0, 0x60, 0, 0, 0, 0, 0, 0, 0, 0x10, 0,
    0, 0, 0, 0, 0, 2, 0, 0, 0, 0, 0, 0, 0, 1, 0, 0, 0, 0, 0, 0, 0, 0, 0, 0, 0, 0, 0, 0, 0, 1, 0, 0,
    0x70, 0, 0, 0, 0, 0, 0, 0, 0x10, 0, 0, 0, 0, 0, 0, 2, 0, 0, 0, 0, 0, 0, 0, 3, 0, 0, 0, 0, 0, 0,
    0, 0, 0, 0, 0, 0, 0, 0, 0, b'd',
];

// One row: key a, value 1, run 2, id 1.
const FIRST: [u8; 59] = [
    1, 1, 1, 0, 59, 0, 0, 0, 0, 0, 0, 0, 0, 0, 0, 0, 2, 0, 1, 2, 0, 0, 0, 2, 0, 0, 0, 0, 0, 0, 0,
    1, 0, 0, 0, 0, 0, 0, 0, 0, 0, 0, 0, 0, 0, 0, 0, 0, 0, 0, 0, 0, 0, 0, 0, b'a', 0, b'1', 0,
];

// Two rows: key b, value 2, run 2, id 5, and key c, value 3, run 2, id 1.
const SECOND: [u8; 102] = [
    1, 1, 2, 0, 102, 0, 0, 0, 0, 0, 0, 0, 0, 0, 0, 0, 2, 0, 1, 2, 0, 0, 0, 2, 0, 0, 0, 0, 0, 0, 0,
    5, 0, 0, 0, 0, 0, 0, 0, 0, 0, 0, 0, 0, 0, 0, 0, 0, 0, 0, 0, 0, 0, 0, 0, b'b', 0, b'2', 0, 2, 0,
    1, 2, 0, 0, 0, 2, 0, 0, 0, 0, 0, 0, 0, 1, 0, 0, 0, 0, 0, 0, 0, 0, 0, 0, 0, 0, 0, 0, 0, 0, 0, 0,
    0, 0, 0, 0, 0, b'c', 0, b'3', 0,
];

// Eight records, all of no stamp: of table 1 key a, value 4, run 2, id 3; of table 2 key b, value 9, run 1,
// id 3, and value 0, run 1, id 7, key c, value 8, run 1, id 2, and a removal of d, run 1, id 4; of table 3
// key b, value 7, run 1, id 5, key dd, value 6, run 2, id 5, and key f, value 5, run 1, id 1.
const HISTORY: [u8; 391] = [
    3, 1, 8, 0, 135, 1, 0, 0, 0, 0, 0, 0, 0, 0, 0, 0, 1, 0, 0, 0, 2, 0, 1, 2, 0, 0, 0, 2, 0, 0, 0,
    0, 0, 0, 0, 3, 0, 0, 0, 0, 0, 0, 0, 0, 0, 0, 0, 0, 0, 0, 0, 0, 0, 0, 0, 0, 0, 0, 0, 97, 0, 52,
    0, 2, 0, 0, 0, 2, 0, 1, 2, 0, 0, 0, 1, 0, 0, 0, 0, 0, 0, 0, 3, 0, 0, 0, 0, 0, 0, 0, 0, 0, 0, 0,
    0, 0, 0, 0, 0, 0, 0, 0, 0, 0, 0, 0, 98, 0, 57, 0, 2, 0, 0, 0, 2, 0, 1, 2, 0, 0, 0, 1, 0, 0, 0,
    0, 0, 0, 0, 7, 0, 0, 0, 0, 0, 0, 0, 0, 0, 0, 0, 0, 0, 0, 0, 0, 0, 0, 0, 0, 0, 0, 0, 98, 0, 48,
    0, 2, 0, 0, 0, 2, 0, 1, 2, 0, 0, 0, 1, 0, 0, 0, 0, 0, 0, 0, 2, 0, 0, 0, 0, 0, 0, 0, 0, 0, 0, 0,
    0, 0, 0, 0, 0, 0, 0, 0, 0, 0, 0, 0, 99, 0, 56, 0, 2, 0, 0, 0, 2, 0, 2, 0, 0, 0, 0, 1, 0, 0, 0,
    0, 0, 0, 0, 4, 0, 0, 0, 0, 0, 0, 0, 0, 0, 0, 0, 0, 0, 0, 0, 0, 0, 0, 0, 0, 0, 0, 0, 100, 0, 3,
    0, 0, 0, 2, 0, 1, 2, 0, 0, 0, 1, 0, 0, 0, 0, 0, 0, 0, 5, 0, 0, 0, 0, 0, 0, 0, 0, 0, 0, 0, 0, 0,
    0, 0, 0, 0, 0, 0, 0, 0, 0, 0, 98, 0, 55, 0, 3, 0, 0, 0, 3, 0, 1, 2, 0, 0, 0, 2, 0, 0, 0, 0, 0,
    0, 0, 5, 0, 0, 0, 0, 0, 0, 0, 0, 0, 0, 0, 0, 0, 0, 0, 0, 0, 0, 0, 0, 0, 0, 0, 100, 100, 0, 54,
    0, 3, 0, 0, 0, 2, 0, 1, 2, 0, 0, 0, 1, 0, 0, 0, 0, 0, 0, 0, 1, 0, 0, 0, 0, 0, 0, 0, 0, 0, 0, 0,
    0, 0, 0, 0, 0, 0, 0, 0, 0, 0, 0, 0, 102, 0, 53, 0,
];

#[derive(Clone, Copy, Debug, PartialEq, Eq)]
enum Told {
    // how many there are
    Tables(usize),
    // the first byte of a value
    Found(u8),
    Absent,
    // the offset, and the sum that is wanted and that is found
    Corrupt(u64, u32, u32),
    Refused(Refusal),
}

// The place of a table, a key, and what is told of it.
const KEYS: [(usize, &[u8], Told); 12] = [
    (0, b"a\0", Told::Found(b'1')),
    (0, b"b\0", Told::Absent),
    // by the id 5, which had not ended
    (1, b"b\0", Told::Absent),
    (1, b"c\0", Told::Found(b'3')),
    // of two leaves, from the empty key and from d on
    (2, b"", Told::Absent),
    (2, b"c\0", Told::Found(b'1')),
    (2, b"cc", Told::Absent),
    (2, b"d", Told::Absent),
    (2, b"e\0", Told::Found(b'1')),
    (2, b"f\0", Told::Absent),
    (2, b"c\0", Told::Found(b'1')),
    // no table is there
    (3, b"a\0", Told::Absent),
];

// The same of the device with the history.
const OLDER: [(usize, &[u8], Told); 11] = [
    // the record is later than the cell
    (0, b"a\0", Told::Found(b'4')),
    // the cell is by the id 5, which had not ended: the newest record
    (1, b"b\0", Told::Found(b'0')),
    // the cell is later
    (1, b"c\0", Told::Found(b'3')),
    // there is no cell: a removal
    (1, b"d\0", Told::Absent),
    (2, b"b\0", Told::Found(b'7')),
    (2, b"c\0", Told::Found(b'1')),
    // the record is by the id 5
    (2, b"dd\0", Told::Absent),
    (2, b"e\0", Told::Found(b'1')),
    (2, b"f\0", Told::Found(b'5')),
    (2, b"g\0", Told::Absent),
    // no table is there
    (3, b"f\0", Told::Absent),
];

// Of the device with the history: what is changed, and what is told of an opening.
const HISTORIES: [(&[(usize, u8)], Told); 3] = [
    (&[], Told::Tables(3)),
    // byte 1 of the history's leaf is 2 in place of 1
    (&[(32_769, 2)], Told::Corrupt(32_768, 315900, 315902)),
    // a leaf of a table has another sum, which nobody reads
    (&[(28_672, 2)], Told::Tables(3)),
];

// What is changed before the sums are made, and behind that, and what is told of an opening, and then
// of the keys c and e of the table c.
const CASES: [(&[(usize, u8)], &[(usize, u8)], Told, Told, Told); 8] = [
    (
        &[],
        &[],
        Told::Tables(3),
        Told::Found(b'1'),
        Told::Found(b'1'),
    ),
    // no checkpoint: both gates are shut
    (&[(0, 0)], &[], Told::Tables(0), Told::Absent, Told::Absent),
    // byte 9 of the record is 1 in place of 0
    (
        &[],
        &[(8_200, 1)],
        Told::Corrupt(8_192, 322_154, 322_163),
        Told::Absent,
        Told::Absent,
    ),
    // the next table has the number 2^32 - 1,021, which leaves 1,021 numbers for 1,021 tables
    (
        &[(8_266, 3), (8_267, 252), (8_268, 255), (8_269, 255)],
        &[],
        Told::Refused(Refusal::Limit(Limit::Tables)),
        Told::Absent,
        Told::Absent,
    ),
    // one number more
    (
        &[(8_266, 2), (8_267, 252), (8_268, 255), (8_269, 255)],
        &[],
        Told::Tables(3),
        Told::Found(b'1'),
        Told::Found(b'1'),
    ),
    // the last run
    (
        &[
            (12, 255),
            (13, 255),
            (14, 255),
            (15, 255),
            (16, 255),
            (17, 255),
            (18, 255),
            (19, 63),
            (8_208, 255),
            (8_209, 255),
            (8_210, 255),
            (8_211, 255),
            (8_212, 255),
            (8_213, 255),
            (8_214, 255),
            (8_215, 63),
            (8_216, 255),
            (8_217, 255),
            (8_218, 255),
            (8_219, 255),
            (8_220, 255),
            (8_221, 255),
            (8_222, 255),
            (8_223, 63),
        ],
        &[],
        Told::Refused(Refusal::Limit(Limit::Checkpoints)),
        Told::Absent,
        Told::Absent,
    ),
    // the leaf of another table has another sum, which nobody reads
    (
        &[],
        &[(12_288, 2)],
        Told::Tables(3),
        Told::Found(b'1'),
        Told::Found(b'1'),
    ),
    // the leaf on the right has another sum
    (
        &[],
        &[(28_672, 2)],
        Told::Tables(3),
        Told::Found(b'1'),
        Told::Corrupt(28_672, 9_036, 9_037),
    ),
];

fn put(rt: &impl Abort, content: &mut [u8], at: usize, bytes: &[u8]) {
    for (i, byte) in bytes.iter().enumerate() {
        let place = content.get_mut(at.saturating_add(i));
        *place.expect(rt, "a place") = *byte;
    }
}

fn change(rt: &impl Abort, content: &mut [u8], changes: &[(usize, u8)]) {
    for (at, byte) in changes {
        *content.get_mut(*at).expect(rt, "a place") = *byte;
    }
}

// Puts the sum of the block at an offset where it belongs.
fn put_sum(rt: &impl Abort, content: &mut [u8], block: usize, at: usize) {
    let bytes = content.get(block..block.saturating_add(4_096));
    let sum = sum(bytes.expect(rt, "a block"));
    put(rt, content, at, &sum.to_le_bytes());
}

fn device(
    rt: &impl Abort,
    alloc: Global,
    before: &[(usize, u8)],
    behind: &[(usize, u8)],
) -> MemDisk {
    let mut content = tables(rt, alloc);
    change(rt, &mut content, before);
    disk_of(rt, alloc, content, behind)
}

// With a history, whose one leaf stands behind the others.
fn device_with_history(rt: &impl Abort, alloc: Global, behind: &[(usize, u8)]) -> MemDisk {
    let mut content = tables(rt, alloc);
    content.resize(36_864, 0).expect(rt, "there is memory");
    put(rt, &mut content, 32_768, &HISTORY);
    let link = [(8_272, 0x80), (8_280, 0x10), (8_287, 2), (8_295, 5)];
    change(rt, &mut content, &link);
    put_sum(rt, &mut content, 32_768, 8_283);
    disk_of(rt, alloc, content, behind)
}

fn tables(rt: &impl Abort, alloc: Global) -> Vec<u8> {
    let mut content = Vec::new(alloc);
    content.resize(32_768, 0).expect(rt, "there is memory");
    put(rt, &mut content, 0, &SLOT);
    put(rt, &mut content, 8_192, &RECORD);
    put(rt, &mut content, 12_288, &FIRST);
    put(rt, &mut content, 16_384, &SECOND);
    put(rt, &mut content, 20_480, &INNER);
    put(rt, &mut content, 24_576, &FIRST);
    put(rt, &mut content, 28_672, &FIRST);
    change(
        rt,
        &mut content,
        &[(24_631, b'c'), (28_703, 3), (28_727, b'e')],
    );
    content
}

// Makes the sums.
fn disk_of(rt: &impl Abort, alloc: Global, content: Vec<u8>, behind: &[(usize, u8)]) -> MemDisk {
    let mut content = content;
    put_sum(rt, &mut content, 12_288, 8_331);
    put_sum(rt, &mut content, 16_384, 8_380);
    put_sum(rt, &mut content, 24_576, 20_510);
    put_sum(rt, &mut content, 28_672, 20_552);
    put_sum(rt, &mut content, 20_480, 8_429);
    put_sum(rt, &mut content, 8_192, 32);
    change(rt, &mut content, behind);
    let made = MemDisk::new(alloc, content, 1 << 20, Vec::new(alloc));
    made.expect(rt, "there is memory")
}

fn refused(refusal: Refusal) -> Told {
    match refusal {
        Refusal::Corrupt {
            offset,
            want,
            found,
        } => Told::Corrupt(offset, want, found),
        refusal => Told::Refused(refusal),
    }
}

fn value_in(answer: Result<Option<Item>, Refusal>) -> Told {
    match answer {
        Ok(Some(value)) => match value.as_bytes().first() {
            Some(byte) => Told::Found(*byte),
            None => Told::Absent,
        },
        Ok(None) => Told::Absent,
        Err(refusal) => refused(refusal),
    }
}

// Whether these are the keys of the leaf.
fn has_keys(alloc: Global, leaf: &OpenedLeaf<'_>, keys: &[&[u8]]) -> bool {
    match leaf.rows(alloc) {
        Ok(rows) => are_keys(&rows, keys),
        Err(_) => false,
    }
}

fn are_keys(rows: &LeafRows<'_>, keys: &[&[u8]]) -> bool {
    if rows.len() != keys.len() {
        return false;
    }
    for i in 0..rows.len() {
        if keys.get(i).copied() != Some(rows.cell(i).key) {
            return false;
        }
    }
    true
}

#[test]
fn tables_pages_and_keys_are_read(rt: HostRuntime) {
    let alloc = rt.alloc();
    let mut disk = device(&rt, alloc, &[], &[]);
    let reader = open(alloc, &mut disk).expect(&rt, "a reader");
    assert_eq!(rt; reader.len(), 3);
    let names: [(&[u8], Option<usize>, usize); 5] = [
        (b"a", Some(0), 1),
        (b"b", Some(1), 1),
        (b"c", Some(2), 2),
        (b"d", None, 0),
        (b"", None, 0),
    ];
    for (name, place, leaves) in names {
        assert_eq!(rt; reader.find(name), place);
        let place = place.unwrap_or(3);
        assert_eq!(rt; reader.leaves(place), leaves);
        let there = reader.table(place);
        assert!(rt; there.is_none() == (place == 3));
        if let Some(table) = there {
            assert!(rt; table.name.as_bytes() == name);
        }
    }
    let pages: [(usize, usize, &[&[u8]]); 4] = [
        (0, 0, &[b"a\0"]),
        (1, 0, &[b"c\0"]),
        (2, 0, &[b"c\0"]),
        (2, 1, &[b"e\0"]),
    ];
    for (place, i, keys) in pages {
        if i < reader.leaves(place) {
            let leaf = reader.leaf(alloc, &mut disk, place, i);
            assert!(rt; has_keys(alloc, &leaf.expect(&rt, "a leaf"), keys));
        } else {
            assert!(rt; false);
        }
    }
    let mut lookups = [
        Lookup::new(0),
        Lookup::new(1),
        Lookup::new(2),
        Lookup::new(3),
    ];
    for (place, key, want) in KEYS {
        assert_eq!(rt; value_in(reader.get(alloc, &mut disk, place, key)), want);
        let lookup = lookups.get_mut(place).expect(&rt, "a place");
        assert_eq!(rt; value_in(lookup.get(alloc, &mut disk, &reader, key)), want);
    }
}

// What is told of the key of the table c.
fn told_of(alloc: Global, disk: &mut MemDisk, reader: &Reader, key: &[u8]) -> Told {
    match reader.find(b"c") {
        Some(place) => value_in(reader.get(alloc, disk, place, key)),
        None => Told::Absent,
    }
}

#[test]
fn damage_is_told_where_it_is_read(rt: HostRuntime) {
    let alloc = rt.alloc();
    for (before, behind, opened, left, right) in CASES {
        let mut disk = device(&rt, alloc, before, behind);
        match open(alloc, &mut disk) {
            Ok(reader) => {
                assert_eq!(rt; Told::Tables(reader.len()), opened);
                assert_eq!(rt; told_of(alloc, &mut disk, &reader, b"c\0"), left);
                assert_eq!(rt; told_of(alloc, &mut disk, &reader, b"e\0"), right);
            }
            Err(refusal) => {
                assert_eq!(rt; refused(refusal), opened);
            }
        }
    }
    // the length and two slots, then the length and a block for each of two, and the length once more
    for calls in 0..8 {
        let mut disk = device(&rt, alloc, &[], &[]);
        disk.stop_after(calls);
        let told = match open(alloc, &mut disk) {
            Ok(_) => Told::Absent,
            Err(refusal) => refused(refusal),
        };
        assert_eq!(rt; told, Told::Refused(Refusal::DiskFault), "{calls}");
    }
}

#[test]
fn newest_records_are_read_where_cells_are_hidden(rt: HostRuntime) {
    let alloc = rt.alloc();
    let mut disk = device_with_history(&rt, alloc, &[]);
    let reader = open(alloc, &mut disk).expect(&rt, "a reader");
    let pages: [(usize, usize, &[&[u8]]); 4] = [
        (0, 0, &[b"a\0"]),
        (1, 0, &[b"b\0", b"c\0", b"d\0"]),
        (2, 0, &[b"b\0", b"c\0"]),
        (2, 1, &[b"e\0", b"f\0"]),
    ];
    for (place, i, keys) in pages {
        if i < reader.leaves(place) {
            let leaf = reader.leaf(alloc, &mut disk, place, i);
            assert!(rt; has_keys(alloc, &leaf.expect(&rt, "a leaf"), keys));
        } else {
            assert!(rt; false);
        }
    }
    let mut lookups = [
        Lookup::new(0),
        Lookup::new(1),
        Lookup::new(2),
        Lookup::new(3),
    ];
    for (place, key, want) in OLDER {
        assert_eq!(rt; value_in(reader.get(alloc, &mut disk, place, key)), want);
        let lookup = lookups.get_mut(place).expect(&rt, "a place");
        assert_eq!(rt; value_in(lookup.get(alloc, &mut disk, &reader, key)), want);
    }
    for (behind, want) in HISTORIES {
        let mut disk = device_with_history(&rt, alloc, behind);
        let told = match open(alloc, &mut disk) {
            Ok(reader) => Told::Tables(reader.len()),
            Err(refusal) => refused(refusal),
        };
        assert_eq!(rt; told, want);
    }
}
