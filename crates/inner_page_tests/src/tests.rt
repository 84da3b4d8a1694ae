use inner_page::*;
use row_page::CellChange;
use stamp::Name;
use std::alloc::{AllocError, Global};
use std::process::Abort;
use std::test::*;

// A page of a table: level 1, two entries.
const TABLE: [u8; 102] = [
    // 0: kind 2, format 1, two entries, used 102, level 1
    0x02, 0x01, 0x02, 0x00, 0x66, 0x00, 0x00, 0x00, 0x01, 0x00, 0x00, 0x00, 0x00, 0x00, 0x00, 0x00,
    // 16: a key of no bytes
    0x00, 0x00,
    // 18: offset 12,288, size 4,096, sum 01020304, run 2, id 256, durable 20
    0x00, 0x30, 0x00, 0x00, 0x00, 0x00, 0x00, 0x00, 0x00, 0x10, 0x00, 0x00, 0x04, 0x03, 0x02, 0x01,
    0x02, 0x00, 0x00, 0x00, 0x00, 0x00, 0x00, 0x00, 0x00, 0x01, 0x00, 0x00, 0x00, 0x00, 0x00, 0x00,
    0x14, 0x00, 0x00, 0x00, 0x00, 0x00, 0x00, 0x00,
    // 58: a key of 2 bytes
    0x02, 0x00,
    // 60: offset 16,384, size 8,192, sum 5, run 1, id 3, durable 0
    0x00, 0x40, 0x00, 0x00, 0x00, 0x00, 0x00, 0x00, 0x00, 0x20, 0x00, 0x00, 0x05, 0x00, 0x00, 0x00,
    0x01, 0x00, 0x00, 0x00, 0x00, 0x00, 0x00, 0x00, 0x03, 0x00, 0x00, 0x00, 0x00, 0x00, 0x00, 0x00,
    0x00, 0x00, 0x00, 0x00, 0x00, 0x00, 0x00, 0x00,
    // 100: ab
    0x61, 0x62,
];

// A page of the history: level 1, two entries.
const HISTORY: [u8; 159] = [
    // 0: kind 4, format 1, two entries, used 159, level 1
    0x04, 0x01, 0x02, 0x00, 0x9f, 0x00, 0x00, 0x00, 0x01, 0x00, 0x00, 0x00, 0x00, 0x00, 0x00, 0x00,
    // 16: table 1, a key of 1 byte, commit 10, run 1, id 3
    0x01, 0x00, 0x00, 0x00, 0x01, 0x00, 0x0a, 0x00, 0x00, 0x00, 0x00, 0x00, 0x00, 0x00, 0x01, 0x00,
    0x00, 0x00, 0x00, 0x00, 0x00, 0x00, 0x03, 0x00, 0x00, 0x00, 0x00, 0x00, 0x00, 0x00,
    // 46: offset 12,288, size 4,096, sum 01020304, run 2, id 256, durable 20
    0x00, 0x30, 0x00, 0x00, 0x00, 0x00, 0x00, 0x00, 0x00, 0x10, 0x00, 0x00, 0x04, 0x03, 0x02, 0x01,
    0x02, 0x00, 0x00, 0x00, 0x00, 0x00, 0x00, 0x00, 0x00, 0x01, 0x00, 0x00, 0x00, 0x00, 0x00, 0x00,
    0x14, 0x00, 0x00, 0x00, 0x00, 0x00, 0x00, 0x00,
    // 86: a
    0x61,
    // 87: table 1, a key of 2 bytes, commit 0, run 1, id 2
    0x01, 0x00, 0x00, 0x00, 0x02, 0x00, 0x00, 0x00, 0x00, 0x00, 0x00, 0x00, 0x00, 0x00, 0x01, 0x00,
    0x00, 0x00, 0x00, 0x00, 0x00, 0x00, 0x02, 0x00, 0x00, 0x00, 0x00, 0x00, 0x00, 0x00,
    // 117: offset 16,384, size 8,192, sum 5, run 1, id 3, durable 0
    0x00, 0x40, 0x00, 0x00, 0x00, 0x00, 0x00, 0x00, 0x00, 0x20, 0x00, 0x00, 0x05, 0x00, 0x00, 0x00,
    0x01, 0x00, 0x00, 0x00, 0x00, 0x00, 0x00, 0x00, 0x03, 0x00, 0x00, 0x00, 0x00, 0x00, 0x00, 0x00,
    0x00, 0x00, 0x00, 0x00, 0x00, 0x00, 0x00, 0x00,
    // 157: ab
    0x61, 0x62,
];

// A leaf of the history: two records of one key, and one of another.
const LEAF: [u8; 150] = [
    // 0: kind 3, format 1, three records, used 150, level 0
    0x03, 0x01, 0x03, 0x00, 0x96, 0x00, 0x00, 0x00, 0x00, 0x00, 0x00, 0x00, 0x00, 0x00, 0x00, 0x00,
    // 16: table 1, a key of 1 byte, a put of 2 bytes
    0x01, 0x00, 0x00, 0x00, 0x01, 0x00, 0x01, 0x02, 0x00, 0x00, 0x00,
    // 27: run 1, id 5, commit 10, durable 10
    0x01, 0x00, 0x00, 0x00, 0x00, 0x00, 0x00, 0x00, 0x05, 0x00, 0x00, 0x00, 0x00, 0x00, 0x00, 0x00,
    0x0a, 0x00, 0x00, 0x00, 0x00, 0x00, 0x00, 0x00, 0x0a, 0x00, 0x00, 0x00, 0x00, 0x00, 0x00, 0x00,
    // 59: a, xy
    0x61, 0x78, 0x79,
    // 62: table 1, a key of 1 byte, a removal
    0x01, 0x00, 0x00, 0x00, 0x01, 0x00, 0x02, 0x00, 0x00, 0x00, 0x00,
    // 73: run 1, id 3, commit 20, durable 21
    0x01, 0x00, 0x00, 0x00, 0x00, 0x00, 0x00, 0x00, 0x03, 0x00, 0x00, 0x00, 0x00, 0x00, 0x00, 0x00,
    0x14, 0x00, 0x00, 0x00, 0x00, 0x00, 0x00, 0x00, 0x15, 0x00, 0x00, 0x00, 0x00, 0x00, 0x00, 0x00,
    // 105: a
    0x61,
    // 106: table 1, a key of 1 byte, a put of no bytes
    0x01, 0x00, 0x00, 0x00, 0x01, 0x00, 0x01, 0x00, 0x00, 0x00, 0x00,
    // 117: run 1, id 5, commit 0, durable 0
    0x01, 0x00, 0x00, 0x00, 0x00, 0x00, 0x00, 0x00, 0x05, 0x00, 0x00, 0x00, 0x00, 0x00, 0x00, 0x00,
    0x00, 0x00, 0x00, 0x00, 0x00, 0x00, 0x00, 0x00, 0x00, 0x00, 0x00, 0x00, 0x00, 0x00, 0x00, 0x00,
    // 149: b
    0x62,
];

// Bytes of the table's block that are others, and whether it is still a page.
const TABLE_CHANGES: [(&[(usize, u8)], bool); 20] = [
    (&[], true),
    // header: kind, format, count, used, level
    (&[(0, 0x04)], false),
    (&[(1, 0x02)], false),
    (&[(2, 0x00)], false),
    (&[(2, 0x01)], false),
    (&[(2, 0x03)], false),
    (&[(3, 0xff)], false),
    (&[(4, 0x65)], false),
    (&[(4, 0x67)], false),
    (&[(8, 0x00)], false),
    (&[(8, 0x3c)], true),
    (&[(8, 0x3d)], false),
    (&[(9, 0x01)], false),
    // a byte behind used
    (&[(102, 0x01)], false),
    (&[(4_095, 0x01)], false),
    // any link, also one of nothing
    (&[(34, 0x00), (43, 0x00)], true),
    (&[(25, 0xff), (41, 0xff), (49, 0xff), (57, 0xff)], true),
    // a key that passes the end
    (&[(58, 0x03)], false),
    (&[(59, 0x04)], false),
    // keys climb: two of no bytes do not
    (&[(4, 0x64), (58, 0x00), (100, 0x00), (101, 0x00)], false),
];

// Bytes of the history's block that are others, and whether it is still a page.
const HISTORY_CHANGES: [(&[(usize, u8)], bool); 21] = [
    (&[], true),
    // header: kind, count, level
    (&[(0, 0x02)], false),
    (&[(2, 0x00)], false),
    (&[(8, 0x00)], false),
    (&[(8, 0x3c)], true),
    (&[(8, 0x3d)], false),
    // a byte behind used
    (&[(159, 0x01)], false),
    // a run and an id are from 1 to below 2^62
    (&[(30, 0x00)], false),
    (&[(37, 0x3f)], true),
    (&[(37, 0x40)], false),
    (&[(38, 0x00)], false),
    (&[(45, 0x40)], false),
    // any commit stamp
    (&[(29, 0xff)], true),
    // records ascend by their table, then by their key
    (&[(87, 0x00)], false),
    (&[(86, 0x62)], false),
    (&[(86, 0x62), (87, 0x02)], true),
    // and for one key by the commit stamp, the run and the id
    (&[(4, 0x9e), (91, 0x01), (158, 0x00)], false),
    (&[(4, 0x9e), (91, 0x01), (158, 0x00), (93, 0x0b)], true),
    (&[(4, 0x9e), (91, 0x01), (158, 0x00), (93, 0x0a)], false),
    (
        &[(4, 0x9e), (91, 0x01), (158, 0x00), (93, 0x0a), (109, 0x03)],
        false,
    ),
    (
        &[(4, 0x9e), (91, 0x01), (158, 0x00), (93, 0x0a), (101, 0x02)],
        true,
    ),
];

// Bytes of the leaf's block that are others, and whether it is still a leaf.
const LEAF_CHANGES: [(&[(usize, u8)], bool); 22] = [
    (&[], true),
    // header: kind, count, level
    (&[(0, 0x01)], false),
    (&[(2, 0x00)], false),
    (&[(2, 0x02)], false),
    (&[(8, 0x01)], false),
    // a byte behind used
    (&[(150, 0x01)], false),
    // a change is a put, or a removal with no value
    (&[(22, 0x03)], false),
    (&[(22, 0x02)], false),
    (&[(68, 0x01)], true),
    // the durable stamp is not below the commit stamp
    (&[(51, 0x0b)], true),
    (&[(51, 0x09)], false),
    // a run and an id are from 1 to below 2^62
    (&[(27, 0x00)], false),
    (&[(34, 0x40)], false),
    // records ascend by their table, then by their key
    (&[(106, 0x00)], false),
    (&[(149, 0x61)], false),
    // and for one key by the commit stamp, then by the name
    (&[(89, 0x0a)], false),
    (&[(89, 0x0a), (81, 0x06)], true),
    // a name stands once for each key, also where its stamps are others
    (&[(81, 0x05)], false),
    (&[(81, 0x06)], true),
    (&[(149, 0x61), (133, 0x1e), (141, 0x1e)], false),
    (&[(149, 0x61), (133, 0x1e), (141, 0x1e), (125, 0x03)], false),
    (&[(149, 0x61), (133, 0x1e), (141, 0x1e), (125, 0x04)], true),
];

fn block_of(alloc: Global, image: &[u8]) -> Result<Vec<u8>, AllocError> {
    let mut block = Vec::from_slice(alloc, image)?;
    block.resize(4_096, 0)?;
    Ok(block)
}

fn change(rt: &impl Abort, block: &mut [u8], changes: &[(usize, u8)]) {
    for (at, byte) in changes {
        *block.get_mut(*at).expect(rt, "a place") = *byte;
    }
}

#[test]
fn a_page_of_a_table_is_read_and_written(rt: HostRuntime) -> Result<(), Fail> {
    let block = block_of(rt.alloc(), &TABLE)?;
    let page = decode(rt.alloc(), &block)?.ok_or("a page")?;
    assert!(rt; encode(rt.alloc(), page.level, &page.entries)?.as_slice() == TABLE.as_slice());
    assert_eq!(rt; (page.level, page.entries.len()), (1, 2));
    let entry = page.entries.get(1).ok_or("an entry")?;
    let link = entry.link;
    assert!(rt; entry.key.as_bytes() == b"ab".as_slice());
    assert_eq!(rt;
        (link.addr.offset, link.addr.size, link.addr.sum),
        (16_384, 8_192, 5)
    );
    assert_eq!(rt;
        (link.greatest.run, link.greatest.id, link.durable),
        (1, 3, 0)
    );
    for (key, child) in [
        (b"".as_slice(), 0),
        (b"a", 0),
        (b"aa", 0),
        (b"ab", 1),
        (b"ab\0", 1),
        (b"b", 1),
    ] {
        assert_eq!(rt; page.child_for(key), child);
    }
    Ok(())
}

#[test]
fn a_page_of_the_history_is_read_and_written(rt: HostRuntime) -> Result<(), Fail> {
    let block = block_of(rt.alloc(), &HISTORY)?;
    let page = decode_history(rt.alloc(), &block)?.ok_or("a page")?;
    let image = encode_history(rt.alloc(), page.level, &page.entries)?;
    assert!(rt; image.as_slice() == HISTORY.as_slice());
    assert_eq!(rt; (page.level, page.entries.len()), (1, 2));
    let entry = page.entries.first().ok_or("an entry")?;
    assert!(rt; entry.least.key.as_bytes() == b"a".as_slice());
    assert_eq!(rt; (entry.least.table, entry.least.commit), (1, 10));
    assert_eq!(rt; (entry.least.name.run, entry.least.name.id), (1, 3));
    assert_eq!(rt; (entry.link.addr.offset, entry.link.durable), (12_288, 20));
    for (table, key, commit, id, child) in [
        (0, b"b".as_slice(), 30, 1, 0),
        (1, b"a", 0, 1, 0),
        (1, b"a", 10, 3, 0),
        (1, b"aa", 30, 9, 0),
        (1, b"ab", 0, 1, 0),
        (1, b"ab", 0, 2, 1),
        (1, b"ab", 1, 1, 1),
        (2, b"", 0, 1, 1),
    ] {
        let mark = LentMark {
            table,
            key,
            commit,
            name: Name { run: 1, id },
        };
        assert_eq!(rt; page.child_for(&mark), child);
    }
    Ok(())
}

#[test]
fn a_leaf_of_the_history_is_read_and_written(rt: HostRuntime) -> Result<(), Fail> {
    let block = block_of(rt.alloc(), &LEAF)?;
    let records = decode_records(rt.alloc(), &block)?.ok_or("a leaf")?;
    assert!(rt; encode_records(rt.alloc(), &records)?.as_slice() == LEAF.as_slice());
    assert_eq!(rt; records.len(), 3);
    let first = records.first().ok_or("a record")?;
    let window = first.version.window;
    assert!(rt; first.key.as_bytes() == b"a".as_slice());
    assert_eq!(rt; (first.table, window.commit, window.durable), (1, 10, 10));
    assert_eq!(rt; (window.name.run, window.name.id), (1, 5));
    assert!(rt;
        matches!(&first.version.change, CellChange::Put(value) if value.as_bytes() == b"xy".as_slice())
    );
    let second = records.get(1).ok_or("a record")?;
    assert!(rt; matches!(&second.version.change, CellChange::Remove));
    assert!(rt; first.mark().is_before(&second.mark()));
    Ok(())
}

#[test]
fn a_page_is_found_exactly_where_its_rules_are_kept(rt: HostRuntime) -> Result<(), Fail> {
    for (changes, is_page) in TABLE_CHANGES {
        let mut block = block_of(rt.alloc(), &TABLE)?;
        change(&rt, &mut block, changes);
        let found = decode(rt.alloc(), &block)?.is_some();
        assert!(rt; found == is_page, "{changes:?}");
    }
    for (changes, is_page) in HISTORY_CHANGES {
        let mut block = block_of(rt.alloc(), &HISTORY)?;
        change(&rt, &mut block, changes);
        let found = decode_history(rt.alloc(), &block)?.is_some();
        assert!(rt; found == is_page, "{changes:?}");
    }
    for (changes, is_leaf) in LEAF_CHANGES {
        let mut block = block_of(rt.alloc(), &LEAF)?;
        change(&rt, &mut block, changes);
        let found = decode_records(rt.alloc(), &block)?.is_some();
        assert!(rt; found == is_leaf, "{changes:?}");
    }
    // blocks that are cut, or too long
    for size in [0, 16, 102, 4_095, 8_192] {
        let mut block = block_of(rt.alloc(), &TABLE)?;
        block.resize(size, 0)?;
        assert!(rt; decode(rt.alloc(), &block)?.is_none(), "{size}");
    }
    Ok(())
}

// The block of a page with one entry, whose key has so many bytes.
fn block_with_key(alloc: Global, len: u16) -> Result<Vec<u8>, AllocError> {
    let used = 58 + u32::from(len);
    let mut image = Vec::from_slice(alloc, &[0x02, 0x01, 0x01, 0x00])?;
    image.extend_from_slice(&used.to_le_bytes())?;
    image.extend_from_slice(&1u64.to_le_bytes())?;
    image.extend_from_slice(&len.to_le_bytes())?;
    image.extend_from_slice(&[0; 40])?;
    image.resize(58 + len as usize, 0x61)?;
    block_of(alloc, &image)
}

#[test]
fn a_key_has_1024_bytes_at_most(rt: HostRuntime) -> Result<(), Fail> {
    for (len, is_page) in [(0, true), (1_024, true), (1_025, false)] {
        let block = block_with_key(rt.alloc(), len)?;
        let found = decode(rt.alloc(), &block)?.is_some();
        assert!(rt; found == is_page, "{len}");
    }
    Ok(())
}
